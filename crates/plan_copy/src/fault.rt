//! Why a member can't be copied.

use edit_forms::Cause;
use plan_presets::PresetFault;
use thiserror::Error;

/// Why a member can't be copied.
#[derive(Debug, Drop, Clone, Copy, PartialEq, Eq, Error)]
pub enum CopyFault {
    /// The bank has no such preset, instrument or sample.
    #[error("{0}")]
    NoMember(Cause),
    /// The numbers for the copy of a preset are in use, or none are free.
    #[error("{0}")]
    Numbers(PresetFault),
}
