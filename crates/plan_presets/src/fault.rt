//! Why a preset can't be kept or copied.
ghost use Rattle.std.specs.Prelude.{◌≡◌};
ghost use Rattle.plan_presets.specs.PresetFaults.{name_of, number_of, numbers_of};

use crate::numbers::PresetNumbers;
use thiserror::Error;

/// Why a preset can't be kept or copied.
#[derive(Debug, Drop, Clone, Copy, PartialEq, Eq, Error)]
pub enum PresetFault {
    /// The bank has no preset with these numbers.
    #[error("there is no preset with these numbers")]
    Missing(PresetNumbers),
    /// A preset has these numbers already, or another copy gets them.
    #[error("the numbers are in use")]
    InUse(PresetNumbers),
    /// The shifted bank number of this preset is above 65,535.
    #[error("the bank number would be too high")]
    BankTooHigh(PresetNumbers),
    /// All numbers that a copy of this preset may get are in use.
    #[error("no numbers are free for a copy")]
    NoneFree(PresetNumbers),
}

impl PresetFault {
    /// The number of the fault: from 67 to 70.
    pub fn number(self) -> u8
        ensures { result ≡ number_of self }
    {
        match self {
            PresetFault::Missing(_) => 67,
            PresetFault::InUse(_) => 68,
            PresetFault::BankTooHigh(_) => 69,
            PresetFault::NoneFree(_) => 70,
        }
    }

    /// The name of the fault, as in `docs/FAULTS.md`.
    pub fn name(self) -> &'static str
        ensures { result.now ≡ name_of self }
    {
        match self {
            PresetFault::Missing(_) => "NoSuchNumbers",
            PresetFault::InUse(_) => "NumbersInUse",
            PresetFault::BankTooHigh(_) => "BankTooHigh",
            PresetFault::NoneFree(_) => "NoFreeNumbers",
        }
    }

    /// The MIDI numbers that the fault is about.
    pub fn numbers(self) -> PresetNumbers
        ensures { result ≡ numbers_of self }
    {
        match self {
            PresetFault::Missing(numbers) => numbers,
            PresetFault::InUse(numbers) => numbers,
            PresetFault::BankTooHigh(numbers) => numbers,
            PresetFault::NoneFree(numbers) => numbers,
        }
    }
}
