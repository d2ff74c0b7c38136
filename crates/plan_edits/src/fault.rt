//! Why a plan has no edits.

use bank_validity::Limit;
use edit_drafts::Stop;
use sf_base::OutOfMemory;
use std::alloc::AllocError;

/// Why a plan has no edits.
#[derive(Debug, Drop, Clone, Copy, PartialEq, Eq)]
pub enum PlanFault {
    /// With the edits the bank would exceed this limit.
    Full(Limit),
    /// The bank refuses an edit of the plan for another cause, or the plan doesn't lead to what it promises. This is a
    /// defect of the program.
    Defect,
    OutOfMemory,
}

impl From<Stop> for PlanFault {
    fn from(stop: Stop) -> PlanFault {
        match stop {
            Stop::Refused => PlanFault::Defect,
            Stop::Full(limit) => PlanFault::Full(limit),
            Stop::OutOfMemory => PlanFault::OutOfMemory,
        }
    }
}

impl From<OutOfMemory> for PlanFault {
    fn from(_error: OutOfMemory) -> PlanFault {
        PlanFault::OutOfMemory
    }
}

impl From<AllocError> for PlanFault {
    fn from(_error: AllocError) -> PlanFault {
        PlanFault::OutOfMemory
    }
}
