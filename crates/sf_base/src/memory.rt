//! Out of memory, alone or beside other faults.
ghost use Rattle.std.specs.Prelude.{◌≡◌};
ghost use Rattle.sf_base.specs.declared.memory.Failure.TheVariants as failures;

use std::alloc::{AllocError, AllocFailed};
use thiserror::Error;

/// An allocation failed. Nothing is changed.
#[derive(Debug, Drop, Clone, Copy, PartialEq, Eq, Error)]
#[error("out of memory")]
pub struct OutOfMemory;

impl From<AllocError> for OutOfMemory {
    fn from(_error: AllocError) -> OutOfMemory {
        OutOfMemory
    }
}

impl<T: Drop> From<AllocFailed<T>> for OutOfMemory {
    fn from(_error: AllocFailed<T>) -> OutOfMemory {
        OutOfMemory
    }
}

/// Why a call that allocates fails: its input has a fault, or an allocation failed.
#[derive(Debug, Drop, Clone, Copy, PartialEq, Eq)]
pub enum Failure<F> {
    Fault(F),
    OutOfMemory,
}

impl<F> From<OutOfMemory> for Failure<F> {
    ghost from_gives = { λ _ failure. failure ≡ failures.OutOfMemory };

    fn from(_error: OutOfMemory) -> Failure<F> {
        Failure::OutOfMemory
    }
}

impl<F> From<AllocError> for Failure<F> {
    ghost from_gives = { λ _ failure. failure ≡ failures.OutOfMemory };

    fn from(_error: AllocError) -> Failure<F> {
        Failure::OutOfMemory
    }
}

impl<F, T: Drop> From<AllocFailed<T>> for Failure<F> {
    ghost from_gives = { λ _ failure. failure ≡ failures.OutOfMemory };

    fn from(_error: AllocFailed<T>) -> Failure<F> {
        Failure::OutOfMemory
    }
}
