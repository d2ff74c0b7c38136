//! Why a recording can't be put in the place of a sample.
ghost use Rattle.std.specs.Prelude.{◌≡◌};
ghost use Rattle.sample_replacements.specs.declared.fault.ReplaceFault.TheVariants as faults;

use sf_base::OutOfMemory;
use thiserror::Error;

/// Why a recording can't be put in the place of a sample.
#[derive(Debug, Drop, Clone, Copy, PartialEq, Eq, Error)]
pub enum ReplaceFault {
    #[error("there is no such sample")]
    NoSuchSample,
    #[error("the recording is stereo, and the sample is not one of a pair")]
    TwoChannels,
    #[error("out of memory")]
    OutOfMemory,
}

impl From<OutOfMemory> for ReplaceFault {
    ghost from_gives = { λ _ fault. fault ≡ faults.OutOfMemory };

    fn from(_error: OutOfMemory) -> ReplaceFault {
        ReplaceFault::OutOfMemory
    }
}
