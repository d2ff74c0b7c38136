//! Starting the voice of a pair of zones.
ghost use Rattle.std.specs.Prelude.{◌≡◌, Some, IfOk, IfErr};
ghost use Rattle.voices.specs.declared.start.VoiceFault.TheVariants as faults;
ghost use Rattle.voices.specs.Starts.{started, IsStartFault};

use crate::voice::Voice;
use bank_core::Bank;
use script_notes::Note;
use sf_base::OutOfMemory;
use std::alloc::Global;
use thiserror::Error;
use zone_select::params;

/// Why a voice was not started.
#[derive(Debug, Drop, Clone, Copy, PartialEq, Eq, Error)]
pub enum VoiceFault {
    /// The note doesn't select the pair of zones.
    #[error("the note does not select this pair of zones")]
    NoMatch,
    /// An allocation failed.
    #[error("out of memory")]
    OutOfMemory,
}

impl From<OutOfMemory> for VoiceFault {
    ghost from_gives = { λ _ fault. fault ≡ faults.OutOfMemory };

    fn from(_error: OutOfMemory) -> VoiceFault {
        VoiceFault::OutOfMemory
    }
}

impl<'a> Voice<'a> {
    /// Starts the voice of a pair of zones that the note selects, at its first frame.
    ///
    /// The pair is the number of the preset's zone, then that of the instrument's zone. The voice borrows the points
    /// from the file, not from the bank, so the bank may change while the voice plays.
    pub fn start(
        alloc: Global,
        bank: &Bank<'a>,
        note: &Note,
        pair: (u32, u32),
    ) -> Result<Voice<'a>, VoiceFault>
        ensures value { IfOk result (λ voice. started bank.now note.now pair ≡ Some voice) }
        ensures fault { IfErr result (λ fault. IsStartFault (started bank.now note.now pair) fault) }
    {
        let Some(played) = params(bank, note, pair) else {
            return Err(VoiceFault::NoMatch);
        };
        let Some(sample) = bank.sample(played.sample) else {
            return Err(VoiceFault::NoMatch);
        };
        Ok(Voice::of(sample.points.copy(alloc)?, played.voice))
    }
}
