//! Why an edit is refused, or a session cannot undo or redo.
ghost use Rattle.std.specs.Prelude.{◌≡◌};
ghost use Rattle.edit_refusals.specs.RefusalNames.{refusal_number, refusal_name};

use edit_forms::Cause;
use thiserror::Error;

/// Why an edit is refused, or a session cannot undo or redo.
#[derive(Clone, Copy, Debug, PartialEq, Eq, Error)]
pub enum Refusal {
    /// One step is refused for this cause, the first that applies in the order of their numbers.
    #[error("{0}")]
    Of(Cause),
    /// An allocation failed. For one step it is returned only if no cause applies; for a group and in a session it
    /// may be returned in any case.
    #[error("out of memory")]
    OutOfMemory,
    /// The session is at its first bank.
    #[error("there is nothing to undo")]
    NothingToUndo,
    /// The session is at its last bank.
    #[error("there is nothing to redo")]
    NothingToRedo,
    /// A group is refused: the index of the first refused step, counted from 0, and its cause.
    #[error("step {0}: {1}")]
    GroupRefused(usize, Cause),
}

impl Refusal {
    /// The number of the refusal, as fault lines print it.
    pub fn number(self) -> u8
        ensures { result ≡ refusal_number self }
    {
        match self {
            Refusal::Of(cause) => cause.number(),
            Refusal::OutOfMemory => 38,
            Refusal::NothingToUndo => 39,
            Refusal::NothingToRedo => 40,
            Refusal::GroupRefused(..) => 48,
        }
    }

    /// The name of the refusal, as fault lines print it.
    pub fn name(self) -> &'static str
        ensures { result.now ≡ refusal_name self }
    {
        match self {
            Refusal::Of(cause) => cause.name(),
            Refusal::OutOfMemory => "OutOfMemory",
            Refusal::NothingToUndo => "NothingToUndo",
            Refusal::NothingToRedo => "NothingToRedo",
            Refusal::GroupRefused(..) => "GroupRefused",
        }
    }
}
