//! Which steps are moves of samples that a bank accepts.
ghost use Rattle.std.specs.Prelude.{◌≡◌, IfSome, length};
ghost use Rattle.bank_changes.specs.SampleMoves.{IsMove};
ghost use Rattle.bank_edits.specs.MoveEdits.{move_step};

use bank_core::{Bank, SampleMove};
use edit_forms::{SampleStep, Step};

/// The move of a step that moves a sample of the bank to the number of another; none for any other step.
pub fn sample_move(bank: &Bank<'_>, step: &Step<'_>) -> Option<SampleMove>
    ensures { IfSome result (λ m. (step.now ≡ move_step m) × IsMove (length bank.now.samples) m) }
{
    let Step::Sample(SampleStep::MoveSample { from, to, .. }) = step else {
        return None;
    };
    let count = bank.samples().len();
    if (*from as usize) < count && (*to as usize) < count {
        Some(SampleMove {
            from: *from,
            to: *to,
        })
    } else {
        None
    }
}
