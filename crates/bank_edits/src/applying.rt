//! One edit, applied or refused.
ghost use Rattle.std.specs.Prelude.{◌≡◌, None, MatchResult, IsOk, IfOk};
ghost use Rattle.bank_parts.specs.Sound.{IsSound};
ghost use Rattle.edit_forms.specs.Fits.{FitsEdit};
ghost use Rattle.edit_refusals.specs.Edits.{refusal};
ghost use Rattle.bank_edits.specs.EditChanges.{IsDone, IsRefused, NeedsNoMemory};

use crate::groups::apply_group;
use crate::step_changes::apply_step;
use bank_core::Bank;
use edit_forms::Edit;
use edit_refusals::Refusal;
use std::alloc::Global;

/// Applies an edit to the bank and returns its inverse. What a step removes is moved into the inverse.
///
/// A refused edit is returned with the reason, and the bank is unchanged. One step is refused for the first cause
/// that applies, a group for its first refused step. `OutOfMemory` is returned for one step only if no cause applies
/// and the step allocates; for a group it may be returned in any case.
pub fn apply<'a>(
    alloc: Global,
    bank: &mut Bank<'a>,
    edit: Edit<'a>,
) -> Result<Edit<'a>, (Refusal, Edit<'a>)>
    ensures outcome { MatchResult result (λ back. IsDone bank.old bank.new edit.entry back)
        (λ refused. IsRefused bank.old bank.new edit.entry refused.0 refused.1) }
    ensures no_memory { NeedsNoMemory edit.entry → refusal bank.old edit.entry ≡ None → IsOk result }
    ensures was_sound { IsSound bank.old }
    ensures sound { IsSound bank.new }
    ensures fits { FitsEdit edit.entry }
    ensures back_fits { IfOk result FitsEdit }
{
    // These calls prove facts about the bank and the edits.
    edit.fits();
    bank.soundness();
    let outcome = match edit.into_steps() {
        Ok(step) => apply_step(alloc, bank, step),
        Err(steps) => apply_group(alloc, bank, steps),
    };
    bank.soundness();
    if let Ok(back) = &outcome {
        back.fits();
    }
    outcome
}
