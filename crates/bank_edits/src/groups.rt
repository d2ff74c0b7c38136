//! A group of steps: either all are applied or none.
ghost use Rattle.std.specs.Prelude.{MatchResult};
ghost use Rattle.edit_forms.specs.declared.edit.Edit.TheVariants as edits;
ghost use Rattle.bank_edits.specs.EditChanges.{IsDone, IsRefused, IsReason};
ghost use Rattle.bank_edits.specs.GroupChanges.{IsStepDone, StepStops};

use crate::step_changes::change_step;
use bank_core::Bank;
use base_numbered_lists::NumberedList;
use edit_forms::{Edit, Step};
use edit_refusals::{Refusal, refuse};
use std::alloc::Global;

/// Applies the steps to a copy of the bank, and replaces the bank by the copy if all succeed.
pub(crate) fn apply_group<'a>(
    alloc: Global,
    bank: &mut Bank<'a>,
    steps: NumberedList<Step<'a>>,
) -> Result<Edit<'a>, (Refusal, Edit<'a>)>
    ensures { MatchResult result (λ back. IsDone bank.old bank.new (edits.Group steps.entry) back)
        (λ refused. IsRefused bank.old bank.new (edits.Group steps.entry) refused.0 refused.1) }
{
    let Ok(mut copy) = bank.copy(alloc) else {
        return Err((Refusal::OutOfMemory, Edit::Group(steps)));
    };
    match change_all(alloc, &mut copy, steps.as_slice()) {
        Ok(inverses) => {
            *bank = copy;
            Ok(Edit::Group(inverses))
        }
        Err(why) => Err((why, Edit::Group(steps))),
    }
}

// Applies the steps in order, and returns their inverses, the last step's first.
fn change_all<'a>(
    alloc: Global,
    bank: &mut Bank<'a>,
    steps: &[Step<'a>],
) -> Result<NumberedList<Step<'a>>, Refusal>
    ensures { MatchResult result (λ inverses. IsDone bank.old bank.new (edits.Group steps.now) (edits.Group inverses))
        (λ why. IsReason bank.old (edits.Group steps.now) why) }
{
    let Ok(mut inverses) = Vec::with_capacity(alloc, steps.len()) else {
        return Err(Refusal::OutOfMemory);
    };
    for (index, step) in steps.iter().enumerate() {
        let inverse = change_by_copy(alloc, bank, index, step)?;
        if inverses.push(inverse).is_err() {
            return Err(Refusal::OutOfMemory);
        }
    }
    inverses.as_mut_slice().reverse();
    Ok(NumberedList::from_vec(inverses))
}

// Applies a copy of step number `index` of the group, and returns its inverse.
fn change_by_copy<'a>(
    alloc: Global,
    bank: &mut Bank<'a>,
    index: usize,
    step: &Step<'a>,
) -> Result<Step<'a>, Refusal>
    ensures { MatchResult result (λ back. IsStepDone bank.old bank.new step.now back) (λ why. StepStops bank.old index step.now why) }
{
    if let Err(cause) = refuse(bank, step) {
        return Err(Refusal::GroupRefused(index, cause));
    }
    let Ok(copy) = step.copy(alloc) else {
        return Err(Refusal::OutOfMemory);
    };
    match change_step(alloc, bank, copy) {
        Ok(back) => Ok(back),
        Err(_given) => Err(Refusal::OutOfMemory),
    }
}
