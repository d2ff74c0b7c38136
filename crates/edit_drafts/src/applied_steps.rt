//! One step of a draft.
ghost use Rattle.std.specs.Prelude.{◌≡◌, ◌<◌, ◌++◌, ◌∷◌, [], vec_len, vec_capacity, MatchResult};
ghost use Rattle.edit_refusals.specs.Edits.{raw};
ghost use Rattle.bank_edits.specs.Undone.{IsAccepted};
ghost use Rattle.edit_drafts.specs.Drafts.{IsStepResult};

use bank_core::Bank;
use bank_edits::apply;
use bank_validity::Limit;
use edit_forms::{Cause, Edit, Step};
use edit_refusals::Refusal;
use sf_base::OutOfMemory;
use std::alloc::{AllocError, Global};

/// Why a step is not applied.
#[derive(Debug, Drop, Clone, Copy, PartialEq, Eq)]
pub enum Stop {
    /// The bank refuses the step for another cause than a limit.
    Refused,
    /// The step would break this limit.
    Full(Limit),
    OutOfMemory,
}

impl From<OutOfMemory> for Stop {
    fn from(_error: OutOfMemory) -> Stop {
        Stop::OutOfMemory
    }
}

impl From<AllocError> for Stop {
    fn from(_error: AllocError) -> Stop {
        Stop::OutOfMemory
    }
}

/// Applies a step and appends a copy of it to the list of edits; on an error, neither is changed.
pub(crate) fn apply_step<'a>(
    alloc: Global,
    bank: &mut Bank<'a>,
    edits: &mut Vec<Edit<'a>>,
    step: Step<'a>,
) -> Result<(), Stop>
    ensures { IsStepResult bank.old bank.new edits.old.items edits.new.items step.entry result }
{
    let copy = step.copy(alloc)?;
    if edits.try_reserve(1).is_err() {
        return Err(Stop::OutOfMemory);
    }
    apply_edit(alloc, bank, Edit::One(step))?;
    push_reserved(edits, Edit::One(copy));
    Ok(())
}

// Applies an edit, if the bank accepts it.
fn apply_edit<'a>(alloc: Global, bank: &mut Bank<'a>, edit: Edit<'a>) -> Result<(), Stop>
    ensures { MatchResult result (λ done. IsAccepted bank.old edit.entry × (bank.new ≡ raw bank.old edit.entry)) (λ why. bank.new ≡ bank.old) }
{
    match apply(alloc, bank, edit) {
        Ok(back) => {
            drop(back);
            Ok(())
        }
        Err((why, edit)) => {
            drop(edit);
            Err(stop_of(why))
        }
    }
}

fn stop_of(why: Refusal) -> Stop {
    match why {
        Refusal::OutOfMemory => Stop::OutOfMemory,
        Refusal::Of(Cause::Full(limit)) => Stop::Full(limit),
        _ => Stop::Refused,
    }
}

// Appends an edit to a list with spare capacity.
fn push_reserved<'a>(list: &mut Vec<Edit<'a>>, edit: Edit<'a>)
    requires { vec_len list.old < vec_capacity list.old }
    ensures { list.new.items ≡ list.old.items ++ edit.entry ∷ [] }
{
    match list.push(edit) {
        Ok(()) => {}
        Err(_) => unreachable!(),
    }
}
