//! Undo, redo and edit, on a bank and the lists of undo and redo edits.
ghost use Rattle.std.specs.Prelude.{◌≡◌, ◌<◌, ◌++◌, ◌∷◌, [], vec_len, vec_capacity};
ghost use Rattle.inverse_edits.specs.UndoRedo.{IsApplyLast, AcceptsLast, IsApplyEdit};

use bank_core::Bank;
use bank_edits::apply;
use edit_forms::Edit;
use edit_refusals::Refusal;
use std::alloc::Global;

/// Applies the last edit of a list, which the bank accepts, and appends its inverse to the other list. Returns
/// `at_end` if the list is empty.
pub(crate) fn apply_last<'a>(
    alloc: Global,
    bank: &mut Bank<'a>,
    from: &mut Vec<Edit<'a>>,
    to: &mut Vec<Edit<'a>>,
    at_end: Refusal,
) -> Result<(), Refusal>
    requires { AcceptsLast bank.old from.old.items }
    ensures { IsApplyLast bank.old bank.new from.old.items from.new.items to.old.items to.new.items at_end result }
{
    let Some(edit) = from.pop() else {
        return Err(at_end);
    };
    if to.try_reserve(1).is_err() {
        push_reserved(from, edit);
        return Err(Refusal::OutOfMemory);
    }
    match apply(alloc, bank, edit) {
        Ok(back) => {
            push_reserved(to, back);
            Ok(())
        }
        Err((_, given)) => {
            push_reserved(from, given);
            Err(Refusal::OutOfMemory)
        }
    }
}

/// Applies an edit and appends its inverse to the list, or returns the edit and changes nothing.
pub(crate) fn apply_edit<'a>(
    alloc: Global,
    bank: &mut Bank<'a>,
    undo: &mut Vec<Edit<'a>>,
    edit: Edit<'a>,
) -> Result<(), (Refusal, Edit<'a>)>
    ensures { IsApplyEdit bank.old bank.new undo.old.items undo.new.items edit.entry result }
{
    if undo.try_reserve(1).is_err() {
        return Err((Refusal::OutOfMemory, edit));
    }
    match apply(alloc, bank, edit) {
        Ok(back) => {
            push_reserved(undo, back);
            Ok(())
        }
        Err(refused) => Err(refused),
    }
}

// Appends an edit to a list with spare capacity.
fn push_reserved<'a>(list: &mut Vec<Edit<'a>>, edit: Edit<'a>)
    requires { vec_len list.old < vec_capacity list.old }
    ensures { list.new.items ≡ list.old.items ++ edit.entry ∷ [] }
{
    match list.push(edit) {
        Ok(()) => {}
        Err(_) => unreachable!(),
    }
}
