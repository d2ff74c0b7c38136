//! Moves of samples that are applied together.
ghost use Rattle.std.specs.Prelude.{◌≡◌, ◌++◌, ◌∷◌, [], OnOk, OnErr, length, map, take};
ghost use Rattle.bank_changes.specs.SampleMoves.{AreMoves};
ghost use Rattle.bank_edits.specs.MoveEdits.{move_edit};
ghost use Rattle.edit_drafts.specs.Drafts.{AreMovesResult};

use crate::applied_steps::Stop;
use bank_core::{Bank, SampleMove};
use edit_forms::{Edit, SampleStep, Step};
use sf_base::OutOfMemory;
use std::alloc::Global;

/// Applies moves of samples together, and appends their edits to the list of edits; on an error, neither is changed.
pub(crate) fn apply_moves<'a>(
    alloc: Global,
    bank: &mut Bank<'a>,
    edits: &mut Vec<Edit<'a>>,
    moves: &[SampleMove],
) -> Result<(), Stop>
    requires { AreMoves (length bank.old.samples) moves.now }
    ensures { AreMovesResult bank.old bank.new edits.old.items edits.new.items moves.now result }
{
    let before = edits.len();
    let _samples = bank.samples();
    let Ok(()) = push_moves(edits, moves) else {
        edits.truncate(before);
        return Err(Stop::OutOfMemory);
    };
    let Ok(_names) = bank.move_samples(alloc, moves) else {
        edits.truncate(before);
        return Err(Stop::OutOfMemory);
    };
    Ok(())
}

// Appends an edit for each move. A failed allocation may leave some.
fn push_moves<'a>(edits: &mut Vec<Edit<'a>>, moves: &[SampleMove]) -> Result<(), OutOfMemory>
    ensures kept { take (length edits.old.items) edits.new.items ≡ edits.old.items }
    ensures listed { OnOk result (edits.new.items ≡ edits.old.items ++ map move_edit moves.now) }
{
    for change in moves {
        push_move(edits, *change)?;
    }
    Ok(())
}

fn push_move<'a>(edits: &mut Vec<Edit<'a>>, change: SampleMove) -> Result<(), OutOfMemory>
    ensures listed { OnOk result (edits.new.items ≡ edits.old.items ++ move_edit change ∷ []) }
    ensures err { OnErr result (edits.new.items ≡ edits.old.items) }
{
    let step = SampleStep::MoveSample {
        from: change.from,
        to: change.to,
    };
    edits.push(Edit::One(Step::Sample(step)))?;
    Ok(())
}
