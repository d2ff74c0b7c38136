//! The undo laws, for banks and edits as values.
ghost use Rattle.bank_edits.specs.Undone.{UndoRestores};
ghost use Rattle.bank_edits.specs.Runs.{UndoRestoresAll};

/// If a sound bank accepts an edit, the changed bank is sound and accepts the inverse edit, which restores the bank;
/// the inverse of the inverse is the edit.
pub fn undo_restores()
    ensures { UndoRestores }
{}

/// The same for a sequence of edits, undone from the last to the first.
pub fn undo_restores_all()
    ensures { UndoRestoresAll }
{}
