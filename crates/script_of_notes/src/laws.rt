//! The law of note lists as text.
ghost use Rattle.script_of_notes.specs.NoteTexts.{NotesReadBack};

/// The law that the lines of notes read as these notes. It does nothing.
#[tactic(auto, using(crate::proofs::ReadBackLaws::notes_read_back))]
pub fn notes_read_back()
    ensures { NotesReadBack }
{}
