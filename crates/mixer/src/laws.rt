//! The laws of players and of notes.
ghost use Rattle.mixer.specs.Alike.{AlikeBlocks, AlikeFrames, AlikeNotesRender, AlikeRender};
ghost use Rattle.mixer.specs.Events.{BlocksAreHeard, SplitsAreFree};
ghost use Rattle.mixer.specs.Order.{OrderIsFree};
ghost use Rattle.mixer.specs.Pressed.{PressesAreHeard};
ghost use Rattle.mixer.specs.Recorded.{RecordingsAreHeard};
ghost use Rattle.mixer.specs.Stops.{StopsAreLeast};

/// The law that a player's blocks are the frames of its note starts, each with the bank at that time: after any starts,
/// changes of the bank and blocks of any length. It does nothing.
#[tactic(auto, using(crate::proofs::EventLaws::blocks_heard))]
pub fn blocks_are_heard()
    ensures { BlocksAreHeard }
{}

/// The law that the division of frames into blocks doesn't change them. It does nothing.
#[tactic(auto, using(crate::proofs::EventLaws::splits_free))]
pub fn splits_are_free()
    ensures { SplitsAreFree }
{}

/// The law that sorting notes by start, with equal starts in their order, doesn't change how they render. It does
/// nothing.
#[tactic(auto, using(crate::proofs::StartOrder::order_free))]
pub fn order_is_free()
    ensures { OrderIsFree }
{}

/// The law that a voice is silent from the first frame at which a later start silences it. It does nothing.
#[tactic(auto, using(crate::proofs::Stops::stops_least))]
pub fn stops_are_least()
    ensures { StopsAreLeast }
{}

/// The laws that banks that give each note the same voices, in any order, render all notes identically, and that banks
/// that do so for some notes render these identically. It does nothing.
#[tactic(auto, using(crate::proofs::AlikeLaws::alike_render, crate::proofs::AlikeLaws::alike_notes_render))]
pub fn alike_banks_render_the_same()
    ensures all { AlikeRender }
    ensures some { AlikeNotesRender }
{}

/// The law that edits that keep the voices of each note change neither the frames of note starts nor the blocks of a
/// player, whatever it plays at first. It does nothing.
pub fn alike_edits_change_no_frame()
    ensures heard { AlikeFrames }
    ensures blocks { AlikeBlocks }
{}

/// The law that what a player gives are the frames of notes, each of which lasts from its press to its release, and is
/// silent after an end of all voices: after any presses, releases, changes of the bank and blocks of any length. It does
/// nothing.
#[tactic(auto, using(crate::proofs::PressedLaws::presses_heard))]
pub fn presses_are_heard()
    ensures { PressesAreHeard }
{}

/// The law that the notes that were played, each from its press to its release, render as they were heard. Notes that
/// are held at the end last until then. It does nothing.
#[tactic(auto, using(crate::proofs::RecordedLaws::recordings_heard))]
pub fn recordings_are_heard()
    ensures { RecordingsAreHeard }
{}
