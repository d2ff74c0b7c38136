//! Laws of sessions.
ghost use Rattle.live_sessions.specs.Laws.{FramesFollowEvents, RecordingsFollowEvents, RecordingsRender, RecordingsRenderNow, UndoListsLeadBack};

/// The frames that a session writes are those of its events in the order of their lines: the banks after edits, undo
/// and redo, the notes started and the blocks of frames. With `mixer::splits_are_free`, frames do not depend on how they
/// are split into blocks. This function does nothing.
#[tactic(auto, using(crate::proofs::FrameLaws::frames_follow_events))]
pub fn frames_follow_events()
    ensures { FramesFollowEvents }
{}

/// What `record` writes are the notes of a session's events, each from its start to its release, as long as a note list
/// can have them; and where nothing ended all voices, these notes render as the frames that the session wrote: on the
/// first bank, if each edit kept the voices of each note, and also on the current bank, which a save writes, if each edit
/// was neutral. With `script_of_notes::notes_read_back`, the text reads as these notes. This function does nothing.
#[tactic(auto, using(crate::proofs::FrameLaws::recordings_follow_events, crate::proofs::FrameLaws::recordings_render, crate::proofs::NeutralSessions::recordings_render_now))]
pub fn recordings_follow_events()
    ensures notes { RecordingsFollowEvents }
    ensures frames { RecordingsRender }
    ensures frames_now { RecordingsRenderNow }
{}

/// The bank that a save writes accepts the edits of the undo script that it writes, and they lead to the bank with
/// which the session began. This function does nothing.
pub fn saved_undo_leads_back()
    ensures { UndoListsLeadBack }
{}
