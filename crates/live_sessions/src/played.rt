//! The notes that were played.
ghost use Rattle.std.specs.Prelude.{◌≡◌, ◌+◌, ◌≤◌, [], OnOk, OnErr, map, take};
ghost use Rattle.std.specs.Option.{option_map_or};
ghost use Rattle.script_notes.specs.declared.limits.TheConstants.{LAST_FRAME};
ghost use Rattle.script_of_notes.specs.NoteTexts.{IsListed};
ghost use Rattle.mixer.specs.declared.playing.Release.TheVariants.{One};
ghost use Rattle.live_sessions.specs.PlayedNotes.{AreListed, AreNumbered, moved_to, with_played, end_after, ended_by, listed};

use mixer::Release;
use script_notes::{LAST_FRAME, MOST_NOTES, Note};
use sf_base::OutOfMemory;
use std::alloc::Global;
use std::marker::Model;

/// A note that was played.
#[derive(Debug, Clone, Copy)]
pub(crate) struct PlayedNote {
    pub(crate) handle: u64,
    // It begins at the frame of its start, and has the most frames that it may have.
    pub(crate) note: Note,
    // The frame of its release, if it was released.
    pub(crate) end_frame: Option<u64>,
}

impl PlayedNote {
    // Ends the note at a frame, if the release is one of it.
    #[tactic(auto, unfolding(crate::specs::PlayedNotes::ended_by))]
    fn end(&mut self, release: Release, frame: u64)
        ensures { self.new ≡ ended_by release frame self.old }
    {
        self.end_frame = end_after(self.end_frame, release.ends(self.handle), frame);
    }

    /// The note with its length. A note that is held ends at the frame.
    pub(crate) fn listed(&self, frame: u64) -> Note
        ensures { result ≡ listed frame self.now }
    {
        let start = self.note.start();
        let most = self.note.length();
        let lasting = self.end_by(frame).saturating_sub(u64::from(start));
        let length = lasting.min(u64::from(most));
        retimed(&self.note, start, length as u32)
    }

    // The frame of its end; a note that is held ends at the frame.
    fn end_by(&self, frame: u64) -> u64
        ensures { result ≡ option_map_or (λ e. e) self.now.end_frame frame }
    {
        match self.end_frame {
            Some(end) => end,
            None => frame,
        }
    }
}

// The frame of a note's end after one at which it may be released.
#[tactic(auto, unfolding(crate::specs::PlayedNotes::end_after))]
fn end_after(end: Option<u64>, is_released: bool, frame: u64) -> Option<u64>
    ensures { result ≡ end_after end is_released frame }
{
    match end {
        Some(end) => Some(end),
        None => { if is_released { Some(frame) } else { None } }
    }
}

// The note with another start and another length.
fn retimed(note: &Note, start: u32, length: u32) -> Note
    requires { start + length ≤ LAST_FRAME }
    ensures { result ≡ record note.now { start = start; length = length } }
{
    Note::new(
        start,
        length,
        note.bank(),
        note.number(),
        note.key(),
        note.velocity(),
    )
    .unwrap()
}

// For proofs: the numbers of a note can stand in a note list. It does nothing.
fn show_limits(note: &Note)
    ensures { IsListed note.now }
{
    let _ends = note.start();
    let _bank = note.bank();
    let _number = note.number();
    let _key = note.key();
    let _velocity = note.velocity();
}

// The note from a frame on, which ends by frame 100,000,000; none if it starts after that frame.
#[tactic(auto, unfolding(crate::specs::PlayedNotes::moved_to))]
fn moved_to(frame: u64, note: &Note) -> Option<Note>
    ensures { result ≡ moved_to frame note.now }
{
    if frame > LAST_FRAME {
        return None;
    }
    let length = u64::from(note.length()).min(LAST_FRAME - frame);
    Some(retimed(note, frame as u32, length as u32))
}

/// The notes that were played, in the order of their starts: the first 65,535 that start by frame 100,000,000, as many as
/// a note list can have. The handle of each is its index, so that a release walks no list.
pub(crate) struct PlayedNotes {
    notes: Vec<PlayedNote>,
}

// Not derived: a derived drop is inlined, and proved, wherever a value is dropped; this one is a call.
impl Drop for PlayedNotes {
    fn drop(self) {
        let PlayedNotes { notes: _ } = self;
    }
}

impl Model for PlayedNotes {
    ghost use Rattle.std.specs.Prelude.{List};
    ghost use Rattle.live_sessions.specs.declared.played.PlayedNote.{PlayedNote};
    ghost use Rattle.live_sessions.specs.PlayedNotes.{AreListed};

    ghost Value = { List PlayedNote };

    ghost view = { λ played. played.notes.items };

    ghost invariant = { λ played. AreListed played.notes.items };
}

impl PlayedNotes {
    /// No notes. Allocates nothing.
    pub(crate) fn new(alloc: Global) -> PlayedNotes
        ensures { result ≡ [] }
    {
        PlayedNotes {
            notes: Vec::new(alloc),
        }
    }

    pub(crate) fn as_slice(&self) -> &[PlayedNote]
        ensures same { result.now ≡ self.now }
        ensures listed { AreListed result.now }
    {
        self.notes.as_slice()
    }

    /// Adds a note that starts at a frame, if a note list can have it. A failed allocation changes nothing.
    pub(crate) fn add(&mut self, note: &Note, handle: u64, frame: u64) -> Result<(), OutOfMemory>
        ensures ok { OnOk result (self.new ≡ with_played self.old handle note.now frame) }
        ensures err { OnErr result (self.new ≡ self.old) }
    {
        let count = self.notes.len();
        if handle != count as u64 || count >= MOST_NOTES {
            return Ok(());
        }
        let Some(note) = moved_to(frame, note) else {
            return Ok(());
        };
        show_limits(&note);
        let played = PlayedNote {
            handle,
            note,
            end_frame: None,
        };
        match self.notes.push(played) {
            Ok(()) => Ok(()),
            Err(_) => Err(OutOfMemory),
        }
    }

    /// Removes all notes but the first ones.
    pub(crate) fn truncate(&mut self, count: usize)
        ensures { self.new ≡ take count self.old }
    {
        self.notes.truncate(count);
    }

    /// Ends the notes of a release at a frame.
    pub(crate) fn end(&mut self, release: Release, frame: u64)
        ensures { self.new ≡ map (ended_by release frame) self.old }
    {
        end_notes(self.notes.as_mut_slice(), release, frame);
    }
}

// Ends the notes of a release at a frame.
fn end_notes(notes: &mut [PlayedNote], release: Release, frame: u64)
    requires { AreNumbered 0 notes.old }
    ensures { notes.new ≡ map (ended_by release frame) notes.old }
{
    match release {
        Release::One(handle) => end_note(notes, handle, frame),
        Release::All => end_each(notes, release, frame),
    }
}

// Ends the note of a handle, which is its index, at a frame.
fn end_note(notes: &mut [PlayedNote], handle: u64, frame: u64)
    requires { AreNumbered 0 notes.old }
    ensures { notes.new ≡ map (ended_by (One handle) frame) notes.old }
{
    let index = handle as usize;
    if index < notes.len() {
        notes[index].end(Release::One(handle), frame);
    }
}

// Asks each note whether the release is one of it.
fn end_each(notes: &mut [PlayedNote], release: Release, frame: u64)
    ensures { notes.new ≡ map (ended_by release frame) notes.old }
{
    for played in notes.iter_mut() {
        played.end(release, frame);
    }
}
