//! The notes that are pressed and not yet released.
ghost use Rattle.std.specs.Prelude.{◌≡◌, [], ◌++◌, ◌∷◌, OnOk, OnErr, length, map, take};
ghost use Rattle.live_sessions.specs.Performances.{is_sustained_by};
ghost use Rattle.live_sessions.specs.Steps.{first_held, held_without, held_but_by, is_held_by, sustained_as, sustained_by};

use live_lines::{Key, Pedal};
use sf_base::OutOfMemory;
use std::alloc::Global;
use std::marker::Model;

/// A note that is pressed and not yet released, and the handle by which the player releases it.
#[derive(Debug, Clone, Copy)]
pub(crate) struct HeldNote {
    pub(crate) key: Key,
    pub(crate) handle: u64,
    // Its key is released, and the pedal of its preset holds it.
    pub(crate) is_sustained: bool,
}

/// The notes that are pressed and not yet released, in the order of their presses.
pub(crate) struct HeldNotes {
    notes: Vec<HeldNote>,
}

// Not derived: a derived drop is inlined, and proved, wherever a value is dropped; this one is a call.
impl Drop for HeldNotes {
    fn drop(self) {
        let HeldNotes { notes: _ } = self;
    }
}

impl Model for HeldNotes {
    ghost use Rattle.std.specs.Prelude.{List};
    ghost use Rattle.live_sessions.specs.declared.held.HeldNote.{HeldNote};

    ghost Value = { List HeldNote };

    ghost view = { λ held. held.notes.items };
}

impl HeldNotes {
    /// No notes. Allocates nothing.
    pub(crate) fn new(alloc: Global) -> HeldNotes
        ensures { result ≡ [] }
    {
        HeldNotes {
            notes: Vec::new(alloc),
        }
    }

    pub(crate) fn as_slice(&self) -> &[HeldNote]
        ensures { result.now ≡ self.now }
    {
        self.notes.as_slice()
    }

    /// How many notes are held.
    pub(crate) fn len(&self) -> usize
        ensures { result ≡ length self.now }
    {
        self.notes.len()
    }

    /// Adds a note. A failed allocation changes nothing.
    pub(crate) fn push(&mut self, note: HeldNote) -> Result<(), OutOfMemory>
        ensures ok { OnOk result (self.new ≡ self.old ++ note ∷ []) }
        ensures err { OnErr result (self.new ≡ self.old) }
    {
        match self.notes.push(note) {
            Ok(()) => Ok(()),
            Err(_) => Err(OutOfMemory),
        }
    }

    /// Removes all notes but the first ones.
    pub(crate) fn truncate(&mut self, count: usize)
        ensures { self.new ≡ take count self.old }
    {
        self.notes.truncate(count);
    }

    /// The note that was pressed first of those that a key holds.
    pub(crate) fn first(&self, key: Key) -> Option<HeldNote>
        ensures { result ≡ first_held key self.now }
    {
        self.notes
            .iter()
            .copied()
            .find(|note| is_held_by(key, *note))
    }

    /// Removes the note with a handle.
    pub(crate) fn remove(&mut self, handle: u64)
        ensures { self.new ≡ held_without handle self.old }
    {
        self.notes.retain(|note| note.handle != handle);
    }

    /// Leaves the note with a handle to its pedal.
    pub(crate) fn sustain(&mut self, handle: u64)
        ensures { self.new ≡ map (sustained_as handle) self.old }
    {
        sustain_note(self.notes.as_mut_slice(), handle);
    }

    /// Removes the notes that only a pedal holds, and returns their number.
    pub(crate) fn remove_sustained(&mut self, pedal: Pedal) -> usize
        ensures rest { self.new ≡ held_but_by pedal self.old }
        ensures count { result ≡ length (sustained_by pedal self.old) }
    {
        let count = self.len();
        self.notes.retain(|note| !is_sustained_by(pedal, *note));
        count - self.len()
    }
}

// Whether a key holds a note.
fn is_held_by(key: Key, note: HeldNote) -> bool
    ensures { result ≡ is_held_by key note }
{
    !note.is_sustained
        && note.key.bank == key.bank
        && note.key.number == key.number
        && note.key.key == key.key
}

/// Whether only a pedal holds a note.
pub(crate) fn is_sustained_by(pedal: Pedal, note: HeldNote) -> bool
    ensures { result ≡ is_sustained_by pedal note }
{
    note.is_sustained && note.key.bank == pedal.bank && note.key.number == pedal.number
}

// Leaves the note with a handle to its pedal.
fn sustain_note(notes: &mut [HeldNote], handle: u64)
    ensures { notes.new ≡ map (sustained_as handle) notes.old }
{
    for note in notes.iter_mut() {
        sustain(note, handle);
    }
}

// Leaves the note to its pedal, if it has the handle.
#[tactic(auto, unfolding(crate::specs::Steps::sustained_as))]
fn sustain(note: &mut HeldNote, handle: u64)
    ensures { note.new ≡ sustained_as handle note.old }
{
    if note.handle == handle {
        note.is_sustained = true;
    }
}
