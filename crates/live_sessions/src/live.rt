//! The state of a session: its bank, its notes, and what is measured of its frames.
ghost use Rattle.std.specs.Prelude.{◌≡◌, ◌+◌, IfOk, OnErr, length, min};
ghost use Rattle.mixer.specs.StartFrames.{note_voices};
ghost use Rattle.live_sessions.specs.Steps.{EditIs, NeutralIs, UndoIs, RedoIs, NoteIs, PressIs, ReleaseIs, PedalOnIs};
ghost use Rattle.live_sessions.specs.Steps.{PedalOffIs, PedalIs, SilenceIs, StopIs, VoicesAre, MeterIs};
ghost use Rattle.live_sessions.specs.Steps.{StartsVoices, after_release_of, key_of, pedal_of, started_with};

use crate::held::{HeldNote, HeldNotes};
use crate::meter::Meter;
use crate::pedals::Pedals;
use crate::performance::Performance;
use bank_core::Bank;
use base_progress::Progress;
use edit_forms::Edit;
use edit_refusals::Refusal;
use inverse_edits::Session;
use live_lines::{Answer, Comment, Key, Pedal, PedalMove, PedalPosition};
use mixer::Release;
use script_notes::Note;
use sf_base::OutOfMemory;
use sound_neutral_edits::is_neutral;
use std::alloc::Global;
use zone_select::matches;

/// The state of a session.
pub(crate) struct LiveState<'a> {
    // First, because of its lists.
    pub(crate) performance: Performance<'a>,
    pub(crate) session: Session<'a>,
    pub(crate) held: HeldNotes,
    pub(crate) pedals: Pedals,
    pub(crate) meter: Meter,
}

// Not derived: a derived drop is inlined, and proved, wherever a value is dropped; this one is a call.
impl Drop for LiveState<'_> {
    fn drop(self) {
        let LiveState {
            performance: _,
            session: _,
            held: _,
            pedals: _,
            meter: _,
        } = self;
    }
}

impl<'a> LiveState<'a> {
    /// A new session with a bank. Allocates nothing.
    pub(crate) fn new(alloc: Global, bank: Bank<'a>) -> LiveState<'a>
        ensures { result ≡ started_with bank.entry }
    {
        LiveState {
            performance: Performance::new(alloc),
            session: Session::new(alloc, bank),
            held: HeldNotes::new(alloc),
            pedals: Pedals::new(alloc),
            meter: Meter::silent(),
        }
    }

    /// Does an edit, or refuses it and changes nothing.
    pub(crate) fn edit(&mut self, alloc: Global, edit: Edit<'a>) -> Answer<'static>
        ensures { EditIs self.old edit.entry result self.new }
    {
        match self.session.edit(alloc, edit) {
            Ok(()) => Answer::Done,
            Err((why, _edit)) => Answer::Refused(why),
        }
    }

    /// Does a neutral edit; refuses any other.
    pub(crate) fn neutral(&mut self, alloc: Global, edit: Edit<'a>) -> Answer<'static>
        ensures { NeutralIs self.old edit.entry result self.new }
    {
        if !is_neutral(&edit) {
            return Answer::NotNeutral;
        }
        self.edit(alloc, edit)
    }

    /// Undoes the last edit. The answer shows its inverse.
    pub(crate) fn undo(&mut self, alloc: Global) -> Answer<'static>
        ensures { UndoIs self.old result self.new }
    {
        let Some(edit) = self.session.next_undo() else {
            return Answer::Refused(Refusal::NothingToUndo);
        };
        let comment = Comment::of_edit(edit);
        match self.session.undo(alloc) {
            Ok(()) => Answer::Moved(comment),
            Err(why) => Answer::Refused(why),
        }
    }

    /// Redoes the edit undone last. The answer shows it.
    pub(crate) fn redo(&mut self, alloc: Global) -> Answer<'static>
        ensures { RedoIs self.old result self.new }
    {
        let Some(edit) = self.session.next_redo() else {
            return Answer::Refused(Refusal::NothingToRedo);
        };
        let comment = Comment::of_edit(edit);
        match self.session.redo(alloc) {
            Ok(()) => Answer::Moved(comment),
            Err(why) => Answer::Refused(why),
        }
    }

    /// Starts a note at the next frame on the current bank. The answer has the number of its voices.
    pub(crate) fn note<Q: Progress>(
        &mut self,
        alloc: Global,
        note: &Note,
        progress: &mut Q,
    ) -> Answer<'static>
        ensures { NoteIs self.old note.now result self.new }
    {
        match self.start(alloc, note, progress) {
            Ok(voices) => Answer::Counted(voices),
            Err(_) => Answer::OutOfMemory,
        }
    }

    // Starts a note at the next frame on the current bank, and returns the number of its voices. A failed allocation
    // changes nothing.
    fn start<Q: Progress>(
        &mut self,
        alloc: Global,
        note: &Note,
        progress: &mut Q,
    ) -> Result<usize, OutOfMemory>
        ensures done { IfOk result (λ voices. StartsVoices self.old note.now voices self.old.held self.new) }
        ensures refused { OnErr result (self.new ≡ self.old) }
    {
        let bank = self.session.bank();
        self.performance.start(alloc, bank, note, progress)?;
        Ok(voice_count(bank, note))
    }

    /// Starts a note like [`LiveState::note`], which lasts until it is released.
    pub(crate) fn press<Q: Progress>(
        &mut self,
        alloc: Global,
        note: &Note,
        progress: &mut Q,
    ) -> Answer<'static>
        ensures { PressIs self.old note.now result self.new }
    {
        let count = self.held.len();
        let held = HeldNote {
            key: key_of(note),
            handle: self.performance.next_handle,
            is_sustained: false,
        };
        if self.held.push(held).is_err() {
            return Answer::OutOfMemory;
        }
        match self.start(alloc, note, progress) {
            Ok(voices) => Answer::Counted(voices),
            Err(_) => {
                self.held.truncate(count);
                Answer::OutOfMemory
            }
        }
    }

    /// Releases a key: the note that was pressed first of those that it holds ends, or is left to its pedal. The answer
    /// has the number of released notes: one, or none if the key holds none.
    pub(crate) fn release(&mut self, key: Key) -> Answer<'static>
        ensures { ReleaseIs self.old key result self.new }
    {
        match self.held.first(key) {
            Some(note) => {
                self.release_note(note);
                Answer::Counted(1)
            }
            None => Answer::Counted(0),
        }
    }

    // Ends a held note, or leaves it to its pedal.
    fn release_note(&mut self, note: HeldNote)
        ensures { self.new ≡ after_release_of self.old note }
    {
        if self.pedals.has(pedal_of(note)) {
            self.held.sustain(note.handle);
        } else {
            self.performance.release(Release::One(note.handle));
            self.held.remove(note.handle);
        }
    }

    /// Presses or releases a pedal.
    pub(crate) fn move_pedal(&mut self, moved: PedalMove) -> Answer<'static>
        ensures { PedalIs self.old moved result self.new }
    {
        match moved.position {
            PedalPosition::On => self.press_pedal(moved.pedal),
            PedalPosition::Off => self.release_pedal(moved.pedal),
        }
    }

    // Presses a pedal: from now on it holds the notes of its preset after the releases of their keys.
    fn press_pedal(&mut self, pedal: Pedal) -> Answer<'static>
        ensures { PedalOnIs self.old pedal result self.new }
    {
        match self.pedals.add(pedal) {
            Ok(()) => Answer::Done,
            Err(_) => Answer::OutOfMemory,
        }
    }

    // Releases a pedal: the notes that only it holds end. The answer has their number.
    fn release_pedal(&mut self, pedal: Pedal) -> Answer<'static>
        ensures { PedalOffIs self.old pedal result self.new }
    {
        self.performance
            .release_sustained(self.held.as_slice(), pedal);
        self.pedals.remove(pedal);
        Answer::Counted(self.held.remove_sustained(pedal))
    }

    /// Releases all notes and pedals. The answer has the number of held notes.
    pub(crate) fn silence(&mut self) -> Answer<'static>
        ensures { SilenceIs self.old result self.new }
    {
        let count = self.held.len();
        self.performance.release(Release::All);
        self.held.truncate(0);
        self.pedals.clear();
        Answer::Counted(count)
    }

    /// Ends all voices at once, and releases all pedals.
    pub(crate) fn stop(&mut self) -> Answer<'static>
        ensures { StopIs self.old result self.new }
    {
        self.performance.stop();
        self.held.truncate(0);
        self.pedals.clear();
        Answer::Done
    }

    /// How many voices sound at the next frame, and how many notes are held.
    pub(crate) fn voices(&mut self) -> Answer<'static>
        ensures { VoicesAre self.old result self.new }
    {
        let sounding = self.performance.player.count();
        Answer::Measured(sounding as u64, self.held.len() as u64)
    }

    /// The peak and the clipped frames since the last time.
    pub(crate) fn measure(&mut self) -> Answer<'static>
        ensures { MeterIs self.old result self.new }
    {
        let meter = self.meter;
        self.meter = Meter::silent();
        Answer::Measured(u64::from(meter.peak), meter.clipped)
    }
}

// The pedal of a note's preset.
fn pedal_of(note: HeldNote) -> Pedal
    ensures { result ≡ pedal_of note }
{
    Pedal {
        bank: note.key.bank,
        number: note.key.number,
    }
}

// The key of a note.
fn key_of(note: &Note) -> Key
    ensures { result ≡ key_of note.now }
{
    Key {
        bank: note.bank(),
        number: note.number(),
        key: note.key(),
    }
}

// The number of voices of a note: one for each pair of zones that match it.
fn voice_count(bank: &Bank<'_>, note: &Note) -> usize
    ensures { result ≡ min (length (note_voices bank.now note.now)) usize.MAX }
{
    bank.soundness();
    let mut voices = 0usize;
    for _pair in matches(bank, note) {
        voices = one_more(voices);
    }
    voices
}

// Adds one, saturating.
fn one_more(count: usize) -> usize
    ensures { result ≡ min (count + 1) usize.MAX }
{
    if count < usize::MAX { count + 1 } else { count }
}
