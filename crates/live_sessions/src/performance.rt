//! The notes of a session: those that sound, and all that were played.
ghost use Rattle.std.specs.Prelude.{◌≡◌, [], ◌∷◌, OnOk, OnErr, filter};
ghost use Rattle.live_sessions.specs.Performances.{is_sustained_by, note_started, notes_released, all_stopped};
ghost use Rattle.live_sessions.specs.Performances.{released_in_turn};

use crate::held::{HeldNote, is_sustained_by};
use crate::played::PlayedNotes;
use bank_core::Bank;
use base_progress::Progress;
use live_lines::Pedal;
use mixer::{Player, Release};
use script_notes::Note;
use sf_base::OutOfMemory;
use std::alloc::Global;

/// The notes of a session.
pub(crate) struct Performance<'a> {
    // First, because of its lists.
    pub(crate) player: Player<'a>,
    pub(crate) played: PlayedNotes,
    // The number of frames written so far.
    pub(crate) given: u64,
    // The handle of the next note.
    pub(crate) next_handle: u64,
}

// Not derived: a derived drop is inlined, and proved, wherever a value is dropped; this one is a call.
impl Drop for Performance<'_> {
    fn drop(self) {
        let Performance {
            player: _,
            played: _,
            given: _,
            next_handle: _,
        } = self;
    }
}

impl<'a> Performance<'a> {
    /// No notes. Allocates nothing.
    pub(crate) fn new(alloc: Global) -> Performance<'a>
        ensures { result ≡ record { player = []; played = []; given = 0; next_handle = 0 } }
    {
        Performance {
            player: Player::new(alloc),
            played: PlayedNotes::new(alloc),
            given: 0,
            next_handle: 0,
        }
    }

    /// Starts a note at the next frame with the next handle. A failed allocation changes nothing.
    pub(crate) fn start<Q: Progress>(
        &mut self,
        alloc: Global,
        bank: &Bank<'a>,
        note: &Note,
        progress: &mut Q,
    ) -> Result<(), OutOfMemory>
        ensures done { OnOk result (self.new ≡ note_started self.old bank.now note.now) }
        ensures refused { OnErr result (self.new ≡ self.old) }
    {
        let count = self.played.as_slice().len();
        let handle = self.next_handle;
        self.played.add(note, handle, self.given)?;
        if self
            .player
            .press(alloc, bank, note, handle, progress)
            .is_err()
        {
            self.played.truncate(count);
            return Err(OutOfMemory);
        }
        self.next_handle = handle.saturating_add(1);
        Ok(())
    }

    /// Ends the notes of a release at the next frame.
    pub(crate) fn release(&mut self, release: Release)
        ensures { self.new ≡ notes_released self.old release }
    {
        self.player.release(release);
        self.played.end(release, self.given);
    }

    /// Ends all voices before the next frame, at once.
    pub(crate) fn stop(&mut self)
        ensures { self.new ≡ all_stopped self.old }
    {
        self.player.stop();
        self.played.end(Release::All, self.given);
    }

    /// Ends the notes that a pedal holds after the releases of their keys.
    pub(crate) fn release_sustained(&mut self, held: &[HeldNote], pedal: Pedal)
        ensures { self.new ≡ released_in_turn self.old (filter (is_sustained_by pedal) held.now) }
    {
        for note in held {
            self.release_if_sustained(*note, pedal);
        }
    }

    // Ends a note if only this pedal holds it.
    #[tactic(auto, unfolding(crate::specs::Performances::released_in_turn))]
    fn release_if_sustained(&mut self, note: HeldNote, pedal: Pedal)
        ensures { self.new ≡ released_in_turn self.old (filter (is_sustained_by pedal) (note ∷ [])) }
    {
        if is_sustained_by(pedal, note) {
            self.release(Release::One(note.handle));
        }
    }
}
