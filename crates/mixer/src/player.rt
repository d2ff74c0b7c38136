//! A player of notes.
ghost use Rattle.std.specs.Prelude.{◌≡◌, ◌%◌, ◌/◌, ◌<◌, ◌≤◌, ℕ, [], pos, OnOk, OnErr, length, slice_index_or};
ghost use Rattle.mixer.specs.StartFrames as heard;
ghost use Rattle.mixer.specs.Events.{after_start, after_block, block, next_side};
ghost use Rattle.mixer.specs.Pressed.{after_release, pressed_voices};

use crate::ahead::{Ahead, MOST_AHEAD, drop_ended, end_all, end_notes, silence_voices, sum_ahead};
use crate::blocks::{MixBuffers, PART_SIDES, mix_part};
use crate::measuring::report_start;
use crate::playing::{PlayingVoice, Release, drop_over, note_voices, pressed_voices};
use bank_core::Bank;
use base_progress::{NoReports, Progress};
use script_notes::Note;
use sf_base::OutOfMemory;
use std::alloc::Global;
use std::marker::Model;

/// Plays notes that are started between its blocks.
///
/// It borrows from the file, not from a bank: a bank may be edited or dropped while its notes play on. Its model is the
/// list of the voices that are neither over nor silenced, each with its age in frames and the bank and preset number of
/// its note.
pub struct Player<'a> {
    // First, so that the lists are aligned like the player: vector loads that cross cache lines are slower.
    buffers: MixBuffers,
    ahead: Ahead,
    // The voices, advanced past the frames in `ahead`.
    voices: Vec<PlayingVoice<'a>>,
}

// Not derived: a derived drop is inlined, and proved, wherever a value is dropped; this one is a call.
impl Drop for Player<'_> {
    fn drop(self) {
        let Player {
            buffers: _,
            ahead: _,
            voices: _,
        } = self;
    }
}

impl<'a> Model for Player<'a> {
    ghost use Rattle.std.specs.Prelude.{List};
    ghost use Rattle.mixer.specs.declared.playing.PlayingVoice.{PlayingVoice};
    ghost use Rattle.mixer.specs.Ahead.{IsAhead, playing_now};

    ghost Value = { List PlayingVoice };

    ghost view = { λ p. playing_now p.ahead p.voices.items };

    ghost invariant = { λ p. IsAhead p.ahead p.voices.items };
}

impl<'a> Player<'a> {
    /// Creates a player without voices. Its buffers, for the sums of 1,024 frames and of 1,024 mixed ahead, are part of
    /// it: 31 kilobytes. It allocates nothing.
    pub fn new(alloc: Global) -> Player<'a>
        ensures { result ≡ [] }
    {
        Player {
            buffers: MixBuffers::new(),
            ahead: Ahead::none(),
            voices: Vec::new(alloc),
        }
    }

    /// Starts all voices of a note at the next frame; the note's own start is ignored.
    ///
    /// First it silences the voices of earlier starts that have the note's bank and preset numbers and the exclusive
    /// class of one of the new voices (SoundFont 2.04, section 8.1.2, generator 57; class 0 means none). If it returns
    /// `OutOfMemory`, nothing is started or silenced.
    pub fn start(&mut self, alloc: Global, bank: &Bank<'a>, note: &Note) -> Result<(), OutOfMemory>
        ensures done { OnOk result (self.new ≡ after_start self.old (heard.note_voices bank.now note.now)) }
        ensures refused { OnErr result (self.new ≡ self.old) }
    {
        self.start_with_progress(alloc, bank, note, &mut NoReports)
    }

    /// Like [`Player::start`], and reports the note if it was started and details are reported.
    ///
    /// With details it discards the frames that are summed ahead, so that no voice that is over is counted.
    pub fn start_with_progress<P: Progress>(
        &mut self,
        alloc: Global,
        bank: &Bank<'a>,
        note: &Note,
        progress: &mut P,
    ) -> Result<(), OutOfMemory>
        ensures done { OnOk result (self.new ≡ after_start self.old (heard.note_voices bank.now note.now)) }
        ensures refused { OnErr result (self.new ≡ self.old) }
    {
        let new = note_voices(alloc, bank, note)?;
        let count = new.len();
        self.start_voices(new, progress.is_detailed())?;
        report_start(bank, note, count, progress);
        Ok(())
    }

    /// Starts all voices of a note like [`Player::start_with_progress`], and gives the note a handle, by which it is
    /// released. If it is not released before, it ends after its length.
    pub fn press<P: Progress>(
        &mut self,
        alloc: Global,
        bank: &Bank<'a>,
        note: &Note,
        handle: u64,
        progress: &mut P,
    ) -> Result<(), OutOfMemory>
        ensures done { OnOk result (self.new ≡ after_start self.old (pressed_voices bank.now handle note.now)) }
        ensures refused { OnErr result (self.new ≡ self.old) }
    {
        let new = pressed_voices(alloc, bank, note, handle)?;
        let count = new.len();
        self.start_voices(new, progress.is_detailed())?;
        report_start(bank, note, count, progress);
        Ok(())
    }

    /// Releases pressed notes: they end at the next frame, as notes of that length do. Allocates nothing.
    ///
    /// It discards the frames that are summed ahead.
    pub fn release(&mut self, release: Release)
        ensures { self.new ≡ after_release self.old release }
    {
        end_notes(&mut self.voices, &mut self.ahead, release);
    }

    /// Ends all voices before the next frame, at once and without their releases. Allocates nothing.
    pub fn stop(&mut self)
        ensures { self.new ≡ [] }
    {
        end_all(&mut self.voices, &mut self.ahead);
    }

    /// How many voices sound at the next frame.
    ///
    /// It discards the frames that are summed ahead.
    pub fn count(&mut self) -> usize
        ensures count { result ≡ length self.old }
        ensures same { self.new ≡ self.old }
    {
        drop_ended(&mut self.voices, &mut self.ahead);
        self.voices.len()
    }

    // Starts voices at the next frame, after it has silenced those that they end by their exclusive classes.
    fn start_voices(
        &mut self,
        mut new: Vec<PlayingVoice<'a>>,
        are_counted: bool,
    ) -> Result<(), OutOfMemory>
        ensures done { OnOk result (self.new ≡ after_start self.old new.entry.items) }
        ensures refused { OnErr result (self.new ≡ self.old) }
    {
        self.voices.try_reserve(new.len())?;
        // No allocation from here on.
        silence_voices(
            &mut self.voices,
            &mut self.ahead,
            new.as_slice(),
            are_counted,
        );
        drop_over(&mut new);
        self.ahead.join(new.as_mut_slice(), &mut self.buffers.work);
        match self.voices.append(&mut new) {
            Ok(()) => Ok(()),
            Err(_) => unreachable!(),
        }
    }

    /// Fills `out` with the next frames, left and right interleaved: the sum of all voices, clipped once to 16 bits.
    ///
    /// It allocates nothing. With an empty slice it does nothing.
    ///
    /// The work is that of the voices' frames, plus twelve bytes to clear for each frame. A long block is mixed in
    /// parts of 1,024 frames; voices that are over are dropped after each part. For a block of fewer than 1,024 frames,
    /// up to 1,024 frames are summed ahead, and the next blocks are filled from them; starting a voice with an exclusive
    /// class discards them, and then fewer are summed ahead at first. With more than 32,767 voices, 32 kilobytes more
    /// are cleared for each part.
    pub fn block(&mut self, out: &mut [i16])
        requires { length out.old % 2 ≡ 0 }
        ensures heard { out.new ≡ block self.old (length out.old / 2) }
        ensures live { self.new ≡ after_block self.old (length out.old / 2) }
        ensures none { length out.old ≡ 0 → self.new ≡ self.old }
    {
        self.block_with_progress(out, &mut NoReports);
    }

    /// Like [`Player::block`], and reports the frames as they are done, and what is measured of them if details are
    /// reported.
    pub fn block_with_progress<P: Progress>(&mut self, out: &mut [i16], progress: &mut P)
        requires { length out.old % 2 ≡ 0 }
        ensures heard { out.new ≡ block self.old (length out.old / 2) }
        ensures live { self.new ≡ after_block self.old (length out.old / 2) }
        ensures none { length out.old ≡ 0 → self.new ≡ self.old }
    {
        // For the proof, which needs the voices here: none is over, so a block of no frames changes nothing.
        let _voices = &self.voices;
        // The rest of a long block isn't summed ahead, however short it is: a later start could discard those frames.
        let is_short = out.len() < 2 * MOST_AHEAD;
        let mut at = 0;
        while at < out.len() {
            at += self.write_part(&mut out[at..], is_short, progress);
        }
    }

    // Writes the first of the requested frames, and returns how many values it wrote: frames that are summed ahead, or
    // else at most 1,024 frames, after which voices that are over are dropped.
    fn write_part<P: Progress>(
        &mut self,
        out: &mut [i16],
        is_short: bool,
        progress: &mut P,
    ) -> usize
        requires even { length out.old % 2 ≡ 0 }
        requires some { 0 < length out.old }
        ensures some { 0 < result }
        ensures most { result ≤ length out.old }
        ensures even { result % 2 ≡ 0 }
        ensures heard { (k : ℕ) → k < result → slice_index_or out.new k (pos 0) ≡ next_side self.old k }
        ensures live { self.new ≡ after_block self.old (result / 2) }
    {
        let asked = out.len() / 2;
        sum_ahead(
            &mut self.voices,
            &mut self.ahead,
            &mut self.buffers.work,
            asked,
            is_short,
        );
        if self.ahead.left == 0 {
            let n = out.len().min(PART_SIDES);
            mix_part(
                self.voices.as_mut_slice(),
                &mut self.buffers,
                &mut out[..n],
                progress,
            );
            drop_over(&mut self.voices);
            progress.advance(n as u64 / 2);
            return n;
        }
        let n = out.len().min(2 * self.ahead.left);
        self.ahead
            .write_frames(&mut out[..n], self.voices.len(), progress);
        progress.advance(n as u64 / 2);
        n
    }
}
