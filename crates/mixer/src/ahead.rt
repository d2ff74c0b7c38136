//! Frames that are mixed ahead of short blocks.
ghost use Rattle.std.specs.Prelude.{◌≡◌, ℕ, ◌+◌, ◌*◌, ◌/◌, ◌%◌, ◌<◌, ◌≤◌, ◌^◌, ◌++◌, ◌+ℤ◌, List, [], false, pos, EachIndex, length, map, slice_index_or, vec_len};
ghost use Rattle.std.specs.List.{list_any};
ghost use Rattle.std.specs.Vec.{vec_capacity};
ghost use Rattle.mixer.specs.declared.playing.PlayingVoice.{PlayingVoice};
ghost use Rattle.voices.specs.Within.{IsWithin};
ghost use Rattle.mixer.specs.StartFrames as heard;
ghost use Rattle.mixer.specs.Ahead.{AreSums, AreWithin, IsAhead, playing_now};
ghost use Rattle.mixer.specs.Events.{aged, next_side, unsilenced};
ghost use Rattle.mixer.specs.KeptVoices.{AllSounding, AllYounger, lifetime};
ghost use Rattle.mixer.specs.Pressed.{after_release};

use crate::blocks::{GROUP, add_voices, clip_sums};
use crate::measuring::report_sums;
use crate::playing::{
    PlayingVoice, Release, drop_over, drop_silenced, go_back, have_class, release_voices,
};
use base_progress::Progress;
use voices::Workspace;

// The most frames that are mixed ahead.
pub(crate) const MOST_AHEAD: usize = 1024;

// The most values that are mixed ahead, two for each frame.
const SIDES: usize = 2 * MOST_AHEAD;

// The sums of the next frames, at the end of each list. Short blocks are filled from them, so that the voices are
// called once for several blocks.
#[derive(Drop)]
pub(crate) struct Ahead {
    sides: [i32; SIDES],
    middle: [i32; MOST_AHEAD],
    pub(crate) left: usize,
    // How many frames to sum next if fewer are asked for: twice as many as before, since a start may discard them.
    next_count: usize,
}

impl Ahead {
    // No frames.
    pub(crate) fn none() -> Ahead
        ensures { result.left ≡ 0 }
    {
        Ahead {
            sides: [0; SIDES],
            middle: [0; MOST_AHEAD],
            left: 0,
            next_count: 0,
        }
    }

    // Replaces the frames by `count` silent ones.
    fn clear(&mut self, count: usize)
        requires { count ≤ MOST_AHEAD }
        ensures left { self.new.left ≡ count }
        ensures silent { AreSums self.new [] }
    {
        let first = MOST_AHEAD - count;
        self.sides[2 * first..].fill(0);
        self.middle[first..].fill(0);
        self.left = count;
    }

    // Adds the frames of further voices to the remaining ones, and advances these voices by as many frames.
    pub(crate) fn join(&mut self, voices: &mut [PlayingVoice], work: &mut Workspace)
        requires few { 0 < self.old.left → length voices.old ≤ GROUP }
        requires young { AllYounger (2 ^ 63 + 2 ^ 34) voices.old }
        requires room { AreWithin GROUP self.old }
        ensures left { self.new.left ≡ self.old.left }
        ensures sums { (ps : List PlayingVoice) → AreSums self.old ps → AreSums self.new (ps ++ voices.old) }
        ensures live { voices.new ≡ map (aged self.old.left) voices.old }
    {
        if self.left == 0 {
            return;
        }
        let first = MOST_AHEAD - self.left;
        add_voices(
            voices,
            work,
            &mut self.sides[2 * first..],
            &mut self.middle[first..],
        );
    }

    // Sums the next frames of all voices when none remain: as many as asked for, or more.
    pub(crate) fn fill(&mut self, asked: usize, voices: &mut [PlayingVoice], work: &mut Workspace)
        requires some { 0 < asked }
        requires few { length voices.old ≤ GROUP }
        requires young { AllYounger (2 ^ 63 + 2 ^ 34) voices.old }
        ensures some { (0 < self.new.left) × (self.new.left ≤ MOST_AHEAD) }
        ensures sums { AreSums self.new voices.old }
        ensures live { voices.new ≡ map (aged self.new.left) voices.old }
    {
        let count = self.next_count.max(asked).min(MOST_AHEAD);
        self.next_count = 2 * count;
        self.clear(count);
        self.join(voices, work);
    }

    // Writes the next frames, all of which must be summed already, and reports them as those of a number of voices.
    pub(crate) fn write_frames<P: Progress>(
        &mut self,
        out: &mut [i16],
        voices: usize,
        progress: &mut P,
    )
        requires even { length out.old % 2 ≡ 0 }
        requires enough { length out.old ≤ 2 * self.old.left }
        requires room { AreWithin GROUP self.old }
        ensures left { self.new.left + length out.old / 2 ≡ self.old.left }
        ensures heard { (ps : List PlayingVoice) → AreSums self.old ps
            → EachIndex out.new (λ i. slice_index_or out.new i (pos 0) ≡ next_side ps i) }
        ensures sums { (ps : List PlayingVoice) → AreSums self.old ps → AreSums self.new (map (aged (length out.old / 2)) ps) }
    {
        let first = MOST_AHEAD - self.left;
        clip_from(&self.sides, &self.middle, first, out, voices, progress);
        self.left -= out.len() / 2;
    }
}

// Writes the sums from a frame on, clipped to 16 bits, and reports them as those of a number of voices.
fn clip_from<P: Progress>(
    sides: &[i32],
    middle: &[i32],
    first: usize,
    out: &mut [i16],
    voices: usize,
    progress: &mut P,
)
    requires even { length out.old % 2 ≡ 0 }
    requires sides { 2 * first + length out.old ≤ length sides.now }
    requires middle { first + length out.old / 2 ≤ length middle.now }
    requires room { (i : ℕ) → i < length out.old → IsWithin GROUP (slice_index_or sides.now (2 * first + i) (pos 0)) }
    requires middle_room { (k : ℕ) → k < length out.old / 2 → IsWithin GROUP (slice_index_or middle.now (first + k) (pos 0)) }
    ensures { EachIndex out.new (λ i. slice_index_or out.new i (pos 0)
        ≡ heard.clipped (slice_index_or sides.now (2 * first + i) (pos 0) +ℤ slice_index_or middle.now (first + i / 2) (pos 0))) }
{
    let n = out.len();
    let sides = &sides[2 * first..2 * first + n];
    let middle = &middle[first..first + n / 2];
    clip_sums(sides, middle, out);
    report_sums(voices, sides, middle, progress);
}

// Sums frames of all voices ahead for a short block, unless some remain: as many as asked for, or more. If none remain
// then, voices that are over have been dropped.
pub(crate) fn sum_ahead<'a>(
    voices: &mut Vec<PlayingVoice<'a>>,
    ahead: &mut Ahead,
    work: &mut Workspace,
    asked: usize,
    is_short: bool,
)
    requires ahead { IsAhead ahead.old voices.old.items }
    requires some { 0 < asked }
    ensures ahead { IsAhead ahead.new voices.new.items }
    ensures same { playing_now ahead.new voices.new.items ≡ playing_now ahead.old voices.old.items }
    ensures sounding { ahead.new.left ≡ 0 → AllSounding voices.new.items }
    ensures young { ahead.new.left ≡ 0 → AllYounger lifetime voices.new.items }
{
    if ahead.left != 0 {
        return;
    }
    drop_over(voices);
    if is_short && voices.len() <= GROUP {
        ahead.fill(asked, voices.as_mut_slice(), work);
    }
}

// Discards the remaining frames; the voices go back by as many frames.
fn discard<'a>(voices: &mut Vec<PlayingVoice<'a>>, ahead: &mut Ahead)
    requires { IsAhead ahead.old voices.old.items }
    ensures ahead { IsAhead ahead.new voices.new.items }
    ensures none { ahead.new.left ≡ 0 }
    ensures same { playing_now ahead.new voices.new.items ≡ playing_now ahead.old voices.old.items }
    ensures bound { vec_len voices.new ≤ vec_len voices.old }
    ensures capacity { vec_capacity voices.new ≡ vec_capacity voices.old }
{
    go_back(voices.as_mut_slice(), ahead.left);
    ahead.left = 0;
    ahead.next_count = 0;
}

// Discards the remaining frames if new voices invalidate them: if a new voice has an exclusive class, and so may
// silence a voice that is part of them, or if the sums have no space for the new voices. Also discards them if voices
// are counted, since those that are over within these frames would count.
fn drop_ahead<'a>(
    voices: &mut Vec<PlayingVoice<'a>>,
    ahead: &mut Ahead,
    new: &[PlayingVoice<'a>],
    are_counted: bool,
)
    requires { IsAhead ahead.old voices.old.items }
    ensures ahead { IsAhead ahead.new voices.new.items }
    ensures same { playing_now ahead.new voices.new.items ≡ playing_now ahead.old voices.old.items }
    ensures alone { 0 < ahead.new.left → list_any heard.has_class new.now ≡ false }
    ensures few { 0 < ahead.new.left → length voices.new.items + length new.now ≤ GROUP }
    ensures bound { vec_len voices.new ≤ vec_len voices.old }
    ensures capacity { vec_capacity voices.new ≡ vec_capacity voices.old }
{
    if ahead.left == 0 || !are_counted && !have_class(new) && voices.len() + new.len() <= GROUP {
        return;
    }
    discard(voices, ahead);
}

// Drops the voices that new ones silence.
pub(crate) fn silence_voices<'a>(
    voices: &mut Vec<PlayingVoice<'a>>,
    ahead: &mut Ahead,
    new: &[PlayingVoice<'a>],
    are_counted: bool,
)
    requires { IsAhead ahead.old voices.old.items }
    ensures ahead { IsAhead ahead.new voices.new.items }
    ensures unsilenced { playing_now ahead.new voices.new.items ≡ unsilenced new.now (playing_now ahead.old voices.old.items) }
    ensures few { 0 < ahead.new.left → length voices.new.items + length new.now ≤ GROUP }
    ensures bound { vec_len voices.new ≤ vec_len voices.old }
    ensures capacity { vec_capacity voices.new ≡ vec_capacity voices.old }
{
    drop_ahead(voices, ahead, new, are_counted);
    drop_silenced(voices, new);
}

// Discards the remaining frames, and drops the voices that are over at the next frame.
pub(crate) fn drop_ended<'a>(voices: &mut Vec<PlayingVoice<'a>>, ahead: &mut Ahead)
    requires { IsAhead ahead.old voices.old.items }
    ensures ahead { IsAhead ahead.new voices.new.items }
    ensures none { ahead.new.left ≡ 0 }
    ensures young { AllYounger lifetime voices.new.items }
    ensures all { voices.new.items ≡ playing_now ahead.old voices.old.items }
    ensures same { playing_now ahead.new voices.new.items ≡ playing_now ahead.old voices.old.items }
{
    discard(voices, ahead);
    drop_over(voices);
}

// Ends the notes of a release at the next frame. The frames that are summed ahead don't have their releases.
pub(crate) fn end_notes<'a>(
    playing: &mut Vec<PlayingVoice<'a>>,
    ahead: &mut Ahead,
    release: Release,
)
    requires { IsAhead ahead.old playing.old.items }
    ensures ahead { IsAhead ahead.new playing.new.items }
    ensures released { playing_now ahead.new playing.new.items ≡ after_release (playing_now ahead.old playing.old.items) release }
{
    drop_ended(playing, ahead);
    release_voices(playing.as_mut_slice(), release);
}

// Discards the remaining frames, and drops all voices.
pub(crate) fn end_all<'a>(voices: &mut Vec<PlayingVoice<'a>>, ahead: &mut Ahead)
    ensures ahead { IsAhead ahead.new voices.new.items }
    ensures none { playing_now ahead.new voices.new.items ≡ [] }
{
    *ahead = Ahead::none();
    voices.truncate(0);
}
