//! All frames of a list of notes.
ghost use Rattle.std.specs.Prelude.{◌≡◌, ◌+◌, ◌*◌, ◌/◌, ◌%◌, ◌<◌, ◌≤◌, IfOk, OnOk, length};
ghost use Rattle.zone_select.specs.Select.{selected};
ghost use Rattle.zone_select.specs.Pairs.{voice_by, listed};
ghost use Rattle.mixer.specs.Render as whole;
ghost use Rattle.mixer.specs.Render.{IsRendered};
ghost use Rattle.mixer.specs.Order as order;
ghost use Rattle.mixer.specs.Order.{IsRising, StartWithin};

use crate::player::Player;
use bank_core::Bank;
use base_progress::{NoReports, Progress, Work};
use script_notes::Note;
use sf_base::OutOfMemory;
use sound_tables::MOST_FRAMES;
use std::alloc::Global;
use zone_select::{matches, params};

// The most frames of a list: the last frame at which a note may end, and the longest release after it.
const MOST_FRAME_COUNT: u32 = 104_480_284;

/// Renders all frames of notes in any order, left and right interleaved, 44,100 a second: the sum of all voices of all
/// notes, each from its note's start on, clipped once to 16 bits.
///
/// Notes silence other notes' voices by their exclusive classes as in [`Player::start`]; of notes that start together,
/// the later in the list starts later. There are as many frames as the notes and the releases of all their voices need,
/// at most 104,480,284, also for notes that are silent.
pub fn render(alloc: Global, bank: &Bank<'_>, notes: &[Note]) -> Result<Vec<i16>, OutOfMemory>
    ensures value { IfOk result (λ sides. sides.items ≡ whole.render bank.now notes.now) }
    ensures fits { IfOk result (λ sides. IsRendered sides.items) }
{
    render_with_progress(alloc, bank, notes, &mut NoReports)
}

/// Like [`render`], and reports its progress.
pub fn render_with_progress<P: Progress>(
    alloc: Global,
    bank: &Bank<'_>,
    notes: &[Note],
    progress: &mut P,
) -> Result<Vec<i16>, OutOfMemory>
    ensures value { IfOk result (λ sides. sides.items ≡ whole.render bank.now notes.now) }
    ensures fits { IfOk result (λ sides. IsRendered sides.items) }
{
    let sorted = in_order(alloc, notes)?;
    let count = frame_count(bank, notes);
    let mut out = vec![in alloc; 0i16; 2 * count as usize]?;
    progress.begin(Work::Frames, u64::from(count));
    let played = play(alloc, bank, sorted.as_slice(), out.as_mut_slice(), progress);
    progress.end();
    played?;
    Ok(out)
}

// The notes, sorted by start.
fn in_order(alloc: Global, notes: &[Note]) -> Result<Vec<Note>, OutOfMemory>
    ensures { IfOk result (λ sorted. sorted.items ≡ order.in_order notes.now) }
{
    let mut sorted = notes.to_vec(alloc)?;
    sorted.sort_by_key(|note| note.start())?;
    Ok(sorted)
}

// Plays sorted notes, each from its start on.
fn play<'a, P: Progress>(
    alloc: Global,
    bank: &Bank<'a>,
    notes: &[Note],
    out: &mut [i16],
    progress: &mut P,
) -> Result<(), OutOfMemory>
    requires even { length out.old % 2 ≡ 0 }
    requires rising { IsRising 0 notes.now }
    requires within { StartWithin (length out.old / 2) notes.now }
    ensures { OnOk result (out.new ≡ order.frames_of bank.now notes.now (length out.old / 2)) }
{
    let mut player = Player::new(alloc);
    let mut now = 0;
    for note in notes {
        let next = 2 * note.start() as usize;
        player.block_with_progress(&mut out[now..next], progress);
        player.start_with_progress(alloc, bank, note, progress)?;
        now = next;
    }
    player.block_with_progress(&mut out[now..], progress);
    Ok(())
}

// The release of a pair's voice, in frames.
fn release_of(bank: &Bank<'_>, note: &Note, pair: (u32, u32)) -> u32
    ensures value { result ≡ whole.last_release (listed (voice_by bank.now note.now pair)) }
    ensures most { result ≤ MOST_FRAMES }
{
    match params(bank, note, pair) {
        Some(played) => played.voice.release,
        None => 0,
    }
}

// The longest release of a note's voices, in frames.
fn last_release(bank: &Bank<'_>, note: &Note) -> u32
    ensures value { result ≡ whole.last_release (selected bank.now note.now) }
    ensures most { result ≤ MOST_FRAMES }
{
    let mut last = 0;
    for pair in matches(bank, note) {
        last = release_of(bank, note, pair).max(last);
    }
    last
}

// The frame at which a note and the releases of all its voices have ended.
#[tactic(auto, unfolding(crate::specs::Render::end_of))]
fn end_of(bank: &Bank<'_>, note: &Note) -> u32
    ensures value { result ≡ whole.end_of bank.now note.now }
    ensures most { result ≤ MOST_FRAME_COUNT }
{
    let start = note.start();
    let length = note.length();
    start + length + last_release(bank, note)
}

// How many frames the notes need.
#[tactic(auto, using(crate::proofs::Counts::count_more, crate::proofs::Counts::count_none))]
fn frame_count(bank: &Bank<'_>, notes: &[Note]) -> u32
    ensures value { result ≡ whole.frame_count bank.now notes.now }
    ensures most { result ≤ MOST_FRAME_COUNT }
{
    let mut count = 0;
    for note in notes {
        count = end_of(bank, note).max(count);
    }
    count
}
