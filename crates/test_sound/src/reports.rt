//! Tests of what players report in detail: notes without voices, the most voices, the peak and clipped frames.

use crate::started_voices::file_of;
use base_progress::{MixedFrames, NoReports, OverriddenSetting, Progress, StartedNote, Work};
use mixer::{Player, render_with_progress};
use script_notes::{Note, parse_notes};
use sf_reader::read;
use std::alloc::Global;
use std::test::Fail;

/// What was reported, summed up.
#[derive(Clone, Copy, Default, PartialEq, Eq)]
struct Summary {
    notes: u32,
    without_preset: u32,
    without_zone: u32,
    most_voices: usize,
    loudest: u32,
    clipped: u32,
}

/// Sums up the reports, if they are detailed.
#[derive(Clone, Copy)]
struct Tally {
    is_detailed: bool,
    frames: u64,
    sum: Summary,
}

impl Tally {
    fn new(is_detailed: bool) -> Tally {
        Tally {
            is_detailed,
            frames: 0,
            sum: Summary::default(),
        }
    }
}

impl Progress for Tally {
    fn begin(&mut self, _work: Work, _count: u64) {}

    fn advance(&mut self, count: u64) {
        self.frames = self.frames.saturating_add(count);
    }

    fn end(&mut self) {}

    fn set_detailed(&mut self, is_detailed: bool) {
        self.is_detailed = is_detailed;
    }

    fn is_detailed(&self) -> bool {
        self.is_detailed
    }

    fn started(&mut self, note: StartedNote) {
        let is_silent = note.voices == 0;
        let sum = &mut self.sum;
        sum.notes = sum.notes.saturating_add(1);
        sum.without_preset = sum
            .without_preset
            .saturating_add(u32::from(!note.has_preset));
        sum.without_zone = sum
            .without_zone
            .saturating_add(u32::from(is_silent && note.has_preset));
    }

    fn mixed(&mut self, frames: MixedFrames) {
        let sum = &mut self.sum;
        sum.most_voices = sum.most_voices.max(frames.voices);
        sum.loudest = sum.loudest.max(frames.loudest);
        sum.clipped = sum.clipped.saturating_add(frames.clipped);
    }

    fn found_fault(&mut self, _line: &[u8]) {}

    fn found_overridden(&mut self, _setting: OverriddenSetting) {}

    fn report_sound(&mut self) {}
}

/// Loops of the highest and of the lowest point.
const HIGHEST: &[u8] = b"add-sample 0 \"h\" 44100 60 0 mono loop 0 1 xff7f\n";

const LOWEST: &[u8] = b"add-sample 0 \"l\" 44100 60 0 mono loop 0 1 x0080\n";

/// Two zones for keys up to 72, in the middle and on the right; a zone on the right for all keys.
const TWO_ZONES: &[u8] =
    b"add-inst 0 \"i\" { 0 g 43 0..72 g 54 1 } { 0 g 43 0..72 g 17 500 g 54 1 }\n";

const ON_THE_RIGHT: &[u8] = b"add-inst 0 \"i\" { 0 g 17 500 g 54 1 }\n";

/// Notes that play one after another, the second and third together, and one without a preset and one without a zone.
/// In blocks of 32 frames the first is over within frames that are mixed ahead of the second's start.
const NOTES: &[u8] = b"\
    0 40 0 0 60 127\n\
    64 40 0 0 60 127\n\
    64 40 0 0 48 127\n\
    96 40 0 5 60 127\n\
    96 40 0 0 73 127\n\
    128 40 0 0 60 127\n\
    192 700 0 0 60 127\n";

/// A voice in the middle has 16383 on both sides, one on the right 32767 there.
const REPORTED: Summary = Summary {
    notes: 7,
    without_preset: 1,
    without_zone: 1,
    most_voices: 4,
    loudest: 98_300,
    clipped: 820,
};

fn reported_by_rendering(
    alloc: Global,
    file: &[u8],
    notes: &[u8],
    is_detailed: bool,
) -> Result<Tally, Fail> {
    let (bank, _counts) = read(alloc, file)?;
    let notes = parse_notes(alloc, notes)?;
    let mut tally = Tally::new(is_detailed);
    render_with_progress(alloc, &bank, notes.as_slice(), &mut tally)?;
    Ok(tally)
}

// What is reported by the blocks of 32 frames of a player, in which sorted notes start.
fn reported_by_blocks(alloc: Global, file: &[u8], notes: &[u8], end: u32) -> Result<Tally, Fail> {
    let (bank, _counts) = read(alloc, file)?;
    let notes = parse_notes(alloc, notes)?;
    let mut player = Player::new(alloc);
    let mut tally = Tally::new(true);
    for block in 0..end / 32 {
        for note in notes.as_slice() {
            if note.start() / 32 == block {
                player.start_with_progress(alloc, &bank, note, &mut tally)?;
            }
        }
        player.block_with_progress(&mut [0; 64], &mut tally);
    }
    Ok(tally)
}

#[test]
fn notes_voices_and_clipped_frames(rt: HostRuntime) -> Result<(), Fail> {
    let file = file_of(rt.alloc(), HIGHEST, TWO_ZONES)?;
    let rendered = reported_by_rendering(rt.alloc(), file.as_slice(), NOTES, true)?;
    assert!(rt; rendered.sum == REPORTED && rendered.frames == 892);
    let played = reported_by_blocks(rt.alloc(), file.as_slice(), NOTES, 928)?;
    assert!(rt; played.sum == REPORTED && played.frames == 928);
    Ok(())
}

#[test]
fn no_details_are_reported(rt: HostRuntime) -> Result<(), Fail> {
    let file = file_of(rt.alloc(), HIGHEST, TWO_ZONES)?;
    let rendered = reported_by_rendering(rt.alloc(), file.as_slice(), NOTES, false)?;
    assert!(rt; rendered.sum == Summary::default() && rendered.frames == 892);
    Ok(())
}

#[test]
fn the_lowest_value_is_not_clipped(rt: HostRuntime) -> Result<(), Fail> {
    let file = file_of(rt.alloc(), LOWEST, ON_THE_RIGHT)?;
    let tally = reported_by_rendering(rt.alloc(), file.as_slice(), b"0 9 0 0 60 127\n", true)?;
    assert!(rt; (tally.sum.loudest, tally.sum.clipped) == (32_768, 0));
    let two = b"0 9 0 0 60 127\n3 4 0 0 60 127\n";
    let tally = reported_by_rendering(rt.alloc(), file.as_slice(), two, true)?;
    assert!(rt; (tally.sum.loudest, tally.sum.clipped) == (65_536, 4));
    Ok(())
}

/// An instrument of `ZONES` zones on the right.
const ZONES: usize = 128;

fn many_zones(alloc: Global) -> Result<Vec<u8>, Fail> {
    let mut script = Vec::from_slice(alloc, b"add-inst 0 \"i\"")?;
    for _ in 0..ZONES {
        script.extend_from_slice(b" { 0 g 17 500 g 54 1 }")?;
    }
    script.extend_from_slice(b"\n")?;
    Ok(script)
}

/// The starts that give more voices than are summed in 32 bits.
const STARTS: usize = 256;

#[test]
fn sums_of_many_voices(rt: HostRuntime) -> Result<(), Fail> {
    let zones = many_zones(rt.alloc())?;
    let file = file_of(rt.alloc(), HIGHEST, zones.as_slice())?;
    let (bank, _counts) = read(rt.alloc(), file.as_slice())?;
    let note = Note::new(0, 16, 0, 0, 60, 127).expect(&rt, "a note");
    let mut player = Player::new(rt.alloc());
    for _ in 0..STARTS {
        player.start_with_progress(rt.alloc(), &bank, &note, &mut NoReports)?;
    }
    let mut tally = Tally::new(true);
    player.block_with_progress(&mut [0; 64], &mut tally);
    assert!(rt; (tally.sum.most_voices, tally.sum.clipped) == (ZONES * STARTS, 16));
    assert!(rt; tally.sum.loudest == 1_073_709_056);
    Ok(())
}
