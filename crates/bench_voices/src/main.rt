//! Measures how fast voices play. Each measured voice stays in one phase of its envelope.
//!
//! Arguments:
//! - none: compares a block of each voice with single frames.
//! - ROUNDS [BLOCK]: plays each voice ROUNDS times in blocks of BLOCK frames (512 if not given), and prints its
//!   name, a checksum, the number of frames, and the nanoseconds. `scripts/bench_voices.c` prints the same of the
//!   same voices in blocks of 512.
//! - BANK NOTES: prints the number of frames of all voices of the notes.
//! - BANK NOTES BLOCK: holds all notes together, plays ten seconds in blocks of BLOCK frames, and prints `live`,
//!   a checksum, the number of frames, and the nanoseconds.
#![tactic(auto)]

ghost use Rattle.std.specs.Prelude.{◌≤◌};

mod blocks;
mod examples;
mod live;
mod notes;

use crate::blocks::{FRAMES, MAX_BLOCK, is_as_single_frames, play};
use crate::examples::{Example, PHASES, sample_bytes};
use crate::live::{play_blocks, player_of};
use crate::notes::voice_frames;
use sample_view::Points;
use std::time::Instant;
use std::{env, fs, io};

/// The smallest number of frames of a block.
const MIN_BLOCK: usize = 16;

/// The frames of a block if no argument gives them.
const DEFAULT_BLOCK: usize = 512;

/// The frames of ten seconds of live play.
const LIVE_FRAMES: u64 = 441000;

fn main(rt: HostRuntime) -> io::Result<()> {
    let mut words = env::args(&rt)?;
    let _own_name = words.next();
    match (words.next(), words.next(), words.next()) {
        (None, _, _) => compare_all(&rt),
        (Some(bank), Some(notes), Some(block)) => measure_live(
            &rt,
            &bank,
            &notes,
            frames_of(&block),
        ),
        (Some(first), None, _) => measure_all(&rt, &first, DEFAULT_BLOCK),
        (Some(first), Some(second), None) => {
            if second.parse::<u32>().is_ok() {
                measure_all(&rt, &first, frames_of(&second))
            } else {
                count(&rt, &first, &second)
            }
        }
    }
}

// The frames of a block that an argument gives, in `MIN_BLOCK..=MAX_BLOCK`; `DEFAULT_BLOCK` if it is no number.
fn frames_of(word: &str) -> usize
    ensures { (16 ≤ result) × (result ≤ MAX_BLOCK) }
{
    word.parse::<usize>()
        .unwrap_or(DEFAULT_BLOCK)
        .max(MIN_BLOCK)
        .min(MAX_BLOCK)
}

fn count(rt: &HostRuntime, bank: &str, notes: &str) -> io::Result<()> {
    let bank = fs::read(rt, bank)?;
    let notes = fs::read(rt, notes)?;
    let frames = voice_frames(rt.alloc(), bank.as_slice(), notes.as_slice())?;
    println!(rt; "{frames}")
}

fn measure_live(rt: &HostRuntime, bank: &str, notes: &str, block: usize) -> io::Result<()>
    requires { (16 ≤ block) × (block ≤ MAX_BLOCK) }
{
    let bank = fs::read(rt, bank)?;
    let notes = fs::read(rt, notes)?;
    let mut player = player_of(rt.alloc(), bank.as_slice(), notes.as_slice())?;
    let started = Instant::now(rt)?;
    let blocks = LIVE_FRAMES / block as u64;
    let sum = play_blocks(&mut player, block, blocks);
    let nanoseconds = started.elapsed(rt)?.as_nanos();
    let frames = blocks * block as u64;
    println!(rt; "live {sum} {frames} {nanoseconds}")
}

fn compare_all(rt: &HostRuntime) -> io::Result<()> {
    let bytes = sample_bytes(rt.alloc())?;
    let Ok(points) = Points::of_slice(rt.alloc(), bytes.as_slice()) else {
        return Err(io::Error::from(io::ErrorKind::InvalidData));
    };
    for looped in [true, false] {
        for phase in PHASES {
            compare(rt, &points, Example { looped, phase })?;
        }
    }
    Ok(())
}

fn compare(rt: &HostRuntime, points: &Points, example: Example) -> io::Result<()> {
    let is_so = if is_as_single_frames(rt.alloc(), points, example)? {
        "as one by one"
    } else {
        "OTHER than one by one"
    };
    println!(rt; "{}: the frames of a block are {is_so}", example.name())
}

fn measure_all(rt: &HostRuntime, rounds: &str, block: usize) -> io::Result<()>
    requires { (16 ≤ block) × (block ≤ MAX_BLOCK) }
{
    let Ok(rounds) = rounds.parse() else {
        return Err(io::Error::from(io::ErrorKind::InvalidInput));
    };
    let bytes = sample_bytes(rt.alloc())?;
    let Ok(points) = Points::of_slice(rt.alloc(), bytes.as_slice()) else {
        return Err(io::Error::from(io::ErrorKind::InvalidData));
    };
    for looped in [true, false] {
        for phase in PHASES {
            measure(rt, &points, Example { looped, phase }, rounds, block)?;
        }
    }
    Ok(())
}

fn measure(
    rt: &HostRuntime,
    points: &Points,
    example: Example,
    rounds: u32,
    block: usize,
) -> io::Result<()>
    requires { (16 ≤ block) × (block ≤ MAX_BLOCK) }
{
    let started = Instant::now(rt)?;
    let mut sum: u64 = 0;
    for round in 0..rounds {
        let played = play(rt.alloc(), points, example, round, block)?;
        sum = sum.wrapping_mul(31).wrapping_add(played);
    }
    let nanoseconds = started.elapsed(rt)?.as_nanos();
    let blocks = FRAMES / block as u64;
    let frames = u64::from(rounds) * (blocks * block as u64);
    println!(rt; "{} {sum} {frames} {nanoseconds}", example.name())
}
