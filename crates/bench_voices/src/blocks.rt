//! Plays a voice in blocks, and compares a block with single frames.
ghost use Rattle.std.specs.Prelude.{◌≡◌, ◌*◌, ◌≤◌, ◌%◌, length};
ghost use Rattle.voices.specs.Within.{AllWithin};

use crate::examples::Example;
use sample_view::Points;
use sf_base::OutOfMemory;
use std::alloc::Global;
use std::io;
use voices::{Voice, Workspace};

/// The largest number of frames of a block.
pub(crate) const MAX_BLOCK: usize = 1024;

/// The number of frames to play of a voice, rounded down to whole blocks.
pub(crate) const FRAMES: u64 = 65536;

/// Plays a voice in blocks of `block` frames, adds these up, and returns a checksum of the sums; 0 if there are too few
/// points.
pub(crate) fn play(
    alloc: Global,
    points: &Points,
    example: Example,
    round: u32,
    block: usize,
) -> io::Result<u64>
    requires { (16 ≤ block) × (block ≤ MAX_BLOCK) }
{
    let mut sums: [i32; 2 * MAX_BLOCK] = silence();
    if let Some(mut voice) = example.voice(points.copy(alloc).map_err(no_memory)?, round) {
        let mut work = Workspace::new();
        add_blocks(
            &mut voice,
            FRAMES / block as u64,
            &mut work,
            &mut sums[..2 * block],
        );
    }
    Ok(checksum(&sums[..2 * block]))
}

/// Whether the frames of a block equal the frames read one by one.
pub(crate) fn is_as_single_frames(
    alloc: Global,
    points: &Points,
    example: Example,
) -> io::Result<bool> {
    let mut sums: [i32; 4 * MAX_BLOCK] = silence();
    let in_block = example.voice(points.copy(alloc).map_err(no_memory)?, 0);
    let one_by_one = example.voice(points.copy(alloc).map_err(no_memory)?, 0);
    let (Some(mut in_block), Some(mut one_by_one)) = (in_block, one_by_one) else {
        return Ok(false);
    };
    in_block.add_frames(&mut Workspace::new(), &mut sums);
    Ok(plays(&mut one_by_one, &sums))
}

// Whether these are the next frames.
fn plays(voice: &mut Voice, sums: &[i32]) -> bool {
    for frame in 0..sums.len() / 2 {
        let (left, right) = voice.next_frame();
        if left != sums[2 * frame] || right != sums[2 * frame + 1] {
            return false;
        }
    }
    true
}

fn no_memory(_error: OutOfMemory) -> io::Error {
    io::Error::from(io::ErrorKind::OutOfMemory)
}

// Sums of silence.
fn silence<const N: usize>() -> [i32; N]
    ensures room { AllWithin 0 result }
    ensures length { length result ≡ N }
{
    [0; N]
}

// Adds `blocks` blocks of a voice to the same sums.
fn add_blocks(voice: &mut Voice, blocks: u64, work: &mut Workspace, sums: &mut [i32])
    requires unplayed { voice.old.age ≡ 0 }
    requires few { blocks ≤ 65534 }
    requires short { length sums.old ≤ 2 * MAX_BLOCK }
    requires even { length sums.old % 2 ≡ 0 }
    requires silent { AllWithin 0 sums.old }
{
    for _ in 0..blocks {
        voice.add_frames(work, sums);
    }
}

// A checksum of the sums that depends on their order.
fn checksum(sums: &[i32]) -> u64 {
    let mut sum: u64 = 0;
    for k in 0..sums.len() {
        sum = sum
            .wrapping_mul(31)
            .wrapping_add(i64::from(sums[k]).cast_unsigned());
    }
    sum
}
