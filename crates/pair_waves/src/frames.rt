//! The points of two sides in turn: a left one, then the right one beside it.
ghost use Rattle.std.specs.Prelude.{◌≡◌, ◌+◌, ◌*◌, ◌/◌, ◌%◌, ◌<◌, ◌≤◌, length, take, drop};
ghost use Rattle.base_outputs.specs.Output.{Puts};
ghost use Rattle.sample_view.specs.Words.{words};
ghost use Rattle.pair_waves.specs.Frames.{interleaved};
ghost use Rattle.pair_waves.specs.declared.frames.TheConstants.{BLOCK_SIZE};

use arrayvec::ArrayVec;
use base_outputs::Output;
use sample_view::Points;
use std::io::Write;

/// The bytes of a point.
const POINT_SIZE: usize = 2;

/// The bytes of a block of frames: more than an output holds, so it writes the block directly.
const BLOCK_SIZE: usize = 8192;

/// The bytes of one side in a block.
const SIDE_SIZE: usize = BLOCK_SIZE / 2;

// Puts the points of both sides in turn. The slices of both are read in parallel, each run of frames as long as both
// slices last.
pub(crate) fn put_frames<W: Write>(
    left: &Points<'_>,
    right: &Points<'_>,
    output: &mut Output<'_, W>,
)
    requires { length left.now ≡ length right.now }
    ensures { Puts W.contents output.old output.new (interleaved left.now right.now) }
{
    let count = left.len();
    let mut index = 0;
    while index < count {
        let left_run = run_from(left, index);
        let right_run = run_from(right, index);
        let size = left_run.len().min(right_run.len());
        put_run(&left_run[..size], &right_run[..size], output);
        index += size / POINT_SIZE;
    }
}

// The points from `index` on that one slice has; at least that point.
fn run_from<'a>(points: &Points<'a>, index: usize) -> &'a [u8]
    requires { index < length points.now }
    ensures filled { 2 ≤ length result.now }
    ensures even { length result.now % 2 ≡ 0 }
    ensures inside { index + length result.now / 2 ≤ length points.now }
    ensures points { words result.now ≡ take (length result.now / 2) (drop index points.now) }
{
    let (bytes, position) = points.slice_at(index);
    &bytes[POINT_SIZE * position..]
}

// Puts the points of a slice of each side in turn, block by block.
fn put_run<W: Write>(left: &[u8], right: &[u8], output: &mut Output<'_, W>)
    requires same { length right.now ≡ length left.now }
    requires even { length left.now % 2 ≡ 0 }
    ensures { Puts W.contents output.old output.new (interleaved (words left.now) (words right.now)) }
{
    let mut block = ArrayVec::new();
    let mut left_rest = left;
    let mut right_rest = right;
    while !left_rest.is_empty() {
        let size = left_rest.len().min(SIDE_SIZE);
        let (left_part, left_others) = left_rest.split_at(size);
        let (right_part, right_others) = right_rest.split_at(size);
        fill_block(left_part, right_part, &mut block);
        output.put(block.as_slice());
        left_rest = left_others;
        right_rest = right_others;
    }
}

// Replaces the bytes of a block by these points of each side in turn.
fn fill_block(left: &[u8], right: &[u8], block: &mut ArrayVec<u8, BLOCK_SIZE>)
    requires same { length right.now ≡ length left.now }
    requires even { length left.now % 2 ≡ 0 }
    requires room { 2 * length left.now ≤ BLOCK_SIZE }
    ensures { block.new.items ≡ interleaved (words left.now) (words right.now) }
{
    block.clear();
    for frame in 0..left.len() / POINT_SIZE {
        let low = POINT_SIZE * frame;
        block.push(left[low]);
        block.push(left[low + 1]);
        block.push(right[low]);
        block.push(right[low + 1]);
    }
}
