//! Interpolated points at the frames of a stretch, read from the cached slice.
ghost use Rattle.std.specs.Prelude.{◌≡◌, ℕ, ◌+◌, ◌-◌, ◌*◌, ◌/◌, ◌%◌, ◌^◌, ◌≤◌, ◌<◌, ◌≤ℤ◌, pos, negsuc, true, EachIndex, length, slice_index, slice_index_or};
ghost use Rattle.sample_view.specs.Runs.{IsRunAround};
ghost use Rattle.sample_view.specs.Words.{words};
ghost use Rattle.voices.specs.VoiceState.{IsCurrentSlice};
ghost use Rattle.voices.specs.Position.{is_looping, position};
ghost use Rattle.voices.specs.Points.{point_of};
ghost use Rattle.zone_select.specs.Playable.{IsPlayable};
ghost use Rattle.voices.specs.Runs.{IsStretch, limit, pair_at, interpolated_pair, straight};

use crate::interpolation::{interpolated, pair_at_position};
use crate::positions::{ONE_POINT, advanced, frames_before, is_looping_at};
use crate::workspace::LONGEST;
use sample_view::Points;
use zone_select::VoiceParameters;

// Point `i` of a slice and the next one, as one word: with a struct of two points the vectorized loop takes more
// instructions.
#[inline(always)]
#[tactic(auto, using(crate::proofs::SliceLaws::pair_is))]
fn pair_in(bytes: &[u8], i: usize) -> u32
    requires { 2 * i + 3 < length bytes.now }
    ensures { result ≡ pair_at (words bytes.now) i }
{
    u32::from_le_bytes([
        bytes[2 * i],
        bytes[2 * i + 1],
        bytes[2 * i + 2],
        bytes[2 * i + 3],
    ])
}

// How many frames lie between two points that are prefetched.
const APART: usize = 16;

// Reads some of the points ahead, so that memory fetches the parts of a slice in parallel and not one after another.
// The reads are stored only so that the compiler keeps them; `read_pairs` overwrites the values.
#[tactic(auto, using(crate::proofs::PositionLaws::less_far))]
fn read_ahead(bytes: &[u8], x: u32, phase_increment: u32, pairs: &mut [u32])
    requires short { length pairs.old ≤ LONGEST }
    requires ends { (k : ℕ) → k < length pairs.old → 2 * ((x + k * phase_increment) / 65536) + 3 < length bytes.now }
    requires near { x + length pairs.old * phase_increment < 2 ^ 32 }
{
    let mut k = 0;
    while k < pairs.len() {
        let position = x + k as u32 * phase_increment;
        pairs[k] = pair_in(bytes, (position >> 16) as usize);
        k += APART;
    }
}

// Reads the pairs of points around positions of a slice, from `x` on with `phase_increment` more for each frame, four frames at a
// time, so that the four positions don't depend on one another. Returns how many frames were read.
fn read_fours(bytes: &[u8], x: u32, phase_increment: u32, pairs: &mut [u32]) -> usize
    requires ends { (k : ℕ) → k < length pairs.old → 2 * ((x + k * phase_increment) / 65536) + 3 < length bytes.now }
    requires near { x + length pairs.old * phase_increment < 2 ^ 32 }
    ensures most { result ≤ length pairs.new }
    ensures value { (k : ℕ) → k < result → slice_index pairs.new k ≡ pair_at (words bytes.now) ((x + k * phase_increment) / 65536) }
{
    let mut position = x;
    let mut k = 0;
    while 4 <= pairs.len() - k {
        pairs[k] = pair_in(bytes, (position >> 16) as usize);
        pairs[k + 1] = pair_in(bytes, ((position + phase_increment) >> 16) as usize);
        pairs[k + 2] = pair_in(bytes, ((position + 2 * phase_increment) >> 16) as usize);
        pairs[k + 3] = pair_in(bytes, ((position + 3 * phase_increment) >> 16) as usize);
        position += 4 * phase_increment;
        k += 4;
    }
    k
}

// Reads the pairs of points around positions of a slice, from `x` on with `phase_increment` more for each frame.
fn read_pairs(bytes: &[u8], x: u32, phase_increment: u32, pairs: &mut [u32])
    requires short { length pairs.old ≤ LONGEST }
    requires ends { (k : ℕ) → k < length pairs.old → 2 * ((x + k * phase_increment) / 65536) + 3 < length bytes.now }
    requires near { x + length pairs.old * phase_increment < 2 ^ 32 }
    ensures { EachIndex pairs.new (λ k. slice_index pairs.new k ≡ pair_at (words bytes.now) ((x + k * phase_increment) / 65536)) }
{
    let front = read_fours(bytes, x, phase_increment, pairs);
    let mut position = x + front as u32 * phase_increment;
    for k in front..pairs.len() {
        pairs[k] = pair_in(bytes, (position >> 16) as usize);
        position += phase_increment;
    }
}

// Like `read_pairs`, but prefetches unless the points are near.
fn read_straight(bytes: &[u8], near: bool, x: u32, phase_increment: u32, pairs: &mut [u32])
    requires short { length pairs.old ≤ LONGEST }
    requires ends { (k : ℕ) → k < length pairs.old → 2 * ((x + k * phase_increment) / 65536) + 3 < length bytes.now }
    requires near { x + length pairs.old * phase_increment < 2 ^ 32 }
    ensures { EachIndex pairs.new (λ k. interpolated_pair (slice_index pairs.new k) ((x + k * phase_increment) % 65536)
        ≡ straight (words bytes.now) (x + k * phase_increment)) }
{
    if !near {
        read_ahead(bytes, x, phase_increment, pairs);
    }
    read_pairs(bytes, x, phase_increment, pairs);
}

// Linear interpolation between the two points of a pair, at `part` of 65536.
#[inline(always)]
fn between_pair(pair: u32, part: u32) -> i32
    requires { part < 65536 }
    ensures value { result ≡ interpolated_pair pair part }
    ensures low { negsuc 32767 ≤ℤ result }
    ensures high { result ≤ℤ pos 32767 }
{
    let here = ((pair & 65535) as u16).cast_signed();
    let next = ((pair >> 16) as u16).cast_signed();
    interpolated(here, next, part)
}

// Interpolates between the points of each pair, at positions from `x` on.
fn interpolate(pairs: &[u32], x: u32, phase_increment: u32, run: &mut [i16])
    requires long { length pairs.now ≡ length run.old }
    requires near { x + length run.old * phase_increment < 2 ^ 32 }
    ensures { EachIndex run.new (λ k. slice_index_or run.new k (pos 0) ≡ interpolated_pair (slice_index pairs.now k) ((x + k * phase_increment) % 65536)) }
{
    let mut position = x;
    for k in 0..run.len() {
        run[k] = between_pair(pairs[k], position & 65535) as i16;
        position += phase_increment;
    }
}

// The most points of a slice that are read in one pass: positions within them fit in 32 bits.
const FARTHEST: usize = 32768;

// The cached slice of a sample's points: its bytes, and the index of its first point.
#[derive(Clone, Copy)]
pub(crate) struct Slice<'a> {
    pub(crate) bytes: &'a [u8],
    pub(crate) first: usize,
}

impl<'a> Slice<'a> {
    // The empty slice.
    pub(crate) fn none() -> Slice<'a>
        ensures { length result.bytes.now ≡ 0 }
    {
        Slice {
            bytes: &[],
            first: 0,
        }
    }

    // The cached slice if it contains point `i`; otherwise the slice that does.
    fn around(self, points: &Points<'a>, i: usize) -> Slice<'a>
        requires inside { i < length points.now }
        requires is_current { IsCurrentSlice points.now self }
        ensures is_current { IsCurrentSlice points.now result }
        ensures begins { result.first ≤ i }
        ensures run { IsRunAround points.now i result.bytes.now (i - result.first) }
    {
        if self.first <= i && i - self.first < self.bytes.len() / 2 {
            return self;
        }
        let (bytes, position) = points.slice_at(i);
        Slice {
            bytes,
            first: i - position,
        }
    }
}

// The most points of a loop that the processor's cache is expected to keep.
const SHORT_LOOP: u32 = 8192;

// Whether point `i` is in a loop so short that the processor's cache has its points.
fn is_near(v: &VoiceParameters, looping: bool, i: usize) -> bool
    requires { looping ≡ true → v.now.loop_start < v.now.loop_end }
{
    looping && v.loop_start as usize <= i && v.loop_end - v.loop_start <= SHORT_LOOP
}

// Reads the pairs of the first frames of a run from position `x` on, up to the end of the slice or the loop. Returns
// how many frames were read, and the slice.
fn fill_prefix<'a>(
    points: &Points<'a>,
    v: &VoiceParameters,
    looping: bool,
    current: Slice<'a>,
    x: u64,
    pairs: &mut [u32],
) -> (usize, Slice<'a>)
    requires playable { IsPlayable (length points.now) v.now }
    requires looped { looping ≡ true → v.now.looped ≡ true }
    requires is_current { IsCurrentSlice points.now current }
    requires near { x < 65536 * limit v.now looping }
    requires some { (0 < length pairs.old) × (length pairs.old ≤ LONGEST) }
    ensures near { x < 2 ^ 48 }
    ensures some { (0 < result.0) × (result.0 ≤ length pairs.new) }
    ensures before { (k : ℕ) → k < result.0 → x + k * v.now.phase_increment < 65536 * limit v.now looping }
    ensures value { (k : ℕ) → k < result.0
        → interpolated_pair (slice_index pairs.new k) ((x + k * v.now.phase_increment) % 65536)
        ≡ point_of points.now v.now looping (x + k * v.now.phase_increment) }
    ensures is_current { IsCurrentSlice points.now result.1 }
{
    let i = (x / ONE_POINT) as usize;
    let slice = current.around(points, i);
    let first = i - slice.first;
    let ahead = &slice.bytes[2 * first..];
    let ends = (limit_of(v, looping) as usize - i)
        .min(ahead.len() / 2)
        .min(FARTHEST);
    if 1 < ends {
        let part = (x % ONE_POINT) as u32;
        let to = ONE_POINT * (ends as u64 - 1);
        let n = frames_before(
            u64::from(part),
            u64::from(v.phase_increment),
            to,
            pairs.len() as u64,
        ) as usize;
        read_straight(
            ahead,
            is_near(v, looping, i),
            part,
            v.phase_increment,
            &mut pairs[..n],
        );
        (n, slice)
    } else {
        pairs[0] = pair_at_position(points, v, looping, x);
        (1, slice)
    }
}

// The index of the point at which the loop wraps or the sample ends.
fn limit_of(v: &VoiceParameters, looping: bool) -> u32
    ensures { result ≡ limit v.now looping }
{
    if looping { v.loop_end } else { v.end }
}

// Reads the pairs of points around each frame of a stretch, whose first position is `from`. Returns the position of the
// frame after them, and the slice cached there. A loop is a whole number of points long, so wrapping doesn't change the
// fraction of a position.
fn fill_pairs<'a>(
    points: &Points<'a>,
    v: &VoiceParameters,
    t: u64,
    from: u64,
    current: Slice<'a>,
    pairs: &mut [u32],
) -> (u64, Slice<'a>)
    requires playable { IsPlayable (length points.now) v.now }
    requires is_stretch { IsStretch v.now t (length pairs.old) }
    requires here { from ≡ position v.now t }
    requires is_current { IsCurrentSlice points.now current }
    requires short { length pairs.old ≤ LONGEST }
    ensures pairs { EachIndex pairs.new (λ k. interpolated_pair (slice_index pairs.new k) ((from + k * v.now.phase_increment) % 65536)
        ≡ point_of points.now v.now (is_looping v.now (t + k)) (position v.now (t + k))) }
    ensures there { result.0 ≡ position v.now (t + length pairs.old) }
    ensures is_current { IsCurrentSlice points.now result.1 }
{
    let looping = is_looping_at(v, t);
    let mut x = from;
    let mut slice = current;
    let mut at = 0;
    while at < pairs.len() {
        let (n, next) = fill_prefix(points, v, looping, slice, x, &mut pairs[at..]);
        x = advanced(v, looping, x, n);
        slice = next;
        at += n;
    }
    (x, slice)
}

// Computes the interpolated point at each frame of a stretch, whose first position is `from`. Returns the position of
// the frame after them, and the slice cached there.
pub(crate) fn fill_points<'a>(
    points: &Points<'a>,
    v: &VoiceParameters,
    t: u64,
    from: u64,
    current: Slice<'a>,
    pairs: &mut [u32],
    run: &mut [i16],
) -> (u64, Slice<'a>)
    requires playable { IsPlayable (length points.now) v.now }
    requires is_stretch { IsStretch v.now t (length run.old) }
    requires here { from ≡ position v.now t }
    requires is_current { IsCurrentSlice points.now current }
    requires short { length run.old ≤ LONGEST }
    requires long { length pairs.old ≡ length run.old }
    ensures points { EachIndex run.new (λ k. slice_index_or run.new k (pos 0)
        ≡ point_of points.now v.now (is_looping v.now (t + k)) (position v.now (t + k))) }
    ensures there { result.0 ≡ position v.now (t + length run.old) }
    ensures is_current { IsCurrentSlice points.now result.1 }
{
    let after_run = fill_pairs(points, v, t, from, current, pairs);
    interpolate(pairs, (from % 65536) as u32, v.phase_increment % 65536, run);
    after_run
}
