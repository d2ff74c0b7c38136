//! The lowest and the highest of points, and their heights in a picture.
ghost use Rattle.std.specs.Prelude.{[], ◌≡◌, ◌+◌, ◌/◌, ◌%◌, ◌<◌, ◌≤◌, length, take, drop, slice_range};
ghost use Rattle.sample_view.specs.Words.{words};
ghost use Rattle.show_sample.specs.Extremes.{extremes_of, widened_by, AreExtremes, height};

use sample_view::Points;

/// The bytes of a point.
const POINT_SIZE: usize = 2;

/// How many values have one height.
const STEP: u16 = 64;

/// The lowest and the highest of some points.
#[derive(Debug, Clone, Copy, PartialEq, Eq)]
pub struct Extremes {
    pub low: i16,
    pub high: i16,
}

impl Extremes {
    // Those of no points.
    fn none() -> Extremes
        ensures { result ≡ extremes_of [] }
    {
        Extremes {
            low: i16::MAX,
            high: i16::MIN,
        }
    }

    // Those of these points too. One pass over the bytes, without branches.
    fn widened(self, bytes: &[u8]) -> Extremes
        requires { length bytes.now % 2 ≡ 0 }
        ensures { result ≡ widened_by self (words bytes.now) }
    {
        let mut low = self.low;
        let mut high = self.high;
        for index in 0..bytes.len() / POINT_SIZE {
            let at = POINT_SIZE * index;
            let point = i16::from_le_bytes([bytes[at], bytes[at + 1]]);
            low = low.min(point);
            high = high.max(point);
        }
        Extremes { low, high }
    }
}

/// Returns the lowest and the highest of the points from index `start` up to, but not including, `end`.
pub fn extremes_between(points: &Points<'_>, start: usize, end: usize) -> Extremes
    requires order { start < end }
    requires inside { end ≤ length points.now }
    ensures value { result ≡ extremes_of (slice_range points.now start end) }
    ensures bounds { AreExtremes (slice_range points.now start end) result }
{
    let mut found = Extremes::none();
    let mut index = start;
    while index < end {
        let run = run_from(points, index);
        let count = (run.len() / POINT_SIZE).min(end - index);
        found = found.widened(&run[..POINT_SIZE * count]);
        index += count;
    }
    found
}

// The points from `index` on that one slice has; at least that point.
fn run_from<'a>(points: &Points<'a>, index: usize) -> &'a [u8]
    requires { index < length points.now }
    ensures filled { 2 ≤ length result.now }
    ensures even { length result.now % 2 ≡ 0 }
    ensures inside { index + length result.now / 2 ≤ length points.now }
    ensures points { words result.now ≡ take (length result.now / 2) (drop index points.now) }
{
    let (bytes, position) = points.slice_at(index);
    &bytes[POINT_SIZE * position..]
}

/// Returns the vertical position of a point in a picture that is 1024 units high: 0 for 32767, 1023 for -32768.
pub fn height(point: i16) -> u32
    ensures value { result ≡ height point }
    ensures within { result < 1024 }
{
    u32::from(i16::MAX.abs_diff(point) / STEP)
}
