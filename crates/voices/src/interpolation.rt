//! Interpolation between the points of a sample. Functions called for each frame of a run are always inlined, so that
//! the run's loop has no calls and is vectorized.
ghost use Rattle.std.specs.Prelude.{◌≡◌, ◌+◌, ◌*◌, ◌/◌, ◌%◌, ◌≤◌, ◌<◌, ◌≤ℤ◌, pos, negsuc, length, true};
ghost use Rattle.voices.specs.Points.{between, point_at, follower, point_of};
ghost use Rattle.voices.specs.Runs.{interpolated_pair};

use crate::positions::ONE_POINT;
use sample_view::Points;
use zone_select::VoiceParameters;

// Linear interpolation between two points, at `part` of 65536. The product may overflow, but its sum with the first
// point fits in 32 bits, so wrapping arithmetic gives the exact result.
#[inline(always)]
pub(crate) fn interpolated(p0: i16, p1: i16, part: u32) -> i32
    requires { part < 65536 }
    ensures value { result ≡ between p0 p1 part }
    ensures low { negsuc 32767 ≤ℤ result }
    ensures high { result ≤ℤ pos 32767 }
{
    let apart = i32::from(p1) - i32::from(p0);
    let risen = apart.wrapping_mul(part as i32);
    (i32::from(p0) * 65536).wrapping_add(risen) >> 16
}

// The point after point `i`.
#[tactic(auto, unfolding(crate::specs::Points::follower, crate::specs::Points::point_at))]
fn follower_at(points: &Points, v: &VoiceParameters, looping: bool, i: usize) -> i16
    requires inside { v.now.end ≤ length points.now }
    requires loop_inside { looping ≡ true → v.now.loop_start < length points.now }
    requires near { i < v.now.end }
    ensures { result ≡ follower points.now v.now looping i }
{
    if looping && i + 1 == v.loop_end as usize {
        points.point(v.loop_start as usize)
    } else if i + 1 < v.end as usize {
        points.point(i + 1)
    } else {
        0
    }
}

// The interpolated point at a position before the end.
#[tactic(auto, unfolding(crate::specs::Points::point_of, crate::specs::Points::point_at))]
pub(crate) fn point_at_position(points: &Points, v: &VoiceParameters, looping: bool, x: u64) -> i32
    requires inside { v.now.end ≤ length points.now }
    requires loop_inside { looping ≡ true → v.now.loop_start < length points.now }
    requires near { x < 65536 * v.now.end }
    ensures value { result ≡ point_of points.now v.now looping x }
    ensures low { negsuc 32767 ≤ℤ result }
    ensures high { result ≤ℤ pos 32767 }
{
    let i = (x / ONE_POINT) as usize;
    interpolated(
        points.point(i),
        follower_at(points, v, looping, i),
        (x % ONE_POINT) as u32,
    )
}

// The points around a position before the end, packed into one word: the first in the lower 16 bits.
#[tactic(auto, unfolding(crate::specs::Points::point_of, crate::specs::Points::point_at))]
pub(crate) fn pair_at_position(points: &Points, v: &VoiceParameters, looping: bool, x: u64) -> u32
    requires inside { v.now.end ≤ length points.now }
    requires loop_inside { looping ≡ true → v.now.loop_start < length points.now }
    requires near { x < 65536 * v.now.end }
    ensures { interpolated_pair result (x % 65536) ≡ point_of points.now v.now looping x }
{
    let i = (x / ONE_POINT) as usize;
    let here = points.point(i).cast_unsigned();
    let next = follower_at(points, v, looping, i).cast_unsigned();
    u32::from(here) + 65536 * u32::from(next)
}
