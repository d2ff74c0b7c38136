//! Loops that click.
ghost use Rattle.std.specs.Prelude.{◌≡◌, ◌<◌, ◌≤◌, ◌^◌, length};
ghost use Rattle.show_findings.specs.Clicks.{step_between, steps, largest, loop_step, clicking_loop};

use crate::finding::Finding;
use bank_core::Sample;
use sample_view::Points;

/// How many points at each end of a loop show how far neighbouring points are apart.
const LOOP_ENDS: usize = 1024;

/// The highest jump that is no click.
const QUIET_JUMP: u32 = 1000;

/// The click of a sample's loop, if it clicks.
pub(crate) fn clicking_loop(number: u32, sample: &Sample<'_>) -> Option<Finding>
    ensures { result ≡ clicking_loop number sample.now }
{
    let (start, end) = sample.looped?;
    let (start, end) = (start as usize, end as usize);
    if start >= end || end > sample.points.len() {
        return None;
    }
    let jump = step_between(&sample.points, end - 1, start);
    if jump <= QUIET_JUMP {
        return None;
    }
    let step = loop_step(&sample.points, start, end);
    if u64::from(jump) <= 2 * u64::from(step) {
        return None;
    }
    Some(Finding::ClickingLoop {
        sample: number,
        jump,
        step,
    })
}

// The largest step between neighbouring points at either end of a loop.
fn loop_step(points: &Points<'_>, start: usize, end: usize) -> u32
    requires order { start < end }
    requires inside { end ≤ length points.now }
    requires small { start < 2 ^ 32 }
    ensures { result ≡ loop_step points.now (start, end) }
{
    let first = largest_step(points, start, end.min(start + LOOP_ENDS));
    let last = largest_step(points, start.max(end.saturating_sub(LOOP_ENDS)), end);
    first.max(last)
}

// The largest step between neighbouring points from one position to before another.
fn largest_step(points: &Points<'_>, from: usize, to: usize) -> u32
    requires { to ≤ length points.now }
    ensures { result ≡ largest (steps points.now from to) }
{
    let mut largest = 0;
    for at in from..to.saturating_sub(1) {
        largest = largest.max(step_between(points, at, at + 1));
    }
    largest
}

// How far two points are apart.
fn step_between(points: &Points<'_>, first: usize, second: usize) -> u32
    requires first { first < length points.now }
    requires second { second < length points.now }
    ensures { result ≡ step_between points.now first second }
{
    u32::from(points.point(first).abs_diff(points.point(second)))
}
