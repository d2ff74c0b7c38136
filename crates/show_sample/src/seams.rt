//! The seam of a loop: its last points, joined to its first ones.
ghost use Rattle.std.specs.Prelude.{◌≡◌, ◌*◌, ◌<◌, ◌≤◌, length, slice_index};
ghost use Rattle.std.specs.Int.{w16, cast_signed};
ghost use Rattle.base_outputs.specs.Output.{Puts};
ghost use Rattle.show_sample.specs.Seams.{side_count, seam_points, dot, seam};

use crate::extremes::height;
use base_outputs::Output;
use sample_view::Points;
use show_zone_map::marks::{number, put_marks, text};
use std::io::Write;

/// The most points on each side of a seam.
const SIDE: u32 = 64;

/// The distance of two points.
const DISTANCE: u32 = 5;

// How many points are shown on each side of the seam.
pub(crate) fn side_count(looped: (u32, u32)) -> u32
    requires { looped.0 ≤ looped.1 }
    ensures { result ≡ side_count looped }
{
    SIDE.min(looped.1 - looped.0)
}

// Writes the seam of a loop as the `points` of a `polyline`.
pub(crate) fn put_seam<W: Write>(
    points: &Points<'_>,
    looped: (u32, u32),
    output: &mut Output<'_, W>,
)
    requires order { looped.0 < looped.1 }
    requires inside { looped.1 ≤ length points.now }
    ensures { Puts W.contents output.old output.new (seam points.now looped) }
{
    for index in 0..2 * side_count(looped) {
        put_dot(points, looped, index, output);
    }
}

// Writes a point of the seam.
fn put_dot<W: Write>(
    points: &Points<'_>,
    looped: (u32, u32),
    index: u32,
    output: &mut Output<'_, W>,
)
    requires order { looped.0 < looped.1 }
    requires inside { looped.1 ≤ length points.now }
    requires index { index < 2 * side_count looped }
    ensures { Puts W.contents output.old output.new (dot points.now looped index) }
{
    let marks = [
        number(DISTANCE * (SIDE - side_count(looped) + index)),
        text(b","),
        number(height(seam_point(points, looped, index))),
        text(b" "),
    ];
    put_marks(&marks, output);
}

// A point of the seam: of the last ones of the loop, or of the first ones.
fn seam_point(points: &Points<'_>, looped: (u32, u32), index: u32) -> i16
    requires order { looped.0 < looped.1 }
    requires inside { looped.1 ≤ length points.now }
    requires index { index < 2 * side_count looped }
    ensures { result ≡ cast_signed w16 (slice_index (seam_points points.now looped) index) }
{
    let (start, end) = looped;
    let count = side_count(looped);
    if index < count {
        points.point((end - count + index) as usize)
    } else {
        points.point((start + (index - count)) as usize)
    }
}
