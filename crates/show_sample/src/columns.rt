//! The columns of a waveform.
ghost use Rattle.std.specs.Prelude.{◌≡◌, ◌<◌, ◌≤◌, length};
ghost use Rattle.show_sample.specs.Extremes.{extremes_of};
ghost use Rattle.show_sample.specs.Columns.{column_start, column_points};

use crate::extremes::{Extremes, extremes_between};
use sample_view::Points;

/// Returns the lowest and the highest of the points that column `number` of `width` columns stands for: of n points,
/// those from index number·n/width up to (number + 1)·n/width. There are at least as many points as columns, so it
/// stands for at least one.
pub fn column(points: &Points<'_>, width: u32, number: u32) -> Extremes
    requires number { number < width }
    requires width { width ≤ length points.now }
    ensures { result ≡ extremes_of (column_points points.now width number) }
{
    let start = column_start(points.len(), width, number);
    let end = column_start(points.len(), width, number + 1);
    extremes_between(points, start, end)
}

// The index of the first of `count` points that a column stands for; for the number after the last column, `count`.
fn column_start(count: usize, width: u32, number: u32) -> usize
    requires some { 0 < width }
    requires number { number ≤ width }
    ensures { result ≡ column_start count width number }
{
    (count as u128 * u128::from(number) / u128::from(width)) as usize
}
