//! Whether two samples are equal.
ghost use Rattle.std.specs.Prelude.{◌≡◌, ◌<◌, ◌↔◌, ℕ, slice_get, IsTrue};

use crate::heads::SameHead;
use crate::points::same_points;
use bank_parts::{Kind, Sample};

/// Whether all samples are equal, in the same order.
pub fn same_samples(a: &[Sample<'_>], b: &[Sample<'_>]) -> bool
    ensures { IsTrue result ↔ (a.now ≡ b.now) }
{
    if a.len() != b.len() {
        return false;
    }
    for i in 0..a.len() {
        if !same_sample(&a[i], &b[i]) {
            return false;
        }
    }
    true
}

/// Whether both samples are equal, including their points.
pub fn same_sample(a: &Sample<'_>, b: &Sample<'_>) -> bool
    ensures { IsTrue result ↔ (a.now ≡ b.now) }
{
    same_sample_head(a, b) && same_points(&a.points, &b.points)
}

/// Whether both samples are equal apart from their points.
pub fn same_sample_head(a: &Sample<'_>, b: &Sample<'_>) -> bool
    ensures { IsTrue result ↔ (b.now ≡ record a.now { points = b.now.points }) }
{
    a.name.is_same(&b.name)
        && same_loop(a.looped, b.looped)
        && a.rate == b.rate
        && a.key == b.key
        && a.correction == b.correction
        && same_kind(a.kind, b.kind)
}

fn same_loop(a: Option<(u32, u32)>, b: Option<(u32, u32)>) -> bool
    ensures { IsTrue result ↔ (a ≡ b) }
{
    a == b
}

fn same_kind(a: Kind, b: Kind) -> bool
    ensures { IsTrue result ↔ (a ≡ b) }
{
    a == b
}
