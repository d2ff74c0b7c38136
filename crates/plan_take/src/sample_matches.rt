//! Whether samples match those of the other bank of which they are copies.
ghost use Rattle.std.specs.Prelude.{◌≡◌, ◌<◌, ℕ, length, true, Some, slice_get};
ghost use Rattle.plan_take.specs.Matches.{AreBoth, AllMatch, SamplesMatch};

use bank_core::Sample;
use bank_equality::same_points;

/// Whether each sample that has a number matches the sample with that number.
pub(crate) fn samples_match(from: &[Sample<'_>], to: &[Sample<'_>], numbers: &[Option<u16>]) -> bool
    ensures { result ≡ true → AllMatch SamplesMatch numbers.now from.now to.now }
{
    for i in 0..numbers.len() {
        if !has_match(from, i, to, numbers[i]) {
            return false;
        }
    }
    true
}

// Whether a sample matches the sample with its number, if it has one.
fn has_match(from: &[Sample<'_>], i: usize, to: &[Sample<'_>], number: Option<u16>) -> bool
    ensures { result ≡ true → (j : ℕ) → number ≡ Some j → AreBoth SamplesMatch (slice_get from.now i) (slice_get to.now j) }
{
    let Some(j) = number else {
        return true;
    };
    let j = usize::from(j);
    i < from.len() && j < to.len() && is_match(&from[i], &to[j])
}

/// Whether two samples are equal except for their names and kinds.
pub(crate) fn is_match(a: &Sample<'_>, b: &Sample<'_>) -> bool
    ensures { result ≡ true → SamplesMatch a.now b.now }
{
    same_loop(a.looped, b.looped)
        && a.rate == b.rate
        && a.key == b.key
        && a.correction == b.correction
        && same_points(&a.points, &b.points)
}

fn same_loop(a: Option<(u32, u32)>, b: Option<(u32, u32)>) -> bool
    ensures { result ≡ true → a ≡ b }
{
    a == b
}
