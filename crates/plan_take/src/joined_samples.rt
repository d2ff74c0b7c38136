//! Whether samples are those of one bank, followed by those of another.
ghost use Rattle.std.specs.Prelude.{◌≡◌, ◌+◌, ◌++◌, length, map, true};
ghost use Rattle.plan_take.specs.Shifted.{kind_shifted, sample_shifted};

use crate::sample_matches::is_match;
use bank_core::{Kind, Sample};
use bank_equality::{SameHead, same_samples};

/// Whether all samples are the first ones, followed by the added ones with their links increased by the count of the
/// first.
pub(crate) fn are_joined_samples(
    all: &[Sample<'_>],
    first: &[Sample<'_>],
    added: &[Sample<'_>],
) -> bool
    ensures { result ≡ true → all.now ≡ first.now ++ map (sample_shifted (length first.now)) added.now }
{
    let count = first.len();
    if all.len() < count {
        return false;
    }
    let (start, rest) = all.split_at(count);
    same_samples(start, first) && are_shifted(rest, added, count)
}

// Whether samples are equal to others with their links increased.
fn are_shifted(samples: &[Sample<'_>], others: &[Sample<'_>], by: usize) -> bool
    ensures { result ≡ true → samples.now ≡ map (sample_shifted by) others.now }
{
    if samples.len() != others.len() {
        return false;
    }
    for i in 0..others.len() {
        if !is_shifted(&samples[i], &others[i], by) {
            return false;
        }
    }
    true
}

fn is_shifted(sample: &Sample<'_>, other: &Sample<'_>, by: usize) -> bool
    ensures { result ≡ true → sample.now ≡ sample_shifted by other.now }
{
    sample.name.is_same(&other.name)
        && is_shifted_kind(sample.kind, other.kind, by)
        && is_match(sample, other)
}

fn is_shifted_kind(kind: Kind, other: Kind, by: usize) -> bool
    ensures { result ≡ true → kind ≡ kind_shifted by other }
{
    match (kind, other) {
        (Kind::Mono, Kind::Mono) => true,
        (Kind::Right(a), Kind::Right(b)) => is_sum(a, by, b),
        (Kind::Left(a), Kind::Left(b)) => is_sum(a, by, b),
        (Kind::Linked(a), Kind::Linked(b)) => is_sum(a, by, b),
        _ => false,
    }
}

fn is_sum(sum: u16, a: usize, b: u16) -> bool
    ensures { result ≡ true → sum ≡ a + b }
{
    a.checked_add(b.into()) == Some(sum.into())
}
