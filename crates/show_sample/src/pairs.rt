//! Pairs of samples that are linked to each other.
ghost use Rattle.std.specs.Prelude.{◌≡◌};
ghost use Rattle.show_sample.specs.Pairs.{is_left_of, is_right_of, has_kind, sides_of};

use bank_core::{Bank, Kind};

// The left and the right sample that the picture of a sample shows: the pair of which it is one. None if it is shown
// alone.
pub(crate) fn sides_of(bank: &Bank<'_>, sample: u32) -> Option<(u32, u32)>
    ensures { result ≡ sides_of bank.now.samples sample }
{
    match bank.sample(sample)?.kind {
        Kind::Left(link) => {
            let right = u32::from(link);
            is_right(bank, right, sample).then_some((sample, right))
        }
        Kind::Right(link) => {
            let left = u32::from(link);
            is_left(bank, left, sample).then_some((left, sample))
        }
        Kind::Mono | Kind::Linked(_) => None,
    }
}

// Whether a sample is a left one whose right sample is `right`.
fn is_left(bank: &Bank<'_>, sample: u32, right: u32) -> bool
    ensures { result ≡ has_kind (is_left_of right) bank.now.samples sample }
{
    match bank.sample(sample) {
        Some(found) => is_left_of(found.kind, right),
        None => false,
    }
}

fn is_left_of(kind: Kind, right: u32) -> bool
    ensures { result ≡ is_left_of right kind }
{
    match kind {
        Kind::Left(link) => u32::from(link) == right,
        _ => false,
    }
}

// Whether a sample is a right one whose left sample is `left`.
fn is_right(bank: &Bank<'_>, sample: u32, left: u32) -> bool
    ensures { result ≡ has_kind (is_right_of left) bank.now.samples sample }
{
    match bank.sample(sample) {
        Some(found) => is_right_of(found.kind, left),
        None => false,
    }
}

fn is_right_of(kind: Kind, left: u32) -> bool
    ensures { result ≡ is_right_of left kind }
{
    match kind {
        Kind::Right(link) => u32::from(link) == left,
        _ => false,
    }
}
