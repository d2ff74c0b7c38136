//! Whether two lists of points are equal, however they are split into slices.
ghost use Rattle.std.specs.Prelude.{◌≡◌, ◌≢◌, ◌+◌, ◌<◌, ◌↔◌, ◌++◌, ℕ, List, min, length, IsTrue, IfSome, MatchOption};
ghost use Rattle.sample_view.specs.Pieces.{joined_bytes};
ghost use Rattle.bank_equality.specs.Unread.{remaining_bytes, remaining_slices};

use sample_view::Points;

/// Whether both have the same points, however they are split into slices. It compares whole runs of bytes.
pub fn same_points(a: &Points<'_>, b: &Points<'_>) -> bool
    ensures { IsTrue result ↔ (a.now ≡ b.now) }
{
    a.len() == b.len() && same_bytes(a.pieces(), b.pieces())
}

// The unread bytes of a list of slices: the rest of one slice, and the slices after it.
#[derive(Clone, Copy)]
struct Unread<'a> {
    first: &'a [u8],
    others: &'a [&'a [u8]],
}

fn same_bytes(a: &[&[u8]], b: &[&[u8]]) -> bool
    ensures { IsTrue result ↔ (joined_bytes a.now ≡ joined_bytes b.now) }
{
    let mut left = Unread {
        first: &[],
        others: a,
    };
    let mut right = Unread {
        first: &[],
        others: b,
    };
    while !left.others.is_empty() || !right.others.is_empty() {
        match skip_common(left, right) {
            Some((next, other)) => {
                left = next;
                right = other;
            }
            None => return false,
        }
    }
    left.first == right.first
}

// Skips the equal bytes at the start of both, up to the end of the shorter slice, and moves on to the slice after it.
// None if both lists differ.
fn skip_common<'a, 'b>(left: Unread<'a>, right: Unread<'b>) -> Option<(Unread<'a>, Unread<'b>)>
    requires { 0 < remaining_slices left + remaining_slices right }
    ensures value { MatchOption result (remaining_bytes left.entry ≢ remaining_bytes right.entry) (λ both. (remaining_bytes left.entry ≡ remaining_bytes right.entry) ↔ (remaining_bytes both.0 ≡ remaining_bytes both.1)) }
    ensures fewer { IfSome result (λ both. remaining_slices both.0 + remaining_slices both.1 < remaining_slices left.entry + remaining_slices right.entry) }
{
    let (first, second) = strip_common_prefix(left.first, right.first)?;
    if first.is_empty() {
        if let Some((next, others)) = left.others.split_first() {
            let left = Unread {
                first: *next,
                others,
            };
            let right = Unread {
                first: second,
                others: right.others,
            };
            return Some((left, right));
        }
    }
    if !second.is_empty() {
        return None;
    }
    let (next, others) = right.others.split_first()?;
    let left = Unread {
        first,
        others: left.others,
    };
    let right = Unread {
        first: *next,
        others,
    };
    Some((left, right))
}

// The rest of both after the length of the shorter one; none if they differ up to there.
fn strip_common_prefix<'a, 'b>(a: &'a [u8], b: &'b [u8]) -> Option<(&'a [u8], &'b [u8])>
    ensures value { (xs ys : List ℕ) → MatchOption result (a.now ++ xs ≢ b.now ++ ys) (λ rest. (a.now ++ xs ≡ b.now ++ ys) ↔ (rest.0.now ++ xs ≡ rest.1.now ++ ys)) }
    ensures shorter { IfSome result (λ rest. min (length rest.0.now) (length rest.1.now) ≡ 0) }
{
    let count = a.len().min(b.len());
    let (front, rest) = a.split_at(count);
    let (other, others) = b.split_at(count);
    if front == other {
        return Some((rest, others));
    }
    None
}
