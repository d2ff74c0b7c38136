//! Shifts of the indexes of later bags or owners.
ghost use Rattle.std.specs.Prelude.{◌≡◌, ◌≤◌, length, map, All, take, drop, vec_len, vec_capacity};
ghost use Rattle.base_numbered_lists.specs.Moved.{changed_within};
ghost use Rattle.flat_records.specs.Runs.{changed_from, changed_exchanged, AreAdjacentRanges};

use crate::indexes::Index;
use crate::pieces::exchange;

// One statement without a branch in the loop, so that the compiler vectorizes it.
fn raise_all<I: Index>(list: &mut [I], by: I)
    requires { All (I.CanRaise by) list.old }
    ensures { list.new ≡ map (I.raised by) list.old }
{
    if !by.is_origin() {
        for at in list.iter_mut() {
            at.raise(by);
        }
    }
}

fn lower_all<I: Index>(list: &mut [I], by: I)
    requires { All (I.CanLower by) list.old }
    ensures { list.new ≡ map (I.lowered by) list.old }
{
    if !by.is_origin() {
        for at in list.iter_mut() {
            at.lower(by);
        }
    }
}

/// Adds to index `k` and to all later ones.
pub(crate) fn raise_from<I: Index>(list: &mut Vec<I>, k: usize, by: I)
    requires place { k ≤ length list.old.items }
    requires fits { All (I.CanRaise by) (drop k list.old.items) }
    ensures list { list.new.items ≡ changed_from k (I.raised by) list.old.items }
    ensures len { vec_len list.new ≡ vec_len list.old }
    ensures capacity { vec_capacity list.new ≡ vec_capacity list.old }
{
    raise_all(&mut list[k..], by);
}

/// Subtracts from index `k` and from all later ones.
pub(crate) fn lower_from<I: Index>(list: &mut Vec<I>, k: usize, by: I)
    requires place { k ≤ length list.old.items }
    requires fits { All (I.CanLower by) (drop k list.old.items) }
    ensures list { list.new.items ≡ changed_from k (I.lowered by) list.old.items }
    ensures len { vec_len list.new ≡ vec_len list.old }
    ensures capacity { vec_capacity list.new ≡ vec_capacity list.old }
{
    lower_all(&mut list[k..], by);
}

fn raise_within<I: Index>(list: &mut [I], a: usize, b: usize, by: I)
    requires first { a ≤ b }
    requires last { b ≤ length list.old }
    requires fits { All (I.CanRaise by) (drop a (take b list.old)) }
    ensures { list.new ≡ changed_within a b (I.raised by) list.old }
{
    raise_all(&mut list[a..b], by);
}

fn lower_within<I: Index>(list: &mut [I], a: usize, b: usize, by: I)
    requires first { a ≤ b }
    requires last { b ≤ length list.old }
    requires fits { All (I.CanLower by) (drop a (take b list.old)) }
    ensures { list.new ≡ changed_within a b (I.lowered by) list.old }
{
    lower_all(&mut list[a..b], by);
}

fn exchange_slices<I: Index>(list: &mut [I], a: usize, b: usize, c: usize, down: I, up: I)
    requires places { AreAdjacentRanges a b c (length list.old) }
    requires lower { All (I.CanLower down) (drop b (take c list.old)) }
    requires raise { All (I.CanRaise up) (drop a (take b list.old)) }
    ensures { list.new ≡ changed_exchanged a b c (I.lowered down) (I.raised up) list.old }
{
    raise_within(list, a, b, up);
    lower_within(list, b, c, down);
    exchange(list, a, b, c);
}

/// Exchanges the indexes `a..b`, which are raised, with the indexes `b..c`, which are lowered.
pub(crate) fn exchange_indexes<I: Index>(
    list: &mut Vec<I>,
    a: usize,
    b: usize,
    c: usize,
    down: I,
    up: I,
)
    requires places { AreAdjacentRanges a b c (length list.old.items) }
    requires lower { All (I.CanLower down) (drop b (take c list.old.items)) }
    requires raise { All (I.CanRaise up) (drop a (take b list.old.items)) }
    ensures list { list.new.items ≡ changed_exchanged a b c (I.lowered down) (I.raised up) list.old.items }
    ensures len { vec_len list.new ≡ vec_len list.old }
    ensures capacity { vec_capacity list.new ≡ vec_capacity list.old }
{
    exchange_slices(list.as_mut_slice(), a, b, c, down, up);
}
