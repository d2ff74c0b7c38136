//! Insertion and removal of several members of a list.
ghost use Rattle.std.specs.Prelude.{◌≡◌, ◌+◌, ◌-◌, ◌≤◌, ◌<◌, ◌++◌, length, insert, remove, take, drop, vec_len, vec_capacity};
ghost use Rattle.flat_records.specs.Runs.{put, cut, exchanged, AreAdjacentRanges};

/// Inserts a member at index `i` of a `Vec` with spare capacity.
// A single insertion is a plain shift of the later members, which is faster than a rotation.
pub(crate) fn put_one_within<T>(list: &mut Vec<T>, i: usize, item: T)
    requires place { i ≤ length list.old.items }
    requires room { vec_len list.old < vec_capacity list.old }
    ensures list { list.new.items ≡ insert list.old.items i item }
    ensures len { vec_len list.new ≡ vec_len list.old + 1 }
    ensures capacity { vec_capacity list.old ≤ vec_capacity list.new }
{
    match list.insert(i, item) {
        Ok(()) => {}
        Err(_) => unreachable!(),
    }
}

/// Inserts members at index `i` of a `Vec` with enough spare capacity.
pub(crate) fn put_within<T: Copy>(list: &mut Vec<T>, i: usize, items: &[T])
    requires place { i ≤ length list.old.items }
    requires room { vec_len list.old + length items.now ≤ vec_capacity list.old }
    ensures list { list.new.items ≡ put list.old.items i items.now }
    ensures len { vec_len list.new ≡ vec_len list.old + length items.now }
    ensures capacity { vec_capacity list.old ≤ vec_capacity list.new }
{
    match items {
        [] => {}
        [item] => put_one_within(list, i, *item),
        _ => {
            match list.extend_from_slice(items) {
                Ok(()) => {}
                Err(_) => unreachable!(),
            }
            list[i..].rotate_right(items.len());
        }
    }
}

/// Inserts the members of two slices at index `i` of a `Vec` with enough spare capacity, in one shift.
pub(crate) fn put_both_within<T: Copy>(list: &mut Vec<T>, i: usize, first: &[T], second: &[T])
    requires place { i ≤ length list.old.items }
    requires room { vec_len list.old + (length first.now + length second.now) ≤ vec_capacity list.old }
    ensures list { list.new.items ≡ put list.old.items i (first.now ++ second.now) }
    ensures len { vec_len list.new ≡ vec_len list.old + (length first.now + length second.now) }
    ensures capacity { vec_capacity list.old ≤ vec_capacity list.new }
{
    match (first, second) {
        ([], _) => put_within(list, i, second),
        (_, []) => put_within(list, i, first),
        _ => {
            match list.extend_from_slice(first) {
                Ok(()) => {}
                Err(_) => unreachable!(),
            }
            match list.extend_from_slice(second) {
                Ok(()) => {}
                Err(_) => unreachable!(),
            }
            list[i..].rotate_right(first.len() + second.len());
        }
    }
}

/// Removes `n` members from index `i`.
pub(crate) fn cut_within<T: Copy>(list: &mut Vec<T>, i: usize, n: usize)
    requires { i + n ≤ length list.old.items }
    ensures list { list.new.items ≡ cut list.old.items i n }
    ensures len { vec_len list.new + n ≡ vec_len list.old }
    ensures capacity { vec_capacity list.new ≡ vec_capacity list.old }
{
    match n {
        0 => {}
        1 => {
            list.remove(i);
        }
        _ => {
            list[i..].rotate_left(n);
            let left = list.len() - n;
            list.truncate(left);
        }
    }
}

/// Exchanges the members `a..b` with the members `b..c`.
pub(crate) fn exchange<T: Copy>(list: &mut [T], a: usize, b: usize, c: usize)
    requires { AreAdjacentRanges a b c (length list.old) }
    ensures { list.new ≡ exchanged list.old a b c }
{
    list[a..c].rotate_left(b - a);
}

/// Exchanges the members `a..b` with the members `b..c`.
pub(crate) fn exchange_within<T: Copy>(list: &mut Vec<T>, a: usize, b: usize, c: usize)
    requires { AreAdjacentRanges a b c (length list.old.items) }
    ensures list { list.new.items ≡ exchanged list.old.items a b c }
    ensures len { vec_len list.new ≡ vec_len list.old }
    ensures capacity { vec_capacity list.new ≡ vec_capacity list.old }
{
    exchange(list.as_mut_slice(), a, b, c);
}

/// The members `start..end`.
pub(crate) fn part<T>(list: &[T], start: usize, end: usize) -> &[T]
    requires start { start ≤ end }
    requires end { end ≤ length list.now }
    ensures { result.now ≡ take (end - start) (drop start list.now) }
{
    &list[start..end]
}
