//! Changes of a list in place.
ghost use Rattle.std.specs.Prelude.{◌≡◌, ◌<◌, ◌≤◌, length, insert, vec_len, vec_capacity};
ghost use Rattle.base_numbered_lists.specs.Moved.{moved};

/// Inserts `x` at index `i` of a vector that has the capacity for it. Allocates nothing.
pub fn insert_within<T>(vec: &mut Vec<T>, i: usize, x: T)
    requires place { i ≤ length vec.old.items }
    requires room { vec_len vec.old < vec_capacity vec.old }
    ensures { vec.new.items ≡ insert vec.old.items i x }
{
    match vec.insert(i, x) {
        Ok(()) => {}
        Err(_) => unreachable!(),
    }
}

/// Moves member `from` to index `to`; the others keep their order. Only members between the two indexes move.
pub fn move_within<T>(members: &mut [T], from: usize, to: usize)
    requires from { from < length members.old }
    requires to { to < length members.old }
    ensures { members.new ≡ moved members.old from to }
{
    if from <= to {
        members[from..=to].rotate_left(1);
    } else {
        members[to..=from].rotate_right(1);
    }
}
