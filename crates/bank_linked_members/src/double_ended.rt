//! A list with spare capacity at both ends.
ghost use Rattle.std.specs.Prelude.{◌≡◌, ◌<◌, ◌≤◌, ◌-◌, ◌++◌, ◌∷◌, [], length, insert, remove, drop, slice_get, slice_set, vec_len, vec_capacity, Some, IfErr, OnOk, OnErr, All};
ghost use Rattle.std.specs.Borrow.{Lends, sem};
ghost use Rattle.bank_linked_members.specs.contracts.double_ended.DoubleEndedList.{the_row};
ghost use Rattle.base_numbered_lists.specs.Moved.{moved, changed_within};

use crate::linked::Linked;
use crate::span::LinkSpan;
use base_numbered_lists::{Renumbering, insert_within, move_within, renumber_all};
use sf_base::Blank;
use std::alloc::{AllocError, AllocFailed, Global};
use std::marker::Model;

/// A list whose members are numbered from 0. An insertion or removal moves the members on its shorter side, a move
/// those between the two indexes.
pub struct DoubleEndedList<T> {
    // The members come after blanks, which are spare capacity at the start.
    slots: Vec<T>,
    blanks: usize,
}

// Not derived, here and below: a derived `drop` is inlined, and proved, wherever a value is dropped.
impl<T: Drop> Drop for DoubleEndedList<T> {
    fn drop(self) {
        let DoubleEndedList {
            slots: _,
            blanks: _,
        } = self;
    }
}

impl<T> Model for DoubleEndedList<T> {
    ghost use Rattle.std.specs.Prelude.{List, length, drop, ◌≤◌};

    ghost Value = { List T };

    ghost view = { λ l. drop l.blanks l.slots.items };

    ghost invariant = { λ l. l.blanks ≤ length l.slots.items };
}

impl<T> DoubleEndedList<T> {
    /// Makes a list of the elements of a `Vec`. Allocates nothing.
    pub fn from_vec(slots: Vec<T>) -> DoubleEndedList<T>
        ensures { result ≡ slots.items }
    {
        DoubleEndedList { slots, blanks: 0 }
    }

    /// The number of members.
    pub fn len(&self) -> usize
        ensures { result ≡ length self.now }
    {
        self.slots.len() - self.blanks
    }

    /// The members in order.
    pub fn as_slice(&self) -> &[T]
        ensures { result.now ≡ self.now }
    {
        &self.slots[self.blanks..]
    }

    /// Member `i`, which must exist.
    pub fn member(&self, i: usize) -> &T
        requires { i < length self.now }
        ensures { slice_get self.now i ≡ Some result.now }
    {
        &self.as_slice()[i]
    }

    /// A mutable reference to member `i`, which must exist.
    pub fn member_mut(&mut self, i: usize) -> &mut T
        requires { i < length self.old }
        ensures* writes_back { sem 𝓛 (Lends (the_row T.row) T.row self.entry result (λ w. slice_set self.old i w)) }
        ensures value { slice_get self.old i ≡ Some result.now }
    {
        &mut self.slots[self.blanks + i]
    }

    /// Replaces member `i` by `x`, and returns the old member. Allocates nothing.
    pub fn replace(&mut self, i: usize, x: T) -> T
        requires { i < length self.old }
        ensures value { slice_get self.old i ≡ Some result }
        ensures list { self.new ≡ slice_set self.old i x }
    {
        std::mem::replace(self.member_mut(i), x)
    }

    /// Appends `x`. A failed allocation changes nothing and returns `x`.
    pub fn push(&mut self, x: T) -> Result<(), T>
        ensures ok { OnOk result (self.new ≡ self.old ++ x ∷ []) }
        ensures err { OnErr result (self.new ≡ self.old) }
        ensures value_returned { IfErr result (λ y. y ≡ x) }
    {
        self.slots.push(x).map_err(|AllocFailed { value }| value)
    }

    /// Moves member `from` to index `to`; the others keep their order. Allocates nothing.
    pub fn move_member(&mut self, from: usize, to: usize)
        requires from { from < length self.old }
        requires to { to < length self.old }
        ensures { self.new ≡ moved self.old from to }
    {
        move_within(&mut self.slots[self.blanks..], from, to);
    }
}

impl<T: Blank> DoubleEndedList<T> {
    /// Inserts `x` as member `i`; the numbers of later members grow by one. A failed allocation changes nothing and
    /// returns `x`.
    pub fn insert(&mut self, i: usize, x: T) -> Result<(), T>
        requires { i ≤ length self.old }
        ensures ok { OnOk result (self.new ≡ insert self.old i x) }
        ensures err { OnErr result (self.new ≡ self.old) }
        ensures value_returned { IfErr result (λ y. y ≡ x) }
    {
        if i < self.len() / 2 {
            self.make_blanks();
            if self.blanks != 0 {
                insert_over_blank(&mut self.slots, self.blanks, i, x);
                self.blanks -= 1;
                return Ok(());
            }
        }
        if self.slots.try_reserve(1).is_err() {
            return Err(x);
        }
        insert_within(&mut self.slots, self.blanks + i, x);
        Ok(())
    }

    /// Removes and returns member `i`; the numbers of later members fall by one. Allocates nothing.
    pub fn remove(&mut self, i: usize) -> T
        requires { i < length self.old }
        ensures value { slice_get self.old i ≡ Some result }
        ensures list { self.new ≡ remove self.old i }
    {
        let x = self.remove_member(i);
        if self.blanks > self.len() {
            self.drop_blanks();
        }
        x
    }

    // Removes member `i` without dropping blanks. A removal in the first half leaves a blank.
    fn remove_member(&mut self, i: usize) -> T
        requires { i < length self.old }
        ensures value { slice_get self.old i ≡ Some result }
        ensures list { self.new ≡ remove self.old i }
    {
        if i < self.len() / 2 {
            let blank = T::blank(*self.slots.allocator());
            let x = take_to_front(&mut self.slots[self.blanks..], i, blank);
            self.blanks += 1;
            return x;
        }
        self.slots.remove(self.blanks + i)
    }

    // Drops the blanks. This happens when they outnumber the members, so the cost of moving all members is amortized.
    fn drop_blanks(&mut self)
        ensures { self.new ≡ self.old }
    {
        let count = self.slots.len() - self.blanks;
        self.slots.rotate_left(self.blanks);
        self.slots.truncate(count);
        self.blanks = 0;
    }

    // Makes as many blanks as there are members, if there are none, so that the cost of moving all members is
    // amortized. A failed allocation leaves none.
    fn make_blanks(&mut self)
        ensures { self.new ≡ self.old }
    {
        if self.blanks != 0 {
            return;
        }
        let alloc = *self.slots.allocator();
        let Ok(mut slots) = blanks(alloc, self.slots.len()) else {
            return;
        };
        let front = slots.len();
        if slots.append(&mut self.slots).is_ok() {
            self.slots = slots;
            self.blanks = front;
        }
    }
}

impl<T: Linked> DoubleEndedList<T> {
    // Renumbers the members of the span, and inserts `x` as member `i`. A failed allocation changes nothing and returns
    // `x`.
    pub(crate) fn insert_renumbered(
        &mut self,
        by: Renumbering,
        span: LinkSpan,
        i: usize,
        x: T,
    ) -> Result<(), T>
        requires place { i ≤ length self.old }
        requires order { span.start ≤ span.end }
        requires within { span.end ≤ length self.old }
        requires numbers { All (T.can_renumber by) self.old }
        ensures ok { OnOk result (self.new ≡ insert (changed_within span.start span.end (T.with_new_numbers by) self.old) i x) }
        ensures err { OnErr result (self.new ≡ self.old) }
        ensures value_returned { IfErr result (λ y. y ≡ x) }
    {
        if i < self.len() / 2 {
            self.make_blanks();
            if self.blanks != 0 {
                renumber_after_blanks(&mut self.slots, self.blanks, by, span);
                insert_over_blank(&mut self.slots, self.blanks, i, x);
                self.blanks -= 1;
                return Ok(());
            }
        }
        if self.slots.try_reserve(1).is_err() {
            return Err(x);
        }
        renumber_after_blanks(&mut self.slots, self.blanks, by, span);
        insert_within(&mut self.slots, self.blanks + i, x);
        Ok(())
    }

    // Renumbers the members of the span.
    pub(crate) fn renumber_range(&mut self, by: Renumbering, span: LinkSpan)
        requires order { span.start ≤ span.end }
        requires within { span.end ≤ length self.old }
        requires numbers { All (T.can_renumber by) self.old }
        ensures { self.new ≡ changed_within span.start span.end (T.with_new_numbers by) self.old }
    {
        renumber_after_blanks(&mut self.slots, self.blanks, by, span);
    }
}

// Renumbers the members of the span; span indexes count from after the blanks.
fn renumber_after_blanks<T: Linked>(
    slots: &mut Vec<T>,
    blanks: usize,
    by: Renumbering,
    span: LinkSpan,
)
    requires blanks { blanks ≤ length slots.old.items }
    requires order { span.start ≤ span.end }
    requires within { span.end ≤ length (drop blanks slots.old.items) }
    requires numbers { All (T.can_renumber by) (drop blanks slots.old.items) }
    ensures value { drop blanks slots.new.items ≡ changed_within span.start span.end (T.with_new_numbers by) (drop blanks slots.old.items) }
    ensures long { length slots.new.items ≡ length slots.old.items }
    ensures size { vec_len slots.new ≡ vec_len slots.old }
    ensures room { vec_capacity slots.new ≡ vec_capacity slots.old }
{
    renumber_range(&mut slots[blanks..], by, span);
}

fn renumber_range<T: Linked>(members: &mut [T], by: Renumbering, span: LinkSpan)
    requires order { span.start ≤ span.end }
    requires within { span.end ≤ length members.old }
    requires numbers { All (T.can_renumber by) members.old }
    ensures value { members.new ≡ changed_within span.start span.end (T.with_new_numbers by) members.old }
    ensures long { length members.new ≡ length members.old }
{
    renumber_all(&mut members[span.start..span.end], by);
}

fn blanks<T: Blank>(alloc: Global, count: usize) -> Result<Vec<T>, AllocError> {
    let mut blanks = Vec::new(alloc);
    for _ in 0..count {
        blanks.push(T::blank(alloc))?;
    }
    Ok(blanks)
}

// Inserts `x` as member `i` after the blanks, the last of which is dropped.
fn insert_over_blank<T: Drop>(slots: &mut Vec<T>, blanks: usize, i: usize, x: T)
    requires some { 0 < blanks }
    requires blanks { blanks ≤ length slots.old.items }
    requires place { i ≤ length (drop blanks slots.old.items) }
    ensures value { drop (blanks - 1) slots.new.items ≡ insert (drop blanks slots.old.items) i x }
    ensures long { length slots.new.items ≡ length slots.old.items }
{
    put_in_front(&mut slots[blanks - 1..], i, x);
}

// Drops the first member, and inserts `x` as member `i` of the result.
fn put_in_front<T: Drop>(members: &mut [T], i: usize, x: T)
    requires { i < length members.old }
    ensures value { members.new ≡ insert (drop 1 members.old) i x }
    ensures long { length members.new ≡ length members.old }
{
    members[0] = x;
    move_within(members, 0, i);
}

// Removes and returns member `i`, and puts a blank before the others.
fn take_to_front<T>(members: &mut [T], i: usize, blank: T) -> T
    requires { i < length members.old }
    ensures value { slice_get members.old i ≡ Some result }
    ensures rest { drop 1 members.new ≡ remove members.old i }
    ensures long { length members.new ≡ length members.old }
{
    move_within(members, i, 0);
    std::mem::replace(&mut members[0], blank)
}
