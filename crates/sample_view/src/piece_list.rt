//! A list of slices with spare capacity at both ends.
ghost use Rattle.std.specs.Prelude.{◌≡◌, ◌+◌, ◌-◌, ◌^◌, ◌<◌, ◌≤◌, ◌++◌, length, take, drop, vec_len, vec_capacity, All, IfOk, OnOk, OnErr};
ghost use Rattle.sample_view.specs.Pieces.{joined, IsPiece};

use crate::cuts::{Cut, cut_at, cut_before_last, part};
use sf_base::OutOfMemory;
use std::alloc::{AllocError, Global};
use std::marker::Model;

/// Slices of the file in order. An addition at either end costs as much as what is added, amortized.
#[derive(Debug)]
pub(crate) struct PieceList<'a> {
    // The slices come after blanks, which are spare capacity at the start.
    slots: Vec<&'a [u8]>,
    blanks: usize,
}

// Not derived: a derived `drop` is inlined, and proved, wherever a value is dropped; this one is a call.
impl Drop for PieceList<'_> {
    fn drop(self) {
        let PieceList {
            slots: _,
            blanks: _,
        } = self;
    }
}

impl<'a> Model for PieceList<'a> {
    ghost use Rattle.std.specs.Prelude.{List, ℕ, ◌≤◌, length, drop};
    ghost use Rattle.std.specs.Borrow.{Bor};

    ghost Value = { List (Bor (List ℕ)) };

    ghost view = { λ l. drop l.blanks l.slots.items };

    ghost invariant = { λ l. l.blanks ≤ length l.slots.items };
}

impl<'a> PieceList<'a> {
    /// Makes a list of the slices of a `Vec`. Allocates nothing.
    pub(crate) fn from_vec(slots: Vec<&'a [u8]>) -> PieceList<'a>
        ensures { result ≡ slots.entry.items }
    {
        PieceList { slots, blanks: 0 }
    }

    /// The slices in order.
    pub(crate) fn as_slice(&self) -> &[&'a [u8]]
        ensures { result.now ≡ self.now }
    {
        &self.slots[self.blanks..]
    }

    /// Puts slices before and after those of the list. A failed allocation changes nothing.
    pub(crate) fn join(
        &mut self,
        before: &[&'a [u8]],
        after: &[&'a [u8]],
    ) -> Result<(), OutOfMemory>
        ensures ok { OnOk result (self.new ≡ before.now ++ self.old ++ after.now) }
        ensures err { OnErr result (self.new ≡ self.old) }
    {
        if self.blanks < before.len() || self.slots.capacity() - self.slots.len() < after.len() {
            let alloc = *self.slots.allocator();
            let live = self.as_slice();
            let front = before.len() + live.len();
            let slots = with_room(alloc, front, live, live.len() + after.len())?;
            self.slots = slots;
            self.blanks = front;
        }
        put_before(&mut self.slots, self.blanks, before);
        self.blanks -= before.len();
        self.slots.extend_from_slice(after).unwrap();
        Ok(())
    }

    /// Removes the first `count` points, but not all points.
    pub(crate) fn remove_front(&mut self, count: usize)
        requires pieces { All IsPiece self.old }
        requires inside { count < length (joined self.old) }
        ensures pieces { All IsPiece self.new }
        ensures points { joined self.new ≡ drop count (joined self.old) }
    {
        let Cut { piece, position } = cut_at(self.as_slice(), count);
        self.blanks += piece;
        let bytes = self.slots[self.blanks];
        self.slots[self.blanks] = part(bytes, position, bytes.len() / 2 - position);
    }

    /// Removes the last `count` points, but not all points.
    pub(crate) fn remove_back(&mut self, count: usize)
        requires pieces { All IsPiece self.old }
        requires inside { count < length (joined self.old) }
        ensures pieces { All IsPiece self.new }
        ensures points { joined self.new ≡ take (length (joined self.old) - count) (joined self.old) }
    {
        let Cut { piece, position } = cut_before_last(self.as_slice(), count);
        let last = self.blanks + piece;
        self.slots.truncate(last + 1);
        self.slots[last] = part(self.slots[last], 0, position);
    }
}

// These slices after `front` blanks, with spare capacity for `back` more.
fn with_room<'a>(
    alloc: Global,
    front: usize,
    pieces: &[&'a [u8]],
    back: usize,
) -> Result<Vec<&'a [u8]>, AllocError>
    requires { front + length pieces.now + back < 2 ^ 64 }
    ensures pieces { IfOk result (λ slots. drop front slots.items ≡ pieces.now) }
    ensures blanks { IfOk result (λ slots. front ≤ length slots.items) }
    ensures room { IfOk result (λ slots. vec_len slots + back ≤ vec_capacity slots) }
{
    let mut slots = Vec::with_capacity(alloc, front + pieces.len() + back)?;
    slots.resize(front, blank())?;
    slots.extend_from_slice(pieces)?;
    Ok(slots)
}

fn blank<'a>() -> &'a [u8] {
    &[]
}

// Writes slices over the last blanks.
fn put_before<'a>(slots: &mut Vec<&'a [u8]>, blanks: usize, pieces: &[&'a [u8]])
    requires room { length pieces.now ≤ blanks }
    requires blanks { blanks ≤ length slots.old.items }
    ensures value { drop (blanks - length pieces.now) slots.new.items ≡ pieces.now ++ drop blanks slots.old.items }
    ensures long { length slots.new.items ≡ length slots.old.items }
    ensures size { vec_len slots.new ≡ vec_len slots.old }
    ensures capacity { vec_capacity slots.new ≡ vec_capacity slots.old }
{
    slots[blanks - pieces.len()..blanks].copy_from_slice(pieces);
}
