//! A list of 16-bit points over slices of the file.
ghost use Rattle.std.specs.Prelude.{[], ◌≡◌, ◌+◌, ◌*◌, ◌-◌, ◌%◌, ◌^◌, ◌<◌, ◌≤◌, ◌↔◌, ◌++◌, length, take, drop, slice_index, slice_range, All, IsTrue, IsErr, IfOk, IfErr, OnOk, OnErr};
ghost use Rattle.std.specs.List.{flat_map};
ghost use Rattle.std.specs.Int.{w16, cast_signed};
ghost use Rattle.sample_view.specs.Words.{words, word_bytes, AreWords};
ghost use Rattle.sample_view.specs.Pieces.{joined, joined_bytes, IsPiece};
ghost use Rattle.sample_view.specs.Runs.{IsRunAround};

use crate::cuts::{copy_range, cut_at, cut_before_last};
use crate::slices::Slices;
use sf_base::OutOfMemory;
use smallvec::SmallVec;
use std::alloc::Global;
use std::marker::Model;
use thiserror::Error;

/// The number of bytes is odd, so they are not whole points.
#[derive(Debug, Drop, Clone, Copy, PartialEq, Eq, Error)]
#[error("a point has two bytes")]
pub struct OddLength;

/// A list of points, each a little-endian signed 16-bit number, as in the chunk `smpl` (SoundFont 2.04, section 6.1).
///
/// The points are in slices of the file, so a list is split and joined without copying points. Contracts see the points
/// as unsigned 16-bit words.
#[derive(Debug)]
pub struct Points<'a> {
    alloc: Global,
    slices: Slices<'a>,
}

// Not derived: a derived `drop` is inlined, and proved, wherever a value is dropped; this one is a call.
impl Drop for Points<'_> {
    fn drop(self) {
        let Points {
            alloc: _,
            slices: _,
        } = self;
    }
}

impl<'a> Model for Points<'a> {
    ghost use Rattle.std.specs.Prelude.{ℕ, List, All};
    ghost use Rattle.sample_view.specs.Pieces.{joined, IsPiece};
    ghost use Rattle.sample_view.specs.Slices.{pieces_of, IsCounted};

    ghost Value = { List ℕ };

    ghost view = { λ p. joined (pieces_of p.slices) };

    ghost invariant = { λ p. All IsPiece (pieces_of p.slices) × IsCounted p.slices };
}

impl<'a> Points<'a> {
    /// Makes a list of the points of one slice, two bytes each. An odd number of bytes is an error. Allocates nothing.
    pub fn of_slice(alloc: Global, bytes: &'a [u8]) -> Result<Points<'a>, OddLength>
        ensures value { IfOk result (λ points. points ≡ words bytes.now) }
        ensures odd { IsErr result ↔ (length bytes.now % 2 ≡ 1) }
        ensures fits { IfOk result (λ points. AreWords points) }
    {
        if bytes.len() % 2 == 1 {
            return Err(OddLength);
        }
        if bytes.is_empty() {
            return Ok(Points::empty(alloc));
        }
        Ok(Points {
            alloc,
            slices: Slices::One(bytes),
        })
    }

    /// Makes an empty list. Allocates nothing.
    pub fn empty(alloc: Global) -> Points<'a>
        ensures { result ≡ [] }
    {
        Points {
            alloc,
            slices: Slices::Empty,
        }
    }

    /// The number of points.
    pub fn len(&self) -> usize
        ensures value { result ≡ length self.now }
        ensures fits { AreWords self.now }
    {
        self.slices.count()
    }

    /// Whether there are no points.
    pub fn is_empty(&self) -> bool
        ensures { IsTrue result ↔ (length self.now ≡ 0) }
    {
        self.len() == 0
    }

    /// The slice with point `index`, and the position of that point among the points of the slice. Its neighbours in
    /// the slice are its neighbours in the list. The slice is borrowed from the file.
    pub fn slice_at(&self, index: usize) -> (&'a [u8], usize)
        requires { index < length self.now }
        ensures run { IsRunAround self.now index result.0.now result.1 }
        ensures point { slice_index self.now index
            ≡ slice_index result.0.now (2 * result.1) + 256 * slice_index result.0.now (2 * result.1 + 1) }
    {
        let pieces = self.pieces();
        let cut = cut_at(pieces, index);
        (pieces[cut.piece], cut.position)
    }

    /// The point at `index`.
    pub fn point(&self, index: usize) -> i16
        requires { index < length self.now }
        ensures { result ≡ cast_signed w16 (slice_index self.now index) }
    {
        let (bytes, position) = self.slice_at(index);
        i16::from_le_bytes([bytes[2 * position], bytes[2 * position + 1]])
    }

    /// The slices in order, each of at least one point. Their concatenated bytes are the bytes of the points.
    pub fn pieces(&self) -> &[&'a [u8]]
        ensures points { joined result.now ≡ self.now }
        ensures bytes { joined_bytes result.now ≡ flat_map word_bytes self.now }
        ensures whole { All IsPiece result.now }
    {
        self.slices.as_slice()
    }

    /// Makes a list of the same points.
    pub fn copy(&self, alloc: Global) -> Result<Points<'a>, OutOfMemory>
        ensures { IfOk result (λ points. points ≡ self.now) }
    {
        let pieces = SmallVec::from_slice(alloc, self.pieces())?;
        let slices = Slices::store(alloc, pieces, self.len())?;
        Ok(Points { alloc, slices })
    }

    /// Removes the first `front` and the last `back` points, and returns both. A failed allocation changes nothing.
    pub fn narrow(
        &mut self,
        alloc: Global,
        front: usize,
        back: usize,
    ) -> Result<(Points<'a>, Points<'a>), OutOfMemory>
        requires { front + back ≤ length self.old }
        ensures front { IfOk result (λ parts. parts.0 ≡ take front self.old) }
        ensures middle { OnOk result (self.new ≡ slice_range self.old front (length self.old - back)) }
        ensures back { IfOk result (λ parts. parts.1 ≡ drop (length self.old - back) self.old) }
        ensures whole { IfOk result (λ parts. self.old ≡ parts.0 ++ self.new ++ parts.1) }
        ensures err { OnErr result (self.new ≡ self.old) }
    {
        let first = self.copy_front(alloc, front)?;
        let last = self.copy_back(alloc, back)?;
        let slices = std::mem::replace(&mut self.slices, Slices::Empty);
        self.slices = slices.without_ends(front, back);
        Ok((first, last))
    }

    /// Puts `front` before the points and `back` after them. A failed allocation changes nothing and returns both.
    pub fn join(
        &mut self,
        front: Points<'a>,
        back: Points<'a>,
    ) -> Result<(), (Points<'a>, Points<'a>)>
        requires { length front + length self.old + length back < 2 ^ 64 }
        ensures ok { OnOk result (self.new ≡ front.entry ++ self.old ++ back.entry) }
        ensures err { OnErr result (self.new ≡ self.old) }
        ensures front_returned { IfErr result (λ parts. parts.0 ≡ front.entry) }
        ensures back_returned { IfErr result (λ parts. parts.1 ≡ back.entry) }
    {
        let count = front.len() + self.len() + back.len();
        let slices = std::mem::replace(&mut self.slices, Slices::Empty);
        match slices.joined(self.alloc, front.pieces(), back.pieces(), count) {
            Ok(slices) => {
                self.slices = slices;
                Ok(())
            }
            Err(slices) => {
                self.slices = slices;
                Err((front, back))
            }
        }
    }

    // A list of the first `count` points, which reads no slice after them.
    fn copy_front(&self, alloc: Global, count: usize) -> Result<Points<'a>, OutOfMemory>
        requires { count ≤ length self.now }
        ensures { IfOk result (λ points. points ≡ take count self.now) }
    {
        if count == self.len() {
            return self.copy(alloc);
        }
        let pieces = self.pieces();
        let cut = cut_at(pieces, count);
        Points::copy_of(alloc, &pieces[..cut.piece + 1], 0, count)
    }

    // A list of the last `count` points, which reads no slice before them.
    fn copy_back(&self, alloc: Global, count: usize) -> Result<Points<'a>, OutOfMemory>
        requires { count ≤ length self.now }
        ensures { IfOk result (λ points. points ≡ drop (length self.now - count) self.now) }
    {
        if count == self.len() {
            return self.copy(alloc);
        }
        let pieces = self.pieces();
        let cut = cut_before_last(pieces, count);
        Points::copy_of(
            alloc,
            &pieces[cut.piece..],
            cut.position,
            cut.position + count,
        )
    }

    // A list of the points of these slices from index `from` up to, but not including, `to`.
    fn copy_of(
        alloc: Global,
        pieces: &[&'a [u8]],
        from: usize,
        to: usize,
    ) -> Result<Points<'a>, OutOfMemory>
        requires pieces { All IsPiece pieces.now }
        requires order { from ≤ to }
        requires inside { to ≤ length (joined pieces.now) }
        ensures { IfOk result (λ points. points ≡ slice_range (joined pieces.now) from to) }
    {
        let kept = copy_range(alloc, pieces, from, to)?;
        let slices = Slices::store(alloc, kept, to - from)?;
        Ok(Points { alloc, slices })
    }
}
