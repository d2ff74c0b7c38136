//! How the slices of points are stored.
ghost use Rattle.std.specs.Prelude.{◌≡◌, ◌+◌, ◌*◌, ◌-◌, ◌^◌, ◌<◌, ◌≤◌, ◌++◌, [], ◌∷◌, length, slice_range, All, IfOk, IfErr};
ghost use Rattle.sample_view.specs.Pieces.{joined, IsPiece};
ghost use Rattle.sample_view.specs.Slices.{pieces_of, IsCounted};

use crate::cuts::{part, point_count};
use crate::piece_list::PieceList;
use sf_base::OutOfMemory;
use smallvec::SmallVec;
use std::alloc::Global;

/// Slices of points. One slice needs no memory of its own; the number of points is stored where it is costly to find.
#[derive(Debug)]
pub(crate) enum Slices<'a> {
    Empty,
    One(&'a [u8]),
    Many(Box<PieceList<'a>>, usize),
}

// Not derived: a derived `drop` is inlined, and proved, wherever a value is dropped; this one is a call.
impl Drop for Slices<'_> {
    fn drop(self) {
        match self {
            Slices::Empty => {}
            Slices::One(_) => {}
            Slices::Many(_, _) => {}
        }
    }
}

impl<'a> Slices<'a> {
    /// Stores `count` points.
    pub(crate) fn store(
        alloc: Global,
        pieces: SmallVec<&'a [u8], 1>,
        count: usize,
    ) -> Result<Slices<'a>, OutOfMemory>
        requires { count ≡ length (joined pieces.items) }
        ensures pieces { IfOk result (λ slices. pieces_of slices ≡ pieces.entry.items) }
        ensures counted { IfOk result (λ slices. IsCounted slices) }
    {
        if pieces.is_empty() {
            return Ok(Slices::Empty);
        }
        if pieces.len() == 1 {
            return Ok(Slices::One(pieces.as_slice()[0]));
        }
        let slots = pieces.into_vec()?;
        let list = Box::new(alloc, PieceList::from_vec(slots))?;
        Ok(Slices::Many(list, count))
    }

    /// The slices in order.
    pub(crate) fn as_slice(&self) -> &[&'a [u8]]
        ensures { result.now ≡ pieces_of self.now }
    {
        match self {
            Slices::Empty => &[],
            Slices::One(bytes) => std::slice::from_ref(bytes),
            Slices::Many(list, _) => list.as_slice(),
        }
    }

    /// The number of points.
    pub(crate) fn count(&self) -> usize
        requires { IsCounted self.now }
        ensures { result ≡ length (joined (pieces_of self.now)) }
    {
        match self {
            Slices::Empty => 0,
            Slices::One(bytes) => point_count(*bytes),
            Slices::Many(_, count) => *count,
        }
    }

    /// Removes the first `front` and the last `back` points.
    pub(crate) fn without_ends(self, front: usize, back: usize) -> Slices<'a>
        requires pieces { All IsPiece (pieces_of self) }
        requires counted { IsCounted self }
        requires inside { front + back ≤ length (joined (pieces_of self)) }
        ensures pieces { All IsPiece (pieces_of result) }
        ensures counted { IsCounted result }
        ensures points { joined (pieces_of result)
            ≡ slice_range (joined (pieces_of self.entry)) front (length (joined (pieces_of self.entry)) - back) }
    {
        let count = self.count() - front - back;
        if count == 0 {
            return Slices::Empty;
        }
        match self {
            Slices::Empty => Slices::Empty,
            Slices::One(bytes) => Slices::One(part(bytes, front, count)),
            Slices::Many(list, _) => shortened(list, front, back, count),
        }
    }

    /// Puts slices before and after. A failed allocation changes nothing.
    pub(crate) fn joined(
        self,
        alloc: Global,
        before: &[&'a [u8]],
        after: &[&'a [u8]],
        count: usize,
    ) -> Result<Slices<'a>, Slices<'a>>
        requires counted { IsCounted self }
        requires count { count ≡ length (joined (before.now ++ pieces_of self ++ after.now)) }
        ensures ok { IfOk result (λ slices. pieces_of slices ≡ before.now ++ pieces_of self.entry ++ after.now) }
        ensures counted { IfOk result (λ slices. IsCounted slices) }
        ensures err { IfErr result (λ slices. pieces_of slices ≡ pieces_of self.entry) }
        ensures err_counted { IfErr result (λ slices. IsCounted slices) }
    {
        match self {
            Slices::Many(list, old) => {
                let mut list = list;
                match list.join(before, after) {
                    Ok(()) => Ok(Slices::Many(list, count)),
                    Err(_) => Err(Slices::Many(list, old)),
                }
            }
            few => match few.joined_anew(alloc, before, after, count) {
                Ok(slices) => Ok(slices),
                Err(_) => Err(few),
            },
        }
    }

    // The same slices with others before and after, in new memory.
    fn joined_anew(
        &self,
        alloc: Global,
        before: &[&'a [u8]],
        after: &[&'a [u8]],
        count: usize,
    ) -> Result<Slices<'a>, OutOfMemory>
        requires { count ≡ length (joined (before.now ++ pieces_of self.now ++ after.now)) }
        ensures pieces { IfOk result (λ slices. pieces_of slices ≡ before.now ++ pieces_of self.now ++ after.now) }
        ensures counted { IfOk result (λ slices. IsCounted slices) }
    {
        let mut pieces = SmallVec::from_slice(alloc, before)?;
        pieces.extend_from_slice(self.as_slice())?;
        pieces.extend_from_slice(after)?;
        Slices::store(alloc, pieces, count)
    }
}

// The list without its first `front` and last `back` points; `count` remain.
fn shortened<'a>(list: Box<PieceList<'a>>, front: usize, back: usize, count: usize) -> Slices<'a>
    requires pieces { All IsPiece list.value }
    requires some { 0 < count }
    requires count { front + count + back ≡ length (joined list.value) }
    ensures pieces { All IsPiece (pieces_of result) }
    ensures counted { IsCounted result }
    ensures points { joined (pieces_of result) ≡ slice_range (joined list.entry.value) front (front + count) }
{
    let mut list = list;
    list.remove_front(front);
    list.remove_back(back);
    if list.as_slice().len() == 1 {
        return Slices::One(list.as_slice()[0]);
    }
    Slices::Many(list, count)
}
