//! Where a list of slices is cut, and copies of ranges of its points.
ghost use Rattle.std.specs.Prelude.{◌≡◌, ◌+◌, ◌*◌, ◌-◌, ◌%◌, ◌<◌, ◌≤◌, ◌++◌, length, take, drop, slice_range, All, IfOk, OnOk};
ghost use Rattle.sample_view.specs.Words.{words};
ghost use Rattle.sample_view.specs.Pieces.{joined, IsPiece};
ghost use Rattle.sample_view.specs.Cuts.{IsCut, IsInside, IsFilled};

use sf_base::OutOfMemory;
use smallvec::SmallVec;
use std::alloc::Global;

/// A position in one of several slices, counted in points.
#[derive(Clone, Copy)]
pub(crate) struct Cut {
    pub(crate) piece: usize,
    pub(crate) position: usize,
}

/// The cut before point `index`, in the slice with that point.
pub(crate) fn cut_at(pieces: &[&[u8]], index: usize) -> Cut
    requires { index < length (joined pieces.now) }
    ensures cut { IsCut pieces.now index result.piece result.position }
    ensures inside { IsInside pieces.now result.piece result.position }
{
    let mut position = index;
    for (piece, bytes) in pieces.iter().enumerate() {
        let count = bytes.len() / 2;
        if position < count {
            return Cut { piece, position };
        }
        position -= count;
    }
    unreachable!()
}

/// The cut before the last `count` points, in the slice with the point before them.
pub(crate) fn cut_before_last(pieces: &[&[u8]], count: usize) -> Cut
    requires { count < length (joined pieces.now) }
    ensures cut { IsCut pieces.now (length (joined pieces.now) - count) result.piece result.position }
    ensures filled { IsFilled pieces.now result.piece result.position }
{
    let mut skip = count;
    for i in 0..pieces.len() {
        let piece = pieces.len() - 1 - i;
        let count = pieces[piece].len() / 2;
        if skip < count {
            return Cut {
                piece,
                position: count - skip,
            };
        }
        skip -= count;
    }
    unreachable!()
}

/// The points of these slices from index `from` up to, but not including, `to`, in slices that are not empty.
pub(crate) fn copy_range<'a>(
    alloc: Global,
    pieces: &[&'a [u8]],
    from: usize,
    to: usize,
) -> Result<SmallVec<&'a [u8], 1>, OutOfMemory>
    requires pieces { All IsPiece pieces.now }
    requires order { from ≤ to }
    requires inside { to ≤ length (joined pieces.now) }
    ensures whole { IfOk result (λ kept. All IsPiece kept.items) }
    ensures points { IfOk result (λ kept. joined kept.items ≡ slice_range (joined pieces.now) from to) }
{
    let mut kept: SmallVec<&'a [u8], 1> = SmallVec::new(alloc);
    let mut skip = from;
    let mut remaining = to - from;
    for piece in pieces {
        let bytes = *piece;
        let count = bytes.len() / 2;
        let start = skip.min(count);
        let room = remaining.min(count - start);
        push_piece(&mut kept, part(bytes, start, room))?;
        skip -= start;
        remaining -= room;
    }
    Ok(kept)
}

/// The number of points of a slice.
pub(crate) fn point_count(bytes: &[u8]) -> usize
    ensures { result ≡ length (words bytes.now) }
{
    bytes.len() / 2
}

/// The `count` points of a slice from position `start` on.
pub(crate) fn part(bytes: &[u8], start: usize, count: usize) -> &[u8]
    requires inside { 2 * (start + count) ≤ length bytes.now }
    ensures bytes { result.now ≡ slice_range bytes.now (2 * start) (2 * (start + count)) }
    ensures length { length result.now ≡ 2 * count }
    ensures points { words result.now ≡ take count (drop start (words bytes.now)) }
{
    &bytes[2 * start..2 * (start + count)]
}

// Appends a slice of points, unless it is empty.
fn push_piece<'a>(kept: &mut SmallVec<&'a [u8], 1>, bytes: &'a [u8]) -> Result<(), OutOfMemory>
    requires whole { All IsPiece kept.old.items }
    requires even { length bytes.now % 2 ≡ 0 }
    ensures whole { OnOk result (All IsPiece kept.new.items) }
    ensures points { OnOk result (joined kept.new.items ≡ joined kept.old.items ++ words bytes.now) }
{
    if bytes.is_empty() {
        return Ok(());
    }
    kept.push(bytes)?;
    Ok(())
}
