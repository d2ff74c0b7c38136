//! Walking the chunks of a window.
ghost use Rattle.std.specs.Prelude.{◌≡◌, ◌≤◌, length, take};
ghost use Rattle.std.specs.Iterator.{YieldsFirstBy, item_count};
ghost use Rattle.riff_chunks.specs.Walk.{Walks, walk, borrowed_item, body_fits};

use sf_base::{part_of, rest_from, u32_at};
use std::iter::FusedIterator;
use std::marker::Model;
use thiserror::Error;

/// The id of a list: a chunk whose body is a form of four bytes and then chunks.
pub const LIST_ID: [u8; 4] = *b"LIST";

/// The size of a chunk header in bytes: an id and a size.
const HEAD_LENGTH: usize = 8;

/// A body passes the end of its window.
#[derive(Debug, Drop, Clone, Copy, PartialEq, Eq, Error)]
#[error("a chunk passes the end of its window")]
pub struct Truncated;

/// An iterator over the chunks of a window of a file. Each item borrows the body from the window.
///
/// A pad byte follows a body of odd size, unless the window ends there. A rest of 1 to 7 bytes is ignored. A body that
/// passes the window's end is `Truncated`, and ends the walk; but the body of a chunk `LIST` may end one byte past the
/// window, and is then one byte shorter.
#[derive(Debug, Drop)]
pub struct Chunks<'a> {
    unread: &'a [u8],
}

impl<'a> Model for Chunks<'a> {
    ghost use Rattle.std.specs.Prelude.{List};
    ghost use Rattle.riff_chunks.specs.Walk.{Item, walk};

    ghost Value = { List Item };

    ghost view = { λ chunks. walk chunks.unread.now };
}

impl<'a> Chunks<'a> {
    /// Starts at the first chunk of a window.
    pub fn over(window: &'a [u8]) -> Chunks<'a>
        ensures walks { Walks window.now result }
        ensures value { result ≡ walk window.now }
    {
        Chunks { unread: window }
    }
}

impl<'a> Iterator for Chunks<'a> {
    type Item = Result<([u8; 4], &'a [u8]), Truncated>;

    ghost next_gives = { YieldsFirstBy borrowed_item (λ rest. rest) };

    ghost remaining = { item_count (λ rest. rest) };

    fn next(&mut self) -> Option<Result<([u8; 4], &'a [u8]), Truncated>> {
        let window = self.unread;
        if window.len() < HEAD_LENGTH {
            return None;
        }
        if !body_fits(window) {
            self.unread = &[];
            return Some(Err(Truncated));
        }
        let size = u32_at(window, 4) as usize;
        let body = part_of(window, HEAD_LENGTH, size);
        self.unread = rest_from(window, HEAD_LENGTH + size + size % 2);
        Some(Ok((front_id(window), body)))
    }
}

impl<'a> FusedIterator for Chunks<'a> {}

// The id of the first chunk.
fn front_id(window: &[u8]) -> [u8; 4]
    requires { 8 ≤ length window.now }
    ensures { result ≡ take 4 window.now }
{
    [window[0], window[1], window[2], window[3]]
}

// Whether the first body ends where it may.
#[tactic(auto, unfolding(crate::specs::Walk::LIST))]
fn body_fits(window: &[u8]) -> bool
    requires { 8 ≤ length window.now }
    ensures { result ≡ body_fits window.now }
{
    let size = u32_at(window, 4) as usize;
    let end = if front_id(window) == LIST_ID {
        window.len() + 1
    } else {
        window.len()
    };
    HEAD_LENGTH + size <= end
}
