//! The first chunk of each of some ids, found in one pass over the window.
ghost use Rattle.std.specs.Prelude.{◌≡◌, is_ok, IfOk};
ghost use Rattle.std.specs.Option.{option_copied};
ghost use Rattle.riff_chunks.specs.Walk.{walk};
ghost use Rattle.riff_chunks.specs.Finding.{chunks_in, is_whole, first_body};
ghost use Rattle.riff_chunks.specs.First.{index_of, KeepsFirst};

use crate::chunks::{Chunks, Truncated};
use crate::finding::body_of;
use std::marker::Model;

/// The most bodies kept: the lists of a bank's file have chunks of nine ids.
const MOST_KEPT: usize = 9;

/// A window walked once to its end, with the first bodies of some ids kept. Its value is the list of its chunks.
#[derive(Drop)]
pub struct FirstChunks<'a> {
    window: &'a [u8],
    ids: &'a [[u8; 4]],
    bodies: [Option<&'a [u8]>; 9],
}

impl<'a> Model for FirstChunks<'a> {
    ghost use Rattle.std.specs.Prelude.{List};
    ghost use Rattle.riff_chunks.specs.Walk.{Chunk, walk};
    ghost use Rattle.riff_chunks.specs.Finding.{chunks_in};
    ghost use Rattle.riff_chunks.specs.First.{AreFirst};

    ghost Value = { List Chunk };

    ghost view = { λ first. chunks_in (walk first.window.now) };

    ghost invariant = { λ first. AreFirst first.ids.now first.bodies (chunks_in (walk first.window.now)) };
}

impl<'a> FirstChunks<'a> {
    /// Walks a window and keeps the first body of each of the first nine ids. Any body that passes the window's end is
    /// a fault.
    pub fn over(window: &'a [u8], ids: &'a [[u8; 4]]) -> Result<FirstChunks<'a>, Truncated>
        ensures whole { is_ok result ≡ is_whole (walk window.now) }
        ensures value { IfOk result (λ first. first ≡ chunks_in (walk window.now)) }
    {
        let mut bodies = [None; MOST_KEPT];
        for item in Chunks::over(window) {
            let chunk = item?;
            keep_first(ids, &mut bodies, chunk.0, chunk.1);
        }
        Ok(FirstChunks {
            window,
            ids,
            bodies,
        })
    }

    /// The body of the first chunk with an id. If it is not kept, the window is searched.
    pub fn body_of(&self, id: [u8; 4]) -> Option<&'a [u8]>
        ensures { option_copied result ≡ first_body id self.now }
    {
        match index_of(self.ids, id) {
            Some(id_index) if id_index < MOST_KEPT => self.bodies[id_index],
            _ => body_of(self.window, id),
        }
    }
}

// Keeps the body of a chunk if its id is one of these and has no body yet.
fn keep_first<'a>(ids: &[[u8; 4]], bodies: &mut [Option<&'a [u8]>; 9], id: [u8; 4], body: &'a [u8])
    ensures { KeepsFirst ids.now bodies.old bodies.new (record { id = id; body = body.now }) }
{
    let Some(id_index) = index_of(ids, id) else {
        return;
    };
    if id_index < MOST_KEPT && bodies[id_index].is_none() {
        bodies[id_index] = Some(body);
    }
}

// The index of an id.
fn index_of(ids: &[[u8; 4]], id: [u8; 4]) -> Option<usize>
    ensures { result ≡ index_of id ids.now }
{
    ids.iter().position(|other| *other == id)
}
