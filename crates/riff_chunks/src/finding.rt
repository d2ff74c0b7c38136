//! Finding chunks of a window.
ghost use Rattle.std.specs.Prelude.{◌≡◌};
ghost use Rattle.std.specs.Option.{option_copied};
ghost use Rattle.riff_chunks.specs.Walk.{walk};
ghost use Rattle.riff_chunks.specs.Finding.{chunks_in, is_whole, first_body, is_list, first_list};

use crate::chunks::{Chunks, LIST_ID};
use sf_base::{front_of, rest_from};

/// Whether no body in the window passes its end.
pub fn is_whole(window: &[u8]) -> bool
    ensures { result ≡ is_whole (walk window.now) }
{
    Chunks::over(window).all(|item| item.is_ok())
}

/// The body of the first chunk with an id, of those before a fault.
pub(crate) fn body_of<'a>(window: &'a [u8], id: [u8; 4]) -> Option<&'a [u8]>
    ensures { option_copied result ≡ first_body id (chunks_in (walk window.now)) }
{
    for item in Chunks::over(window) {
        let Ok(chunk) = item else {
            return None;
        };
        let found = chunk.0;
        if found == id {
            return Some(chunk.1);
        }
    }
    None
}

/// The body, after the form, of the first list with that form, of those before a fault. A body of fewer than four bytes
/// has no form.
pub fn list_of<'a>(window: &'a [u8], form: [u8; 4]) -> Option<&'a [u8]>
    ensures { option_copied result ≡ first_list form (chunks_in (walk window.now)) }
{
    for item in Chunks::over(window) {
        let Ok(chunk) = item else {
            return None;
        };
        let id = chunk.0;
        if is_list(form, id, chunk.1) {
            return Some(rest_from(chunk.1, 4));
        }
    }
    None
}

// Whether this chunk is a list with the form.
#[tactic(auto, unfolding(crate::specs::Walk::LIST))]
fn is_list(form: [u8; 4], id: [u8; 4], body: &[u8]) -> bool
    ensures { result ≡ is_list form (record { id = id; body = body.now }) }
{
    id == LIST_ID && body.len() >= 4 && front_of(body, 4) == form.as_slice()
}
