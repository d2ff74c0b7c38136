//! Items of a comment, one after another.
ghost use Rattle.std.specs.Prelude.{◌≡◌, ◌∷◌, [], false, true};
ghost use Rattle.base_outputs.specs.Output.{Puts};
ghost use Rattle.script_comments.specs.Items.{lead_text};
ghost use Rattle.script_comments.specs.Putting.{PutsItems};

use base_outputs::Output;
use script_tokens::{Piece, put_pieces};
use std::io::Write;

/// What is before the next item of a comment.
#[derive(Clone, Copy)]
pub(crate) struct Lead {
    /// Whether an item was put.
    pub(crate) is_begun: bool,
    /// Whether a comma is between two items.
    pub(crate) has_commas: bool,
}

impl Lead {
    // Before the first item.
    pub(crate) fn first(has_commas: bool) -> Lead
        ensures { result ≡ record { is_begun = false; has_commas = has_commas } }
    {
        Lead {
            is_begun: false,
            has_commas,
        }
    }

    fn text(self) -> &'static [u8]
        ensures { result.now ≡ lead_text self.is_begun self.has_commas }
    {
        match (self.is_begun, self.has_commas) {
            (true, true) => b",",
            (true, false) => b"",
            (false, _) => b"   #",
        }
    }

    // Before any later item.
    fn next(self) -> Lead
        ensures { result ≡ record self { is_begun = true } }
    {
        Lead {
            is_begun: true,
            has_commas: self.has_commas,
        }
    }
}

// Puts an item, each token after a space.
pub(crate) fn put_item<W: Write>(lead: Lead, item: &[Piece<'_>], output: &mut Output<'_, W>) -> Lead
    ensures { PutsItems W.contents output.old output.new lead result (item.now ∷ []) }
{
    output.put(lead.text());
    put_pieces(item, output);
    lead.next()
}
