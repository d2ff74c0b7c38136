//! Why an edit is refused, as text.
ghost use Rattle.std.specs.Prelude.{◌≡◌};
ghost use Rattle.std.specs.List.{flat_map};
ghost use Rattle.base_outputs.specs.Output.{Puts};
ghost use Rattle.script_tokens.specs.Printing.{spaced};
ghost use Rattle.edit_script.specs.RefusalText.{refusal_text, detail_pieces, step_pieces, limit_pieces};

use bank_validity::Limit;
use base_outputs::Output;
use base_texts::Text;
use edit_refusals::{Cause, Refusal};
use script_tokens::{Piece, put_pieces};
use sf_base::BorrowedBytes;
use std::io::Write;

/// Why an edit, an undo or a redo is refused: its number and its name, and after them the step of a group with its own
/// cause, and the limit that the bank would exceed. A space precedes each.
#[derive(Clone, Copy)]
pub struct RefusalText(pub Refusal);

impl Text for RefusalText {
    ghost bytes = { λ text. refusal_text text.0 };

    fn put<W: Write>(&self, output: &mut Output<'_, W>) {
        let why = self.0;
        let number = Piece::Number(u64::from(why.number()));
        put_pieces(&[number, word(why.name())], output);
        put_detail(why, output);
    }
}

// Puts what follows the name.
fn put_detail<W: Write>(why: Refusal, output: &mut Output<'_, W>)
    ensures { Puts W.contents output.old output.new (flat_map spaced (detail_pieces why)) }
{
    match why {
        Refusal::Of(cause) => put_limit(cause.limit(), output),
        Refusal::GroupRefused(step, cause) => {
            put_step(step, cause, output);
            put_limit(cause.limit(), output);
        }
        Refusal::OutOfMemory | Refusal::NothingToUndo | Refusal::NothingToRedo => {}
    }
}

// Puts the index of a step of a group, and the cause to refuse it.
fn put_step<W: Write>(step: usize, cause: Cause, output: &mut Output<'_, W>)
    ensures { Puts W.contents output.old output.new (flat_map spaced (step_pieces step cause)) }
{
    let number = Piece::Number(u64::from(cause.number()));
    put_pieces(
        &[Piece::Number(step as u64), number, word(cause.name())],
        output,
    );
}

// Puts the limit that a bank would exceed.
fn put_limit<W: Write>(limit: Option<Limit>, output: &mut Output<'_, W>)
    ensures { Puts W.contents output.old output.new (flat_map spaced (limit_pieces limit)) }
{
    if let Some(limit) = limit {
        put_pieces(&[word(limit.word())], output);
    }
}

// A piece with this word, written as it is.
fn word(text: &str) -> Piece<'_>
    ensures { result ≡ Piece.Word text.now }
{
    Piece::Word(BorrowedBytes::new(text.as_bytes()))
}
