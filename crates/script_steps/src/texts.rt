//! The form that edits a bank's texts.
ghost use Rattle.std.specs.Prelude.{◌≡◌, ◌∷◌, [], codes};
ghost use Rattle.std.specs.List.{flat_map};
ghost use Rattle.base_outputs.specs.Output.{Puts};
ghost use Rattle.script_tokens.specs.Printing.{spaced};
ghost use Rattle.script_grammar.specs.Operands as operand;
ghost use Rattle.script_grammar.specs.Operands.{pieces_of};
ghost use Rattle.script_grammar.specs.Texts.{id_word};
ghost use Rattle.script_steps.specs.Forms.{form_in, ReadsForm, ReadsWithoutAllocation};
ghost use Rattle.script_steps.specs.Texts.{forms, printed, set_info};

use crate::by_word::by_word;
use bank_parts::InfoId;
use base_outputs::Output;
use edit_forms::{Step, TextStep};
use script_grammar::{HasWord, info_id};
use script_tokens::{Cursor, LineFault, Piece, put_pieces};
use sf_base::{BorrowedBytes, Failure};
use std::io::Write;

// ---- read

/// Reads the operands of a step after its word; `None` if the word names none of these forms.
#[tactic(auto, unfolding(crate::specs::Texts::forms, crate::specs::Forms::ReadsForm))]
pub(crate) fn text_step<'p>(
    word: &[u8],
    line: &mut Cursor<'_, 'p>,
) -> Option<Result<Step<'p>, Failure<LineFault>>>
    ensures { ReadsForm (form_in forms word.now) line.old line.new result }
{
    by_word!(word,
        b"set-info" => set_info(line),
    )
}

// `ID TEXT`
#[tactic(auto, unfolding(crate::specs::Texts::set_info))]
fn set_info<'p>(line: &mut Cursor<'_, 'p>) -> Result<Step<'p>, Failure<LineFault>>
    ensures { ReadsWithoutAllocation set_info line.old line.new result }
{
    let id = info_id(line)?;
    let text = BorrowedBytes::new(line.literal()?);
    Ok(Step::Text(TextStep::SetInfo { id, text }))
}

// ---- printed

/// The word of a step's form.
pub(crate) fn text_word(step: &TextStep<'_>) -> &'static [u8]
    ensures { result.now ≡ (printed step.now).0 }
{
    match step {
        TextStep::SetInfo { .. } => b"set-info",
    }
}

pub(crate) fn put_text_step<W: Write>(step: &TextStep<'_>, output: &mut Output<'_, W>)
    ensures { Puts W.contents output.old output.new (flat_map spaced (pieces_of (printed step.now).1)) }
{
    match step {
        TextStep::SetInfo { id, text } => put_set_info(*id, text, output),
    }
}

fn put_set_info<W: Write>(id: InfoId, text: &BorrowedBytes<'_>, output: &mut Output<'_, W>)
    ensures { Puts W.contents output.old output.new (flat_map spaced (pieces_of (operand.Fixed (id_word id) ∷ operand.Text text.now ∷ []))) }
{
    let id = Piece::Word(BorrowedBytes::new(id.word()));
    let text = Piece::Name(BorrowedBytes::new(text.bytes()));
    put_pieces(&[id, text], output);
}
