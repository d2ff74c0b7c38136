//! The lines that set a bank's texts.
ghost use Rattle.std.specs.Prelude.{◌≡◌};
ghost use Rattle.std.specs.List.{flat_map};
ghost use Rattle.base_outputs.specs.Output.{Puts};
ghost use Rattle.bank_parts.specs.declared.texts.InfoId.{InfoId};
ghost use Rattle.bank_parts.specs.Texts as info;
ghost use Rattle.edit_forms.specs.declared.texts.TextStep.TheVariants.{SetInfo};
ghost use Rattle.edit_forms.specs.declared.step.Step.TheVariants as steps;
ghost use Rattle.edit_forms.specs.declared.edit.Edit.TheVariants.{One};
ghost use Rattle.edit_script.specs.Printing.{text_of, texts_of};
ghost use Rattle.script_of_bank.specs.BankEdits.{text_edits, texts_edits};

use bank_core::{Bank, InfoId};
use base_outputs::Output;
use script_grammar::HasWord;
use script_tokens::{Piece, put_line};
use sf_base::BorrowedBytes;
use std::io::Write;

// Writes a line for each text that is not empty.
pub(crate) fn put_texts<W: Write>(bank: &Bank<'_>, output: &mut Output<'_, W>)
    ensures { Puts W.contents output.old output.new (texts_of (texts_edits bank.now.texts)) }
{
    put_each_text(bank, InfoId::all(), output);
}

// Writes a line for each of these texts that is not empty.
#[tactic(auto, using(base_outputs::proofs::OutputLaws::putting_start, base_outputs::proofs::OutputLaws::putting_end))]
fn put_each_text<W: Write>(bank: &Bank<'_>, ids: &[InfoId], output: &mut Output<'_, W>)
    ensures { Puts W.contents output.old output.new (flat_map (λ (id : InfoId). texts_of (text_edits id (info.text_of bank.now.texts id))) ids.now) }
{
    for id in ids {
        put_text(*id, bank.info(*id), output);
    }
}

// Writes the line of a text; an empty text has none.
fn put_text<W: Write>(id: InfoId, text: &[u8], output: &mut Output<'_, W>)
    ensures { Puts W.contents output.old output.new (texts_of (text_edits id text.now)) }
{
    if !text.is_empty() {
        put_set_info(id, text, output);
    }
}

// Writes the line that sets a text.
#[tactic(auto, unfolding(edit_script::specs::Printing::text_of))]
pub(crate) fn put_set_info<W: Write>(id: InfoId, text: &[u8], output: &mut Output<'_, W>)
    ensures { Puts W.contents output.old output.new (text_of (One (steps.Text (SetInfo id text.now)))) }
{
    let id = Piece::Word(BorrowedBytes::new(id.word()));
    put_line(
        b"set-info",
        &[id, Piece::Name(BorrowedBytes::new(text))],
        output,
    );
}
