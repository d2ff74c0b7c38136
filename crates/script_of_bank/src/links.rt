//! The lines that set the links of samples.
ghost use Rattle.std.specs.Prelude.{◌≡◌};
ghost use Rattle.base_outputs.specs.Output.{Puts};
ghost use Rattle.edit_forms.specs.declared.points.PointStep.TheVariants.{SetKind};
ghost use Rattle.edit_forms.specs.declared.step.Step.TheVariants as steps;
ghost use Rattle.edit_forms.specs.declared.edit.Edit.TheVariants.{One};
ghost use Rattle.edit_script.specs.Printing.{text_of, texts_of};
ghost use Rattle.script_of_bank.specs.BankEdits.{in_turn, kind_edits, link_edits};

use bank_core::{Kind, Sample};
use base_outputs::Output;
use script_grammar::put_kind;
use script_tokens::{Piece, put_pieces};
use std::io::Write;

// Writes a line for each sample that has a link.
#[tactic(auto, using(base_outputs::proofs::OutputLaws::putting_start))]
pub(crate) fn put_links<W: Write>(samples: &[Sample<'_>], output: &mut Output<'_, W>)
    ensures { Puts W.contents output.old output.new (texts_of (in_turn link_edits 0 samples.now)) }
{
    for (number, sample) in samples.iter().enumerate() {
        put_link(number as u64, sample.kind, output);
    }
}

// Writes the line of a link; a mono sample has none.
fn put_link<W: Write>(number: u64, kind: Kind, output: &mut Output<'_, W>)
    ensures { Puts W.contents output.old output.new (texts_of (kind_edits number kind)) }
{
    match kind {
        Kind::Mono => {}
        Kind::Right(_) | Kind::Left(_) | Kind::Linked(_) => put_set_kind(number, kind, output),
    }
}

// Writes the line that sets a sample's kind.
pub(crate) fn put_set_kind<W: Write>(number: u64, kind: Kind, output: &mut Output<'_, W>)
    ensures { Puts W.contents output.old output.new (text_of (One (steps.Points number (SetKind kind)))) }
{
    output.put(b"set-kind");
    put_pieces(&[Piece::Number(number)], output);
    put_kind(kind, output);
    output.put(b"\n");
}
