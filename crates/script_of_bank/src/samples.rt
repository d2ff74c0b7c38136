//! The lines that add samples.
ghost use Rattle.std.specs.Prelude.{◌≡◌, ◌∷◌, []};
ghost use Rattle.std.specs.List.{flat_map};
ghost use Rattle.base_outputs.specs.Output.{Puts};
ghost use Rattle.bank_parts.specs.declared.parts.Kind.TheVariants.{Mono};
ghost use Rattle.bank_changes.specs.Points.{with_kind};
ghost use Rattle.edit_forms.specs.declared.samples.SampleStep.TheVariants.{AddSample};
ghost use Rattle.edit_forms.specs.declared.step.Step.TheVariants as steps;
ghost use Rattle.edit_forms.specs.declared.edit.Edit.TheVariants.{One};
ghost use Rattle.script_tokens.specs.Printing.{spaced};
ghost use Rattle.script_grammar.specs.Operands as operand;
ghost use Rattle.script_grammar.specs.Operands.{pieces_of};
ghost use Rattle.script_grammar.specs.Samples.{head_operands};
ghost use Rattle.edit_script.specs.Printing.{text_of, texts_of};
ghost use Rattle.script_of_bank.specs.BankEdits.{in_turn};
ghost use Rattle.script_of_bank.specs.BankScript.{selected_points, selected_sample, selected_edits};

use bank_core::{Kind, Sample};
use base_outputs::Output;
use sample_view::Points;
use script_grammar::{put_kind, put_loop, put_name, put_points, put_tune};
use script_tokens::{Joined, Piece, put_pieces};
use std::io::Write;

/// Whether the script of a bank has the points of its samples.
#[derive(Clone, Copy, Debug, PartialEq, Eq)]
pub enum SamplePoints {
    /// All points, so that the script creates the bank.
    Kept,
    /// No points: the script is short, to be read, compared or packed with the points in other files.
    LeftOut,
}

// Writes a line for each sample, without its link.
#[tactic(auto, using(base_outputs::proofs::OutputLaws::putting_start))]
pub(crate) fn put_samples<W: Write>(
    samples: &[Sample<'_>],
    points: SamplePoints,
    output: &mut Output<'_, W>,
)
    ensures { Puts W.contents output.old output.new (texts_of (in_turn (selected_edits points) 0 samples.now)) }
{
    for (number, sample) in samples.iter().enumerate() {
        put_sample(number as u64, sample, points, output);
    }
}

// Writes the line of a sample.
fn put_sample<W: Write>(
    number: u64,
    sample: &Sample<'_>,
    points: SamplePoints,
    output: &mut Output<'_, W>,
)
    ensures { Puts W.contents output.old output.new (text_of (One (steps.Sample (AddSample number (with_kind Mono (selected_sample points sample.now)))))) }
{
    output.put(b"add-sample");
    put_pieces(&[Piece::Number(number)], output);
    put_mono_head(sample, output);
    put_selected_points(&sample.points, points, output);
    output.put(b"\n");
}

// Writes a sample without its points, and as mono.
fn put_mono_head<W: Write>(sample: &Sample<'_>, output: &mut Output<'_, W>)
    ensures { Puts W.contents output.old output.new (flat_map spaced (pieces_of (head_operands (with_kind Mono sample.now)))) }
{
    put_name(&sample.name, output);
    put_tune(sample.rate, sample.key, sample.correction, output);
    put_kind(Kind::Mono, output);
    put_loop(sample.looped, output);
}

// Writes the points, or none.
fn put_selected_points<W: Write>(
    points: &Points<'_>,
    selected: SamplePoints,
    output: &mut Output<'_, W>,
)
    ensures { Puts W.contents output.old output.new (flat_map spaced (pieces_of (operand.Points (selected_points selected points.now) ∷ []))) }
{
    match selected {
        SamplePoints::Kept => put_points(points, output),
        SamplePoints::LeftOut => put_pieces(&[Piece::Hex(Joined::new(&[]))], output),
    }
}
