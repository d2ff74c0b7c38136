//! The forms that edit samples.
ghost use Rattle.std.specs.Prelude.{◌≡◌, ◌∷◌, codes};
ghost use Rattle.std.specs.List.{flat_map};
ghost use Rattle.base_outputs.specs.Output.{Puts};
ghost use Rattle.script_tokens.specs.Printing.{spaced};
ghost use Rattle.script_grammar.specs.Memory.{ReadsOrOutOfMemory};
ghost use Rattle.script_grammar.specs.Operands.{pieces_of};
ghost use Rattle.script_grammar.specs.Samples.{body_operands};
ghost use Rattle.script_steps.specs.Forms.{form_in, ReadsForm, ReadsWithoutAllocation};
ghost use Rattle.script_steps.specs.Members.{place};
ghost use Rattle.script_steps.specs.Samples.{forms, printed, rename_sample, add_sample, remove_sample, move_sample};

use crate::by_word::by_word;
use crate::members::{index_pair, indexed_name, put_index_pair, put_indexed_name, put_number};
use bank_parts::Sample;
use base_outputs::Output;
use edit_forms::{SampleStep, Step};
use script_grammar::{put_sample_body, sample_body};
use script_tokens::{Cursor, LineFault, Piece, put_pieces};
use sf_base::Failure;
use std::alloc::Global;
use std::io::Write;

// ---- read

/// Reads the operands of a step after its word; `None` if the word names none of these forms.
#[tactic(auto, unfolding(crate::specs::Samples::forms, crate::specs::Forms::ReadsForm))]
pub(crate) fn sample_step<'p>(
    word: &[u8],
    alloc: Global,
    line: &mut Cursor<'_, 'p>,
) -> Option<Result<Step<'p>, Failure<LineFault>>>
    ensures { ReadsForm (form_in forms word.now) line.old line.new result }
{
    by_word!(word,
        b"rename-sample" => rename_sample(line),
        b"add-sample" => add_sample(alloc, line),
        b"remove-sample" => remove_sample(line),
        b"move-sample" => move_sample(line),
    )
}

// `S NAME`
#[tactic(auto, unfolding(crate::specs::Samples::rename_sample))]
fn rename_sample<'p>(line: &mut Cursor<'_, 'p>) -> Result<Step<'p>, Failure<LineFault>>
    ensures { ReadsWithoutAllocation rename_sample line.old line.new result }
{
    let (sample, name) = indexed_name(line)?;
    Ok(Step::Sample(SampleStep::RenameSample { sample, name }))
}

// `S BODY`
#[tactic(auto, unfolding(crate::specs::Samples::add_sample))]
fn add_sample<'p>(alloc: Global, line: &mut Cursor<'_, 'p>) -> Result<Step<'p>, Failure<LineFault>>
    ensures { ReadsOrOutOfMemory (λ s. s) add_sample line.old line.new result }
{
    let at = line.number(u32::MAX)?;
    let sample = sample_body(alloc, line)?;
    Ok(Step::Sample(SampleStep::AddSample { at, sample }))
}

// `S`
#[tactic(auto, unfolding(crate::specs::Samples::remove_sample))]
fn remove_sample<'p>(line: &mut Cursor<'_, 'p>) -> Result<Step<'p>, Failure<LineFault>>
    ensures { ReadsWithoutAllocation remove_sample line.old line.new result }
{
    let sample = line.number(u32::MAX)?;
    Ok(Step::Sample(SampleStep::RemoveSample { sample }))
}

// `I J`
#[tactic(auto, unfolding(crate::specs::Samples::move_sample))]
fn move_sample<'p>(line: &mut Cursor<'_, 'p>) -> Result<Step<'p>, Failure<LineFault>>
    ensures { ReadsWithoutAllocation move_sample line.old line.new result }
{
    let (from, to) = index_pair(line)?;
    Ok(Step::Sample(SampleStep::MoveSample { from, to }))
}

// ---- printed

/// The word of a step's form.
pub(crate) fn sample_word(step: &SampleStep<'_>) -> &'static [u8]
    ensures { result.now ≡ (printed step.now).0 }
{
    match step {
        SampleStep::RenameSample { .. } => b"rename-sample",
        SampleStep::AddSample { .. } => b"add-sample",
        SampleStep::RemoveSample { .. } => b"remove-sample",
        SampleStep::MoveSample { .. } => b"move-sample",
    }
}

pub(crate) fn put_sample_step<W: Write>(step: &SampleStep<'_>, output: &mut Output<'_, W>)
    ensures { Puts W.contents output.old output.new (flat_map spaced (pieces_of (printed step.now).1)) }
{
    match step {
        SampleStep::RenameSample { sample, name } => put_indexed_name(*sample, name, output),
        SampleStep::AddSample { at, sample } => put_add_sample(*at, sample, output),
        SampleStep::RemoveSample { sample } => put_number(*sample, output),
        SampleStep::MoveSample { from, to } => put_index_pair(*from, *to, output),
    }
}

// `S BODY`, each token after a space
#[tactic(auto, using(crate::proofs::PutLaws::puts_added))]
fn put_add_sample<W: Write>(at: u32, sample: &Sample<'_>, output: &mut Output<'_, W>)
    ensures { Puts W.contents output.old output.new (flat_map spaced (pieces_of (place at ∷ body_operands sample.now))) }
{
    put_pieces(&[Piece::Number(u64::from(at))], output);
    put_sample_body(sample, output);
}
