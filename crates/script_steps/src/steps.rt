//! Reads and writes steps.
ghost use Rattle.std.specs.Prelude.{◌≡◌};
ghost use Rattle.std.specs.List.{flat_map};
ghost use Rattle.base_outputs.specs.Output.{Puts};
ghost use Rattle.script_tokens.specs.Printing.{spaced};
ghost use Rattle.script_grammar.specs.Operands.{pieces_of};
ghost use Rattle.script_grammar.specs.Memory.{ReadsOrOutOfMemory};
ghost use Rattle.script_steps.specs.Forms.{form_in, ReadsForm};
ghost use Rattle.script_steps.specs.Grammar.{forms, word_of, operands, step};

use crate::instruments::{instrument_step, instrument_word, put_instrument_step};
use crate::points::{point_step, point_word, put_point_step};
use crate::presets::{preset_step, preset_word, put_preset_step};
use crate::samples::{put_sample_step, sample_step, sample_word};
use crate::settings::{put_setting_step, setting_step, setting_word};
use crate::texts::{put_text_step, text_step, text_word};
use crate::zones::{put_zone_step, zone_step, zone_word};
use base_outputs::Output;
use edit_forms::Step;
use script_tokens::{Cursor, LineFault};
use sf_base::Failure;
use std::alloc::Global;
use std::io::Write;

// ---- read

/// Reads a step: the word of its form, and its operands. The error is the first fault from left to right, or
/// `OutOfMemory`.
#[tactic(auto, unfolding(crate::specs::Grammar::step, crate::specs::Forms::ReadsForm, script_grammar::specs::Names::next_named))]
pub fn step<'p>(alloc: Global, line: &mut Cursor<'_, 'p>) -> Result<Step<'p>, Failure<LineFault>>
    ensures { ReadsOrOutOfMemory (λ s. s) step line.old line.new result }
{
    let word = line.word()?;
    match step_of_form(word, alloc, line) {
        Some(step) => step,
        None => Err(Failure::Fault(LineFault::Syntax)),
    }
}

// Reads the operands of a step after its word; `None` if the word names no form.
#[tactic(auto, using(crate::proofs::FormLaws::sought))]
fn step_of_form<'p>(
    word: &[u8],
    alloc: Global,
    line: &mut Cursor<'_, 'p>,
) -> Option<Result<Step<'p>, Failure<LineFault>>>
    ensures { ReadsForm (form_in forms word.now) line.old line.new result }
{
    if let Some(step) = preset_step(word, alloc, line) {
        return Some(step);
    }
    if let Some(step) = instrument_step(word, alloc, line) {
        return Some(step);
    }
    if let Some(step) = sample_step(word, alloc, line) {
        return Some(step);
    }
    if let Some(step) = point_step(word, alloc, line) {
        return Some(step);
    }
    if let Some(step) = zone_step(word, alloc, line) {
        return Some(step);
    }
    if let Some(step) = setting_step(word, line) {
        return Some(step);
    }
    text_step(word, line)
}

// ---- printed

/// The word of a step's form.
pub fn word_of(step: &Step<'_>) -> &'static [u8]
    ensures { result.now ≡ word_of step.now }
{
    match step {
        Step::Preset(step) => preset_word(step),
        Step::Instrument(step) => instrument_word(step),
        Step::Sample(step) => sample_word(step),
        Step::Points(_, step) => point_word(step),
        Step::Zone(_, step) => zone_word(step),
        Step::Setting(_, _, step) => setting_word(step),
        Step::Text(step) => text_word(step),
    }
}

/// Writes the operands of a step, each token after a space. It allocates nothing.
pub fn put_operands<W: Write>(step: &Step<'_>, output: &mut Output<'_, W>)
    ensures { Puts W.contents output.old output.new (flat_map spaced (pieces_of (operands step.now))) }
{
    match step {
        Step::Preset(step) => put_preset_step(step, output),
        Step::Instrument(step) => put_instrument_step(step, output),
        Step::Sample(step) => put_sample_step(step, output),
        Step::Points(sample, step) => put_point_step(*sample, step, output),
        Step::Zone(owner, step) => put_zone_step(*owner, step, output),
        Step::Setting(owner, place, step) => put_setting_step(*owner, *place, step, output),
        Step::Text(step) => put_text_step(step, output),
    }
}
