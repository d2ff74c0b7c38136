//! The forms that edit presets.
ghost use Rattle.std.specs.Prelude.{◌≡◌, ◌∷◌, codes};
ghost use Rattle.std.specs.List.{flat_map};
ghost use Rattle.base_outputs.specs.Output.{Puts};
ghost use Rattle.script_tokens.specs.Parsers.{Reads};
ghost use Rattle.script_tokens.specs.Printing.{spaced};
ghost use Rattle.script_grammar.specs.Operands.{pieces_of};
ghost use Rattle.script_grammar.specs.Memory.{ReadsOrOutOfMemory};
ghost use Rattle.script_steps.specs.Forms.{form_in, ReadsForm, ReadsWithoutAllocation};
ghost use Rattle.script_steps.specs.Members.{place, printed_owner};
ghost use Rattle.edit_forms.specs.declared.presets.PresetStep.TheVariants as variants;
ghost use Rattle.script_steps.specs.Presets.{forms, printed, head_operands, head, placed_head, add_preset, remove_preset, move_preset, set_head};

use crate::by_word::by_word;
use crate::members::{index_pair, indexed_name, put_index_pair, put_number, zones_of};
use bank_parts::{Head, Preset};
use base_outputs::Output;
use edit_forms::{PresetStep, Step};
use script_grammar::put_zones;
use script_tokens::{Cursor, LineFault, Piece, put_pieces};
use sf_base::{BorrowedBytes, Failure, Name20};
use std::alloc::Global;
use std::io::Write;

// ---- read

/// Reads the operands of a step after its word; `None` if the word names none of these forms.
#[tactic(auto, unfolding(crate::specs::Presets::forms, crate::specs::Forms::ReadsForm))]
pub(crate) fn preset_step<'p>(
    word: &[u8],
    alloc: Global,
    line: &mut Cursor<'_, 'p>,
) -> Option<Result<Step<'p>, Failure<LineFault>>>
    ensures { ReadsForm (form_in forms word.now) line.old line.new result }
{
    by_word!(word,
        b"add-preset" => add_preset(alloc, line),
        b"remove-preset" => remove_preset(line),
        b"move-preset" => move_preset(line),
        b"set-head" => set_head(line),
    )
}

// `P NAME NUMBER BANK LIBRARY GENRE MORPHOLOGY GLOBAL? ZONE*`
#[tactic(auto, unfolding(crate::specs::Presets::add_preset))]
fn add_preset<'p>(alloc: Global, line: &mut Cursor<'_, 'p>) -> Result<Step<'p>, Failure<LineFault>>
    ensures { ReadsOrOutOfMemory (λ s. s) add_preset line.old line.new result }
{
    let (at, head) = placed_head(line)?;
    let preset = zones_of(head, alloc, line)?;
    Ok(Step::Preset(PresetStep::AddPreset { at, preset }))
}

// `P`
#[tactic(auto, unfolding(crate::specs::Presets::remove_preset))]
fn remove_preset<'p>(line: &mut Cursor<'_, 'p>) -> Result<Step<'p>, Failure<LineFault>>
    ensures { ReadsWithoutAllocation remove_preset line.old line.new result }
{
    let preset = line.number(u32::MAX)?;
    Ok(Step::Preset(PresetStep::RemovePreset { preset }))
}

// `I J`
#[tactic(auto, unfolding(crate::specs::Presets::move_preset))]
fn move_preset<'p>(line: &mut Cursor<'_, 'p>) -> Result<Step<'p>, Failure<LineFault>>
    ensures { ReadsWithoutAllocation move_preset line.old line.new result }
{
    let (from, to) = index_pair(line)?;
    Ok(Step::Preset(PresetStep::MovePreset { from, to }))
}

// `P NAME NUMBER BANK`
#[tactic(auto, unfolding(crate::specs::Presets::set_head))]
fn set_head<'p>(line: &mut Cursor<'_, 'p>) -> Result<Step<'p>, Failure<LineFault>>
    ensures { ReadsWithoutAllocation set_head line.old line.new result }
{
    let (preset, name) = indexed_name(line)?;
    let number = line.number(u32::from(u16::MAX))? as u16;
    let bank = line.number(u32::from(u16::MAX))? as u16;
    Ok(Step::Preset(PresetStep::SetHead {
        preset,
        name,
        number,
        bank,
    }))
}

// `P NAME NUMBER BANK LIBRARY GENRE MORPHOLOGY`
#[tactic(auto, unfolding(crate::specs::Presets::placed_head))]
fn placed_head(line: &mut Cursor<'_, '_>) -> Result<(u32, Head), LineFault>
    ensures { Reads (λ h. h) placed_head line.old line.new result }
{
    let at = line.number(u32::MAX)?;
    let head = head(line)?;
    Ok((at, head))
}

// `NAME NUMBER BANK LIBRARY GENRE MORPHOLOGY`
#[tactic(auto, unfolding(crate::specs::Presets::head))]
fn head(line: &mut Cursor<'_, '_>) -> Result<Head, LineFault>
    ensures { Reads (λ h. h) head line.old line.new result }
{
    let name = line.name()?;
    let number = line.number(u32::from(u16::MAX))? as u16;
    let bank = line.number(u32::from(u16::MAX))? as u16;
    let library = line.number(u32::MAX)?;
    let genre = line.number(u32::MAX)?;
    let morphology = line.number(u32::MAX)?;
    Ok(Head {
        name,
        number,
        bank,
        library,
        genre,
        morphology,
    })
}

// ---- printed

/// The word of a step's form.
pub(crate) fn preset_word(step: &PresetStep) -> &'static [u8]
    ensures { result.now ≡ (printed step.now).0 }
{
    match step {
        PresetStep::AddPreset { .. } => b"add-preset",
        PresetStep::RemovePreset { .. } => b"remove-preset",
        PresetStep::MovePreset { .. } => b"move-preset",
        PresetStep::SetHead { .. } => b"set-head",
    }
}

pub(crate) fn put_preset_step<W: Write>(step: &PresetStep, output: &mut Output<'_, W>)
    ensures { Puts W.contents output.old output.new (flat_map spaced (pieces_of (printed step.now).1)) }
{
    match step {
        PresetStep::AddPreset { at, preset } => put_add_preset(*at, preset, output),
        PresetStep::RemovePreset { preset } => put_number(*preset, output),
        PresetStep::MovePreset { from, to } => put_index_pair(*from, *to, output),
        PresetStep::SetHead {
            preset,
            name,
            number,
            bank,
        } => put_set_head(*preset, name, *number, *bank, output),
    }
}

#[tactic(auto, using(crate::proofs::PutLaws::puts_owner))]
fn put_add_preset<W: Write>(at: u32, preset: &Preset, output: &mut Output<'_, W>)
    ensures { Puts W.contents output.old output.new (flat_map spaced (pieces_of (printed_owner head_operands at preset.now))) }
{
    put_placed_head(at, &preset.head, output);
    put_zones(&preset.global, preset.zones.as_slice(), output);
}

// `P NAME NUMBER BANK LIBRARY GENRE MORPHOLOGY`, each token after a space
fn put_placed_head<W: Write>(at: u32, head: &Head, output: &mut Output<'_, W>)
    ensures { Puts W.contents output.old output.new (flat_map spaced (pieces_of (place at ∷ head_operands head.now))) }
{
    let at = Piece::Number(u64::from(at));
    let name = Piece::Name(BorrowedBytes::new(head.name.bytes()));
    let number = Piece::Number(u64::from(head.number));
    let bank = Piece::Number(u64::from(head.bank));
    let library = Piece::Number(u64::from(head.library));
    let genre = Piece::Number(u64::from(head.genre));
    let morphology = Piece::Number(u64::from(head.morphology));
    put_pieces(
        &[at, name, number, bank, library, genre, morphology],
        output,
    );
}

fn put_set_head<W: Write>(
    preset: u32,
    name: &Name20,
    number: u16,
    bank: u16,
    output: &mut Output<'_, W>,
)
    ensures { Puts W.contents output.old output.new (flat_map spaced (pieces_of (printed (variants.SetHead preset name.now number bank)).1)) }
{
    let preset = Piece::Number(u64::from(preset));
    let name = Piece::Name(BorrowedBytes::new(name.bytes()));
    let number = Piece::Number(u64::from(number));
    let bank = Piece::Number(u64::from(bank));
    put_pieces(&[preset, name, number, bank], output);
}
