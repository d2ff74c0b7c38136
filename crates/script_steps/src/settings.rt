//! The forms that edit generators and modulators.
ghost use Rattle.std.specs.Prelude.{◌≡◌, codes};
ghost use Rattle.std.specs.List.{flat_map};
ghost use Rattle.base_outputs.specs.Output.{Puts};
ghost use Rattle.script_tokens.specs.Printing.{spaced};
ghost use Rattle.script_grammar.specs.Operands.{pieces_of};
ghost use Rattle.edit_forms.specs.declared.settings.SettingStep.TheVariants.{SetGen, ClearGen};
ghost use Rattle.script_steps.specs.Forms.{form_in, ReadsForm, ReadsWithoutAllocation};
ghost use Rattle.script_steps.specs.Owners.{of_place};
ghost use Rattle.script_steps.specs.Settings.{forms, printed, index_operands, modulator_at_operands, set_gen, clear_gen, add_mod, remove_mod, set_mod};

use crate::by_word::by_word;
use crate::owners::{kind_piece, number_piece, owner_place, place_piece};
use bank_changes::{Owner, Place};
use base_outputs::Output;
use edit_forms::{SettingStep, Step};
use modulators::Modulator;
use script_grammar::{generator, modulator, put_generator, put_modulator};
use script_tokens::{Cursor, LineFault, Piece, put_pieces};
use sf_base::Failure;
use std::io::Write;

// ---- read

/// Reads the operands of a step after its word; `None` if the word names none of these forms.
#[tactic(auto, unfolding(crate::specs::Settings::forms, crate::specs::Forms::ReadsForm))]
pub(crate) fn setting_step<'p>(
    word: &[u8],
    line: &mut Cursor<'_, 'p>,
) -> Option<Result<Step<'p>, Failure<LineFault>>>
    ensures { ReadsForm (form_in forms word.now) line.old line.new result }
{
    by_word!(word,
        b"set-gen" => set_gen(line),
        b"clear-gen" => clear_gen(line),
        b"add-mod" => add_mod(line),
        b"remove-mod" => remove_mod(line),
        b"set-mod" => set_mod(line),
    )
}

// `OWNER PLACE OPERATOR AMOUNT`
#[tactic(auto, unfolding(crate::specs::Settings::set_gen))]
fn set_gen<'p>(line: &mut Cursor<'_, 'p>) -> Result<Step<'p>, Failure<LineFault>>
    ensures { ReadsWithoutAllocation set_gen line.old line.new result }
{
    let (owner, place) = owner_place(line)?;
    let (operator, amount) = generator(line)?;
    Ok(Step::Setting(owner, place, SettingStep::SetGen { operator, amount }))
}

// `OWNER PLACE OPERATOR`
#[tactic(auto, unfolding(crate::specs::Settings::clear_gen))]
fn clear_gen<'p>(line: &mut Cursor<'_, 'p>) -> Result<Step<'p>, Failure<LineFault>>
    ensures { ReadsWithoutAllocation clear_gen line.old line.new result }
{
    let (owner, place) = owner_place(line)?;
    let operator = line.number(u32::from(u16::MAX))? as u16;
    Ok(Step::Setting(owner, place, SettingStep::ClearGen { operator }))
}

// `OWNER PLACE J MOD`
#[tactic(auto, unfolding(crate::specs::Settings::add_mod))]
fn add_mod<'p>(line: &mut Cursor<'_, 'p>) -> Result<Step<'p>, Failure<LineFault>>
    ensures { ReadsWithoutAllocation add_mod line.old line.new result }
{
    let (owner, place) = owner_place(line)?;
    let index = line.number(u32::MAX)?;
    let modulator = modulator(line)?;
    Ok(Step::Setting(owner, place, SettingStep::AddMod { index, modulator }))
}

// `OWNER PLACE J`
#[tactic(auto, unfolding(crate::specs::Settings::remove_mod))]
fn remove_mod<'p>(line: &mut Cursor<'_, 'p>) -> Result<Step<'p>, Failure<LineFault>>
    ensures { ReadsWithoutAllocation remove_mod line.old line.new result }
{
    let (owner, place) = owner_place(line)?;
    let index = line.number(u32::MAX)?;
    Ok(Step::Setting(owner, place, SettingStep::RemoveMod { index }))
}

// `OWNER PLACE J MOD`
#[tactic(auto, unfolding(crate::specs::Settings::set_mod))]
fn set_mod<'p>(line: &mut Cursor<'_, 'p>) -> Result<Step<'p>, Failure<LineFault>>
    ensures { ReadsWithoutAllocation set_mod line.old line.new result }
{
    let (owner, place) = owner_place(line)?;
    let index = line.number(u32::MAX)?;
    let modulator = modulator(line)?;
    Ok(Step::Setting(owner, place, SettingStep::SetMod { index, modulator }))
}

// ---- printed

/// The word of a step's form.
pub(crate) fn setting_word(step: &SettingStep) -> &'static [u8]
    ensures { (owner : Owner) → (place : Place) → result.now ≡ (printed owner place step.now).0 }
{
    match step {
        SettingStep::SetGen { .. } => b"set-gen",
        SettingStep::ClearGen { .. } => b"clear-gen",
        SettingStep::AddMod { .. } => b"add-mod",
        SettingStep::RemoveMod { .. } => b"remove-mod",
        SettingStep::SetMod { .. } => b"set-mod",
    }
}

pub(crate) fn put_setting_step<W: Write>(
    owner: Owner,
    place: Place,
    step: &SettingStep,
    output: &mut Output<'_, W>,
)
    ensures { Puts W.contents output.old output.new (flat_map spaced (pieces_of (printed owner place step.now).1)) }
{
    match step {
        SettingStep::SetGen { operator, amount } => put_set_gen(
            owner, place, *operator, *amount, output,
        ),
        SettingStep::ClearGen { operator } => put_clear_gen(owner, place, *operator, output),
        SettingStep::AddMod { index, modulator } => put_modulator_at(
            owner, place, *index, modulator, output,
        ),
        SettingStep::RemoveMod { index } => put_index(owner, place, *index, output),
        SettingStep::SetMod { index, modulator } => put_modulator_at(
            owner, place, *index, modulator, output,
        ),
    }
}

#[tactic(auto, using(script_grammar::proofs::PutLaws::puts_both))]
fn put_set_gen<W: Write>(
    owner: Owner,
    place: Place,
    operator: u16,
    amount: u16,
    output: &mut Output<'_, W>,
)
    ensures { Puts W.contents output.old output.new (flat_map spaced (pieces_of (printed owner place (SetGen operator amount)).1)) }
{
    put_owner_place(owner, place, output);
    put_generator(operator, amount, output);
}

// `OWNER PLACE`, each token after a space
fn put_owner_place<W: Write>(owner: Owner, place: Place, output: &mut Output<'_, W>)
    ensures { Puts W.contents output.old output.new (flat_map spaced (pieces_of (of_place owner place))) }
{
    put_pieces(
        &[kind_piece(owner), number_piece(owner), place_piece(place)],
        output,
    );
}

fn put_clear_gen<W: Write>(owner: Owner, place: Place, operator: u16, output: &mut Output<'_, W>)
    ensures { Puts W.contents output.old output.new (flat_map spaced (pieces_of (printed owner place (ClearGen operator)).1)) }
{
    let place = place_piece(place);
    let operator = Piece::Number(u64::from(operator));
    put_pieces(
        &[kind_piece(owner), number_piece(owner), place, operator],
        output,
    );
}

// `OWNER PLACE J MOD`, each token after a space
#[tactic(auto, using(script_grammar::proofs::PutLaws::puts_both))]
fn put_modulator_at<W: Write>(
    owner: Owner,
    place: Place,
    index: u32,
    modulator: &Modulator,
    output: &mut Output<'_, W>,
)
    ensures { Puts W.contents output.old output.new (flat_map spaced (pieces_of (modulator_at_operands owner place index modulator.now))) }
{
    put_index(owner, place, index, output);
    put_modulator(modulator, output);
}

// `OWNER PLACE J`, each token after a space
fn put_index<W: Write>(owner: Owner, place: Place, index: u32, output: &mut Output<'_, W>)
    ensures { Puts W.contents output.old output.new (flat_map spaced (pieces_of (index_operands owner place index))) }
{
    let place = place_piece(place);
    let index = Piece::Number(u64::from(index));
    put_pieces(
        &[kind_piece(owner), number_piece(owner), place, index],
        output,
    );
}
