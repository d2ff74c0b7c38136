//! Causes of refusal of each form that edits presets.
ghost use Rattle.std.specs.Prelude.{ℕ, List};
ghost use Rattle.bank_parts.specs.Sound.{IsSound};
ghost use Rattle.edit_forms.specs.declared.presets.PresetStep.TheVariants as form;
ghost use Rattle.edit_forms.specs.declared.step.Step.TheVariants as steps;
ghost use Rattle.edit_forms.specs.Steps.{refusal};
ghost use Rattle.edit_refusals.specs.Answers.{IsRefuseResult};

use crate::causes::{
    bad_generator, bad_insert_index, bad_member_index, bad_range, full, no_such_preset,
    no_such_target,
};
use bank_core::{Bank, List as Members};
use bank_parts::Preset;
use edit_forms::{Cause, PresetStep};
use generators::Level;

pub(crate) fn refuse_preset_step(bank: &Bank<'_>, step: &PresetStep) -> Result<(), Cause>
    requires { IsSound bank.now }
    ensures { IsRefuseResult (refusal bank.now (steps.Preset step.now)) result }
{
    match step {
        PresetStep::AddPreset { at, preset } => refuse_add_preset(bank, *at, preset),
        PresetStep::RemovePreset { preset } => refuse_remove_preset(bank, *preset),
        PresetStep::MovePreset { from, to } => refuse_move_preset(bank, *from, *to),
        PresetStep::SetHead { preset, .. } => refuse_set_head(bank, *preset),
    }
}

// ---- add-preset

fn refuse_add_preset(bank: &Bank<'_>, at: u32, preset: &Preset) -> Result<(), Cause>
    requires { IsSound bank.now }
    ensures { IsRefuseResult (refusal bank.now (steps.Preset (form.AddPreset at preset.now))) result }
{
    no_such_target(
        bank.count(Members::Instruments),
        preset,
        Cause::NoSuchInstrument,
    )?;
    bad_insert_index(bank.count(Members::Presets), at)?;
    bad_generator(Level::Preset, preset)?;
    bad_range(preset)?;
    full(
        bank.totals()
            .broken_with_owner(Level::Preset, preset.records()),
    )
}

// ---- remove-preset

fn refuse_remove_preset(bank: &Bank<'_>, preset: u32) -> Result<(), Cause>
    requires { IsSound bank.now }
    ensures { IsRefuseResult (refusal bank.now (steps.Preset (form.RemovePreset preset))) result }
{
    no_such_preset(bank, preset)
}

// ---- move-preset

fn refuse_move_preset(bank: &Bank<'_>, from: u32, to: u32) -> Result<(), Cause>
    requires { IsSound bank.now }
    ensures { IsRefuseResult (refusal bank.now (steps.Preset (form.MovePreset from to))) result }
{
    no_such_preset(bank, from)?;
    bad_member_index(bank.count(Members::Presets), to)
}

// ---- set-head

fn refuse_set_head(bank: &Bank<'_>, preset: u32) -> Result<(), Cause>
    requires { IsSound bank.now }
    ensures { (name : List ℕ) → (number bank_number : ℕ) → IsRefuseResult (refusal bank.now (steps.Preset (form.SetHead preset name number bank_number))) result }
{
    no_such_preset(bank, preset)
}
