//! How each form that edits presets is applied.
ghost use Rattle.std.specs.Prelude.{◌≡◌, None, Ok, IsOk};
ghost use Rattle.bank_parts.specs.Sound.{IsSound};
ghost use Rattle.edit_forms.specs.declared.presets.PresetStep.TheVariants as form;
ghost use Rattle.edit_forms.specs.declared.step.Step.TheVariants as steps;
ghost use Rattle.edit_forms.specs.Steps.{refusal, AllocatesNothing};
ghost use Rattle.bank_edits.specs.StepChanges.{IsStepChange};

use crate::step_changes::InverseOrStep;
use bank_core::Bank;
use bank_parts::Preset;
use edit_forms::{PresetStep, Step};
use sf_base::Name20;
use std::alloc::Global;

pub(crate) fn change_preset<'a>(
    alloc: Global,
    bank: &mut Bank<'a>,
    step: PresetStep,
) -> InverseOrStep<'a>
    requires sound { IsSound bank.old }
    requires accepted { refusal bank.old (steps.Preset step) ≡ None }
    ensures outcome { IsStepChange bank.old bank.new (steps.Preset step) result }
    ensures no_memory { AllocatesNothing (steps.Preset step) → IsOk result }
{
    match step {
        PresetStep::AddPreset { at, .. } => add_preset(bank, at, step.into_preset()),
        PresetStep::RemovePreset { preset, .. } => remove_preset(alloc, bank, preset),
        PresetStep::MovePreset { from, to, .. } => Ok(move_preset(bank, from, to)),
        PresetStep::SetHead {
            preset,
            number,
            bank: bank_number,
            ..
        } => Ok(set_head(bank, preset, step.into_name(), number, bank_number)),
    }
}

// ---- add-preset

fn add_preset<'a>(bank: &mut Bank<'a>, at: u32, preset: Preset) -> InverseOrStep<'a>
    requires sound { IsSound bank.old }
    requires accepted { refusal bank.old (steps.Preset (form.AddPreset at preset)) ≡ None }
    ensures { IsStepChange bank.old bank.new (steps.Preset (form.AddPreset at preset)) result }
{
    preset.fits();
    match bank.add_preset(at, preset) {
        Ok(()) => Ok(Step::Preset(PresetStep::RemovePreset { preset: at })),
        Err(preset) => Err(Step::Preset(PresetStep::AddPreset { at, preset })),
    }
}

// ---- remove-preset

fn remove_preset<'a>(alloc: Global, bank: &mut Bank<'a>, preset: u32) -> InverseOrStep<'a>
    requires sound { IsSound bank.old }
    requires accepted { refusal bank.old (steps.Preset (form.RemovePreset preset)) ≡ None }
    ensures { IsStepChange bank.old bank.new (steps.Preset (form.RemovePreset preset)) result }
{
    match bank.remove_preset(alloc, preset) {
        Ok(removed) => Ok(Step::Preset(PresetStep::AddPreset {
            at: preset,
            preset: removed,
        })),
        Err(_) => Err(Step::Preset(PresetStep::RemovePreset { preset })),
    }
}

// ---- move-preset

fn move_preset<'a>(bank: &mut Bank<'a>, from: u32, to: u32) -> Step<'a>
    requires sound { IsSound bank.old }
    requires accepted { refusal bank.old (steps.Preset (form.MovePreset from to)) ≡ None }
    ensures { IsStepChange bank.old bank.new (steps.Preset (form.MovePreset from to)) (Ok result) }
{
    bank.move_preset(from, to);
    Step::Preset(PresetStep::MovePreset { from: to, to: from })
}

// ---- set-head

fn set_head<'a>(
    bank: &mut Bank<'a>,
    preset: u32,
    name: Name20,
    number: u16,
    bank_number: u16,
) -> Step<'a>
    requires sound { IsSound bank.old }
    requires accepted { refusal bank.old (steps.Preset (form.SetHead preset name number bank_number)) ≡ None }
    ensures { IsStepChange bank.old bank.new (steps.Preset (form.SetHead preset name number bank_number)) (Ok result) }
{
    let _bytes = name.bytes();
    let old = bank.set_head(preset, name, number, bank_number);
    Step::Preset(PresetStep::SetHead {
        preset,
        name: old.name,
        number: old.number,
        bank: old.bank,
    })
}
