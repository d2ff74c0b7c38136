//! How each form that edits generators or modulators is applied.
ghost use Rattle.std.specs.Prelude.{◌≡◌, None, Ok, IsOk};
ghost use Rattle.bank_parts.specs.Sound.{IsSound};
ghost use Rattle.edit_forms.specs.declared.settings.SettingStep.TheVariants as form;
ghost use Rattle.edit_forms.specs.declared.step.Step.TheVariants as steps;
ghost use Rattle.edit_forms.specs.Steps.{refusal, AllocatesNothing};
ghost use Rattle.bank_edits.specs.StepChanges.{IsStepChange};

use crate::step_changes::InverseOrStep;
use bank_core::{Bank, Owner, Place};
use bank_parts::modulator_fits;
use edit_forms::{SettingStep, Step};
use modulators::Modulator;

pub(crate) fn change_setting<'a>(
    bank: &mut Bank<'a>,
    owner: Owner,
    place: Place,
    step: SettingStep,
) -> InverseOrStep<'a>
    requires sound { IsSound bank.old }
    requires accepted { refusal bank.old (steps.Setting owner place step) ≡ None }
    ensures outcome { IsStepChange bank.old bank.new (steps.Setting owner place step) result }
    ensures no_memory { AllocatesNothing (steps.Setting owner place step) → IsOk result }
{
    match step {
        SettingStep::SetGen { operator, amount } => set_gen(bank, owner, place, operator, amount),
        SettingStep::ClearGen { operator } => Ok(clear_gen(bank, owner, place, operator)),
        SettingStep::AddMod { index, modulator } => add_mod(bank, owner, place, index, modulator),
        SettingStep::RemoveMod { index } => Ok(remove_mod(bank, owner, place, index)),
        SettingStep::SetMod { index, modulator } => Ok(set_mod(
            bank, owner, place, index, modulator,
        )),
    }
}

// ---- set-gen

fn set_gen<'a>(
    bank: &mut Bank<'a>,
    owner: Owner,
    place: Place,
    operator: u16,
    amount: u16,
) -> InverseOrStep<'a>
    requires sound { IsSound bank.old }
    requires accepted { refusal bank.old (steps.Setting owner place (form.SetGen operator amount)) ≡ None }
    ensures { IsStepChange bank.old bank.new (steps.Setting owner place (form.SetGen operator amount)) result }
{
    match bank.set_gen(owner, place, operator, amount) {
        Ok(Some(was)) => Ok(Step::Setting(
            owner,
            place,
            SettingStep::SetGen {
                operator,
                amount: was,
            },
        )),
        Ok(None) => Ok(Step::Setting(owner, place, SettingStep::ClearGen { operator })),
        Err(_) => Err(Step::Setting(owner, place, SettingStep::SetGen { operator, amount })),
    }
}

// ---- clear-gen

fn clear_gen<'a>(bank: &mut Bank<'a>, owner: Owner, place: Place, operator: u16) -> Step<'a>
    requires sound { IsSound bank.old }
    requires accepted { refusal bank.old (steps.Setting owner place (form.ClearGen operator)) ≡ None }
    ensures { IsStepChange bank.old bank.new (steps.Setting owner place (form.ClearGen operator)) (Ok result) }
{
    match bank.clear_gen(owner, place, operator) {
        Some(was) => Step::Setting(
            owner,
            place,
            SettingStep::SetGen {
                operator,
                amount: was,
            },
        ),
        None => Step::Setting(owner, place, SettingStep::ClearGen { operator }),
    }
}

// ---- add-mod

fn add_mod<'a>(
    bank: &mut Bank<'a>,
    owner: Owner,
    place: Place,
    index: u32,
    modulator: Modulator,
) -> InverseOrStep<'a>
    requires sound { IsSound bank.old }
    requires accepted { refusal bank.old (steps.Setting owner place (form.AddMod index modulator)) ≡ None }
    ensures { IsStepChange bank.old bank.new (steps.Setting owner place (form.AddMod index modulator)) result }
{
    modulator_fits(modulator);
    match bank.add_mod(owner, place, index, modulator) {
        Ok(()) => Ok(Step::Setting(owner, place, SettingStep::RemoveMod { index })),
        Err(_) => Err(Step::Setting(owner, place, SettingStep::AddMod { index, modulator })),
    }
}

// ---- remove-mod

fn remove_mod<'a>(bank: &mut Bank<'a>, owner: Owner, place: Place, index: u32) -> Step<'a>
    requires sound { IsSound bank.old }
    requires accepted { refusal bank.old (steps.Setting owner place (form.RemoveMod index)) ≡ None }
    ensures { IsStepChange bank.old bank.new (steps.Setting owner place (form.RemoveMod index)) (Ok result) }
{
    let modulator = bank.remove_mod(owner, place, index);
    Step::Setting(owner, place, SettingStep::AddMod { index, modulator })
}

// ---- set-mod

fn set_mod<'a>(
    bank: &mut Bank<'a>,
    owner: Owner,
    place: Place,
    index: u32,
    modulator: Modulator,
) -> Step<'a>
    requires sound { IsSound bank.old }
    requires accepted { refusal bank.old (steps.Setting owner place (form.SetMod index modulator)) ≡ None }
    ensures { IsStepChange bank.old bank.new (steps.Setting owner place (form.SetMod index modulator)) (Ok result) }
{
    modulator_fits(modulator);
    let replaced = bank.set_mod(owner, place, index, modulator);
    Step::Setting(
        owner,
        place,
        SettingStep::SetMod {
            index,
            modulator: replaced,
        },
    )
}
