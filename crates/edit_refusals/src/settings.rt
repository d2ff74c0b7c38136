//! Causes of refusal of each form that edits generators or modulators.
ghost use Rattle.std.specs.Prelude.{◌≡◌, false};
ghost use Rattle.bank_parts.specs.Sound.{IsSound};
ghost use Rattle.edit_forms.specs.declared.settings.SettingStep.TheVariants as form;
ghost use Rattle.edit_forms.specs.declared.step.Step.TheVariants as steps;
ghost use Rattle.edit_forms.specs.Causes as tests;
ghost use Rattle.edit_forms.specs.Steps.{refusal};
ghost use Rattle.edit_refusals.specs.Answers.{IsRefuseResult};

use crate::causes::{
    bad_amount, bad_insert_index, foreign_operator, full, linked_modulator, linked_place,
    mods_there, no_such_modulator, no_such_owner, no_such_zone_at, not_set,
};
use bank_core::{Bank, Owner, Place};
use edit_forms::{Cause, SettingStep};
use modulators::Modulator;

pub(crate) fn refuse_setting_step(
    bank: &Bank<'_>,
    owner: Owner,
    place: Place,
    step: SettingStep,
) -> Result<(), Cause>
    requires { IsSound bank.now }
    ensures { IsRefuseResult (refusal bank.now (steps.Setting owner place step)) result }
{
    no_such_owner(bank, owner)?;
    no_such_zone_at(bank, owner, place)?;
    match step {
        SettingStep::SetGen { operator, amount } => {
            refuse_set_gen(bank, owner, place, operator, amount)
        }
        SettingStep::ClearGen { operator } => refuse_clear_gen(bank, owner, place, operator),
        SettingStep::AddMod { index, modulator } => {
            refuse_add_mod(bank, owner, place, index, modulator)
        }
        SettingStep::RemoveMod { index } => refuse_remove_mod(bank, owner, place, index),
        SettingStep::SetMod { index, modulator } => {
            refuse_set_mod(bank, owner, place, index, modulator)
        }
    }
}

// ---- set-gen

fn refuse_set_gen(
    bank: &Bank<'_>,
    owner: Owner,
    place: Place,
    operator: u16,
    amount: u16,
) -> Result<(), Cause>
    requires sound { IsSound bank.now }
    requires owner { (tests.no_such_owner bank.now owner).applies ≡ false }
    requires zone { (tests.no_such_zone_at bank.now owner place).applies ≡ false }
    ensures { IsRefuseResult (refusal bank.now (steps.Setting owner place (form.SetGen operator amount))) result }
{
    foreign_operator(owner.level(), operator)?;
    bad_amount(operator, amount)?;
    full(bank.broken_with_gen(owner, place, operator))
}

// ---- clear-gen

fn refuse_clear_gen(bank: &Bank<'_>, owner: Owner, place: Place, operator: u16) -> Result<(), Cause>
    requires sound { IsSound bank.now }
    requires owner { (tests.no_such_owner bank.now owner).applies ≡ false }
    requires zone { (tests.no_such_zone_at bank.now owner place).applies ≡ false }
    ensures { IsRefuseResult (refusal bank.now (steps.Setting owner place (form.ClearGen operator))) result }
{
    foreign_operator(owner.level(), operator)?;
    not_set(bank, owner, place, operator)
}

// ---- add-mod

fn refuse_add_mod(
    bank: &Bank<'_>,
    owner: Owner,
    place: Place,
    index: u32,
    modulator: Modulator,
) -> Result<(), Cause>
    requires sound { IsSound bank.now }
    requires owner { (tests.no_such_owner bank.now owner).applies ≡ false }
    requires zone { (tests.no_such_zone_at bank.now owner place).applies ≡ false }
    ensures { IsRefuseResult (refusal bank.now (steps.Setting owner place (form.AddMod index modulator))) result }
{
    bad_insert_index(mods_there(bank, owner, place), index)?;
    linked_modulator(bank, owner, place, modulator)?;
    full(bank.broken_with_mod(owner, place))
}

// ---- remove-mod

fn refuse_remove_mod(bank: &Bank<'_>, owner: Owner, place: Place, index: u32) -> Result<(), Cause>
    requires sound { IsSound bank.now }
    requires owner { (tests.no_such_owner bank.now owner).applies ≡ false }
    requires zone { (tests.no_such_zone_at bank.now owner place).applies ≡ false }
    ensures { IsRefuseResult (refusal bank.now (steps.Setting owner place (form.RemoveMod index))) result }
{
    no_such_modulator(bank, owner, place, index)?;
    linked_place(bank, owner, place)
}

// ---- set-mod

fn refuse_set_mod(
    bank: &Bank<'_>,
    owner: Owner,
    place: Place,
    index: u32,
    modulator: Modulator,
) -> Result<(), Cause>
    requires sound { IsSound bank.now }
    requires owner { (tests.no_such_owner bank.now owner).applies ≡ false }
    requires zone { (tests.no_such_zone_at bank.now owner place).applies ≡ false }
    ensures { IsRefuseResult (refusal bank.now (steps.Setting owner place (form.SetMod index modulator))) result }
{
    no_such_modulator(bank, owner, place, index)?;
    linked_modulator(bank, owner, place, modulator)
}
