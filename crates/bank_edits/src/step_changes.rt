//! One step: refused, or applied by its form.
ghost use Rattle.std.specs.Prelude.{◌≡◌, None, MatchResult, IsOk};
ghost use Rattle.bank_parts.specs.Sound.{IsSound};
ghost use Rattle.edit_forms.specs.declared.edit.Edit.TheVariants as edits;
ghost use Rattle.edit_forms.specs.Steps.{refusal};
ghost use Rattle.edit_refusals.specs.Edits.{refusal as edit_refusal};
ghost use Rattle.edit_forms.specs.Steps.{AllocatesNothing};
ghost use Rattle.bank_edits.specs.StepChanges.{IsStepChange};
ghost use Rattle.bank_edits.specs.EditChanges.{IsDone, IsRefused};

use crate::instruments::change_instrument;
use crate::points::change_points;
use crate::presets::change_preset;
use crate::samples::change_sample;
use crate::settings::change_setting;
use crate::texts::change_text;
use crate::zones::change_zone;
use bank_core::Bank;
use edit_forms::{Edit, Step};
use edit_refusals::{Refusal, refuse};
use std::alloc::Global;

/// The inverse of a step; or the step itself, if an allocation failed.
pub(crate) type InverseOrStep<'a> = Result<Step<'a>, Step<'a>>;

/// Applies the step and returns its inverse. A step that is refused, or for which an allocation fails, is returned
/// with the reason, and the bank is unchanged.
pub(crate) fn apply_step<'a>(
    alloc: Global,
    bank: &mut Bank<'a>,
    step: Step<'a>,
) -> Result<Edit<'a>, (Refusal, Edit<'a>)>
    ensures outcome { MatchResult result (λ back. IsDone bank.old bank.new (edits.One step.entry) back)
        (λ refused. IsRefused bank.old bank.new (edits.One step.entry) refused.0 refused.1) }
    ensures no_memory { AllocatesNothing step.entry → edit_refusal bank.old (edits.One step.entry) ≡ None → IsOk result }
{
    if let Err(cause) = refuse(bank, &step) {
        return Err((Refusal::Of(cause), Edit::One(step)));
    }
    match change_step(alloc, bank, step) {
        Ok(back) => Ok(Edit::One(back)),
        Err(given) => Err((Refusal::OutOfMemory, Edit::One(given))),
    }
}

/// Applies an accepted step and returns its inverse, or returns the step if an allocation failed.
pub(crate) fn change_step<'a>(
    alloc: Global,
    bank: &mut Bank<'a>,
    step: Step<'a>,
) -> InverseOrStep<'a>
    requires sound { IsSound bank.old }
    requires accepted { refusal bank.old step ≡ None }
    ensures outcome { IsStepChange bank.old bank.new step.entry result }
    ensures no_memory { AllocatesNothing step.entry → IsOk result }
{
    match step {
        Step::Preset(step) => change_preset(alloc, bank, step),
        Step::Instrument(step) => change_instrument(alloc, bank, step),
        Step::Sample(step) => change_sample(bank, step),
        Step::Points(sample, step) => change_points(alloc, bank, sample, step),
        Step::Zone(owner, step) => change_zone(alloc, bank, owner, step),
        Step::Setting(owner, place, step) => change_setting(bank, owner, place, step),
        Step::Text(step) => change_text(bank, step),
    }
}
