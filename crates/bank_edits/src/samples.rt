//! How each form that edits the list of samples is applied.
ghost use Rattle.std.specs.Prelude.{◌≡◌, None, Ok, IsOk};
ghost use Rattle.bank_parts.specs.Sound.{IsSound};
ghost use Rattle.edit_forms.specs.declared.samples.SampleStep.TheVariants as form;
ghost use Rattle.edit_forms.specs.declared.step.Step.TheVariants as steps;
ghost use Rattle.edit_forms.specs.Steps.{refusal, AllocatesNothing};
ghost use Rattle.bank_edits.specs.StepChanges.{IsStepChange};

use crate::step_changes::InverseOrStep;
use bank_core::Bank;
use bank_parts::Sample;
use edit_forms::{SampleStep, Step};
use sf_base::Name20;

pub(crate) fn change_sample<'a>(bank: &mut Bank<'a>, step: SampleStep<'a>) -> InverseOrStep<'a>
    requires sound { IsSound bank.old }
    requires accepted { refusal bank.old (steps.Sample step) ≡ None }
    ensures outcome { IsStepChange bank.old bank.new (steps.Sample step.entry) result }
    ensures no_memory { AllocatesNothing (steps.Sample step.entry) → IsOk result }
{
    match step {
        SampleStep::RenameSample { sample, .. } => Ok(rename_sample(
            bank,
            sample,
            step.into_name(),
        )),
        SampleStep::AddSample { at, .. } => add_sample(bank, at, step.into_sample()),
        SampleStep::RemoveSample { sample, .. } => Ok(remove_sample(bank, sample)),
        SampleStep::MoveSample { from, to, .. } => Ok(move_sample(bank, from, to)),
    }
}

// ---- rename-sample

fn rename_sample<'a>(bank: &mut Bank<'a>, sample: u32, name: Name20) -> Step<'a>
    requires sound { IsSound bank.old }
    requires accepted { refusal bank.old (steps.Sample (form.RenameSample sample name)) ≡ None }
    ensures { IsStepChange bank.old bank.new (steps.Sample (form.RenameSample sample name)) (Ok result) }
{
    let _bytes = name.bytes();
    let old = bank.rename_sample(sample, name);
    Step::Sample(SampleStep::RenameSample { sample, name: old })
}

// ---- add-sample

fn add_sample<'a>(bank: &mut Bank<'a>, at: u32, sample: Sample<'a>) -> InverseOrStep<'a>
    requires sound { IsSound bank.old }
    requires accepted { refusal bank.old (steps.Sample (form.AddSample at sample)) ≡ None }
    ensures { IsStepChange bank.old bank.new (steps.Sample (form.AddSample at sample.entry)) result }
{
    sample.fits();
    match bank.add_sample(at, sample) {
        Ok(()) => Ok(Step::Sample(SampleStep::RemoveSample { sample: at })),
        Err(sample) => Err(Step::Sample(SampleStep::AddSample { at, sample })),
    }
}

// ---- remove-sample

fn remove_sample<'a>(bank: &mut Bank<'a>, sample: u32) -> Step<'a>
    requires sound { IsSound bank.old }
    requires accepted { refusal bank.old (steps.Sample (form.RemoveSample sample)) ≡ None }
    ensures { IsStepChange bank.old bank.new (steps.Sample (form.RemoveSample sample)) (Ok result) }
{
    let removed = bank.remove_sample(sample);
    Step::Sample(SampleStep::AddSample {
        at: sample,
        sample: removed,
    })
}

// ---- move-sample

fn move_sample<'a>(bank: &mut Bank<'a>, from: u32, to: u32) -> Step<'a>
    requires sound { IsSound bank.old }
    requires accepted { refusal bank.old (steps.Sample (form.MoveSample from to)) ≡ None }
    ensures { IsStepChange bank.old bank.new (steps.Sample (form.MoveSample from to)) (Ok result) }
{
    bank.move_sample(from, to);
    Step::Sample(SampleStep::MoveSample { from: to, to: from })
}
