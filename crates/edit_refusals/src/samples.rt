//! Causes of refusal of each form that edits the list of samples.
ghost use Rattle.std.specs.Prelude.{ℕ, List};
ghost use Rattle.bank_parts.specs.Sound.{IsSound};
ghost use Rattle.edit_forms.specs.declared.samples.SampleStep.TheVariants as form;
ghost use Rattle.edit_forms.specs.declared.step.Step.TheVariants as steps;
ghost use Rattle.edit_forms.specs.Steps.{refusal};
ghost use Rattle.edit_refusals.specs.Answers.{IsRefuseResult};

use crate::causes::{
    bad_insert_index, bad_loop, bad_member_index, full, no_such_link, no_such_sample, used_sample,
};
use bank_core::{Bank, List as Members};
use bank_parts::Sample;
use edit_forms::{Cause, SampleStep};

pub(crate) fn refuse_sample_step(bank: &Bank<'_>, step: &SampleStep<'_>) -> Result<(), Cause>
    requires { IsSound bank.now }
    ensures { IsRefuseResult (refusal bank.now (steps.Sample step.now)) result }
{
    match step {
        SampleStep::RenameSample { sample, .. } => refuse_rename_sample(bank, *sample),
        SampleStep::AddSample { at, sample } => refuse_add_sample(bank, *at, sample),
        SampleStep::RemoveSample { sample } => refuse_remove_sample(bank, *sample),
        SampleStep::MoveSample { from, to } => refuse_move_sample(bank, *from, *to),
    }
}

// ---- rename-sample

fn refuse_rename_sample(bank: &Bank<'_>, sample: u32) -> Result<(), Cause>
    requires { IsSound bank.now }
    ensures { (name : List ℕ) → IsRefuseResult (refusal bank.now (steps.Sample (form.RenameSample sample name))) result }
{
    no_such_sample(bank, sample)
}

// ---- add-sample

fn refuse_add_sample(bank: &Bank<'_>, at: u32, sample: &Sample<'_>) -> Result<(), Cause>
    requires { IsSound bank.now }
    ensures { IsRefuseResult (refusal bank.now (steps.Sample (form.AddSample at sample.now))) result }
{
    no_such_link(bank, sample.kind)?;
    bad_insert_index(bank.samples().len(), at)?;
    bad_loop(sample)?;
    full(bank.totals().broken_with_sample(sample.points.len()))
}

// ---- remove-sample

fn refuse_remove_sample(bank: &Bank<'_>, sample: u32) -> Result<(), Cause>
    requires { IsSound bank.now }
    ensures { IsRefuseResult (refusal bank.now (steps.Sample (form.RemoveSample sample))) result }
{
    no_such_sample(bank, sample)?;
    used_sample(bank, sample)
}

// ---- move-sample

fn refuse_move_sample(bank: &Bank<'_>, from: u32, to: u32) -> Result<(), Cause>
    requires { IsSound bank.now }
    ensures { IsRefuseResult (refusal bank.now (steps.Sample (form.MoveSample from to))) result }
{
    no_such_sample(bank, from)?;
    bad_member_index(bank.count(Members::Samples), to)
}
