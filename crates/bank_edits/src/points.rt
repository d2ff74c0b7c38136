//! How each form that edits one sample's contents is applied.
ghost use Rattle.std.specs.Prelude.{◌≡◌, None, Ok, IsOk};
ghost use Rattle.bank_parts.specs.Sound.{IsSound};
ghost use Rattle.edit_forms.specs.declared.points.PointStep.TheVariants as form;
ghost use Rattle.edit_forms.specs.declared.step.Step.TheVariants as steps;
ghost use Rattle.edit_forms.specs.Steps.{refusal, AllocatesNothing};
ghost use Rattle.bank_edits.specs.StepChanges.{IsStepChange};

use crate::step_changes::InverseOrStep;
use bank_core::Bank;
use bank_parts::Kind;
use edit_forms::{PointStep, Step};
use sample_view::Points;
use std::alloc::Global;

pub(crate) fn change_points<'a>(
    alloc: Global,
    bank: &mut Bank<'a>,
    sample: u32,
    step: PointStep<'a>,
) -> InverseOrStep<'a>
    requires sound { IsSound bank.old }
    requires accepted { refusal bank.old (steps.Points sample step) ≡ None }
    ensures outcome { IsStepChange bank.old bank.new (steps.Points sample step.entry) result }
    ensures no_memory { AllocatesNothing (steps.Points sample step.entry) → IsOk result }
{
    match step {
        PointStep::Trim { front, back, .. } => trim(alloc, bank, sample, front, back),
        PointStep::Extend { .. } => {
            let (front, back) = step.into_points();
            extend(bank, sample, front, back)
        }
        PointStep::SetLoop { looped, .. } => Ok(set_loop(bank, sample, looped)),
        PointStep::SetKind { kind, .. } => Ok(set_kind(bank, sample, kind)),
        PointStep::SetTune {
            rate,
            key,
            correction,
            ..
        } => Ok(set_tune(bank, sample, rate, key, correction)),
    }
}

// ---- trim

fn trim<'a>(
    alloc: Global,
    bank: &mut Bank<'a>,
    sample: u32,
    front: u32,
    back: u32,
) -> InverseOrStep<'a>
    requires sound { IsSound bank.old }
    requires accepted { refusal bank.old (steps.Points sample (form.Trim front back)) ≡ None }
    ensures { IsStepChange bank.old bank.new (steps.Points sample (form.Trim front back)) result }
{
    match bank.trim_sample(alloc, sample, front, back) {
        Ok((first, last)) => Ok(Step::Points(
            sample,
            PointStep::Extend {
                front: first,
                back: last,
            },
        )),
        Err(_) => Err(Step::Points(sample, PointStep::Trim { front, back })),
    }
}

// ---- extend

fn extend<'a>(
    bank: &mut Bank<'a>,
    sample: u32,
    front: Points<'a>,
    back: Points<'a>,
) -> InverseOrStep<'a>
    requires sound { IsSound bank.old }
    requires accepted { refusal bank.old (steps.Points sample (form.Extend front back)) ≡ None }
    ensures { IsStepChange bank.old bank.new (steps.Points sample (form.Extend front.entry back.entry)) result }
{
    let first = front.len();
    let last = back.len();
    match bank.extend_sample(sample, front, back) {
        Ok(()) => Ok(Step::Points(
            sample,
            PointStep::Trim {
                front: first as u32,
                back: last as u32,
            },
        )),
        Err((front, back)) => Err(Step::Points(sample, PointStep::Extend { front, back })),
    }
}

// ---- set-loop

fn set_loop<'a>(bank: &mut Bank<'a>, sample: u32, looped: Option<(u32, u32)>) -> Step<'a>
    requires sound { IsSound bank.old }
    requires accepted { refusal bank.old (steps.Points sample (form.SetLoop looped)) ≡ None }
    ensures { IsStepChange bank.old bank.new (steps.Points sample (form.SetLoop looped)) (Ok result) }
{
    let old = bank.set_loop(sample, looped);
    Step::Points(sample, PointStep::SetLoop { looped: old })
}

// ---- set-kind

fn set_kind<'a>(bank: &mut Bank<'a>, sample: u32, kind: Kind) -> Step<'a>
    requires sound { IsSound bank.old }
    requires accepted { refusal bank.old (steps.Points sample (form.SetKind kind)) ≡ None }
    ensures { IsStepChange bank.old bank.new (steps.Points sample (form.SetKind kind)) (Ok result) }
{
    let old = bank.set_kind(sample, kind);
    Step::Points(sample, PointStep::SetKind { kind: old })
}

// ---- set-tune

fn set_tune<'a>(bank: &mut Bank<'a>, sample: u32, rate: u32, key: u8, correction: i8) -> Step<'a>
    requires sound { IsSound bank.old }
    requires accepted { refusal bank.old (steps.Points sample (form.SetTune rate key correction)) ≡ None }
    ensures { IsStepChange bank.old bank.new (steps.Points sample (form.SetTune rate key correction)) (Ok result) }
{
    let (old_rate, old_key, old_correction) = bank.set_tune(sample, rate, key, correction);
    Step::Points(
        sample,
        PointStep::SetTune {
            rate: old_rate,
            key: old_key,
            correction: old_correction,
        },
    )
}
