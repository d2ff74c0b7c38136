//! Causes of refusal of each form that edits one sample's contents.
ghost use Rattle.std.specs.Prelude.{◌≡◌, false};
ghost use Rattle.bank_parts.specs.Sound.{IsSound};
ghost use Rattle.edit_forms.specs.declared.points.PointStep.TheVariants as form;
ghost use Rattle.edit_forms.specs.declared.step.Step.TheVariants as steps;
ghost use Rattle.edit_forms.specs.Causes as tests;
ghost use Rattle.edit_forms.specs.Steps.{refusal};
ghost use Rattle.edit_refusals.specs.Answers.{IsRefuseResult};

use crate::causes::{bad_loop_of, full, loop_cut, no_such_link_among, no_such_sample, too_short};
use bank_core::Bank;
use bank_parts::Kind;
use edit_forms::{Cause, PointStep};
use sample_view::Points;

pub(crate) fn refuse_point_step(
    bank: &Bank<'_>,
    sample: u32,
    step: &PointStep<'_>,
) -> Result<(), Cause>
    requires { IsSound bank.now }
    ensures { IsRefuseResult (refusal bank.now (steps.Points sample step.now)) result }
{
    no_such_sample(bank, sample)?;
    match step {
        PointStep::Trim { front, back } => refuse_trim(bank, sample, *front, *back),
        PointStep::Extend { front, back } => refuse_extend(bank, sample, front, back),
        PointStep::SetLoop { looped } => refuse_set_loop(bank, sample, *looped),
        PointStep::SetKind { kind } => refuse_set_kind(bank, sample, *kind),
        PointStep::SetTune { .. } => Ok(()),
    }
}

fn refuse_trim(bank: &Bank<'_>, sample: u32, front: u32, back: u32) -> Result<(), Cause>
    requires sound { IsSound bank.now }
    requires there { (tests.no_such_sample bank.now sample).applies ≡ false }
    ensures { IsRefuseResult (refusal bank.now (steps.Points sample (form.Trim front back))) result }
{
    too_short(bank, sample, front, back)?;
    loop_cut(bank, sample, front, back)
}

// A sum that saturates at 64 bits breaks the same limit as the exact sum.
fn refuse_extend(
    bank: &Bank<'_>,
    sample: u32,
    front: &Points<'_>,
    back: &Points<'_>,
) -> Result<(), Cause>
    requires sound { IsSound bank.now }
    requires there { (tests.no_such_sample bank.now sample).applies ≡ false }
    ensures { IsRefuseResult (refusal bank.now (steps.Points sample (form.Extend front.now back.now))) result }
{
    let more = front.len().saturating_add(back.len());
    full(bank.broken_with_points(more))
}

fn refuse_set_loop(bank: &Bank<'_>, sample: u32, looped: Option<(u32, u32)>) -> Result<(), Cause>
    requires sound { IsSound bank.now }
    requires there { (tests.no_such_sample bank.now sample).applies ≡ false }
    ensures { IsRefuseResult (refusal bank.now (steps.Points sample (form.SetLoop looped))) result }
{
    bad_loop_of(bank, sample, looped)
}

fn refuse_set_kind(bank: &Bank<'_>, sample: u32, kind: Kind) -> Result<(), Cause>
    requires sound { IsSound bank.now }
    requires there { (tests.no_such_sample bank.now sample).applies ≡ false }
    ensures { IsRefuseResult (refusal bank.now (steps.Points sample (form.SetKind kind))) result }
{
    no_such_link_among(bank, kind)
}
