//! Causes of refusal of each form that edits texts.
ghost use Rattle.bank_parts.specs.Sound.{IsSound};
ghost use Rattle.edit_forms.specs.declared.texts.TextStep.TheVariants as form;
ghost use Rattle.edit_forms.specs.declared.step.Step.TheVariants as steps;
ghost use Rattle.edit_forms.specs.Steps.{refusal};
ghost use Rattle.edit_refusals.specs.Answers.{IsRefuseResult};

use crate::causes::bad_text;
use bank_core::Bank;
use bank_parts::InfoId;
use edit_forms::{Cause, TextStep};
use sf_base::BorrowedBytes;

pub(crate) fn refuse_text_step(bank: &Bank<'_>, step: &TextStep<'_>) -> Result<(), Cause>
    requires { IsSound bank.now }
    ensures { IsRefuseResult (refusal bank.now (steps.Text step.now)) result }
{
    match step {
        TextStep::SetInfo { id, text } => refuse_set_info(bank, *id, text),
    }
}

// ---- set-info

fn refuse_set_info(bank: &Bank<'_>, id: InfoId, text: &BorrowedBytes<'_>) -> Result<(), Cause>
    requires { IsSound bank.now }
    ensures { IsRefuseResult (refusal bank.now (steps.Text (form.SetInfo id text.now))) result }
{
    bad_text(id, text)
}
