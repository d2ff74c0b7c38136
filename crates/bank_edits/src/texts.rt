//! How each form that edits texts is applied.
ghost use Rattle.std.specs.Prelude.{◌≡◌, None, Ok, IsOk};
ghost use Rattle.bank_parts.specs.Sound.{IsSound};
ghost use Rattle.edit_forms.specs.declared.texts.TextStep.TheVariants as form;
ghost use Rattle.edit_forms.specs.declared.step.Step.TheVariants as steps;
ghost use Rattle.edit_forms.specs.Steps.{refusal, AllocatesNothing};
ghost use Rattle.bank_edits.specs.StepChanges.{IsStepChange};

use crate::step_changes::InverseOrStep;
use bank_core::Bank;
use bank_parts::InfoId;
use edit_forms::{Step, TextStep};
use sf_base::BorrowedBytes;

pub(crate) fn change_text<'a>(bank: &mut Bank<'a>, step: TextStep<'a>) -> InverseOrStep<'a>
    requires sound { IsSound bank.old }
    requires accepted { refusal bank.old (steps.Text step) ≡ None }
    ensures outcome { IsStepChange bank.old bank.new (steps.Text step.entry) result }
    ensures no_memory { AllocatesNothing (steps.Text step.entry) → IsOk result }
{
    match step {
        TextStep::SetInfo { id, text } => Ok(set_info(bank, id, text)),
    }
}

// ---- set-info

fn set_info<'a>(bank: &mut Bank<'a>, id: InfoId, text: BorrowedBytes<'a>) -> Step<'a>
    requires sound { IsSound bank.old }
    requires accepted { refusal bank.old (steps.Text (form.SetInfo id text)) ≡ None }
    ensures { IsStepChange bank.old bank.new (steps.Text (form.SetInfo id text.entry)) (Ok result) }
{
    let _bytes = text.bytes();
    let old = bank.set_info(id, text);
    Step::Text(TextStep::SetInfo { id, text: old })
}
