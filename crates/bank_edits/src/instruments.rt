//! How each form that edits instruments is applied.
ghost use Rattle.std.specs.Prelude.{◌≡◌, None, Ok, IsOk};
ghost use Rattle.bank_parts.specs.Sound.{IsSound};
ghost use Rattle.edit_forms.specs.declared.instruments.InstrumentStep.TheVariants as form;
ghost use Rattle.edit_forms.specs.declared.step.Step.TheVariants as steps;
ghost use Rattle.edit_forms.specs.Steps.{refusal, AllocatesNothing};
ghost use Rattle.bank_edits.specs.StepChanges.{IsStepChange};

use crate::step_changes::InverseOrStep;
use bank_core::Bank;
use bank_parts::Instrument;
use edit_forms::{InstrumentStep, Step};
use sf_base::Name20;
use std::alloc::Global;

pub(crate) fn change_instrument<'a>(
    alloc: Global,
    bank: &mut Bank<'a>,
    step: InstrumentStep,
) -> InverseOrStep<'a>
    requires sound { IsSound bank.old }
    requires accepted { refusal bank.old (steps.Instrument step) ≡ None }
    ensures outcome { IsStepChange bank.old bank.new (steps.Instrument step) result }
    ensures no_memory { AllocatesNothing (steps.Instrument step) → IsOk result }
{
    match step {
        InstrumentStep::AddInstrument { at, .. } => add_instrument(
            bank,
            at,
            step.into_instrument(),
        ),
        InstrumentStep::RemoveInstrument { instrument, .. } => remove_instrument(
            alloc, bank, instrument,
        ),
        InstrumentStep::RenameInstrument { instrument, .. } => Ok(rename_instrument(
            bank,
            instrument,
            step.into_name(),
        )),
        InstrumentStep::MoveInstrument { from, to, .. } => Ok(move_instrument(bank, from, to)),
    }
}

// ---- add-inst

fn add_instrument<'a>(bank: &mut Bank<'a>, at: u32, instrument: Instrument) -> InverseOrStep<'a>
    requires sound { IsSound bank.old }
    requires accepted { refusal bank.old (steps.Instrument (form.AddInstrument at instrument)) ≡ None }
    ensures { IsStepChange bank.old bank.new (steps.Instrument (form.AddInstrument at instrument)) result }
{
    instrument.fits();
    match bank.add_instrument(at, instrument) {
        Ok(()) => Ok(Step::Instrument(InstrumentStep::RemoveInstrument { instrument: at })),
        Err(instrument) => Err(Step::Instrument(InstrumentStep::AddInstrument { at, instrument })),
    }
}

// ---- remove-inst

fn remove_instrument<'a>(alloc: Global, bank: &mut Bank<'a>, instrument: u32) -> InverseOrStep<'a>
    requires sound { IsSound bank.old }
    requires accepted { refusal bank.old (steps.Instrument (form.RemoveInstrument instrument)) ≡ None }
    ensures { IsStepChange bank.old bank.new (steps.Instrument (form.RemoveInstrument instrument)) result }
{
    match bank.remove_instrument(alloc, instrument) {
        Ok(removed) => Ok(Step::Instrument(InstrumentStep::AddInstrument {
            at: instrument,
            instrument: removed,
        })),
        Err(_) => Err(Step::Instrument(InstrumentStep::RemoveInstrument { instrument })),
    }
}

// ---- rename-inst

fn rename_instrument<'a>(bank: &mut Bank<'a>, instrument: u32, name: Name20) -> Step<'a>
    requires sound { IsSound bank.old }
    requires accepted { refusal bank.old (steps.Instrument (form.RenameInstrument instrument name)) ≡ None }
    ensures { IsStepChange bank.old bank.new (steps.Instrument (form.RenameInstrument instrument name)) (Ok result) }
{
    let _bytes = name.bytes();
    let old = bank.rename_instrument(instrument, name);
    Step::Instrument(InstrumentStep::RenameInstrument {
        instrument,
        name: old,
    })
}

// ---- move-inst

fn move_instrument<'a>(bank: &mut Bank<'a>, from: u32, to: u32) -> Step<'a>
    requires sound { IsSound bank.old }
    requires accepted { refusal bank.old (steps.Instrument (form.MoveInstrument from to)) ≡ None }
    ensures { IsStepChange bank.old bank.new (steps.Instrument (form.MoveInstrument from to)) (Ok result) }
{
    bank.move_instrument(from, to);
    Step::Instrument(InstrumentStep::MoveInstrument { from: to, to: from })
}
