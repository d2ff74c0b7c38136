//! Causes of refusal of each form that edits instruments.
ghost use Rattle.std.specs.Prelude.{ℕ, List};
ghost use Rattle.bank_parts.specs.Sound.{IsSound};
ghost use Rattle.edit_forms.specs.declared.instruments.InstrumentStep.TheVariants as form;
ghost use Rattle.edit_forms.specs.declared.step.Step.TheVariants as steps;
ghost use Rattle.edit_forms.specs.Steps.{refusal};
ghost use Rattle.edit_refusals.specs.Answers.{IsRefuseResult};

use crate::causes::{
    bad_generator, bad_insert_index, bad_member_index, bad_range, full, no_such_instrument,
    no_such_target, used_instrument,
};
use bank_core::{Bank, List as Members};
use bank_parts::Instrument;
use edit_forms::{Cause, InstrumentStep};
use generators::Level;

pub(crate) fn refuse_instrument_step(bank: &Bank<'_>, step: &InstrumentStep) -> Result<(), Cause>
    requires { IsSound bank.now }
    ensures { IsRefuseResult (refusal bank.now (steps.Instrument step.now)) result }
{
    match step {
        InstrumentStep::AddInstrument { at, instrument } => {
            refuse_add_instrument(bank, *at, instrument)
        }
        InstrumentStep::RemoveInstrument { instrument } => {
            refuse_remove_instrument(bank, *instrument)
        }
        InstrumentStep::RenameInstrument { instrument, .. } => {
            refuse_rename_instrument(bank, *instrument)
        }
        InstrumentStep::MoveInstrument { from, to } => refuse_move_instrument(bank, *from, *to),
    }
}

// ---- add-inst

fn refuse_add_instrument(bank: &Bank<'_>, at: u32, instrument: &Instrument) -> Result<(), Cause>
    requires { IsSound bank.now }
    ensures { IsRefuseResult (refusal bank.now (steps.Instrument (form.AddInstrument at instrument.now))) result }
{
    no_such_target(
        bank.count(Members::Samples),
        instrument,
        Cause::NoSuchSample,
    )?;
    bad_insert_index(bank.count(Members::Instruments), at)?;
    bad_generator(Level::Inst, instrument)?;
    bad_range(instrument)?;
    full(
        bank.totals()
            .broken_with_owner(Level::Inst, instrument.records()),
    )
}

// ---- remove-inst

fn refuse_remove_instrument(bank: &Bank<'_>, instrument: u32) -> Result<(), Cause>
    requires { IsSound bank.now }
    ensures { IsRefuseResult (refusal bank.now (steps.Instrument (form.RemoveInstrument instrument))) result }
{
    no_such_instrument(bank, instrument)?;
    used_instrument(bank, instrument)
}

// ---- rename-inst

fn refuse_rename_instrument(bank: &Bank<'_>, instrument: u32) -> Result<(), Cause>
    requires { IsSound bank.now }
    ensures { (name : List ℕ) → IsRefuseResult (refusal bank.now (steps.Instrument (form.RenameInstrument instrument name))) result }
{
    no_such_instrument(bank, instrument)
}

// ---- move-inst

fn refuse_move_instrument(bank: &Bank<'_>, from: u32, to: u32) -> Result<(), Cause>
    requires { IsSound bank.now }
    ensures { IsRefuseResult (refusal bank.now (steps.Instrument (form.MoveInstrument from to))) result }
{
    no_such_instrument(bank, from)?;
    bad_member_index(bank.count(Members::Instruments), to)
}
