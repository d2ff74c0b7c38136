//! Adds the instruments that are needed.
ghost use Rattle.std.specs.Prelude.{◌<◌, length};
ghost use Rattle.plan_take.specs.Additions.{AddsMembers};

use crate::existing_instruments::existing_instruments;
use crate::neutral_steps::edit_neutrally;
use crate::numbers::{is_missing, set_number, step_number};
use crate::owner_copies::copy_owner;
use bank_core::Owners;
use edit_drafts::{Draft, Stop};
use edit_forms::{InstrumentStep, Step};
use sf_base::Name20;
use std::alloc::Global;

/// Adds copies of the instruments that are needed and that the bank lacks. Returns the numbers of all that are needed.
pub(crate) fn add_instruments(
    alloc: Global,
    draft: &mut Draft<'_, '_>,
    from: &Owners<Name20>,
    needed: &[bool],
    samples: &[Option<u16>],
) -> Result<Vec<Option<u16>>, Stop>
    ensures { AddsMembers draft.old draft.new }
{
    let had = draft.bank().instruments();
    let mut numbers = existing_instruments(alloc, had, from, needed, samples)?;
    add_missing(alloc, draft, from, needed, samples, numbers.as_mut_slice())?;
    Ok(numbers)
}

/// Adds copies of all instruments. Returns their numbers.
pub(crate) fn add_all_instruments(
    alloc: Global,
    draft: &mut Draft<'_, '_>,
    from: &Owners<Name20>,
    samples: &[Option<u16>],
) -> Result<Vec<Option<u16>>, Stop>
    ensures { AddsMembers draft.old draft.new }
{
    let needed = vec![in alloc; true; from.len()]?;
    let mut numbers = vec![in alloc; None; from.len()]?;
    let marks = needed.as_slice();
    add_missing(alloc, draft, from, marks, samples, numbers.as_mut_slice())?;
    Ok(numbers)
}

fn add_missing(
    alloc: Global,
    draft: &mut Draft<'_, '_>,
    from: &Owners<Name20>,
    needed: &[bool],
    samples: &[Option<u16>],
    numbers: &mut [Option<u16>],
) -> Result<(), Stop>
    ensures { AddsMembers draft.old draft.new }
{
    for i in 0..from.len() {
        add_if_missing(alloc, draft, from, needed, samples, numbers, i)?;
    }
    Ok(())
}

// Adds a copy of instrument `i`, if it is needed and has no number.
#[tactic(auto, using(crate::proofs::AdditionLaws::adds_nothing))]
fn add_if_missing(
    alloc: Global,
    draft: &mut Draft<'_, '_>,
    from: &Owners<Name20>,
    needed: &[bool],
    samples: &[Option<u16>],
    numbers: &mut [Option<u16>],
    i: usize,
) -> Result<(), Stop>
    requires { i < length from.now }
    ensures { AddsMembers draft.old draft.new }
{
    if is_missing(needed, numbers, i) {
        let number = add_instrument(alloc, draft, from, i, samples)?;
        set_number(numbers, i, number);
    }
    Ok(())
}

// Adds a copy of instrument `i`. Returns the number of the copy.
fn add_instrument(
    alloc: Global,
    draft: &mut Draft<'_, '_>,
    from: &Owners<Name20>,
    i: usize,
    samples: &[Option<u16>],
) -> Result<Option<u16>, Stop>
    requires { i < length from.now }
    ensures { AddsMembers draft.old draft.new }
{
    let count = draft.bank().instruments().len();
    let step = add_step(alloc, step_number(count), from, i, samples)?;
    edit_neutrally(alloc, draft, step)?;
    Ok(u16::try_from(count).ok())
}

fn add_step<'a>(
    alloc: Global,
    at: u32,
    from: &Owners<Name20>,
    i: usize,
    samples: &[Option<u16>],
) -> Result<Step<'a>, Stop>
    requires { i < length from.now }
{
    let instrument = copy_owner(alloc, from, i, *from.head(i), samples)?;
    Ok(Step::Instrument(InstrumentStep::AddInstrument { at, instrument }))
}
