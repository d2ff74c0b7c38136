//! Adds the samples that are needed.
ghost use Rattle.std.specs.Prelude.{◌<◌, length};
ghost use Rattle.plan_take.specs.Additions.{AddsMembers};

use crate::existing_samples::existing_samples;
use crate::neutral_steps::edit_neutrally;
use crate::numbers::{is_missing, number_of, renumbered_kind, set_number, step_number};
use bank_core::{Bank, Kind, Sample};
use bank_parts::TryClone;
use edit_drafts::{Draft, Stop};
use edit_forms::{PointStep, SampleStep, Step};
use std::alloc::Global;

/// Adds copies of the samples that are needed and that the bank lacks, with the links among them. Returns the numbers
/// of all that are needed.
pub(crate) fn add_samples<'a>(
    alloc: Global,
    draft: &mut Draft<'_, 'a>,
    from: &Bank<'a>,
    needed: &[bool],
) -> Result<Vec<Option<u16>>, Stop>
    ensures { AddsMembers draft.old draft.new }
{
    let count = draft.bank().samples().len();
    let mut numbers = existing_samples(alloc, draft.bank().samples(), from.samples(), needed)?;
    add_missing(alloc, draft, from.samples(), needed, numbers.as_mut_slice())?;
    set_links(alloc, draft, from.samples(), count, numbers.as_slice())?;
    Ok(numbers)
}

/// Adds copies of all samples, with the links among them. Returns their numbers.
pub(crate) fn add_all_samples<'a>(
    alloc: Global,
    draft: &mut Draft<'_, 'a>,
    samples: &[Sample<'a>],
) -> Result<Vec<Option<u16>>, Stop>
    ensures { AddsMembers draft.old draft.new }
{
    let count = draft.bank().samples().len();
    let needed = vec![in alloc; true; samples.len()]?;
    let mut numbers = vec![in alloc; None; samples.len()]?;
    add_missing(
        alloc,
        draft,
        samples,
        needed.as_slice(),
        numbers.as_mut_slice(),
    )?;
    set_links(alloc, draft, samples, count, numbers.as_slice())?;
    Ok(numbers)
}

fn add_missing<'a>(
    alloc: Global,
    draft: &mut Draft<'_, 'a>,
    samples: &[Sample<'a>],
    needed: &[bool],
    numbers: &mut [Option<u16>],
) -> Result<(), Stop>
    ensures { AddsMembers draft.old draft.new }
{
    for i in 0..samples.len() {
        add_if_missing(alloc, draft, samples, needed, numbers, i)?;
    }
    Ok(())
}

// Adds a copy of sample `i`, if it is needed and has no number.
#[tactic(auto, using(crate::proofs::AdditionLaws::adds_nothing))]
fn add_if_missing<'a>(
    alloc: Global,
    draft: &mut Draft<'_, 'a>,
    samples: &[Sample<'a>],
    needed: &[bool],
    numbers: &mut [Option<u16>],
    i: usize,
) -> Result<(), Stop>
    requires { i < length samples.now }
    ensures { AddsMembers draft.old draft.new }
{
    if is_missing(needed, numbers, i) {
        let number = add_sample(alloc, draft, &samples[i], numbers)?;
        set_number(numbers, i, number);
    }
    Ok(())
}

// Adds a copy of a sample, with its link if the linked sample has a number already. Returns the number of the copy.
fn add_sample<'a>(
    alloc: Global,
    draft: &mut Draft<'_, 'a>,
    sample: &Sample<'a>,
    numbers: &[Option<u16>],
) -> Result<Option<u16>, Stop>
    ensures { AddsMembers draft.old draft.new }
{
    let count = draft.bank().samples().len();
    let step = add_step(alloc, step_number(count), sample, numbers)?;
    edit_neutrally(alloc, draft, step)?;
    Ok(u16::try_from(count).ok())
}

fn add_step<'a>(
    alloc: Global,
    at: u32,
    sample: &Sample<'a>,
    numbers: &[Option<u16>],
) -> Result<Step<'a>, Stop> {
    let mut copy = sample.try_clone(alloc)?;
    copy.kind = renumbered_kind(numbers, sample.kind);
    Ok(Step::Sample(SampleStep::AddSample { at, sample: copy }))
}

// Sets the links of the copies, which follow the first `count` samples.
fn set_links(
    alloc: Global,
    draft: &mut Draft<'_, '_>,
    samples: &[Sample<'_>],
    count: usize,
    numbers: &[Option<u16>],
) -> Result<(), Stop>
    ensures { AddsMembers draft.old draft.new }
{
    for i in 0..samples.len() {
        let kind = renumbered_kind(numbers, samples[i].kind);
        set_link(alloc, draft, number_of(numbers, i), count, kind)?;
    }
    Ok(())
}

// Sets the kind of a sample, if it is a copy.
#[tactic(auto, using(crate::proofs::AdditionLaws::adds_nothing))]
fn set_link(
    alloc: Global,
    draft: &mut Draft<'_, '_>,
    number: Option<u16>,
    count: usize,
    kind: Kind,
) -> Result<(), Stop>
    ensures { AddsMembers draft.old draft.new }
{
    match number {
        Some(number) if usize::from(number) >= count => set_kind(alloc, draft, number, kind),
        _ => Ok(()),
    }
}

// Sets the kind of a sample, unless it has it already.
#[tactic(auto, using(crate::proofs::AdditionLaws::adds_nothing))]
fn set_kind(alloc: Global, draft: &mut Draft<'_, '_>, number: u16, kind: Kind) -> Result<(), Stop>
    ensures { AddsMembers draft.old draft.new }
{
    match draft.bank().sample(number.into()) {
        Some(sample) if sample.kind != kind => {
            let step = Step::Points(number.into(), PointStep::SetKind { kind });
            edit_neutrally(alloc, draft, step)
        }
        _ => Ok(()),
    }
}
