//! Instruments and samples that no zone uses.
ghost use Rattle.plan_edits.specs.NeutralRuns.{AddsNeutralEdits};

use crate::neutral_steps::edit_neutrally;
use crate::uses::{used_instruments, used_samples};
use bank_core::{Kind, Sample};
use diff_proposals::{remove_sample_steps, remove_steps};
use edit_drafts::{Draft, Stop};
use edit_forms::{PointStep, Step};
use sf_base::{Name20, OutOfMemory};
use std::alloc::Global;

/// Removes the instruments that no preset uses, then the samples that no instrument uses, with the links to these. Each
/// note has the same voices before and after, in some order.
pub(crate) fn remove_unused(alloc: Global, draft: &mut Draft<'_, '_>) -> Result<(), Stop>
    ensures { AddsNeutralEdits draft.old draft.new }
{
    remove_unused_instruments(alloc, draft)?;
    remove_unused_samples(alloc, draft)
}

fn remove_unused_instruments(alloc: Global, draft: &mut Draft<'_, '_>) -> Result<(), Stop>
    ensures { AddsNeutralEdits draft.old draft.new }
{
    let used = used_instruments(alloc, draft.bank())?;
    let unused = unmarked(alloc, used.as_slice())?;
    let steps = remove_steps::<Name20>(alloc, unused.as_slice())?;
    edit_neutrally(alloc, draft, steps)
}

fn remove_unused_samples(alloc: Global, draft: &mut Draft<'_, '_>) -> Result<(), Stop>
    ensures { AddsNeutralEdits draft.old draft.new }
{
    let used = used_samples(alloc, draft.bank())?;
    let steps = unlink_steps(alloc, draft.bank().samples(), used.as_slice())?;
    edit_neutrally(alloc, draft, steps)?;
    let unused = unmarked(alloc, used.as_slice())?;
    let steps = remove_sample_steps(alloc, draft.bank().samples(), unused.as_slice())?;
    edit_neutrally(alloc, draft, steps)
}

// The numbers without a mark, in ascending order.
fn unmarked(alloc: Global, marks: &[bool]) -> Result<Vec<usize>, OutOfMemory> {
    let mut numbers = Vec::new(alloc);
    for (number, is_marked) in marks.iter().enumerate() {
        if !*is_marked {
            numbers.push(number)?;
        }
    }
    Ok(numbers)
}

// Steps that make mono each sample that links to an unused one.
fn unlink_steps<'a>(
    alloc: Global,
    samples: &[Sample<'_>],
    used: &[bool],
) -> Result<Vec<Step<'a>>, OutOfMemory> {
    let mut steps = Vec::new(alloc);
    for (number, sample) in (0u32..).zip(samples.iter()) {
        if links_to_unused(sample.kind, used) {
            let kind = Kind::Mono;
            steps.push(Step::Points(number, PointStep::SetKind { kind }))?;
        }
    }
    Ok(steps)
}

fn links_to_unused(kind: Kind, used: &[bool]) -> bool {
    match kind {
        Kind::Mono => false,
        Kind::Right(link) | Kind::Left(link) | Kind::Linked(link) => {
            used.get(link as usize) != Some(&true)
        }
    }
}
