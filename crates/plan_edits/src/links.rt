//! Links of stereo samples.
ghost use Rattle.plan_edits.specs.NeutralRuns.{AddsNeutralEdits};

use crate::neutral_steps::edit_once;
use bank_core::{Bank, Kind};
use edit_drafts::{Draft, Stop};
use edit_forms::{PointStep, Step};
use std::alloc::Global;

/// Repairs links of left and right samples to samples that don't link back: a mono partner becomes the other side;
/// otherwise the sample itself becomes mono.
pub(crate) fn repair_links(alloc: Global, draft: &mut Draft<'_, '_>) -> Result<(), Stop>
    ensures { AddsNeutralEdits draft.old draft.new }
{
    for number in 0..draft.bank().samples().len() {
        repair_link(alloc, draft, number)?;
    }
    Ok(())
}

#[tactic(auto, using(crate::proofs::AlikeSteps::adds_none))]
fn repair_link(alloc: Global, draft: &mut Draft<'_, '_>, number: usize) -> Result<(), Stop>
    ensures { AddsNeutralEdits draft.old draft.new }
{
    match repair(draft.bank(), number) {
        Some((sample, kind)) => {
            edit_once(
                alloc,
                draft,
                Step::Points(sample, PointStep::SetKind { kind }),
            )
        }
        None => Ok(()),
    }
}

// The repair of a sample's link: a sample, and its new kind.
fn repair(bank: &Bank<'_>, number: usize) -> Option<(u32, Kind)> {
    let samples = bank.samples();
    let (sample, own) = (u16::try_from(number).ok()?, samples.get(number)?.kind);
    let (partner, other_side) = match own {
        Kind::Right(partner) => (partner, Kind::Left(sample)),
        Kind::Left(partner) => (partner, Kind::Right(sample)),
        Kind::Mono | Kind::Linked(_) => return None,
    };
    match samples.get(partner as usize)?.kind {
        Kind::Mono => Some((partner as u32, other_side)),
        Kind::Right(link) | Kind::Left(link) | Kind::Linked(link) if link == sample => None,
        _ => Some((sample as u32, Kind::Mono)),
    }
}
