//! Zones that differ in nothing but neighbouring ranges.
ghost use Rattle.plan_edits.specs.NeutralRuns.{AddsNeutralEdits};

use crate::neutral_steps::edit_once;
use bank_core::{Bank, List, Owner};
use edit_drafts::{Draft, Stop};
use edit_forms::{Axis, Keep, Step, ZoneStep};
use std::alloc::Global;

/// Joins the zones of each preset and instrument with those after them, where they can be joined.
pub(crate) fn join_zones(alloc: Global, draft: &mut Draft<'_, '_>) -> Result<(), Stop>
    ensures { AddsNeutralEdits draft.old draft.new }
{
    join_presets(alloc, draft)?;
    join_instruments(alloc, draft)
}

fn join_presets(alloc: Global, draft: &mut Draft<'_, '_>) -> Result<(), Stop>
    ensures { AddsNeutralEdits draft.old draft.new }
{
    for preset in 0..member_count(draft.bank(), List::Presets) {
        join_owner(alloc, draft, Owner::Preset(preset))?;
    }
    Ok(())
}

fn join_instruments(alloc: Global, draft: &mut Draft<'_, '_>) -> Result<(), Stop>
    ensures { AddsNeutralEdits draft.old draft.new }
{
    for instrument in 0..member_count(draft.bank(), List::Instruments) {
        join_owner(alloc, draft, Owner::Inst(instrument))?;
    }
    Ok(())
}

fn member_count(bank: &Bank<'_>, list: List) -> u32 {
    u32::try_from(bank.count(list)).unwrap_or(u32::MAX)
}

// Joins the zones of an owner, until no two can be joined: a join on one axis may allow one on the other.
fn join_owner(alloc: Global, draft: &mut Draft<'_, '_>, owner: Owner) -> Result<(), Stop>
    ensures { AddsNeutralEdits draft.old draft.new }
{
    for _pass in 0..zone_count(draft.bank(), owner) {
        let before = zone_count(draft.bank(), owner);
        join_in_turn(alloc, draft, owner)?;
        if zone_count(draft.bank(), owner) == before {
            return Ok(());
        }
    }
    Ok(())
}

// Joins the zones of an owner, from the last to the first.
fn join_in_turn(alloc: Global, draft: &mut Draft<'_, '_>, owner: Owner) -> Result<(), Stop>
    ensures { AddsNeutralEdits draft.old draft.new }
{
    for zone in (0..zone_count(draft.bank(), owner)).rev() {
        join_next(alloc, draft, owner, zone)?;
    }
    Ok(())
}

// Joins a zone with the next, if it can be joined.
#[tactic(auto, using(crate::proofs::AlikeSteps::adds_none))]
fn join_next(alloc: Global, draft: &mut Draft<'_, '_>, owner: Owner, zone: u32) -> Result<(), Stop>
    ensures { AddsNeutralEdits draft.old draft.new }
{
    match join_with_next(draft.bank(), owner, zone) {
        Some((axis, keep)) => {
            let step = ZoneStep::JoinZone { zone, axis, keep };
            edit_once(alloc, draft, Step::Zone(owner, step))
        }
        None => Ok(()),
    }
}

fn zone_count(bank: &Bank<'_>, owner: Owner) -> u32 {
    let count = bank.zone_count(owner).unwrap_or(0);
    u32::try_from(count).unwrap_or(u32::MAX)
}

// How a zone can be joined with the next; none if it can't.
fn join_with_next(bank: &Bank<'_>, owner: Owner, zone: u32) -> Option<(Axis, Keep)> {
    for axis in [Axis::Key, Axis::Vel] {
        for keep in [Keep::Bare, Keep::Keep] {
            if bank.can_join(owner, zone, axis, keep) {
                return Some((axis, keep));
            }
        }
    }
    None
}
