//! How each form that edits the zones of presets and instruments is applied.
ghost use Rattle.std.specs.Prelude.{◌≡◌, None, Ok, IsOk, IfSome};
ghost use Rattle.bank_parts.specs.Sound.{IsSound};
ghost use Rattle.edit_forms.specs.declared.zones.ZoneStep.TheVariants as form;
ghost use Rattle.edit_forms.specs.declared.step.Step.TheVariants as steps;
ghost use Rattle.edit_forms.specs.Steps.{refusal, AllocatesNothing};
ghost use Rattle.bank_edits.specs.StepChanges.{IsStepChange};
ghost use Rattle.bank_changes.specs.declared.members.Place.TheVariants as place;
ghost use Rattle.bank_changes.specs.Members.{zone_of, amount_of};
ghost use Rattle.bank_zone_ranges.specs.Ranges.{range_operator};
ghost use Rattle.bank_zone_ranges.specs.Splits.{keep_for};
ghost use Rattle.bank_zone_ranges.specs.Undone.{own_low};

use crate::step_changes::InverseOrStep;
use bank_core::{Bank, Owner, Place};
use bank_parts::Zone;
use bank_zone_ranges::{Axis, Keep, range_operator};
use edit_forms::{Step, ZoneStep};
use generators::Range;
use std::alloc::Global;

pub(crate) fn change_zone<'a>(
    alloc: Global,
    bank: &mut Bank<'a>,
    owner: Owner,
    step: ZoneStep,
) -> InverseOrStep<'a>
    requires sound { IsSound bank.old }
    requires accepted { refusal bank.old (steps.Zone owner step) ≡ None }
    ensures outcome { IsStepChange bank.old bank.new (steps.Zone owner step) result }
    ensures no_memory { AllocatesNothing (steps.Zone owner step) → IsOk result }
{
    match step {
        ZoneStep::AddZone { at, .. } => add_zone(bank, owner, at, step.into_zone()),
        ZoneStep::RemoveZone { zone, .. } => remove_zone(alloc, bank, owner, zone),
        ZoneStep::MoveZone { from, to, .. } => Ok(move_zone(bank, owner, from, to)),
        ZoneStep::SplitZone { zone, axis, at, .. } => split_zone(
            alloc, bank, owner, zone, axis, at,
        ),
        ZoneStep::JoinZone {
            zone,
            axis,
            keep,
            ..
        } => join_zone(alloc, bank, owner, zone, axis, keep),
        ZoneStep::SetTarget { zone, target, .. } => Ok(set_target(bank, owner, zone, target)),
    }
}

// ---- add-zone

fn add_zone<'a>(bank: &mut Bank<'a>, owner: Owner, at: u32, zone: Zone) -> InverseOrStep<'a>
    requires sound { IsSound bank.old }
    requires accepted { refusal bank.old (steps.Zone owner (form.AddZone at zone)) ≡ None }
    ensures { IsStepChange bank.old bank.new (steps.Zone owner (form.AddZone at zone)) result }
{
    zone.fits();
    match bank.add_zone(owner, at, zone) {
        Ok(()) => Ok(Step::Zone(owner, ZoneStep::RemoveZone { zone: at })),
        Err(zone) => Err(Step::Zone(owner, ZoneStep::AddZone { at, zone })),
    }
}

// ---- remove-zone

fn remove_zone<'a>(alloc: Global, bank: &mut Bank<'a>, owner: Owner, zone: u32) -> InverseOrStep<'a>
    requires sound { IsSound bank.old }
    requires accepted { refusal bank.old (steps.Zone owner (form.RemoveZone zone)) ≡ None }
    ensures { IsStepChange bank.old bank.new (steps.Zone owner (form.RemoveZone zone)) result }
{
    match bank.remove_zone(alloc, owner, zone) {
        Ok(removed) => Ok(Step::Zone(
            owner,
            ZoneStep::AddZone {
                at: zone,
                zone: removed,
            },
        )),
        Err(_) => Err(Step::Zone(owner, ZoneStep::RemoveZone { zone })),
    }
}

// ---- move-zone

fn move_zone<'a>(bank: &mut Bank<'a>, owner: Owner, from: u32, to: u32) -> Step<'a>
    requires sound { IsSound bank.old }
    requires accepted { refusal bank.old (steps.Zone owner (form.MoveZone from to)) ≡ None }
    ensures { IsStepChange bank.old bank.new (steps.Zone owner (form.MoveZone from to)) (Ok result) }
{
    bank.move_zone(owner, from, to);
    Step::Zone(owner, ZoneStep::MoveZone { from: to, to: from })
}

// ---- set-target

fn set_target<'a>(bank: &mut Bank<'a>, owner: Owner, zone: u32, target: u16) -> Step<'a>
    requires sound { IsSound bank.old }
    requires accepted { refusal bank.old (steps.Zone owner (form.SetTarget zone target)) ≡ None }
    ensures { IsStepChange bank.old bank.new (steps.Zone owner (form.SetTarget zone target)) (Ok result) }
{
    let was = bank.set_target(owner, zone, target);
    Step::Zone(owner, ZoneStep::SetTarget { zone, target: was })
}

// ---- split-zone

fn split_zone<'a>(
    alloc: Global,
    bank: &mut Bank<'a>,
    owner: Owner,
    zone: u32,
    axis: Axis,
    at: u8,
) -> InverseOrStep<'a>
    requires sound { IsSound bank.old }
    requires accepted { refusal bank.old (steps.Zone owner (form.SplitZone zone axis at)) ≡ None }
    ensures { IsStepChange bank.old bank.new (steps.Zone owner (form.SplitZone zone axis at)) result }
{
    let keep = keep_for(bank, owner, zone, axis);
    match bank.split_zone(alloc, owner, zone, axis, at) {
        Ok(()) => Ok(Step::Zone(owner, ZoneStep::JoinZone { zone, axis, keep })),
        Err(_) => Err(Step::Zone(owner, ZoneStep::SplitZone { zone, axis, at })),
    }
}

// ---- join-zone

fn join_zone<'a>(
    alloc: Global,
    bank: &mut Bank<'a>,
    owner: Owner,
    zone: u32,
    axis: Axis,
    keep: Keep,
) -> InverseOrStep<'a>
    requires sound { IsSound bank.old }
    requires accepted { refusal bank.old (steps.Zone owner (form.JoinZone zone axis keep)) ≡ None }
    ensures { IsStepChange bank.old bank.new (steps.Zone owner (form.JoinZone zone axis keep)) result }
{
    let next = zone + 1;
    let at = own_low(bank, owner, next, axis);
    match bank.join_zone(alloc, owner, zone, axis, keep) {
        Ok(()) => Ok(Step::Zone(owner, ZoneStep::SplitZone { zone, axis, at })),
        Err(_) => Err(Step::Zone(owner, ZoneStep::JoinZone { zone, axis, keep })),
    }
}

// ---- a zone's own range

// Whether the zone has a range of its own, which the join that undoes its split must keep.
fn keep_for(bank: &Bank<'_>, owner: Owner, zone: u32, axis: Axis) -> Keep
    ensures { IfSome (zone_of bank.now owner zone) (λ z. result ≡ keep_for axis z) }
{
    match own_range(bank, owner, zone, axis) {
        Some(_) => Keep::Keep,
        None => Keep::Bare,
    }
}

// The low end of the zone's own range, or 0 if it has none.
fn own_low(bank: &Bank<'_>, owner: Owner, zone: u32, axis: Axis) -> u8
    ensures { IfSome (zone_of bank.now owner zone) (λ z. result ≡ own_low axis z) }
{
    match own_range(bank, owner, zone, axis) {
        Some(range) => Range::of_amount(range).low,
        None => 0,
    }
}

fn own_range(bank: &Bank<'_>, owner: Owner, zone: u32, axis: Axis) -> Option<u16>
    ensures { result ≡ amount_of bank.now owner (place.Zone zone) (range_operator axis) }
{
    bank.gen_of(owner, Place::Zone(zone), range_operator(axis))
}
