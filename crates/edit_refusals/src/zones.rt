//! Causes of refusal of each form that edits the zones of presets and instruments.
ghost use Rattle.std.specs.Prelude.{◌≡◌, false};
ghost use Rattle.bank_parts.specs.Sound.{IsSound};
ghost use Rattle.edit_forms.specs.declared.zones.ZoneStep.TheVariants as form;
ghost use Rattle.edit_forms.specs.declared.step.Step.TheVariants as steps;
ghost use Rattle.edit_forms.specs.Causes as tests;
ghost use Rattle.edit_forms.specs.Steps.{refusal};
ghost use Rattle.edit_refusals.specs.Answers.{IsRefuseResult};

use crate::causes::{
    bad_insert_index, bad_member_index, bad_zone_generator, bad_zone_range, full, no_next_zone,
    no_such_owner, no_such_target_of, no_such_zone, not_joinable, split_outside, zone_total,
};
use bank_core::{Bank, Owner};
use bank_parts::Zone;
use bank_zone_ranges::{Axis, Keep};
use edit_forms::{Cause, ZoneStep};

pub(crate) fn refuse_zone_step(bank: &Bank<'_>, owner: Owner, step: &ZoneStep) -> Result<(), Cause>
    requires { IsSound bank.now }
    ensures { IsRefuseResult (refusal bank.now (steps.Zone owner step.now)) result }
{
    no_such_owner(bank, owner)?;
    match step {
        ZoneStep::AddZone { at, zone } => refuse_add_zone(bank, owner, *at, zone),
        ZoneStep::RemoveZone { zone } => refuse_remove_zone(bank, owner, *zone),
        ZoneStep::MoveZone { from, to } => refuse_move_zone(bank, owner, *from, *to),
        ZoneStep::SplitZone { zone, axis, at } => refuse_split_zone(bank, owner, *zone, *axis, *at),
        ZoneStep::JoinZone { zone, axis, keep } => {
            refuse_join_zone(bank, owner, *zone, *axis, *keep)
        }
        ZoneStep::SetTarget { zone, target } => refuse_set_target(bank, owner, *zone, *target),
    }
}

// ---- add-zone

fn refuse_add_zone(bank: &Bank<'_>, owner: Owner, at: u32, zone: &Zone) -> Result<(), Cause>
    requires sound { IsSound bank.now }
    requires owner { (tests.no_such_owner bank.now owner).applies ≡ false }
    ensures { IsRefuseResult (refusal bank.now (steps.Zone owner (form.AddZone at zone.now))) result }
{
    no_such_target_of(bank, owner, zone.target)?;
    bad_insert_index(zone_total(bank, owner), at)?;
    bad_zone_generator(owner.level(), zone)?;
    bad_zone_range(zone)?;
    full(bank.broken_with_zone(owner, zone))
}

// ---- remove-zone

fn refuse_remove_zone(bank: &Bank<'_>, owner: Owner, zone: u32) -> Result<(), Cause>
    requires sound { IsSound bank.now }
    requires owner { (tests.no_such_owner bank.now owner).applies ≡ false }
    ensures { IsRefuseResult (refusal bank.now (steps.Zone owner (form.RemoveZone zone))) result }
{
    no_such_zone(bank, owner, zone)
}

// ---- move-zone

fn refuse_move_zone(bank: &Bank<'_>, owner: Owner, from: u32, to: u32) -> Result<(), Cause>
    requires sound { IsSound bank.now }
    requires owner { (tests.no_such_owner bank.now owner).applies ≡ false }
    ensures { IsRefuseResult (refusal bank.now (steps.Zone owner (form.MoveZone from to))) result }
{
    no_such_zone(bank, owner, from)?;
    bad_member_index(zone_total(bank, owner), to)
}

// ---- set-target

fn refuse_set_target(bank: &Bank<'_>, owner: Owner, zone: u32, target: u16) -> Result<(), Cause>
    requires sound { IsSound bank.now }
    requires owner { (tests.no_such_owner bank.now owner).applies ≡ false }
    ensures { IsRefuseResult (refusal bank.now (steps.Zone owner (form.SetTarget zone target))) result }
{
    no_such_target_of(bank, owner, target)?;
    no_such_zone(bank, owner, zone)
}

// ---- split-zone

fn refuse_split_zone(
    bank: &Bank<'_>,
    owner: Owner,
    zone: u32,
    axis: Axis,
    at: u8,
) -> Result<(), Cause>
    requires sound { IsSound bank.now }
    requires owner { (tests.no_such_owner bank.now owner).applies ≡ false }
    ensures { IsRefuseResult (refusal bank.now (steps.Zone owner (form.SplitZone zone axis at))) result }
{
    no_such_zone(bank, owner, zone)?;
    split_outside(bank, owner, zone, axis, at)?;
    full(bank.broken_with_split(owner, zone, axis))
}

// ---- join-zone

fn refuse_join_zone(
    bank: &Bank<'_>,
    owner: Owner,
    zone: u32,
    axis: Axis,
    keep: Keep,
) -> Result<(), Cause>
    requires sound { IsSound bank.now }
    requires owner { (tests.no_such_owner bank.now owner).applies ≡ false }
    ensures { IsRefuseResult (refusal bank.now (steps.Zone owner (form.JoinZone zone axis keep))) result }
{
    no_next_zone(bank, owner, zone)?;
    not_joinable(bank, owner, zone, axis, keep)
}
