//! The raw changes of the zones of the presets and instruments of a bank.
ghost use Rattle.std.specs.Prelude.{◌≡◌, ◌<◌, ◌≤◌, Some, IsSomeAnd, OnOk, OnErr, IfOk, IfErr, ◌+◌, true, IfSome};
ghost use Rattle.bank_parts.specs.Counts.{all_counted};
ghost use Rattle.bank_parts.specs.Room.{IsStorable};
ghost use Rattle.bank_zone_ranges.specs.Splits.{split_records};
ghost use Rattle.bank_changes.specs.Members.{owner_zone_count, zone_of, target_of};
ghost use Rattle.bank_changes.specs.Zones.{zone_added, zone_removed, zone_moved, target_set, can_split, can_join, zone_split, zone_joined};

use crate::members::Owner;
use crate::with_owners;
use bank_parts::{Parts, Records, Zone};
use bank_zone_ranges::{Axis, Keep};
use sf_base::OutOfMemory;
use std::alloc::Global;

/// Inserts a zone as number `at` of an owner; its later zones move up by one. If an allocation fails, the bank is
/// unchanged and the zone is returned.
pub fn add_zone(parts: &mut Parts<'_>, owner: Owner, at: u32, zone: Zone) -> Result<(), Zone>
    requires place { IsSomeAnd (owner_zone_count parts.old owner) (λ count. at ≤ count) }
    requires storable { IsStorable (zone_added parts.old owner at zone) }
    ensures ok { OnOk result (parts.new ≡ zone_added parts.old owner at zone) }
    ensures err { OnErr result (parts.new ≡ parts.old) }
    ensures value_returned { IfErr result (λ back. back ≡ zone) }
{
    let at = at as usize;
    with_owners!(parts, owner, |owners, number| {
        owners.insert_zone(number as usize, at, zone)
    })
}

/// Removes a zone of an owner and returns it; its later zones move down by one. On `OutOfMemory` the bank is
/// unchanged.
pub fn remove_zone(
    parts: &mut Parts<'_>,
    alloc: Global,
    owner: Owner,
    zone: u32,
) -> Result<Zone, OutOfMemory>
    requires { IsSomeAnd (owner_zone_count parts.old owner) (λ count. zone < count) }
    ensures value { IfOk result (λ removed. zone_of parts.old owner zone ≡ Some removed) }
    ensures change { OnOk result (parts.new ≡ zone_removed parts.old owner zone) }
    ensures err { OnErr result (parts.new ≡ parts.old) }
{
    let zone = zone as usize;
    with_owners!(parts, owner, |owners, number| {
        owners.remove_zone(alloc, number as usize, zone)
    })
}

/// Moves zone `from` of an owner to number `to`; its other zones keep their order. Allocates nothing.
pub fn move_zone(parts: &mut Parts<'_>, owner: Owner, from: u32, to: u32)
    requires there { IsSomeAnd (owner_zone_count parts.old owner) (λ count. from < count) }
    requires place { IsSomeAnd (owner_zone_count parts.old owner) (λ count. to < count) }
    ensures { parts.new ≡ zone_moved parts.old owner from to }
{
    let (from, to) = (from as usize, to as usize);
    with_owners!(parts, owner, |owners, number| {
        owners.move_zone(number as usize, from, to)
    })
}

/// Replaces the target of a zone and returns the old one. Allocates nothing.
pub fn set_target(parts: &mut Parts<'_>, owner: Owner, zone: u32, target: u16) -> u16
    requires { IsSomeAnd (owner_zone_count parts.old owner) (λ count. zone < count) }
    ensures value { target_of parts.old owner zone ≡ Some result }
    ensures change { parts.new ≡ target_set parts.old owner zone target }
{
    let zone = zone as usize;
    with_owners!(parts, owner, |owners, number| {
        owners.set_target(number as usize, zone, target)
    })
}

/// The records that a split of a zone adds. Each number saturates at 2^64 - 1.
pub fn split_records(parts: &Parts<'_>, owner: Owner, zone: u32, axis: Axis) -> Records
    requires { IsSomeAnd (owner_zone_count parts.now owner) (λ count. zone < count) }
    ensures { IfSome (zone_of parts.now owner zone) (λ z. result ≡ all_counted (split_records axis z)) }
{
    with_owners!(parts, owner, |owners, number| {
        bank_zone_ranges::split_records(owners, number, zone, axis)
    })
}

/// Splits a zone at a key or a velocity, which is the low end of the new second zone. On `OutOfMemory` the bank is
/// unchanged.
pub fn split_zone(
    parts: &mut Parts<'_>,
    alloc: Global,
    owner: Owner,
    zone: u32,
    axis: Axis,
    at: u8,
) -> Result<(), OutOfMemory>
    requires is_splittable { can_split parts.old owner zone axis at ≡ true }
    requires storable { IsStorable (zone_split parts.old owner zone axis at) }
    ensures ok { OnOk result (parts.new ≡ zone_split parts.old owner zone axis at) }
    ensures err { OnErr result (parts.new ≡ parts.old) }
{
    with_owners!(parts, owner, |owners, number| {
        bank_zone_ranges::split_zone(owners, alloc, number, zone, axis, at)
    })
}

/// Joins a zone and the next one. On `OutOfMemory` the bank is unchanged.
pub fn join_zone(
    parts: &mut Parts<'_>,
    alloc: Global,
    owner: Owner,
    zone: u32,
    axis: Axis,
    keep: Keep,
) -> Result<(), OutOfMemory>
    requires { can_join parts.old owner zone axis keep ≡ true }
    ensures ok { OnOk result (parts.new ≡ zone_joined parts.old owner zone axis keep) }
    ensures err { OnErr result (parts.new ≡ parts.old) }
{
    with_owners!(parts, owner, |owners, number| {
        bank_zone_ranges::join_zones(owners, alloc, number, zone, axis, keep)
    })
}
