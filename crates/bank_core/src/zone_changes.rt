//! The raw changes of the zones of a bank's presets and instruments, including splits and joins.
ghost use Rattle.std.specs.Prelude.{◌≡◌, ◌<◌, ◌≤◌, ℕ, Some, IsSomeAnd, OnOk, OnErr, IfOk, IfErr, true};
ghost use Rattle.std.specs.Option.{option_map};
ghost use Rattle.bank_parts.specs.Sound.{IsSound};
ghost use Rattle.bank_validity.specs.Limits.{broken_limit};
ghost use Rattle.bank_zone_ranges.specs.Ranges.{low_end, high_end};
ghost use Rattle.bank_changes.specs.Members.{owner_zone_count, zone_of, target_of};
ghost use Rattle.bank_changes.specs.Zones.{zone_added, zone_removed, zone_moved, target_set, can_split, can_join, zone_split, zone_joined, range_of_zone};

use crate::bank::Bank;
use bank_changes::{
    Owner, add_zone, join_zone, move_zone, remove_zone, set_target, split_records, split_zone,
    with_owners,
};
use bank_parts::Zone;
use bank_validity::Limit;
use bank_zone_ranges::{Axis, Keep};
use generators::Range;
use sf_base::OutOfMemory;
use std::alloc::Global;

impl<'a> Bank<'a> {
    /// Inserts a zone as number `at` of an owner; its later zones move up by one. If an allocation fails, the bank is
    /// unchanged and the zone is returned.
    pub fn add_zone(&mut self, owner: Owner, at: u32, zone: Zone) -> Result<(), Zone>
        requires place { IsSomeAnd (owner_zone_count self.old owner) (λ count. at ≤ count) }
        requires sound { IsSound (zone_added self.old owner at zone) }
        ensures ok { OnOk result (self.new ≡ zone_added self.old owner at zone) }
        ensures err { OnErr result (self.new ≡ self.old) }
        ensures value_returned { IfErr result (λ back. back ≡ zone) }
    {
        add_zone(&mut self.parts, owner, at, zone)
    }

    /// Removes a zone of an owner and returns it; its later zones move down by one. On `OutOfMemory` the bank is
    /// unchanged.
    pub fn remove_zone(
        &mut self,
        alloc: Global,
        owner: Owner,
        zone: u32,
    ) -> Result<Zone, OutOfMemory>
        requires there { IsSomeAnd (owner_zone_count self.old owner) (λ count. zone < count) }
        requires sound { IsSound (zone_removed self.old owner zone) }
        ensures value { IfOk result (λ removed. zone_of self.old owner zone ≡ Some removed) }
        ensures change { OnOk result (self.new ≡ zone_removed self.old owner zone) }
        ensures err { OnErr result (self.new ≡ self.old) }
    {
        remove_zone(&mut self.parts, alloc, owner, zone)
    }

    /// Moves zone `from` of an owner to number `to`; its other zones keep their order. Allocates nothing.
    pub fn move_zone(&mut self, owner: Owner, from: u32, to: u32)
        requires there { IsSomeAnd (owner_zone_count self.old owner) (λ count. from < count) }
        requires place { IsSomeAnd (owner_zone_count self.old owner) (λ count. to < count) }
        requires sound { IsSound (zone_moved self.old owner from to) }
        ensures { self.new ≡ zone_moved self.old owner from to }
    {
        move_zone(&mut self.parts, owner, from, to);
    }

    /// Replaces the target of a zone and returns the old one. Allocates nothing.
    pub fn set_target(&mut self, owner: Owner, zone: u32, target: u16) -> u16
        requires there { IsSomeAnd (owner_zone_count self.old owner) (λ count. zone < count) }
        requires sound { IsSound (target_set self.old owner zone target) }
        ensures value { target_of self.old owner zone ≡ Some result }
        ensures change { self.new ≡ target_set self.old owner zone target }
    {
        set_target(&mut self.parts, owner, zone, target)
    }

    /// The first limit that is broken after this zone is added to an owner. It counts only the zone.
    pub fn broken_with_zone(&self, owner: Owner, zone: &Zone) -> Option<Limit>
        ensures { (at : ℕ) → IsSomeAnd (owner_zone_count self.now owner) (λ count. at ≤ count) → result ≡ broken_limit (zone_added self.now owner at zone.now) }
    {
        self.totals()
            .broken_with_records(owner.level(), zone.records())
    }

    /// The effective key or velocity range of a zone: its own, else that of its global zone, else 0 to 127.
    pub fn zone_range(&self, owner: Owner, zone: u32, axis: Axis) -> Range
        requires { IsSomeAnd (owner_zone_count self.now owner) (λ count. zone < count) }
        ensures low { option_map low_end (range_of_zone self.now owner zone axis) ≡ Some result.low }
        ensures high { option_map high_end (range_of_zone self.now owner zone axis) ≡ Some result.high }
    {
        with_owners!(&self.parts, owner, |owners, number| {
            bank_zone_ranges::zone_range(owners, number, zone, axis)
        })
    }

    /// Whether the zone exists and can be split at a key or a velocity: `at` lies in its effective range, but not at
    /// the low end.
    pub fn can_split(&self, owner: Owner, zone: u32, axis: Axis, at: u8) -> bool
        ensures { result ≡ can_split self.now owner zone axis at }
    {
        with_owners!(&self.parts, owner, |owners, number| {
            bank_zone_ranges::is_splittable(owners, number, zone, axis, at)
        })
    }

    /// Whether the zone and the next one exist and can be joined: they differ only in their own ranges on the axis,
    /// the second range begins one above the end of the first and, if the joined zone is to have no range of its own,
    /// both ranges together are the one that it inherits.
    pub fn can_join(&self, owner: Owner, zone: u32, axis: Axis, keep: Keep) -> bool
        ensures { result ≡ can_join self.now owner zone axis keep }
    {
        with_owners!(&self.parts, owner, |owners, number| {
            bank_zone_ranges::is_joinable(owners, number, zone, axis, keep)
        })
    }

    /// Splits a zone at a key or a velocity, which is the low end of the new second zone. On `OutOfMemory` the bank
    /// is unchanged.
    pub fn split_zone(
        &mut self,
        alloc: Global,
        owner: Owner,
        zone: u32,
        axis: Axis,
        at: u8,
    ) -> Result<(), OutOfMemory>
        requires there { can_split self.old owner zone axis at ≡ true }
        requires sound { IsSound (zone_split self.old owner zone axis at) }
        ensures ok { OnOk result (self.new ≡ zone_split self.old owner zone axis at) }
        ensures err { OnErr result (self.new ≡ self.old) }
    {
        split_zone(&mut self.parts, alloc, owner, zone, axis, at)
    }

    /// Joins a zone and the next one. On `OutOfMemory` the bank is unchanged.
    pub fn join_zone(
        &mut self,
        alloc: Global,
        owner: Owner,
        zone: u32,
        axis: Axis,
        keep: Keep,
    ) -> Result<(), OutOfMemory>
        requires there { can_join self.old owner zone axis keep ≡ true }
        requires sound { IsSound (zone_joined self.old owner zone axis keep) }
        ensures ok { OnOk result (self.new ≡ zone_joined self.old owner zone axis keep) }
        ensures err { OnErr result (self.new ≡ self.old) }
    {
        join_zone(&mut self.parts, alloc, owner, zone, axis, keep)
    }

    /// The first limit that is broken after a zone is split. It counts only the zone.
    pub fn broken_with_split(&self, owner: Owner, zone: u32, axis: Axis) -> Option<Limit>
        requires { IsSomeAnd (owner_zone_count self.now owner) (λ count. zone < count) }
        ensures { (at : ℕ) → can_split self.now owner zone axis at ≡ true → result ≡ broken_limit (zone_split self.now owner zone axis at) }
    {
        let more = split_records(&self.parts, owner, zone, axis);
        self.totals().broken_with_records(owner.level(), more)
    }
}
