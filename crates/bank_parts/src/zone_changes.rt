//! Insertion, removal and moves of zones, and changes of their targets.
ghost use Rattle.std.specs.Prelude.{◌≡◌, ◌≤◌, ◌+◌, Some, IsSomeAnd, IfOk, IfErr, OnOk, OnErr};
ghost use Rattle.bank_parts.specs.declared.owners.ZonePlace.TheVariants as place;
ghost use Rattle.bank_parts.specs.Owners.{HasPlace, zone_count_at, zone_at, target_at};
ghost use Rattle.bank_parts.specs.Room.{AreStorable};
ghost use Rattle.bank_parts.specs.ZoneChanges.{zone_added, zone_removed, zone_moved, target_set, gen_set};

use crate::bag_changes::{insert_zone_bag, put_gen};
use crate::bag_targets::last_amount;
use crate::heads::OwnerHead;
use crate::owners::{Owners, ZonePlace};
use crate::parts::Zone;
use crate::room::make_room;
use generators::search_entries;
use sf_base::OutOfMemory;
use std::alloc::Global;

impl<H: OwnerHead> Owners<H> {
    /// Inserts a zone as zone `k` of owner `i`; later zones move up by one. If an allocation fails, nothing changes
    /// and the zone is returned.
    pub fn insert_zone(&mut self, i: usize, k: usize, zone: Zone) -> Result<(), Zone>
        requires place { IsSomeAnd (zone_count_at self.old i) (λ count. k ≤ count) }
        requires storable { AreStorable H.LEVEL (zone_added self.old i k zone) }
        ensures ok { OnOk result (self.new ≡ zone_added self.old i k zone) }
        ensures err { OnErr result (self.new ≡ self.old) }
        ensures value_returned { IfErr result (λ back. back ≡ zone) }
    {
        zone.fits();
        let operator = Self::operator();
        let at = self.zone_bag(i, k);
        let Ok(()) = make_room(&mut self.bags, 0, zone.records()) else {
            return Err(zone);
        };
        insert_zone_bag(&mut self.bags, i, at, operator, &zone);
        Ok(())
    }

    /// Sets an operator of zone `k` of owner `i`, and inserts a zone after it; later zones move up by one. All memory is
    /// reserved before the first change: on `OutOfMemory` nothing changes.
    pub fn set_gen_and_insert_zone(
        &mut self,
        i: usize,
        k: usize,
        operator: u16,
        amount: u16,
        next: &Zone,
    ) -> Result<(), OutOfMemory>
        requires there { HasPlace self.old i (place.Zone k) }
        requires storable { AreStorable H.LEVEL (zone_added (gen_set self.old i (place.Zone k) operator amount) i (k + 1) next.now) }
        ensures ok { OnOk result (self.new ≡ zone_added (gen_set self.old i (place.Zone k) operator amount) i (k + 1) next.now) }
        ensures err { OnErr result (self.new ≡ self.old) }
    {
        let _count = self.bags.bag_count(i);
        let at = self.zone_bag(i, k);
        let entries = self.bag_entries(i, ZonePlace::Zone(k), at);
        let index = search_entries(entries, operator);
        let target = Self::operator();
        let more = next.records();
        self.bags
            .reserve(0, more.zones, more.gens.saturating_add(1), more.mods)?;
        put_gen(&mut self.bags, i, at, index, (operator, amount));
        insert_zone_bag(&mut self.bags, i, at + 1, target, next);
        Ok(())
    }

    /// Removes zone `k` of owner `i` and returns it; later zones move down by one. On `OutOfMemory` nothing changes.
    pub fn remove_zone(&mut self, alloc: Global, i: usize, k: usize) -> Result<Zone, OutOfMemory>
        requires { HasPlace self.old i (place.Zone k) }
        ensures value { IfOk result (λ zone. zone_at self.old i k ≡ Some zone) }
        ensures change { OnOk result (self.new ≡ zone_removed self.old i k) }
        ensures err { OnErr result (self.new ≡ self.old) }
    {
        let zone = self.copy_zone(alloc, i, k)?;
        let at = self.zone_bag(i, k);
        self.bags.cut_bag(i, at);
        Ok(zone)
    }

    /// Moves zone `from` of owner `i` to number `to`; its other zones keep their order. Allocates nothing.
    pub fn move_zone(&mut self, i: usize, from: usize, to: usize)
        requires from { HasPlace self.old i (place.Zone from) }
        requires to { HasPlace self.old i (place.Zone to) }
        ensures { self.new ≡ zone_moved self.old i from to }
    {
        let first = self.zone_bag(i, from);
        let second = self.zone_bag(i, to);
        self.bags.move_bag(i, first, second);
    }

    /// Replaces the target of zone `k` of owner `i`, and returns the old one. Allocates nothing.
    pub fn set_target(&mut self, i: usize, k: usize, target: u16) -> u16
        requires { HasPlace self.old i (place.Zone k) }
        ensures value { target_at self.old i k ≡ Some result }
        ensures change { self.new ≡ target_set self.old i k target }
    {
        let operator = Self::operator();
        let at = self.zone_bag(i, k);
        let gens = self.bags.gens(i, at);
        let was = last_amount(gens);
        let last = gens.len() - 1;
        self.bags.set_gen(i, at, last, (operator, target));
        was
    }
}
