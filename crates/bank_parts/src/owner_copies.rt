//! Copies of single zones, single owners and whole `Owners`, in memory of their own.
ghost use Rattle.std.specs.Prelude.{◌≡◌, ◌<◌, length, slice_get, Some, IfOk};
ghost use Rattle.std.specs.Option.{option_map};
ghost use Rattle.bank_parts.specs.declared.owners.ZonePlace.TheVariants as place;
ghost use Rattle.bank_parts.specs.declared.parts.ZoneOwner.{ZoneOwner};
ghost use Rattle.bank_parts.specs.Owners.{HasPlace, zone_at, gens_at, mods_at};
ghost use Rattle.bank_parts.specs.Settings.{zones_at};

use crate::heads::OwnerHead;
use crate::owners::{Owners, ZonePlace};
use crate::parts::{GlobalZone, Zone, ZoneOwner};
use bank_linked_members::DoubleEndedList;
use base_numbered_lists::NumberedList;
use generators::GenMap;
use modulators::Modulator;
use sf_base::OutOfMemory;
use std::alloc::Global;

impl<H: OwnerHead> Owners<H> {
    /// Returns a copy of zone `k` of owner `i`, in memory of its own.
    pub fn copy_zone(&self, alloc: Global, i: usize, k: usize) -> Result<Zone, OutOfMemory>
        requires { HasPlace self.now i (place.Zone k) }
        ensures { IfOk result (λ zone. zone_at self.now i k ≡ Some zone) }
    {
        let target = self.target(i, k);
        let gens = self.copy_gens(alloc, i, ZonePlace::Zone(k))?;
        let mods = self.copy_mods(alloc, i, ZonePlace::Zone(k))?;
        Ok(Zone { target, gens, mods })
    }

    /// Returns a copy of owner `i`, in memory of its own.
    pub(crate) fn copy_owner(&self, alloc: Global, i: usize) -> Result<ZoneOwner<H>, OutOfMemory>
        requires { i < length self.now }
        ensures { IfOk result (λ owner. slice_get self.now i ≡ Some owner) }
    {
        let global = self.copy_global(alloc, i)?;
        let zones = self.copy_zones(alloc, i)?;
        Ok(ZoneOwner {
            head: *self.head(i),
            global,
            zones,
        })
    }

    fn copy_global(&self, alloc: Global, i: usize) -> Result<GlobalZone, OutOfMemory>
        requires { i < length self.now }
        ensures { IfOk result (λ global. option_map (λ (x : ZoneOwner H). x.global) (slice_get self.now i) ≡ Some global) }
    {
        let gens = self.copy_gens(alloc, i, ZonePlace::Global)?;
        let mods = self.copy_mods(alloc, i, ZonePlace::Global)?;
        Ok(GlobalZone { gens, mods })
    }

    fn copy_zones(&self, alloc: Global, i: usize) -> Result<NumberedList<Zone>, OutOfMemory>
        requires { i < length self.now }
        ensures { IfOk result (λ zones. zones_at self.now i ≡ Some zones) }
    {
        let count = self.zone_count(i);
        let mut zones = Vec::with_capacity(alloc, count)?;
        for k in 0..count {
            zones.push(self.copy_zone(alloc, i, k)?)?;
        }
        Ok(NumberedList::from_vec(zones))
    }

    fn copy_gens(&self, alloc: Global, i: usize, place: ZonePlace) -> Result<GenMap, OutOfMemory>
        requires { HasPlace self.now i place }
        ensures { IfOk result (λ gens. gens_at self.now i place ≡ Some gens) }
    {
        GenMap::from_entries(alloc, self.entries(i, place))
    }

    fn copy_mods(
        &self,
        alloc: Global,
        i: usize,
        place: ZonePlace,
    ) -> Result<NumberedList<Modulator>, OutOfMemory>
        requires { HasPlace self.now i place }
        ensures { IfOk result (λ mods. mods_at self.now i place ≡ Some mods) }
    {
        let copies = Vec::from_slice(alloc, self.mods(i, place))?;
        Ok(NumberedList::from_vec(copies))
    }

    /// Returns a copy of all, in memory of its own.
    pub fn copy(&self, alloc: Global) -> Result<Owners<H>, OutOfMemory>
        ensures { IfOk result (λ copy. copy ≡ self.now) }
    {
        let heads = Vec::from_slice(alloc, self.heads.as_slice())?;
        let bags = self.bags.copy(alloc)?;
        Ok(Owners {
            heads: DoubleEndedList::from_vec(heads),
            bags,
        })
    }
}
