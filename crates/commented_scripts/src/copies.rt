//! Copies of presets and instruments.
ghost use Rattle.std.specs.Prelude.{◌≡◌, ◌<◌, length, slice_get, Some, IfOk};
ghost use Rattle.std.specs.Option.{option_map};
ghost use Rattle.bank_parts.specs.declared.parts.ZoneOwner.{ZoneOwner};
ghost use Rattle.bank_parts.specs.Settings.{zones_at};

use bank_parts::{GlobalZone, OwnerHead, Owners, Zone, ZoneOwner, ZonePlace};
use base_numbered_lists::NumberedList;
use generators::GenMap;
use sf_base::OutOfMemory;
use std::alloc::Global;

/// A copy of owner `i`, in memory of its own.
pub(crate) fn copy_owner<H: OwnerHead>(
    alloc: Global,
    owners: &Owners<H>,
    i: usize,
) -> Result<ZoneOwner<H>, OutOfMemory>
    requires { i < length owners.now }
    ensures { IfOk result (λ owner. slice_get owners.now i ≡ Some owner) }
{
    let global = copy_global(alloc, owners, i)?;
    let zones = copy_zones(alloc, owners, i)?;
    Ok(ZoneOwner {
        head: *owners.head(i),
        global,
        zones,
    })
}

fn copy_global<H: OwnerHead>(
    alloc: Global,
    owners: &Owners<H>,
    i: usize,
) -> Result<GlobalZone, OutOfMemory>
    requires { i < length owners.now }
    ensures { IfOk result (λ global.
        option_map (λ (x : ZoneOwner H). x.global) (slice_get owners.now i) ≡ Some global) }
{
    let gens = GenMap::from_entries(alloc, owners.entries(i, ZonePlace::Global))?;
    let mods = Vec::from_slice(alloc, owners.mods(i, ZonePlace::Global))?;
    Ok(GlobalZone {
        gens,
        mods: NumberedList::from_vec(mods),
    })
}

fn copy_zones<H: OwnerHead>(
    alloc: Global,
    owners: &Owners<H>,
    i: usize,
) -> Result<NumberedList<Zone>, OutOfMemory>
    requires { i < length owners.now }
    ensures { IfOk result (λ zones. zones_at owners.now i ≡ Some zones) }
{
    let count = owners.zone_count(i);
    let mut zones = Vec::with_capacity(alloc, count)?;
    for k in 0..count {
        zones.push(owners.copy_zone(alloc, i, k)?)?;
    }
    Ok(NumberedList::from_vec(zones))
}
