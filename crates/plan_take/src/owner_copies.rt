//! Copies of presets and instruments, with their targets renumbered.
ghost use Rattle.std.specs.Prelude.{◌≡◌, ◌<◌, length, IfOk};

use crate::numbers::renumbered_target;
use bank_parts::{GlobalZone, OwnerHead, Owners, Zone, ZoneOwner, ZonePlace};
use base_numbered_lists::NumberedList;
use generators::GenMap;
use sf_base::OutOfMemory;
use std::alloc::Global;

/// A copy of owner `i` with another head, and with the numbers that its targets have.
pub(crate) fn copy_owner<H: OwnerHead>(
    alloc: Global,
    owners: &Owners<H>,
    i: usize,
    head: H,
    targets: &[Option<u16>],
) -> Result<ZoneOwner<H>, OutOfMemory>
    requires { i < length owners.now }
    ensures { IfOk result (λ owner. owner.head ≡ head) }
{
    Ok(ZoneOwner {
        head,
        global: copy_global(alloc, owners, i)?,
        zones: copy_zones(alloc, owners, i, targets)?,
    })
}

fn copy_global<H: OwnerHead>(
    alloc: Global,
    owners: &Owners<H>,
    i: usize,
) -> Result<GlobalZone, OutOfMemory>
    requires { i < length owners.now }
{
    let mut gens = GenMap::new(alloc);
    for &(operator, amount) in owners.entries(i, ZonePlace::Global) {
        gens.set(operator, amount)?;
    }
    let mods = Vec::from_slice(alloc, owners.mods(i, ZonePlace::Global))?;
    Ok(GlobalZone {
        gens,
        mods: NumberedList::from_vec(mods),
    })
}

fn copy_zones<H: OwnerHead>(
    alloc: Global,
    owners: &Owners<H>,
    i: usize,
    targets: &[Option<u16>],
) -> Result<NumberedList<Zone>, OutOfMemory>
    requires { i < length owners.now }
{
    let mut zones = Vec::new(alloc);
    for k in 0..owners.zone_count(i) {
        let mut zone = owners.copy_zone(alloc, i, k)?;
        zone.target = renumbered_target(targets, zone.target);
        zones.push(zone)?;
    }
    Ok(NumberedList::from_vec(zones))
}
