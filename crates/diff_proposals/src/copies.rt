//! Copies of zones and owners, with the numbers of targets that the edited bank has.
use crate::numbers::target_number;
use crate::views::{OwnerView, Settings, Target, ZoneView};
use bank_parts::{GlobalZone, OwnerHead, Zone, ZoneOwner};
use base_numbered_lists::NumberedList;
use generators::GenMap;
use sf_base::OutOfMemory;
use std::alloc::Global;

/// A copy of a zone. `targets` has the number of each target.
pub(crate) fn zone_of(
    alloc: Global,
    zone: &ZoneView<'_>,
    targets: &[usize],
) -> Result<Zone, OutOfMemory> {
    let (Target::Wanted(number) | Target::Superfluous(number)) = zone.target;
    let target = targets.get(number).copied().unwrap_or(number);
    let settings = global_of(alloc, &zone.settings)?;
    Ok(settings.into_zone(target_number(target)))
}

fn global_of(alloc: Global, settings: &Settings<'_>) -> Result<GlobalZone, OutOfMemory> {
    let mut gens = GenMap::new(alloc);
    for &(operator, amount) in settings.gens {
        gens.set(operator, amount)?;
    }
    let mods = Vec::from_slice(alloc, settings.mods)?;
    Ok(GlobalZone {
        gens,
        mods: NumberedList::from_vec(mods),
    })
}

/// A copy of an owner.
pub(crate) fn owner_of<H: OwnerHead>(
    alloc: Global,
    owner: &OwnerView<'_, H>,
    targets: &[usize],
) -> Result<ZoneOwner<H>, OutOfMemory> {
    let mut zones = Vec::with_capacity(alloc, owner.zones.len())?;
    for zone in &owner.zones {
        zones.push(zone_of(alloc, zone, targets)?)?;
    }
    Ok(ZoneOwner {
        head: owner.head,
        global: global_of(alloc, &owner.global)?,
        zones: NumberedList::from_vec(zones),
    })
}
