//! The capacity of flat lists: fewer than 65,536 records of each kind, and no map with the operator of targets, which
//! could not be distinguished from a target.
ghost use Rattle.std.specs.Prelude.{◌≡◌, ◌≤◌, ◌<◌, ◌+◌, ◌^◌, ◌↔◌, IsTrue, OnOk, is_some};
ghost use Rattle.std.specs.FinMap.{get};
ghost use Rattle.std.specs.List.{list_any};
ghost use Rattle.bank_parts.specs.declared.parts.Zone.{Zone};
ghost use Rattle.bank_parts.specs.Room.{CanHold, HasRoom, has_operator};

use crate::counting::Records;
use crate::parts::{Zone, ZoneOwner};
use flat_records::OwnerBags;
use generators::GenMap;
use sf_base::OutOfMemory;

/// Whether flat lists can hold `more` records in addition.
pub(crate) fn can_hold(bags: &OwnerBags, more: Records) -> bool
    ensures { IsTrue result ↔ CanHold bags.now.owners more }
{
    let (zones, gens, mods) = bags.record_counts();
    if !fits_index(zones, more.zones) {
        return false;
    }
    if !fits_index(gens, more.gens) {
        return false;
    }
    fits_index(mods, more.mods)
}

// Whether a sum lies in the range of a 16-bit index.
fn fits_index(count: usize, more: usize) -> bool
    ensures { IsTrue result ↔ (count + more < 2 ^ 16) }
{
    count.saturating_add(more) <= usize::from(u16::MAX)
}

/// Reserves memory for more owners and records. The contents do not change.
pub(crate) fn make_room(
    bags: &mut OwnerBags,
    owners: usize,
    more: Records,
) -> Result<(), OutOfMemory>
    requires { CanHold bags.old.owners more }
    ensures kept { bags.new.owners ≡ bags.old.owners }
    ensures room { OnOk result (HasRoom bags.new more) }
    ensures room_for_owners { OnOk result (owners ≤ bags.new.spare_owners) }
{
    bags.reserve(owners, more.zones, more.gens, more.mods)?;
    Ok(())
}

/// Whether a map of a preset or an instrument has the operator.
pub(crate) fn has_operator<H>(operator: u16, owner: &ZoneOwner<H>) -> bool
    ensures { result ≡ has_operator operator owner.now }
{
    is_set(operator, &owner.global.gens) || any_has(operator, owner.zones.as_slice())
}

fn any_has(operator: u16, zones: &[Zone]) -> bool
    ensures { result ≡ list_any (λ (z : Zone). is_some (get z.gens operator)) zones.now }
{
    zones.iter().any(|zone| is_set(operator, &zone.gens))
}

/// Whether a map has the operator.
pub(crate) fn is_set(operator: u16, gens: &GenMap) -> bool
    ensures { result ≡ is_some (get gens.now operator) }
{
    gens.get(operator).is_some()
}
