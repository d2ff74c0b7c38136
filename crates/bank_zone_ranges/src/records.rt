//! How many records a split of a zone adds.
ghost use Rattle.std.specs.Prelude.{◌≡◌, IfSome};
ghost use Rattle.bank_parts.specs.declared.owners.ZonePlace.TheVariants as place;
ghost use Rattle.bank_parts.specs.Counts.{all_counted};
ghost use Rattle.bank_parts.specs.Owners.{HasPlace, zone_at};
ghost use Rattle.bank_zone_ranges.specs.Splits.{records_with, split_records};

use crate::axes::Axis;
use crate::ranges::own_range;
use bank_parts::{OwnerHead, Owners, Records, ZonePlace};

/// The records that a split of zone `k` of owner `i` adds: those of the zone, and two ranges if it has none of its
/// own. Each number saturates at 2^64 - 1.
pub fn split_records<H: OwnerHead>(owners: &Owners<H>, i: u32, k: u32, axis: Axis) -> Records
    requires { HasPlace owners.now i (place.Zone k) }
    ensures { IfSome (zone_at owners.now i k) (λ z. result ≡ all_counted (split_records axis z)) }
{
    let more = match own_range(owners, i as usize, k as usize, axis) {
        Some(_) => 1,
        None => 3,
    };
    records_with(owners, i as usize, k as usize, more)
}

// The records of a zone with `more` generators in addition.
fn records_with<H: OwnerHead>(owners: &Owners<H>, i: usize, k: usize, more: usize) -> Records
    requires { HasPlace owners.now i (place.Zone k) }
    ensures { IfSome (zone_at owners.now i k) (λ z. result ≡ all_counted (records_with more z)) }
{
    let place = ZonePlace::Zone(k);
    Records {
        zones: 1,
        gens: owners.gen_count(i, place).saturating_add(more),
        mods: owners.mod_count(i, place),
    }
}
