//! Whether two zones differ only in their own ranges on an axis.
ghost use Rattle.std.specs.Prelude.{◌≡◌, ◌↔◌, IsTrue, IfSome};
ghost use Rattle.std.specs.List.{AllByRecursion};
ghost use Rattle.std.specs.FinMap.{remove};
ghost use Rattle.bank_parts.specs.declared.owners.ZonePlace.TheVariants as place;
ghost use Rattle.bank_parts.specs.Owners.{HasPlace, zone_at, gens_at};
ghost use Rattle.bank_zone_ranges.specs.Splits.{agree_but_range};
ghost use Rattle.bank_zone_ranges.specs.Agreement.{AgreesButAt};

use crate::axes::Axis;
use crate::ranges::range_operator;
use bank_parts::{OwnerHead, Owners, ZonePlace};
use modulators::Modulator;

pub(crate) fn agree_but_range<H: OwnerHead>(
    owners: &Owners<H>,
    i: usize,
    first: usize,
    second: usize,
    axis: Axis,
) -> bool
    requires first { HasPlace owners.now i (place.Zone first) }
    requires second { HasPlace owners.now i (place.Zone second) }
    ensures { IfSome (zone_at owners.now i first) (λ y. IfSome (zone_at owners.now i second) (λ z. result ≡ agree_but_range axis y z)) }
{
    if owners.target(i, first) != owners.target(i, second) {
        return false;
    }
    if !same_gens_but(owners, i, first, second, range_operator(axis)) {
        return false;
    }
    are_same(
        owners.mods(i, ZonePlace::Zone(first)),
        owners.mods(i, ZonePlace::Zone(second)),
    )
}

// Whether two zones have the same generators, apart from one operator.
fn same_gens_but<H: OwnerHead>(
    owners: &Owners<H>,
    i: usize,
    first: usize,
    second: usize,
    operator: u16,
) -> bool
    requires first { HasPlace owners.now i (place.Zone first) }
    requires second { HasPlace owners.now i (place.Zone second) }
    ensures { IfSome (gens_at owners.now i (place.Zone first)) (λ m. IfSome (gens_at owners.now i (place.Zone second)) (λ n. IsTrue result ↔ (remove m operator ≡ remove n operator))) }
{
    let (of_first, of_second) = (
        owners.entries(i, ZonePlace::Zone(first)),
        owners.entries(i, ZonePlace::Zone(second)),
    );
    agree_but(owners, i, first, operator, of_second)
        && agree_but(owners, i, second, operator, of_first)
}

// Whether a zone has each of these generators, apart from one operator.
fn agree_but<H: OwnerHead>(
    owners: &Owners<H>,
    i: usize,
    zone: usize,
    operator: u16,
    entries: &[(u16, u16)],
) -> bool
    requires { HasPlace owners.now i (place.Zone zone) }
    ensures { IsTrue result ↔ AllByRecursion (AgreesButAt owners.now i zone operator) entries.now }
{
    entries
        .iter()
        .all(|&entry| agrees_but(owners, i, zone, operator, entry))
}

fn agrees_but<H: OwnerHead>(
    owners: &Owners<H>,
    i: usize,
    zone: usize,
    operator: u16,
    entry: (u16, u16),
) -> bool
    requires { HasPlace owners.now i (place.Zone zone) }
    ensures { IsTrue result ↔ AgreesButAt owners.now i zone operator entry }
{
    let (other, amount) = entry;
    other == operator || owners.amount(i, ZonePlace::Zone(zone), other) == Some(amount)
}

fn are_same(first: &[Modulator], second: &[Modulator]) -> bool
    ensures { IsTrue result ↔ (first.now ≡ second.now) }
{
    first == second
}
