//! The effective range of a zone.
ghost use Rattle.std.specs.Prelude.{◌≡◌, ◌<◌, length, slice_get, Some, IfSome};
ghost use Rattle.std.specs.Option.{option_map};
ghost use Rattle.bank_parts.specs.declared.owners.ZonePlace.TheVariants as place;
ghost use Rattle.bank_parts.specs.Owners.{HasPlace, zone_at};
ghost use Rattle.bank_zone_ranges.specs.Ranges.{range_operator, low_end, high_end, own_range, inherited_range, range_at};

use crate::axes::Axis;
use bank_parts::{OwnerHead, Owners, ZonePlace};
use generators::{Range, operators};

// 0 to 127, as an amount.
pub(crate) const WHOLE_RANGE: u16 = 32_512;

/// The generator that sets the range of a zone on an axis.
pub fn range_operator(axis: Axis) -> u16
    ensures { result ≡ range_operator axis }
{
    match axis {
        Axis::Key => operators::KEY_RANGE,
        Axis::Vel => operators::VEL_RANGE,
    }
}

// The range that zone `k` sets itself, as an amount.
pub(crate) fn own_range<H: OwnerHead>(
    owners: &Owners<H>,
    i: usize,
    k: usize,
    axis: Axis,
) -> Option<u16>
    requires { HasPlace owners.now i (place.Zone k) }
    ensures { IfSome (zone_at owners.now i k) (λ z. result ≡ own_range axis z) }
{
    owners.amount(i, ZonePlace::Zone(k), range_operator(axis))
}

// The range of a zone without its own, as an amount.
pub(crate) fn inherited_range<H: OwnerHead>(owners: &Owners<H>, i: usize, axis: Axis) -> u16
    requires { i < length owners.now }
    ensures { IfSome (slice_get owners.now i) (λ x. result ≡ inherited_range axis x.global) }
{
    owners
        .amount(i, ZonePlace::Global, range_operator(axis))
        .unwrap_or(WHOLE_RANGE)
}

/// The effective key or velocity range of zone `k` of owner `i`: its own, else that of its global zone, else 0 to
/// 127. The ends are those stored in the bank.
pub fn zone_range<H: OwnerHead>(owners: &Owners<H>, i: u32, k: u32, axis: Axis) -> Range
    requires { HasPlace owners.now i (place.Zone k) }
    ensures low { option_map low_end (range_at axis owners.now i k) ≡ Some result.low }
    ensures high { option_map high_end (range_at axis owners.now i k) ≡ Some result.high }
{
    let (i, k) = (i as usize, k as usize);
    Range::of_amount(match own_range(owners, i, k, axis) {
        Some(own) => own,
        None => inherited_range(owners, i, axis),
    })
}
