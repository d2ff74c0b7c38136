//! Split of a zone in two, and join of two zones, in presets or instruments.
ghost use Rattle.std.specs.Prelude.{◌≡◌, true, slice_get, Some, IsSome, IfSome, OnOk, OnErr};
ghost use Rattle.std.specs.Option.{option_map_or};
ghost use Rattle.bank_parts.specs.declared.owners.ZonePlace.TheVariants as place;
ghost use Rattle.bank_parts.specs.declared.parts.GlobalZone.{GlobalZone};
ghost use Rattle.bank_parts.specs.Owners.{HasPlace, amount_at};
ghost use Rattle.bank_parts.specs.Room.{AreStorable};
ghost use Rattle.bank_parts.specs.ZoneChanges.{gen_set, gen_cleared};
ghost use Rattle.bank_zone_ranges.specs.declared.axes.Axis.{Axis};
ghost use Rattle.bank_zone_ranges.specs.Ranges.{inherited_range};
ghost use Rattle.bank_zone_ranges.specs.Splits.{is_splittable_at, is_joinable_at, zone_split, zone_joined, have_neighbours, are_neighbours, joint_range};

use crate::agreement::agree_but_range;
use crate::axes::{Axis, Keep};
use crate::ranges::{WHOLE_RANGE, inherited_range, own_range, range_operator, zone_range};
use bank_parts::{OwnerHead, Owners, ZonePlace};
use generators::Range;
use sf_base::OutOfMemory;
use std::alloc::Global;

/// Whether zone `k` of owner `i` exists and can be split at a key or a velocity: `at` lies in its effective range,
/// but not at the low end.
pub fn is_splittable<H: OwnerHead>(owners: &Owners<H>, i: u32, k: u32, axis: Axis, at: u8) -> bool
    ensures { result ≡ is_splittable_at axis at owners.now i k }
{
    if !owners.has_place(i as usize, ZonePlace::Zone(k as usize)) {
        return false;
    }
    let range = zone_range(owners, i, k, axis);
    range.low < at && at <= range.high
}

/// Whether zones `k` and `k + 1` of owner `i` exist and can be joined: they differ only in their own ranges on the
/// axis, the second range begins one above the end of the first and, for `Keep::Bare`, both ranges together are the
/// one that the joined zone inherits.
pub fn is_joinable<H: OwnerHead>(owners: &Owners<H>, i: u32, k: u32, axis: Axis, keep: Keep) -> bool
    ensures { result ≡ is_joinable_at axis keep owners.now i k }
{
    let (i, first) = (i as usize, k as usize);
    let second = first + 1;
    if !owners.has_place(i, ZonePlace::Zone(second)) {
        return false;
    }
    agree_but_range(owners, i, first, second, axis)
        && have_neighbours(owners, i, first, second, axis, keep)
}

// Whether both zones have ranges of their own, which are neighbours.
fn have_neighbours<H: OwnerHead>(
    owners: &Owners<H>,
    i: usize,
    first: usize,
    second: usize,
    axis: Axis,
    keep: Keep,
) -> bool
    requires first { HasPlace owners.now i (place.Zone first) }
    requires second { HasPlace owners.now i (place.Zone second) }
    ensures { IfSome (slice_get owners.now i) (λ x. IfSome (slice_get x.zones first) (λ y. IfSome (slice_get x.zones second) (λ z. result ≡ have_neighbours axis keep x.global y z))) }
{
    let inherited = inherited_range(owners, i, axis);
    match (
        own_range(owners, i, first, axis),
        own_range(owners, i, second, axis),
    ) {
        (Some(first), Some(second)) => are_neighbours(keep, inherited, first, second),
        _ => false,
    }
}

fn are_neighbours(keep: Keep, inherited: u16, first: u16, second: u16) -> bool
    ensures { (axis : Axis) (global : GlobalZone) → inherited_range axis global ≡ inherited → result ≡ are_neighbours axis keep global first second }
{
    let (below, above) = (Range::of_amount(first), Range::of_amount(second));
    if u16::from(above.low) != u16::from(below.high) + 1 {
        return false;
    }
    match keep {
        Keep::Keep => true,
        Keep::Bare => joint_range(first, second) == inherited,
    }
}

// From the low end of the first range to the high end of the second.
fn joint_range(first: u16, second: u16) -> u16
    ensures { result ≡ joint_range first second }
{
    let low = Range::of_amount(first).low;
    let high = Range::of_amount(second).high;
    Range { low, high }.to_amount()
}

/// Splits zone `k` of owner `i` at a key or a velocity, which is the low end of the new second zone. On `OutOfMemory`
/// nothing changes.
pub fn split_zone<H: OwnerHead>(
    owners: &mut Owners<H>,
    alloc: Global,
    i: u32,
    k: u32,
    axis: Axis,
    at: u8,
) -> Result<(), OutOfMemory>
    requires is_splittable { is_splittable_at axis at owners.old i k ≡ true }
    requires storable { AreStorable H.LEVEL (zone_split owners.old i k axis at) }
    ensures ok { OnOk result (owners.new ≡ zone_split owners.old i k axis at) }
    ensures err { OnErr result (owners.new ≡ owners.old) }
{
    let range = zone_range(owners, i, k, axis);
    let operator = range_operator(axis);
    let mut upper = owners.copy_zone(alloc, i as usize, k as usize)?;
    let from_there = Range {
        low: at,
        high: range.high,
    };
    upper.gens.set(operator, from_there.to_amount())?;
    let up_to_there = Range {
        low: range.low,
        high: at - 1,
    };
    let lower = up_to_there.to_amount();
    owners.set_gen_and_insert_zone(i as usize, k as usize, operator, lower, &upper)?;
    Ok(())
}

// Gives an operator that is set now this amount, or clears it if there is none. Allocates nothing.
fn set_or_clear_gen<H: OwnerHead>(
    owners: &mut Owners<H>,
    i: usize,
    k: usize,
    operator: u16,
    amount: Option<u16>,
)
    requires there { HasPlace owners.old i (place.Zone k) }
    requires set { IsSome (amount_at owners.old i (place.Zone k) operator) }
    ensures { owners.new ≡ option_map_or (λ amount. gen_set owners.old i (place.Zone k) operator amount) amount (gen_cleared owners.old i (place.Zone k) operator) }
{
    match amount {
        Some(amount) => match owners.set_gen(i, ZonePlace::Zone(k), operator, amount) {
            Ok(_) => {}
            Err(_) => unreachable!(),
        },
        None => {
            owners.clear_gen(i, ZonePlace::Zone(k), operator);
        }
    }
}

/// Joins zones `k` and `k + 1` of owner `i`. On `OutOfMemory` nothing changes.
pub fn join_zones<H: OwnerHead>(
    owners: &mut Owners<H>,
    alloc: Global,
    i: u32,
    k: u32,
    axis: Axis,
    keep: Keep,
) -> Result<(), OutOfMemory>
    requires { is_joinable_at axis keep owners.old i k ≡ true }
    ensures ok { OnOk result (owners.new ≡ zone_joined owners.old i k axis keep) }
    ensures err { OnErr result (owners.new ≡ owners.old) }
{
    let (i, first) = (i as usize, k as usize);
    let second = first + 1;
    let low = own_range(owners, i, first, axis).unwrap_or(WHOLE_RANGE);
    let high = own_range(owners, i, second, axis).unwrap_or(WHOLE_RANGE);
    let _second = owners.remove_zone(alloc, i, second)?;
    let own = match keep {
        Keep::Keep => Some(joint_range(low, high)),
        Keep::Bare => None,
    };
    set_or_clear_gen(owners, i, first, range_operator(axis), own);
    Ok(())
}
