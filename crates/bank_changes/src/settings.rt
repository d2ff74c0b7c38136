//! The raw changes of the generators and modulators at a place, and the number of records there.
ghost use Rattle.std.specs.Prelude.{◌≡◌, ◌<◌, ◌≤◌, Some, None, length, IsSome, IsOk, IfOk, IfSome, OnOk, OnErr};
ghost use Rattle.bank_parts.specs.Room.{IsStorable};
ghost use Rattle.bank_changes.specs.Members.{zone_place, settings_of, mods_of, amount_of, mod_at};
ghost use Rattle.bank_changes.specs.Settings.{gen_set, gen_cleared, mod_added, mod_removed, mod_set, records_at, place_records};

use crate::members::{Owner, Place, place_of};
use crate::with_owners;
use bank_parts::{OwnerHead, Owners, Parts, Records, ZonePlace};
use modulators::Modulator;
use sf_base::OutOfMemory;

/// Sets an operator at a place, and returns the amount that it had. It allocates only if the operator was not set. On
/// `OutOfMemory` the bank is unchanged.
pub fn set_gen(
    parts: &mut Parts<'_>,
    owner: Owner,
    place: Place,
    operator: u16,
    amount: u16,
) -> Result<Option<u16>, OutOfMemory>
    requires there { IsSome (settings_of parts.old owner place) }
    requires storable { amount_of parts.old owner place operator ≡ None → IsStorable (gen_set parts.old owner place operator amount) }
    ensures was { IfOk result (λ was. was ≡ amount_of parts.old owner place operator) }
    ensures ok { OnOk result (parts.new ≡ gen_set parts.old owner place operator amount) }
    ensures err { OnErr result (parts.new ≡ parts.old) }
    ensures needs_no_memory { IsSome (amount_of parts.old owner place operator) → IsOk result }
{
    let at = place_of(place);
    with_owners!(parts, owner, |owners, number| {
        owners.set_gen(number as usize, at, operator, amount)
    })
}

/// Clears an operator at a place, and returns the amount that it had. Allocates nothing.
pub fn clear_gen(parts: &mut Parts<'_>, owner: Owner, place: Place, operator: u16) -> Option<u16>
    requires { IsSome (settings_of parts.old owner place) }
    ensures was { result ≡ amount_of parts.old owner place operator }
    ensures change { parts.new ≡ gen_cleared parts.old owner place operator }
{
    let at = place_of(place);
    with_owners!(parts, owner, |owners, number| {
        owners.clear_gen(number as usize, at, operator)
    })
}

/// Inserts a modulator as number `index` at a place; later ones move up by one. On `OutOfMemory` the bank is
/// unchanged.
pub fn add_mod(
    parts: &mut Parts<'_>,
    owner: Owner,
    place: Place,
    index: u32,
    modulator: Modulator,
) -> Result<(), OutOfMemory>
    requires there { IsSome (settings_of parts.old owner place) }
    requires place { IfSome (mods_of parts.old owner place) (λ mods. index ≤ length mods) }
    requires storable { IsStorable (mod_added parts.old owner place index modulator) }
    ensures ok { OnOk result (parts.new ≡ mod_added parts.old owner place index modulator) }
    ensures err { OnErr result (parts.new ≡ parts.old) }
{
    let (at, index) = (place_of(place), index as usize);
    with_owners!(parts, owner, |owners, number| {
        owners.insert_mod(number as usize, at, index, modulator)
    })
}

/// Removes a modulator at a place and returns it; later ones move down by one. Allocates nothing.
pub fn remove_mod(parts: &mut Parts<'_>, owner: Owner, place: Place, index: u32) -> Modulator
    requires there { IsSome (settings_of parts.old owner place) }
    requires place { IfSome (mods_of parts.old owner place) (λ mods. index < length mods) }
    ensures value { mod_at parts.old owner place index ≡ Some result }
    ensures change { parts.new ≡ mod_removed parts.old owner place index }
{
    let (at, index) = (place_of(place), index as usize);
    with_owners!(parts, owner, |owners, number| {
        owners.remove_mod(number as usize, at, index)
    })
}

/// Replaces a modulator at a place and returns the old one. Allocates nothing.
pub fn set_mod(
    parts: &mut Parts<'_>,
    owner: Owner,
    place: Place,
    index: u32,
    modulator: Modulator,
) -> Modulator
    requires there { IsSome (settings_of parts.old owner place) }
    requires place { IfSome (mods_of parts.old owner place) (λ mods. index < length mods) }
    ensures value { mod_at parts.old owner place index ≡ Some result }
    ensures change { parts.new ≡ mod_set parts.old owner place index modulator }
{
    let (at, index) = (place_of(place), index as usize);
    with_owners!(parts, owner, |owners, number| {
        owners.set_mod(number as usize, at, index, modulator)
    })
}

// ---- the records of a place

/// The records of a place; all 0 if there is no such place. The bag of a zone that is not global is not among them,
/// since it is counted whatever the zone has.
pub fn place_records(parts: &Parts<'_>, owner: Owner, place: Place) -> Records
    ensures { result ≡ place_records parts.now owner place }
{
    with_owners!(parts, owner, |owners, number| {
        records_in(owners, number, place)
    })
}

fn records_in<H: OwnerHead>(owners: &Owners<H>, number: u32, place: Place) -> Records
    ensures { result ≡ records_at owners.now number (zone_place place) }
{
    let (number, place) = (number as usize, place_of(place));
    if !owners.has_place(number, place) {
        return Records {
            zones: 0,
            gens: 0,
            mods: 0,
        };
    }
    let gens = owners.gen_count(number, place);
    let mods = owners.mod_count(number, place);
    let is_counted = place == ZonePlace::Global && (gens > 0 || mods > 0);
    Records {
        zones: usize::from(is_counted),
        gens,
        mods,
    }
}
