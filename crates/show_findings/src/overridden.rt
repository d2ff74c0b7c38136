//! Generators of global zones that each zone overrides.
ghost use Rattle.std.specs.Prelude.{◌≡◌, ◌++◌, [], OnOk};
ghost use Rattle.std.specs.List.{flat_map, filter_map};
ghost use Rattle.std.specs.Option.{unwrap_or};
ghost use Rattle.bank_parts.specs.Owners.{entries_at};
ghost use Rattle.bank_changes.specs.declared.members.Place.TheVariants as place;
ghost use Rattle.bank_changes.specs.Members.{zone_place};
ghost use Rattle.show_findings.specs.Overridden.{entries_of, is_set_by_all, overridden_generator, overridden_generators};

use crate::finding::Finding;
use crate::gathering::{owners_of, push_option};
use bank_core::{Bank, Owner, Owners, Place, ZonePlace};
use bank_parts::OwnerHead;
use sf_base::OutOfMemory;
use std::alloc::Global;
use zone_select::zones_in;

/// Appends the generators of global zones that each zone of the owner sets too.
pub(crate) fn push_overridden_generators(
    alloc: Global,
    bank: &Bank<'_>,
    found: &mut Vec<Finding>,
) -> Result<(), OutOfMemory>
    ensures { OnOk result (found.new.items ≡ found.old.items ++ overridden_generators bank.now) }
{
    let owners = owners_of(alloc, bank)?;
    push_overridden_of_owners(bank, owners.as_slice(), found)
}

fn push_overridden_of_owners(
    bank: &Bank<'_>,
    owners: &[Owner],
    found: &mut Vec<Finding>,
) -> Result<(), OutOfMemory>
    ensures { OnOk result (found.new.items ≡ found.old.items ++ flat_map (λ o. filter_map (overridden_generator bank.now o) (entries_of bank.now o place.Global)) owners.now) }
{
    for owner in owners {
        push_overridden_of(bank, *owner, found)?;
    }
    Ok(())
}

fn push_overridden_of(
    bank: &Bank<'_>,
    owner: Owner,
    found: &mut Vec<Finding>,
) -> Result<(), OutOfMemory>
    ensures { OnOk result (found.new.items ≡ found.old.items ++ filter_map (overridden_generator bank.now owner) (entries_of bank.now owner place.Global)) }
{
    push_overridden_in(bank, owner, entries_of(bank, owner, Place::Global), found)
}

fn push_overridden_in(
    bank: &Bank<'_>,
    owner: Owner,
    entries: &[(u16, u16)],
    found: &mut Vec<Finding>,
) -> Result<(), OutOfMemory>
    ensures { OnOk result (found.new.items ≡ found.old.items ++ filter_map (overridden_generator bank.now owner) entries.now) }
{
    for entry in entries {
        push_option(found, overridden_generator(bank, owner, *entry))?;
    }
    Ok(())
}

fn overridden_generator(bank: &Bank<'_>, owner: Owner, entry: (u16, u16)) -> Option<Finding>
    ensures { result ≡ overridden_generator bank.now owner entry }
{
    let (operator, _) = entry;
    if zones_in(bank, owner) == 0 || !is_set_by_all(bank, owner, operator) {
        return None;
    }
    Some(Finding::OverriddenGenerator { owner, operator })
}

// Whether each zone sets the generator.
fn is_set_by_all(bank: &Bank<'_>, owner: Owner, operator: u16) -> bool
    ensures { result ≡ is_set_by_all bank.now owner operator }
{
    for zone in 0..zones_in(bank, owner) {
        if bank.gen_of(owner, Place::Zone(zone), operator).is_none() {
            return false;
        }
    }
    true
}

/// The generators of a place, with their amounts.
pub(crate) fn entries_of<'b>(bank: &'b Bank<'_>, owner: Owner, place: Place) -> &'b [(u16, u16)]
    ensures { result.now ≡ entries_of bank.now owner place }
{
    match owner {
        Owner::Preset(preset) => entries_in(bank.presets(), preset, place),
        Owner::Inst(instrument) => entries_in(bank.instruments(), instrument, place),
    }
}

fn entries_in<H: OwnerHead>(owners: &Owners<H>, number: u32, place: Place) -> &[(u16, u16)]
    ensures { result.now ≡ unwrap_or (entries_at owners.now number (zone_place place)) [] }
{
    let number = number as usize;
    let place = match place {
        Place::Global => ZonePlace::Global,
        Place::Zone(zone) => ZonePlace::Zone(zone as usize),
    };
    if !owners.has_place(number, place) {
        return &[];
    }
    owners.entries(number, place)
}
