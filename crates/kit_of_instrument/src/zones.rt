//! The zones of the table.
ghost use Rattle.std.specs.Prelude.{◌≡◌, ◌<◌, map, string_bytes};
ghost use Rattle.std.specs.Option.{option_map};
ghost use Rattle.bank_changes.specs.declared.members.Owner.TheVariants as owner;
ghost use Rattle.zone_select.specs.Remaining.{zones_in};
ghost use Rattle.kit_of_instrument.specs.KitZones.{class_in, clipped_pan, kit_class, kit_zone};

use crate::settings::amount_in;
use bank_core::Bank;
use generators::operators;
use kit_tables::{FARTHEST_PAN, HIGHEST_CLASS, KitZone};
use show_zone_map::Rectangle;

/// Returns the zone of the table for the keys and velocities for which notes select a zone of the instrument.
pub(crate) fn kit_zone(bank: &Bank<'_>, instrument: u32, rectangle: Rectangle) -> KitZone
    ensures { result ≡ kit_zone bank.now instrument rectangle }
{
    let zone = rectangle.zone;
    KitZone {
        keys: rectangle.area.keys,
        velocities: rectangle.area.velocities,
        root: Some(rectangle.root),
        pan: kit_pan(amount_in(bank, instrument, zone, operators::PAN)),
        class: kit_class(amount_in(bank, instrument, zone, operators::EXCLUSIVE_CLASS)),
    }
}

// The pan of an amount, clipped to what a table has.
fn kit_pan(amount: Option<u16>) -> Option<i16>
    ensures { result ≡ option_map clipped_pan amount }
{
    match amount {
        Some(amount) => Some(clipped_pan(amount)),
        None => None,
    }
}

fn clipped_pan(amount: u16) -> i16
    ensures { result ≡ clipped_pan amount }
{
    let farthest = FARTHEST_PAN.cast_signed();
    amount.cast_signed().max(-farthest).min(farthest)
}

// The class of an amount, if a table has it.
fn kit_class(amount: Option<u16>) -> Option<u8>
    ensures { result ≡ kit_class amount }
{
    let amount = amount?;
    if 0 < amount && amount <= u16::from(HIGHEST_CLASS) {
        Some(amount as u8)
    } else {
        None
    }
}
