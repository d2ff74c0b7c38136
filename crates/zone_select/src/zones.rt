//! The zones of an owner that contain a note.
ghost use Rattle.std.specs.Prelude.{◌≡◌, ◌<◌, ◌≤◌, ◌∷◌, ◌+◌, [], false, length, slice_get, MatchOption, IfSome};
ghost use Rattle.std.specs.Option.{option_map_or};
ghost use Rattle.std.specs.FinMap.{find};
ghost use Rattle.generators.specs.Gens.{operator_cmp, AreInOrder};
ghost use Rattle.script_notes.specs.Notes.{Numbers};
ghost use Rattle.bank_parts.specs.declared.owners.ZonePlace.TheVariants as place;
ghost use Rattle.bank_parts.specs.Owners.{HasPlace};
ghost use Rattle.zone_select.specs.Pairs.{holds_at};
ghost use Rattle.zone_select.specs.Ranges.{within, range_in, global_entries};
ghost use Rattle.zone_select.specs.Remaining.{zones_in, owner_holds, owner_held};

use bank_core::{Bank, Owner};
use bank_parts::{OwnerHead, Owners, ZonePlace};
use generators::operators::{KEY_RANGE, VEL_RANGE};
use generators::{Range, search_entries};
use script_notes::Note;

// 0 to 127, as an amount.
const WHOLE_RANGE: u16 = 32_512;

/// Returns how many zones a preset or an instrument has; 0 if it doesn't exist.
pub fn zones_in(bank: &Bank<'_>, owner: Owner) -> u32
    ensures count { result ≡ zones_in bank.now owner }
    ensures few { result ≤ 65535 }
{
    bank.soundness();
    match bank.zone_count(owner) {
        Some(count) => count as u32,
        None => 0,
    }
}

// Whether a zone, which exists, contains the note.
pub(crate) fn holds(bank: &Bank<'_>, note: &Note, owner: Owner, zone: u32) -> bool
    requires { zone < zones_in bank.now owner }
    ensures { result ≡ owner_holds bank.now note.now owner zone }
{
    match owner {
        Owner::Preset(number) => zone_holds(bank.presets(), note, number, zone),
        Owner::Inst(number) => zone_holds(bank.instruments(), note, number, zone),
    }
}

fn zone_holds<H: OwnerHead>(owners: &Owners<H>, note: &Note, number: u32, zone: u32) -> bool
    requires { HasPlace owners.now number (place.Zone zone) }
    ensures { result ≡ option_map_or (λ x. holds_at note.now x.global x.zones zone) (slice_get owners.now number) false }
{
    let own = owners.entries(number as usize, ZonePlace::Zone(zone as usize));
    is_within(owners, number, own, KEY_RANGE, note.key())
        && is_within(owners, number, own, VEL_RANGE, note.velocity())
}

// Whether the effective range of a zone contains a number, by the zone's generators.
fn is_within<H: OwnerHead>(
    owners: &Owners<H>,
    number: u32,
    own: &[(u16, u16)],
    operator: u16,
    value: u8,
) -> bool
    requires owner { number < length owners.now }
    requires own { AreInOrder own.now }
    ensures { result ≡ within (range_in own.now (global_entries owners.now number) operator) value }
{
    let range = match amount_in(own, operator) {
        Some(amount) => amount,
        None => {
            let global = owners.entries(number as usize, ZonePlace::Global);
            amount_in(global, operator).unwrap_or(WHOLE_RANGE)
        }
    };
    Range::of_amount(range).contains(value)
}

// The amount of an operator among the generators of a place.
fn amount_in(entries: &[(u16, u16)], operator: u16) -> Option<u16>
    requires { AreInOrder entries.now }
    ensures { result ≡ find operator_cmp operator entries.now }
{
    match search_entries(entries, operator) {
        Ok(at) => Some(entries[at].1),
        Err(_) => None,
    }
}

// The first zone of an owner, from a number on, that contains the note.
#[tactic(auto, using(crate::proofs::ZoneLaws::held_end, crate::proofs::ZoneLaws::held_hit, crate::proofs::ZoneLaws::held_miss))]
pub(crate) fn next_held(bank: &Bank<'_>, note: &Note, owner: Owner, from: u32) -> Option<u32>
    ensures first { MatchOption result (owner_held bank.now note.now owner from ≡ []) (λ k. owner_held bank.now note.now owner from ≡ k ∷ owner_held bank.now note.now owner (k + 1)) }
    ensures within { IfSome result (λ k. (from ≤ k) × (k < 65535)) }
{
    let count = zones_in(bank, owner);
    let mut zone = from;
    while zone < count {
        if holds(bank, note, owner, zone) {
            return Some(zone);
        }
        zone += 1;
    }
    None
}
