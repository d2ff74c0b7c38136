//! The pairs of zones that a note selects.
ghost use Rattle.std.specs.Prelude.{◌≡◌, ◌<◌, ◌≤◌, false, length, ◌∷◌, ◌+◌, [], None, Some, MatchOption, IfSome, slice_get};
ghost use Rattle.std.specs.Iterator.{YieldsFirstBy, item_count};
ghost use Rattle.std.specs.List.{find};
ghost use Rattle.std.specs.Option.{option_map_or};
ghost use Rattle.zone_select.specs.Select.{has_preset_numbers};
ghost use Rattle.zone_select.specs.Pairs.{pairs};
ghost use Rattle.zone_select.specs.Remaining.{inside_held, remaining_pairs};

use crate::zones::next_held;
use bank_core::{Bank, List, Owner};
use script_notes::Note;
use std::marker::Model;

/// Iterates over the pairs of zones that a note selects, in ascending order: the number of the preset's zone, then that
/// of its instrument's zone.
///
/// It borrows the bank. Its model is the list of the remaining pairs.
#[derive(Drop)]
pub struct ZonePairs<'b, 'a> {
    bank: &'b Bank<'a>,
    note: Note,
    preset: u32,
    // The preset's zone of the next pair, and the first zone of its instrument that is still to be checked.
    zone: Option<u32>,
    instrument_zone: u32,
}

impl<'b, 'a> Model for ZonePairs<'b, 'a> {
    ghost use Rattle.std.specs.Prelude.{◌<◌, ℕ, List, IfSome};
    ghost use Rattle.zone_select.specs.Remaining.{remaining_pairs};

    ghost Value = { List (ℕ × ℕ) };

    ghost view = { λ m. remaining_pairs m.bank.now m.note m.preset m.zone m.instrument_zone };

    ghost invariant = { λ m. IfSome m.zone (λ k. k < 65535) };
}

impl<'b, 'a> Iterator for ZonePairs<'b, 'a> {
    type Item = (u32, u32);

    ghost next_gives = { YieldsFirstBy (λ pair. pair) (λ rest. rest) };

    ghost remaining = { item_count (λ rest. rest) };

    fn next(&mut self) -> Option<(u32, u32)> {
        let (zone, instrument_zone) = next_pair(
            self.bank,
            &self.note,
            self.preset,
            self.zone,
            self.instrument_zone,
        )?;
        self.zone = Some(zone);
        self.instrument_zone = instrument_zone + 1;
        Some((zone, instrument_zone))
    }
}

/// Returns the pairs of zones that a note selects.
///
/// These are, of the first preset with the note's bank and preset number, each zone whose key and velocity ranges
/// contain the note, with each such zone of its instrument. A zone without a range has its global zone's, and otherwise
/// the full range.
pub fn matches<'b, 'a>(bank: &'b Bank<'a>, note: &Note) -> ZonePairs<'b, 'a>
    ensures { result ≡ pairs bank.now note.now }
{
    let Some(preset) = first_preset(bank, note) else {
        return ZonePairs {
            bank,
            note: *note,
            preset: 0,
            zone: None,
            instrument_zone: 0,
        };
    };
    ZonePairs {
        bank,
        note: *note,
        preset,
        zone: next_held(bank, note, Owner::Preset(preset), 0),
        instrument_zone: 0,
    }
}

// The number of presets in a bank.
fn preset_count(bank: &Bank<'_>) -> u32
    ensures count { result ≡ length bank.now.presets }
    ensures few { result ≤ 65535 }
{
    bank.soundness();
    bank.count(List::Presets) as u32
}

// Whether the preset of this number exists and has the note's bank and preset number.
#[tactic(auto, using(crate::proofs::RemainingLaws::called_then, crate::proofs::RemainingLaws::called_else, crate::proofs::RemainingLaws::not_there))]
fn has_preset_numbers(bank: &Bank<'_>, note: &Note, preset: u32) -> bool
    ensures { result ≡ option_map_or (has_preset_numbers note.now) (slice_get bank.now.presets preset) false }
{
    match bank.head(preset) {
        Some(head) => head.bank == note.bank() && head.number == note.number(),
        None => false,
    }
}

// The first preset with the note's bank and preset number.
pub(crate) fn first_preset(bank: &Bank<'_>, note: &Note) -> Option<u32>
    ensures { MatchOption result (find (has_preset_numbers note.now) bank.now.presets ≡ None) (λ p. find (has_preset_numbers note.now) bank.now.presets ≡ slice_get bank.now.presets p) }
{
    let count = preset_count(bank);
    let mut preset = 0;
    while preset < count {
        if has_preset_numbers(bank, note, preset) {
            return Some(preset);
        }
        preset += 1;
    }
    None
}

// The first pair from `first` and `from` on, in ascending order.
fn next_pair(
    bank: &Bank<'_>,
    note: &Note,
    preset: u32,
    first: Option<u32>,
    from: u32,
) -> Option<(u32, u32)>
    requires { IfSome first (λ k. k < 65535) }
    ensures left { MatchOption result (remaining_pairs bank.now note.now preset first from ≡ []) (λ q. remaining_pairs bank.now note.now preset first from ≡ q ∷ remaining_pairs bank.now note.now preset (Some q.0) (q.1 + 1)) }
    ensures within { IfSome result (λ q. (q.0 < 65535) × (q.1 < 65535)) }
{
    let mut next = first;
    let mut instrument_zone = from;
    while let Some(zone) = next {
        if let Some(found) = next_inside(bank, note, preset, zone, instrument_zone) {
            return Some((zone, found));
        }
        next = next_held(bank, note, Owner::Preset(preset), zone + 1);
        instrument_zone = 0;
    }
    None
}

// The first zone that contains the note, from a number on, in the instrument of a preset's zone.
fn next_inside(bank: &Bank<'_>, note: &Note, preset: u32, zone: u32, from: u32) -> Option<u32>
    ensures first { MatchOption result (inside_held bank.now note.now preset zone from ≡ []) (λ l. inside_held bank.now note.now preset zone from ≡ l ∷ inside_held bank.now note.now preset zone (l + 1)) }
    ensures within { IfSome result (λ l. l < 65535) }
{
    let instrument = bank.target(Owner::Preset(preset), zone)?;
    next_held(bank, note, Owner::Inst(u32::from(instrument)), from)
}
