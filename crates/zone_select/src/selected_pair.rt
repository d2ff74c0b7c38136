//! The zones of a pair that a note selects.
ghost use Rattle.std.specs.Prelude.{◌≡◌};
ghost use Rattle.std.specs.Option.{option_map};
ghost use Rattle.zone_select.specs.At.{target_held, selected_pair_at};
ghost use Rattle.zone_select.specs.Pairs.{selected_pair};

use crate::pairs::first_preset;
use crate::zones::holds;
use bank_core::{Bank, Owner};
use script_notes::Note;

// A zone of a preset and a zone of its instrument, each by its number and its owner's.
#[derive(Debug, Clone, Copy, PartialEq, Eq)]
pub(crate) struct PairAt {
    pub(crate) preset: u32,
    pub(crate) preset_zone: u32,
    pub(crate) instrument: u32,
    pub(crate) instrument_zone: u32,
}

// Two zones that a note selects, and the number of the instrument zone's sample.
#[derive(Debug, Clone, Copy, PartialEq, Eq)]
pub(crate) struct SelectedPairAt {
    pub(crate) zones: PairAt,
    pub(crate) sample: u32,
}

// The zones of a pair of numbers, if both exist and contain the note.
pub(crate) fn selected_zones(
    bank: &Bank<'_>,
    note: &Note,
    pair: (u32, u32),
) -> Option<SelectedPairAt>
    ensures { option_map (selected_pair_at bank.now) result ≡ selected_pair bank.now note.now pair }
{
    let (preset_zone, instrument_zone) = pair;
    let preset = first_preset(bank, note)?;
    let instrument = held_target(bank, note, Owner::Preset(preset), preset_zone)?;
    let sample = held_target(bank, note, Owner::Inst(instrument), instrument_zone)?;
    let zones = PairAt {
        preset,
        preset_zone,
        instrument,
        instrument_zone,
    };
    Some(SelectedPairAt { zones, sample })
}

// The target of a zone, if the zone exists and contains the note.
fn held_target(bank: &Bank<'_>, note: &Note, owner: Owner, zone: u32) -> Option<u32>
    ensures { result ≡ target_held bank.now note.now owner zone }
{
    let target = bank.target(owner, zone)?;
    if !holds(bank, note, owner, zone) {
        return None;
    }
    Some(u32::from(target))
}
