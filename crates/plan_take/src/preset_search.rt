//! Finds presets by their MIDI numbers.
ghost use Rattle.std.specs.Prelude.{◌≡◌, ◌<◌, length, None, MatchOption, slice_get};
ghost use Rattle.plan_take.specs.Taking.{has_preset, is_numbered, preset_with};

use bank_core::{Head, Owners};
use plan_presets::PresetNumbers;

/// Whether some preset has these numbers.
pub(crate) fn has_preset(presets: &Owners<Head>, numbers: PresetNumbers) -> bool
    ensures { result ≡ has_preset presets.now numbers }
{
    find_preset(presets, numbers).is_some()
}

/// The first preset with these numbers.
pub(crate) fn find_preset(presets: &Owners<Head>, numbers: PresetNumbers) -> Option<usize>
    ensures { MatchOption result (preset_with presets.now numbers ≡ None) (λ i. (i < length presets.now) × (preset_with presets.now numbers ≡ slice_get presets.now i)) }
{
    for i in 0..presets.len() {
        if has_numbers(presets.head(i), numbers) {
            return Some(i);
        }
    }
    None
}

fn has_numbers(head: &Head, numbers: PresetNumbers) -> bool
    ensures { result ≡ is_numbered numbers head.now }
{
    head.bank == numbers.bank && head.number == numbers.number
}
