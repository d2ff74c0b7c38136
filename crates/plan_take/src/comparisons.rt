//! Whether members of a bank match those of the other bank of which they are copies.
ghost use Rattle.std.specs.Prelude.{◌≡◌, ◌<◌, ℕ, length, true, Some, slice_get};
ghost use Rattle.plan_presets.specs.declared.numbers.TakenPreset.{TakenPreset};
ghost use Rattle.plan_take.specs.Taking.{OfEach, IsCopied};
ghost use Rattle.plan_take.specs.Matches.{AreBoth, AllMatch, Renumbered, PresetsMatch};

use crate::preset_search::find_preset;
use crate::sample_matches::samples_match;
use crate::zone_matches::is_renumbered;
use bank_core::{Bank, Owners};
use plan_presets::TakenPreset;
use sf_base::Name20;

/// Whether each note has the same voices on each taken preset as on the original, given the numbers that samples and
/// instruments of the other bank have.
pub(crate) fn are_copied(
    from: &Bank<'_>,
    bank: &Bank<'_>,
    presets: &[TakenPreset],
    samples: &[Option<u16>],
    instruments: &[Option<u16>],
) -> bool
    ensures { result ≡ true → OfEach (IsCopied from.now bank.now) presets.now }
{
    if !samples_match(from.samples(), bank.samples(), samples) {
        return false;
    }
    if !instruments_match(from.instruments(), bank.instruments(), instruments, samples) {
        return false;
    }
    presets_match(from, bank, presets, instruments)
}

// ---- instruments

/// Whether each instrument that has a number matches the instrument with that number, given the numbers of samples.
pub(crate) fn instruments_match(
    from: &Owners<Name20>,
    to: &Owners<Name20>,
    numbers: &[Option<u16>],
    samples: &[Option<u16>],
) -> bool
    ensures { result ≡ true → AllMatch (Renumbered samples.now) numbers.now from.now to.now }
{
    for i in 0..numbers.len() {
        if !has_renumbered(from, i, to, numbers[i], samples) {
            return false;
        }
    }
    true
}

// Whether an instrument matches the instrument with its number, if it has one.
fn has_renumbered(
    from: &Owners<Name20>,
    i: usize,
    to: &Owners<Name20>,
    number: Option<u16>,
    samples: &[Option<u16>],
) -> bool
    ensures { result ≡ true → (j : ℕ) → number ≡ Some j → AreBoth (Renumbered samples.now) (slice_get from.now i) (slice_get to.now j) }
{
    let Some(j) = number else {
        return true;
    };
    is_renumbered(from, i, to, j.into(), samples)
}

// ---- presets

fn presets_match(
    from: &Bank<'_>,
    bank: &Bank<'_>,
    presets: &[TakenPreset],
    instruments: &[Option<u16>],
) -> bool
    ensures { result ≡ true → OfEach (PresetsMatch instruments.now from.now bank.now) presets.now }
{
    for k in 0..presets.len() {
        if !preset_matches(from, bank, presets, k, instruments) {
            return false;
        }
    }
    true
}

// Whether preset k of the list matches its original.
fn preset_matches(
    from: &Bank<'_>,
    bank: &Bank<'_>,
    presets: &[TakenPreset],
    k: usize,
    instruments: &[Option<u16>],
) -> bool
    requires { k < length presets.now }
    ensures { result ≡ true → (p : TakenPreset) → slice_get presets.now k ≡ Some p → PresetsMatch instruments.now from.now bank.now p }
{
    let taken = presets[k];
    let original = find_preset(from.presets(), taken.from);
    let copy = find_preset(bank.presets(), taken.to);
    match (original, copy) {
        (Some(i), Some(j)) => is_renumbered(from.presets(), i, bank.presets(), j, instruments),
        _ => false,
    }
}
