//! The MIDI numbers of copies of presets.
ghost use Rattle.std.specs.Prelude.{◌≡◌};
ghost use Rattle.plan_take.specs.Taking.{has_preset, is_numbered};
ghost use Rattle.plan_copy.specs.Copying.{candidate, free_numbers, numbers_for};

use bank_core::{Bank, Head, Owners};
use plan_presets::{PresetFault, PresetNumbers};

/// The bank number of percussion presets (SoundFont 2.04, section 7.2).
const PERCUSSION_BANK: u16 = 128;

/// How many numbers the copy of a preset may get.
const CANDIDATES: u16 = 128;

/// The numbers of a preset.
pub(crate) fn numbers_of(head: &Head) -> PresetNumbers
    ensures { result ≡ record { bank = head.now.bank; number = head.now.number } }
{
    PresetNumbers {
        bank: head.bank,
        number: head.number,
    }
}

/// The numbers for the copy of a preset with the numbers `original`: the given ones, or else the first that are free.
pub(crate) fn numbers_for(
    bank: &Bank<'_>,
    original: PresetNumbers,
    given: Option<PresetNumbers>,
) -> Result<PresetNumbers, PresetFault>
    ensures { result ≡ numbers_for bank.now original given }
{
    match given {
        Some(numbers) if has_preset(bank.presets(), numbers) => Err(PresetFault::InUse(numbers)),
        Some(numbers) => Ok(numbers),
        None => free_numbers(bank, original).ok_or(PresetFault::NoneFree(original)),
    }
}

fn free_numbers(bank: &Bank<'_>, original: PresetNumbers) -> Option<PresetNumbers>
    ensures { result ≡ free_numbers bank.now original }
{
    for n in 0..CANDIDATES {
        let numbers = candidate(original, n);
        if !has_preset(bank.presets(), numbers) {
            return Some(numbers);
        }
    }
    None
}

// Candidate `n` for the copy of a preset with the numbers `original`.
fn candidate(original: PresetNumbers, n: u16) -> PresetNumbers
    ensures { result ≡ candidate original n }
{
    if original.bank == PERCUSSION_BANK {
        PresetNumbers {
            number: n,
            ..original
        }
    } else {
        PresetNumbers {
            bank: n,
            ..original
        }
    }
}

// Whether some preset has these numbers.
fn has_preset(presets: &Owners<Head>, numbers: PresetNumbers) -> bool
    ensures { result ≡ has_preset presets.now numbers }
{
    for i in 0..presets.len() {
        if has_numbers(presets.head(i), numbers) {
            return true;
        }
    }
    false
}

fn has_numbers(head: &Head, numbers: PresetNumbers) -> bool
    ensures { result ≡ is_numbered numbers head.now }
{
    head.bank == numbers.bank && head.number == numbers.number
}
