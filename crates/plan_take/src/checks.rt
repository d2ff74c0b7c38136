//! Whether presets can be taken.
ghost use Rattle.std.specs.Prelude.{◌≡◌, ◌==◌, ◌&&◌, ◌++◌, None, Some, MatchResult};
ghost use Rattle.std.specs.List.{list_any};
ghost use Rattle.plan_presets.specs.declared.numbers.TakenPreset.{TakenPreset};
ghost use Rattle.plan_take.specs.TakeFaults.{numbers_in, new_numbers, fault_of, preset_fault};

use crate::preset_search::has_preset;
use bank_core::Bank;
use plan_presets::{PresetFault, PresetNumbers, TakenPreset};

/// Whether all presets of a list can be taken: else why the first that can't be. Each preset must be in the other bank,
/// and its new numbers must not be in use, neither in the bank nor by a preset before it in the list.
pub fn check_presets(
    bank: &Bank<'_>,
    from: &Bank<'_>,
    presets: &[TakenPreset],
) -> Result<(), PresetFault>
    ensures { MatchResult result (λ _. preset_fault from.now bank.now presets.now ≡ None) (λ fault. preset_fault from.now bank.now presets.now ≡ Some fault) }
{
    for k in 0..presets.len() {
        if let Some(fault) = fault_of(bank, from, &presets[..k], presets[k]) {
            return Err(fault);
        }
    }
    Ok(())
}

// Why a preset can't be taken after others.
fn fault_of(
    bank: &Bank<'_>,
    from: &Bank<'_>,
    others: &[TakenPreset],
    taken: TakenPreset,
) -> Option<PresetFault>
    ensures { result ≡ fault_of from.now (numbers_in bank.now.presets ++ new_numbers others.now) taken }
{
    if !has_preset(from.presets(), taken.from) {
        return Some(PresetFault::Missing(taken.from));
    }
    if has_preset(bank.presets(), taken.to) || are_given(others, taken.to) {
        return Some(PresetFault::InUse(taken.to));
    }
    None
}

// Whether a preset of the list gets these numbers.
fn are_given(presets: &[TakenPreset], numbers: PresetNumbers) -> bool
    ensures { result ≡ list_any (λ (p : TakenPreset). p.to.bank == numbers.bank && p.to.number == numbers.number) presets.now }
{
    presets.iter().any(|taken| taken.to.bank == numbers.bank && taken.to.number == numbers.number)
}
