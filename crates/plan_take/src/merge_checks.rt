//! Whether all presets of a bank can be added to another, with their bank numbers increased.
ghost use Rattle.std.specs.Prelude.{◌≡◌, IfOk, map};
ghost use Rattle.std.specs.List.Sorted.{IsPermutation, IsSorted};
ghost use Rattle.bank_parts.specs.declared.parts.Parts.{Parts};
ghost use Rattle.plan_take.specs.Sorted.{pair_cmp, pair_of};
ghost use Rattle.plan_take.specs.Merging.{shift_fault, first_shift_fault, merge_fault};

use crate::sorted_numbers::{has_pair, sorted_numbers};
use bank_core::{Bank, Head, Owners};
use plan_presets::{PresetFault, PresetNumbers};
use sf_base::OutOfMemory;
use std::alloc::Global;

/// Why not all presets of `from` can be added to a bank, with their bank numbers increased by `shift`: the first preset
/// whose bank number would be too high, or whose new numbers a preset of the bank has. None if all can be added.
///
/// Presets of `from` may have the same numbers. It takes n log n steps.
pub fn check_merge(
    alloc: Global,
    bank: &Bank<'_>,
    from: &Bank<'_>,
    shift: u16,
) -> Result<Option<PresetFault>, OutOfMemory>
    ensures { IfOk result (λ fault. fault ≡ merge_fault from.now bank.now shift) }
{
    let used = sorted_numbers(alloc, bank.presets())?;
    Ok(first_fault(used.as_slice(), from.presets(), shift))
}

// The fault of the first preset that can't be added, given the numbers that are in use.
fn first_fault(used: &[(u16, u16)], presets: &Owners<Head>, shift: u16) -> Option<PresetFault>
    requires { IsSorted pair_cmp used.now }
    ensures { (b : Parts) → IsPermutation (map pair_of b.presets) used.now → result ≡ first_shift_fault b shift presets.now }
{
    for i in 0..presets.len() {
        if let Some(fault) = shift_fault(used, *presets.head(i), shift) {
            return Some(fault);
        }
    }
    None
}

// Why a preset with this head can't be added.
fn shift_fault(used: &[(u16, u16)], head: Head, shift: u16) -> Option<PresetFault>
    requires { IsSorted pair_cmp used.now }
    ensures { (b : Parts) → IsPermutation (map pair_of b.presets) used.now → result ≡ shift_fault b shift head }
{
    let Head { bank, number, .. } = head;
    match bank.checked_add(shift) {
        Some(bank) if has_pair(used, bank, number) => {
            Some(PresetFault::InUse(PresetNumbers { bank, number }))
        }
        Some(_) => None,
        None => Some(PresetFault::BankTooHigh(PresetNumbers { bank, number })),
    }
}
