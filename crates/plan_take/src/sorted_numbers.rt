//! The numbers of presets, sorted, so that they can be searched fast.
ghost use Rattle.std.specs.Prelude.{◌≡◌, IfOk, map};
ghost use Rattle.std.specs.List.Sorted.{IsPermutation, IsSorted};
ghost use Rattle.plan_take.specs.Sorted.{pair_cmp, pair_of, has_pair};

use bank_core::{Head, Owners};
use sf_base::OutOfMemory;
use std::alloc::Global;

/// The bank number and the number of each preset, sorted.
pub(crate) fn sorted_numbers(
    alloc: Global,
    presets: &Owners<Head>,
) -> Result<Vec<(u16, u16)>, OutOfMemory>
    ensures sorted { IfOk result (λ pairs. IsSorted pair_cmp pairs.items) }
    ensures same { IfOk result (λ pairs. IsPermutation (map pair_of presets.now) pairs.items) }
{
    let mut pairs = numbers_in_order(alloc, presets)?;
    pairs.sort_unstable();
    Ok(pairs)
}

fn numbers_in_order(alloc: Global, presets: &Owners<Head>) -> Result<Vec<(u16, u16)>, OutOfMemory>
    ensures { IfOk result (λ pairs. pairs.items ≡ map pair_of presets.now) }
{
    let mut pairs = Vec::new(alloc);
    for i in 0..presets.len() {
        let head = presets.head(i);
        pairs.push((head.bank, head.number))?;
    }
    Ok(pairs)
}

/// Whether these numbers are in a sorted list.
pub(crate) fn has_pair(pairs: &[(u16, u16)], bank: u16, number: u16) -> bool
    requires { IsSorted pair_cmp pairs.now }
    ensures { result ≡ has_pair pairs.now bank number }
{
    pairs.binary_search(&(bank, number)).is_ok()
}
