//! Which instruments and samples the zones of a bank target.
ghost use Rattle.std.specs.Prelude.{◌≡◌, ◌<◌, ℕ, true, length, Some, slice_get, IfOk};
ghost use Rattle.bank_changes.specs.Instruments.{instrument_in_use};
ghost use Rattle.plan_edits.specs.Uses.{sample_targeted, HasNoUnused, OnlyTargetsMarked};

use bank_core::{Bank, List};
use bank_parts::{OwnerHead, Owners};
use sf_base::OutOfMemory;
use std::alloc::Global;

/// Whether each instrument is the target of a preset's zone, one value for each instrument.
#[tactic(auto, unfolding(bank_changes::specs::Instruments::instrument_in_use))]
pub(crate) fn used_instruments(alloc: Global, bank: &Bank<'_>) -> Result<Vec<bool>, OutOfMemory>
    ensures length { IfOk result (λ marks. length marks.items ≡ length bank.now.instruments) }
    ensures used { IfOk result (λ marks. (i : ℕ) → slice_get marks.items i ≡ Some true → instrument_in_use bank.now i ≡ true) }
{
    targeted_members(alloc, bank.presets(), bank.count(List::Instruments))
}

/// Whether each sample is the target of an instrument's zone, one value for each sample.
pub(crate) fn used_samples(alloc: Global, bank: &Bank<'_>) -> Result<Vec<bool>, OutOfMemory>
    ensures length { IfOk result (λ marks. length marks.items ≡ length bank.now.samples) }
    ensures used { IfOk result (λ marks. (i : ℕ) → slice_get marks.items i ≡ Some true → sample_targeted bank.now i ≡ true) }
{
    targeted_members(alloc, bank.instruments(), bank.count(List::Samples))
}

/// Whether the bank has no unused instrument or sample.
pub(crate) fn has_no_unused(alloc: Global, bank: &Bank<'_>) -> Result<bool, OutOfMemory>
    ensures { IfOk result (λ none. none ≡ true → HasNoUnused bank.now) }
{
    let instruments = used_instruments(alloc, bank)?;
    let samples = used_samples(alloc, bank)?;
    Ok(are_all_marked(instruments.as_slice()) && are_all_marked(samples.as_slice()))
}

fn are_all_marked(marks: &[bool]) -> bool
    ensures { result ≡ true → (i : ℕ) → i < length marks.now → slice_get marks.now i ≡ Some true }
{
    marks.iter().all(|mark| *mark)
}

// Whether each of `count` members is the target of an owner's zone.
fn targeted_members<H: OwnerHead>(
    alloc: Global,
    owners: &Owners<H>,
    count: usize,
) -> Result<Vec<bool>, OutOfMemory>
    ensures length { IfOk result (λ marks. length marks.items ≡ count) }
    ensures targets { IfOk result (λ marks. OnlyTargetsMarked owners.now marks.items) }
{
    let mut marks = vec![in alloc; false; count]?;
    for i in 0..owners.len() {
        mark_targets(owners, i, marks.as_mut_slice());
    }
    Ok(marks)
}

// Marks the targets of owner i's zones.
fn mark_targets<H: OwnerHead>(owners: &Owners<H>, i: usize, marks: &mut [bool])
    requires { i < length owners.now }
    ensures length { length marks.new ≡ length marks.old }
    ensures targets { OnlyTargetsMarked owners.now marks.old → OnlyTargetsMarked owners.now marks.new }
{
    for k in 0..owners.zone_count(i) {
        let target = owners.target(i, k) as usize;
        if target < marks.len() {
            marks[target] = true;
        }
    }
}
