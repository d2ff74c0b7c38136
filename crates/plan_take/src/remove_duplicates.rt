//! The plan that removes duplicates of samples and instruments.
ghost use Rattle.std.specs.Prelude.{◌≡◌, IfOk, OnOk};
ghost use Rattle.zone_select.specs.Alike.{AreAlike};
ghost use Rattle.plan_take.specs.RemovingDuplicates.{IsRemovingDuplicates};

use crate::equal_instruments::set_instrument_targets;
use crate::equal_samples::first_equal_samples;
use crate::new_targets::set_preset_targets;
use crate::same_presets::keeps_all_voices;
use bank_core::Bank;
use edit_drafts::Draft;
use edit_forms::Edit;
use plan_edits::{Plan, PlanFault, tidy_draft};
use std::alloc::Global;

/// Removes duplicates of samples and instruments, and tidies the bank as `Tidy` does. Of equal ones the first is kept,
/// and zones that used the others use it.
///
/// Samples are equal if all but their names is equal: points, loop, rate, key, correction and kind. Links to equal
/// samples count as equal. Instruments are equal if all but their names is equal, once they use the samples that are
/// kept.
///
/// All notes render as before, and no unused instrument or sample is left.
#[derive(Drop, Clone, Copy)]
pub struct RemoveDuplicates;

impl<'a> Plan<'a> for RemoveDuplicates {
    ghost promise = { λ _. IsRemovingDuplicates };

    fn edits(&self, alloc: Global, bank: &Bank<'a>) -> Result<Vec<Edit<'a>>, PlanFault> {
        found_edits(alloc, bank)
    }
}

// Zones that are joined may make two more instruments equal, so the bank is tidied before each search. The last search
// finds none, and each one before it leaves fewer members.
fn found_edits<'a>(alloc: Global, bank: &Bank<'a>) -> Result<Vec<Edit<'a>>, PlanFault>
    ensures { IfOk result (λ edits. IsRemovingDuplicates bank.now edits.items) }
{
    let mut draft = Draft::new(alloc, bank)?;
    tidy_draft(alloc, &mut draft)?;
    for _pass in 0..passes_at_most(bank) {
        let has_duplicates = use_first_equal(alloc, &mut draft)?;
        tidy_draft(alloc, &mut draft)?;
        if !has_duplicates {
            return Ok(draft.into_edits());
        }
    }
    Err(PlanFault::Defect)
}

fn passes_at_most(bank: &Bank<'_>) -> usize {
    let members = bank
        .instruments()
        .len()
        .saturating_add(bank.samples().len());
    members.saturating_add(1)
}

// Lets the zones use the first of equal samples and of equal instruments, and returns whether some are equal.
fn use_first_equal(alloc: Global, draft: &mut Draft<'_, '_>) -> Result<bool, PlanFault>
    ensures first { draft.new.first ≡ draft.old.first }
    ensures alike { OnOk result (AreAlike draft.old.bank draft.new.bank) }
{
    let bank = draft.bank().copy(alloc)?;
    let samples = first_equal_samples(alloc, bank.samples())?;
    let samples = samples.as_slice();
    let instruments = set_instrument_targets(alloc, draft, bank.instruments(), samples)?;
    let instruments = instruments.as_slice();
    set_preset_targets(alloc, draft, bank.presets(), instruments)?;
    if !keeps_all_voices(&bank, draft.bank(), samples, instruments) {
        return Err(PlanFault::Defect);
    }
    Ok(has_other(samples) || has_other(instruments))
}

// Whether some member has the number of another one.
fn has_other(numbers: &[Option<u16>]) -> bool {
    numbers
        .iter()
        .enumerate()
        .any(|(member, number)| *number != u16::try_from(member).ok())
}
