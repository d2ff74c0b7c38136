//! The plan that takes presets of another bank.
ghost use Rattle.std.specs.Prelude.{IfOk};
ghost use Rattle.plan_take.specs.Taking.{OfEach, IsTakeable, IsTaking};

use crate::checks::check_presets;
use crate::comparisons::are_copied;
use crate::instruments::add_instruments;
use crate::needed::{needed_instruments, needed_samples};
use crate::presets::add_presets;
use crate::samples::add_samples;
use bank_core::Bank;
use bank_equality::same_texts;
use edit_drafts::Draft;
use edit_forms::Edit;
use plan_edits::{Plan, PlanFault};
use plan_presets::TakenPreset;
use std::alloc::Global;

/// Adds copies of presets of another bank to a bank, with their instruments and samples. An instrument or a sample that
/// the bank has already is used and not added. Samples that are added keep their links to each other; one that links to
/// a sample that isn't needed becomes mono.
///
/// Each note has the same voices on a taken preset as on the original. Notes on all other presets render as before, and
/// the texts are the same.
///
/// `check_presets` reports presets that can't be taken; the plan has no edits for them.
#[derive(Drop, Clone, Copy)]
pub struct Take<'t, 'a> {
    pub from: &'t Bank<'a>,
    pub presets: &'t [TakenPreset],
}

impl<'t, 'a> Plan<'a> for Take<'t, 'a> {
    ghost promise = { λ take. IsTaking take.from.now take.presets.now };

    fn edits(&self, alloc: Global, bank: &Bank<'a>) -> Result<Vec<Edit<'a>>, PlanFault> {
        take_edits(alloc, bank, self.from, self.presets)
    }
}

fn take_edits<'a>(
    alloc: Global,
    bank: &Bank<'a>,
    from: &Bank<'a>,
    presets: &[TakenPreset],
) -> Result<Vec<Edit<'a>>, PlanFault>
    ensures { IfOk result (λ edits. IsTaking from.now presets.now bank.now edits.items) }
{
    match check_presets(bank, from, presets) {
        Ok(()) => found_edits(alloc, bank, from, presets),
        Err(_) => Err(PlanFault::Defect),
    }
}

// The edits for presets that can be taken.
fn found_edits<'a>(
    alloc: Global,
    bank: &Bank<'a>,
    from: &Bank<'a>,
    presets: &[TakenPreset],
) -> Result<Vec<Edit<'a>>, PlanFault>
    requires { OfEach (IsTakeable from.now bank.now) presets.now }
    ensures { IfOk result (λ edits. IsTaking from.now presets.now bank.now edits.items) }
{
    let used_instruments = needed_instruments(alloc, from, presets)?;
    let used_samples = needed_samples(alloc, from, used_instruments.as_slice())?;
    let mut draft = Draft::new(alloc, bank)?;
    let samples = add_samples(alloc, &mut draft, from, used_samples.as_slice())?;
    let instruments = add_instruments(
        alloc,
        &mut draft,
        from.instruments(),
        used_instruments.as_slice(),
        samples.as_slice(),
    )?;
    add_presets(alloc, &mut draft, from, presets, instruments.as_slice())?;
    let copied = are_copied(
        from,
        draft.bank(),
        presets,
        samples.as_slice(),
        instruments.as_slice(),
    );
    if !copied || !same_texts(draft.bank(), bank) {
        return Err(PlanFault::Defect);
    }
    Ok(draft.into_edits())
}
