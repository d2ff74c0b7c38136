//! The plan that adds all of another bank.
ghost use Rattle.std.specs.Prelude.{◌≡◌, true, None, IfOk};
ghost use Rattle.plan_take.specs.Shifted.{merged};
ghost use Rattle.plan_take.specs.Merging.{merge_fault, IsMerging};

use crate::instruments::add_all_instruments;
use crate::joined_owners::{are_joined_instruments, are_joined_presets};
use crate::joined_samples::are_joined_samples;
use crate::merge_checks::check_merge;
use crate::presets::add_all_presets;
use crate::samples::add_all_samples;
use bank_core::Bank;
use bank_equality::same_texts;
use edit_drafts::Draft;
use edit_forms::Edit;
use plan_edits::{Plan, PlanFault};
use std::alloc::Global;

/// Adds all samples, instruments and presets of another bank after those of a bank, in order. Their targets and links
/// are renumbered, and the bank numbers of the presets are increased by `shift`.
///
/// Each note has the same voices on an added preset as on the original. Notes on all other presets render as before, and
/// the texts are the same.
///
/// `check_merge` reports presets that can't be added; the plan has no edits for them.
#[derive(Drop, Clone, Copy)]
pub struct Merge<'t, 'a> {
    pub from: &'t Bank<'a>,
    pub shift: u16,
}

impl<'t, 'a> Plan<'a> for Merge<'t, 'a> {
    ghost promise = { λ merge. IsMerging merge.from.now merge.shift };

    fn edits(&self, alloc: Global, bank: &Bank<'a>) -> Result<Vec<Edit<'a>>, PlanFault> {
        merge_edits(alloc, bank, self.from, self.shift)
    }
}

fn merge_edits<'a>(
    alloc: Global,
    bank: &Bank<'a>,
    from: &Bank<'a>,
    shift: u16,
) -> Result<Vec<Edit<'a>>, PlanFault>
    ensures { IfOk result (λ edits. IsMerging from.now shift bank.now edits.items) }
{
    match check_merge(alloc, bank, from, shift)? {
        None => found_edits(alloc, bank, from, shift),
        Some(_) => Err(PlanFault::Defect),
    }
}

// The edits, where all presets can be added.
fn found_edits<'a>(
    alloc: Global,
    bank: &Bank<'a>,
    from: &Bank<'a>,
    shift: u16,
) -> Result<Vec<Edit<'a>>, PlanFault>
    requires { merge_fault from.now bank.now shift ≡ None }
    ensures { IfOk result (λ edits. IsMerging from.now shift bank.now edits.items) }
{
    let mut draft = Draft::new(alloc, bank)?;
    let samples = add_all_samples(alloc, &mut draft, from.samples())?;
    let instruments = add_all_instruments(
        alloc,
        &mut draft,
        from.instruments(),
        samples.as_slice(),
    )?;
    let (samples, instruments) = (samples.as_slice(), instruments.as_slice());
    add_all_presets(alloc, &mut draft, from.presets(), shift, instruments)?;
    if !is_merged(draft.bank(), bank, from, shift, samples, instruments) {
        return Err(PlanFault::Defect);
    }
    Ok(draft.into_edits())
}

// Whether this is the merged bank, given the numbers of the added samples and instruments.
fn is_merged(
    edited: &Bank<'_>,
    bank: &Bank<'_>,
    from: &Bank<'_>,
    shift: u16,
    samples: &[Option<u16>],
    instruments: &[Option<u16>],
) -> bool
    ensures { result ≡ true → edited.now ≡ merged from.now shift bank.now }
{
    if edited.minor() != bank.minor() || !same_texts(edited, bank) {
        return false;
    }
    if !are_joined_samples(edited.samples(), bank.samples(), from.samples()) {
        return false;
    }
    let all = edited.instruments();
    let count = bank.samples().len();
    if !are_joined_instruments(all, bank.instruments(), from.instruments(), count, samples) {
        return false;
    }
    let all = edited.presets();
    let count = bank.instruments().len();
    are_joined_presets(
        all,
        bank.presets(),
        from.presets(),
        shift,
        count,
        instruments,
    )
}
