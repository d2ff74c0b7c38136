//! The plan that keeps some presets.
ghost use Rattle.std.specs.Prelude.{IfOk};
ghost use Rattle.plan_edits.specs.Keeping.{IsKeeping};

use crate::fault::PlanFault;
use crate::listed::set_of;
use crate::plan::Plan;
use crate::presets::{are_kept, remove_other_presets};
use crate::unused::remove_unused;
use crate::uses::has_no_unused;
use bank_core::Bank;
use edit_drafts::Draft;
use edit_forms::Edit;
use plan_presets::PresetNumbers;
use std::alloc::Global;

/// Removes all presets of a bank whose numbers are not in the list, then the instruments and samples that nothing uses,
/// with the links to these.
///
/// All notes of presets with these numbers render as before. No other preset and no unused instrument or sample is left.
#[derive(Drop, Clone, Copy)]
pub struct Keep<'k> {
    pub presets: &'k [PresetNumbers],
}

impl<'a> Plan<'a> for Keep<'_> {
    ghost promise = { λ keep. IsKeeping keep.presets.now };

    fn edits(&self, alloc: Global, bank: &Bank<'a>) -> Result<Vec<Edit<'a>>, PlanFault> {
        keep_edits(alloc, bank, self.presets)
    }
}

fn keep_edits<'a>(
    alloc: Global,
    bank: &Bank<'a>,
    kept: &[PresetNumbers],
) -> Result<Vec<Edit<'a>>, PlanFault>
    ensures { IfOk result (λ edits. IsKeeping kept.now bank.now edits.items) }
{
    let set = set_of(alloc, kept)?;
    let mut draft = Draft::new(alloc, bank)?;
    remove_other_presets(alloc, &mut draft, &set)?;
    remove_unused(alloc, &mut draft)?;
    if !are_kept(draft.bank(), &set) || !has_no_unused(alloc, draft.bank())? {
        return Err(PlanFault::Defect);
    }
    Ok(draft.into_edits())
}
