//! The plan that tidies a bank.
ghost use Rattle.std.specs.Prelude.{IfOk, OnOk};
ghost use Rattle.plan_edits.specs.NeutralRuns.{AddsNeutralEdits};
ghost use Rattle.plan_edits.specs.Tidying.{IsTidying};
ghost use Rattle.plan_edits.specs.Uses.{HasNoUnused};

use crate::fault::PlanFault;
use crate::joins::join_zones;
use crate::links::repair_links;
use crate::plan::Plan;
use crate::unused::remove_unused;
use crate::uses::has_no_unused;
use bank_core::Bank;
use edit_drafts::Draft;
use edit_forms::Edit;
use std::alloc::Global;

/// Removes the unused instruments and samples of a bank, repairs links of stereo samples that only one side has, and
/// joins zones that differ in nothing but neighbouring ranges.
///
/// All edits are neutral, and all notes render as before. No unused instrument or sample is left.
#[derive(Drop, Clone, Copy)]
pub struct Tidy;

impl<'a> Plan<'a> for Tidy {
    ghost promise = { λ _. IsTidying };

    fn edits(&self, alloc: Global, bank: &Bank<'a>) -> Result<Vec<Edit<'a>>, PlanFault> {
        tidy_edits(alloc, bank)
    }
}

fn tidy_edits<'a>(alloc: Global, bank: &Bank<'a>) -> Result<Vec<Edit<'a>>, PlanFault>
    ensures { IfOk result (λ edits. IsTidying bank.now edits.items) }
{
    let mut draft = Draft::new(alloc, bank)?;
    tidy_draft(alloc, &mut draft)?;
    Ok(draft.into_edits())
}

/// Tidies the bank of a draft, as `Tidy` does.
pub fn tidy_draft(alloc: Global, draft: &mut Draft<'_, '_>) -> Result<(), PlanFault>
    ensures adds { OnOk result (AddsNeutralEdits draft.old draft.new) }
    ensures used { OnOk result (HasNoUnused draft.new.bank) }
{
    remove_unused(alloc, draft)?;
    repair_links(alloc, draft)?;
    join_zones(alloc, draft)?;
    if !has_no_unused(alloc, draft.bank())? {
        return Err(PlanFault::Defect);
    }
    Ok(())
}
