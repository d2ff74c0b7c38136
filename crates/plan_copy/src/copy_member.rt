//! The plan that copies a member.
ghost use Rattle.std.specs.Prelude.{IfOk};
ghost use Rattle.plan_copy.specs.Copying.{IsCopying};

use crate::steps::copy_step;
use bank_core::Bank;
use edit_drafts::Draft;
use edit_forms::Edit;
use plan_edits::{Plan, PlanFault};
use plan_presets::CopiedMember;
use sf_base::Name20;
use std::alloc::Global;

/// Adds a copy of a preset, an instrument or a sample at the end of its list, in one edit. The copy has another name if
/// one is given, and that of the original otherwise. The copy of a preset has numbers of its own, and the copy of a
/// sample is mono.
///
/// Each note plays on the copy of a preset as on the original. Notes on all other presets render as before.
///
/// `check_copy` reports a member that can't be copied; the plan has no edits for it.
#[derive(Drop, Clone, Copy)]
pub struct CopyMember {
    pub member: CopiedMember,
    pub name: Option<Name20>,
}

impl<'a> Plan<'a> for CopyMember {
    ghost promise = { λ copy. IsCopying copy.member copy.name };

    fn edits(&self, alloc: Global, bank: &Bank<'a>) -> Result<Vec<Edit<'a>>, PlanFault> {
        copy_edits(alloc, bank, self.member, self.name)
    }
}

fn copy_edits<'a>(
    alloc: Global,
    bank: &Bank<'a>,
    member: CopiedMember,
    name: Option<Name20>,
) -> Result<Vec<Edit<'a>>, PlanFault>
    ensures { IfOk result (λ edits. IsCopying member name bank.now edits.items) }
{
    bank.soundness();
    let mut draft = Draft::new(alloc, bank)?;
    let step = copy_step(alloc, bank, member, name)?;
    draft.edit(alloc, step)?;
    Ok(draft.into_edits())
}
