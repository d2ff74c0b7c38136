//! Neutral steps of a draft.
ghost use Rattle.plan_take.specs.Additions.{AddsMembers};

use edit_drafts::{Draft, Stop};
use edit_forms::Step;
use std::alloc::Global;

/// Applies a step, if it is neutral.
pub(crate) fn edit_neutrally<'a>(
    alloc: Global,
    draft: &mut Draft<'_, 'a>,
    step: Step<'a>,
) -> Result<(), Stop>
    ensures { AddsMembers draft.old draft.new }
{
    if !step.is_neutral() {
        return Err(Stop::Refused);
    }
    draft.bank().soundness();
    draft.edit(alloc, step)
}
