//! Neutral steps of a draft.
ghost use Rattle.plan_edits.specs.NeutralRuns.{AddsNeutralEdits};

use edit_drafts::{Draft, Stop};
use edit_forms::Step;
use std::alloc::Global;

/// Applies steps in order, up to the first that fails or isn't neutral. Each note has the same voices before and after,
/// in some order.
pub(crate) fn edit_neutrally<'a>(
    alloc: Global,
    draft: &mut Draft<'_, 'a>,
    steps: Vec<Step<'a>>,
) -> Result<(), Stop>
    ensures { AddsNeutralEdits draft.old draft.new }
{
    for step in steps {
        edit_once(alloc, draft, step)?;
    }
    Ok(())
}

/// Applies one step, if it is neutral.
pub(crate) fn edit_once<'a>(
    alloc: Global,
    draft: &mut Draft<'_, 'a>,
    step: Step<'a>,
) -> Result<(), Stop>
    ensures { AddsNeutralEdits draft.old draft.new }
{
    if !step.is_neutral() {
        return Err(Stop::Refused);
    }
    draft.bank().soundness();
    draft.edit(alloc, step)
}
