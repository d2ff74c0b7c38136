//! Groups of proposed steps.
use edit_forms::Step;
use sf_base::OutOfMemory;

/// Steps in order, each of which may need those before it.
#[derive(Drop)]
pub struct StepGroup<'a> {
    pub steps: Vec<Step<'a>>,
    /// Whether members have the numbers that later groups use only after these steps.
    pub renumbers: bool,
}

/// Appends a group, unless it has no steps.
pub(crate) fn push_group<'a>(
    groups: &mut Vec<StepGroup<'a>>,
    steps: Vec<Step<'a>>,
    renumbers: bool,
) -> Result<(), OutOfMemory> {
    if !steps.is_empty() {
        groups.push(StepGroup { steps, renumbers })?;
    }
    Ok(())
}
