//! Appends steps to a list. A step has a long layout, which is in the proof of a function at each point where
//! the function holds a step; so functions with loops and several exits call these instead.
use bank_core::{Owner, Place};
use edit_forms::{PointStep, SampleStep, SettingStep, Step, ZoneStep};
use sf_base::OutOfMemory;

/// Appends a step.
pub(crate) fn push_step<'a>(steps: &mut Vec<Step<'a>>, step: Step<'a>) -> Result<(), OutOfMemory> {
    steps.push(step)?;
    Ok(())
}

/// Appends a step that edits the list of samples.
pub(crate) fn push_sample_step<'a>(
    steps: &mut Vec<Step<'a>>,
    step: SampleStep<'a>,
) -> Result<(), OutOfMemory> {
    push_step(steps, Step::Sample(step))
}

/// Appends a step that edits a sample.
pub(crate) fn push_point_step<'a>(
    steps: &mut Vec<Step<'a>>,
    sample: u32,
    step: PointStep<'a>,
) -> Result<(), OutOfMemory> {
    push_step(steps, Step::Points(sample, step))
}

/// Appends a step that edits the zones of an owner.
pub(crate) fn push_zone_step<'a>(
    steps: &mut Vec<Step<'a>>,
    owner: Owner,
    step: ZoneStep,
) -> Result<(), OutOfMemory> {
    push_step(steps, Step::Zone(owner, step))
}

/// Appends steps that edit the generators or modulators of a place.
pub(crate) fn push_setting_steps<'a>(
    steps: &mut Vec<Step<'a>>,
    owner: Owner,
    place: Place,
    settings: Vec<SettingStep>,
) -> Result<(), OutOfMemory> {
    for &step in &settings {
        push_step(steps, Step::Setting(owner, place, step))?;
    }
    Ok(())
}
