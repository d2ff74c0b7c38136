//! The samples that lines of a script add without points.
ghost use Rattle.std.specs.Prelude.{◌≡◌, ◌++◌, IfOk, OnOk};
ghost use Rattle.std.specs.Option.{option_to_list};
ghost use Rattle.bank_folders.specs.Folders.{bare_if, bare_of_list_step, bare_of_step, bare_of, bare_in, bare_samples};

use edit_forms::{Edit, SampleStep, Step};
use edit_script::Line;
use sf_base::{Name20, OutOfMemory};
use std::alloc::Global;

/// A sample that a line of a script adds without points.
#[derive(Clone, Copy)]
pub struct BareSample {
    /// The number of the line, counted from 1.
    pub line: u64,
    /// The number of the sample, counted from 0.
    pub number: u64,
    pub name: Name20,
    /// Frames per second.
    pub rate: u32,
    /// The loop: its first point and the point after its last, counted from the start of the sample.
    pub looped: Option<(u32, u32)>,
}

/// The samples that lines add without points, in the order of the lines. Those that steps of a group add are not among
/// them.
pub fn bare_samples(alloc: Global, lines: &[Line<'_>]) -> Result<Vec<BareSample>, OutOfMemory>
    ensures { IfOk result (λ bare. bare.items ≡ bare_samples lines.now) }
{
    let mut bare = Vec::new(alloc);
    for line in lines {
        push_bare(&mut bare, line)?;
    }
    Ok(bare)
}

fn push_bare(bare: &mut Vec<BareSample>, line: &Line<'_>) -> Result<(), OutOfMemory>
    ensures { OnOk result (bare.new.items ≡ bare.old.items ++ option_to_list (bare_in line.now)) }
{
    if let Some(sample) = bare_in(line) {
        bare.push(sample)?;
    }
    Ok(())
}

/// The sample that a line adds without points, if it adds one.
pub(crate) fn bare_in(line: &Line<'_>) -> Option<BareSample>
    ensures { result ≡ bare_in line.now }
{
    match &line.edit {
        Edit::One(step) => bare_of_step(line.number, step),
        Edit::Group(_) => None,
    }
}

fn bare_of_step(line: u64, step: &Step<'_>) -> Option<BareSample>
    ensures { result ≡ bare_of_step line step.now }
{
    match step {
        Step::Sample(step) => bare_of_list_step(line, step),
        Step::Preset(_)
        | Step::Instrument(_)
        | Step::Points(..)
        | Step::Zone(..)
        | Step::Setting(..)
        | Step::Text(_) => None,
    }
}

fn bare_of_list_step(line: u64, step: &SampleStep<'_>) -> Option<BareSample>
    ensures { result ≡ bare_of_list_step line step.now }
{
    match step {
        SampleStep::AddSample { at, sample } => {
            let bare = BareSample {
                line,
                number: u64::from(*at),
                name: sample.name,
                rate: sample.rate,
                looped: sample.looped,
            };
            sample.points.is_empty().then_some(bare)
        }
        SampleStep::RenameSample { .. }
        | SampleStep::RemoveSample { .. }
        | SampleStep::MoveSample { .. } => None,
    }
}
