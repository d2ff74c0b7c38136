//! Lines whose samples get points.
ghost use Rattle.std.specs.Prelude.{◌≡◌, drop, IfOk, if◌then◌else◌};
ghost use Rattle.bank_folders.specs.Folders.{is_bare, with_first, filled};
ghost use Rattle.bank_folders.specs.Folders.{list_step_with, step_with, edit_with, line_with};

use crate::bare::bare_in;
use edit_forms::{Edit, SampleStep, Step};
use edit_script::Line;
use sample_view::Points;
use sf_base::OutOfMemory;
use std::alloc::Global;
use std::collections::VecDeque;

/// The lines, each sample that a line adds without points with the next of `points`, as [`bare_samples`] lists these
/// samples. Where `points` are fewer, the later samples stay without points; where they are more, the rest is dropped.
///
/// [`bare_samples`]: crate::bare_samples
pub fn fill<'a>(
    alloc: Global,
    lines: Vec<Line<'a>>,
    points: Vec<Points<'a>>,
) -> Result<Vec<Line<'a>>, OutOfMemory>
    ensures { IfOk result (λ full. full.items ≡ filled lines.entry.items points.entry.items) }
{
    let mut remaining = VecDeque::from(points);
    let mut full = Vec::new(alloc);
    for line in lines {
        full.push(next_line(line, &mut remaining))?;
    }
    Ok(full)
}

// A line, with the first of these points if it adds a sample without points.
fn next_line<'a>(line: Line<'a>, points: &mut VecDeque<Points<'a>>) -> Line<'a>
    ensures line { result ≡ (if is_bare line.entry then with_first line.entry points.old.items else line.entry) }
    ensures rest { points.new.items ≡ (if is_bare line.entry then drop 1 points.old.items else points.old.items) }
{
    if bare_in(&line).is_none() {
        return line;
    }
    match points.pop_front() {
        Some(own) => line_with(line, own),
        None => line,
    }
}

fn line_with<'a>(line: Line<'a>, points: Points<'a>) -> Line<'a>
    ensures { result ≡ line_with line.entry points.entry }
{
    let number = line.number;
    let edit = edit_with(line.into_edit(), points);
    Line { number, edit }
}

fn edit_with<'a>(edit: Edit<'a>, points: Points<'a>) -> Edit<'a>
    ensures { result ≡ edit_with edit.entry points.entry }
{
    match edit.into_steps() {
        Ok(step) => Edit::One(step_with(step, points)),
        Err(steps) => Edit::Group(steps),
    }
}

fn step_with<'a>(step: Step<'a>, points: Points<'a>) -> Step<'a>
    ensures { result ≡ step_with step.entry points.entry }
{
    match step {
        Step::Sample(step) => Step::Sample(list_step_with(step, points)),
        Step::Preset(step) => Step::Preset(step),
        Step::Instrument(step) => Step::Instrument(step),
        Step::Points(sample, step) => Step::Points(sample, step),
        Step::Zone(owner, step) => Step::Zone(owner, step),
        Step::Setting(owner, place, step) => Step::Setting(owner, place, step),
        Step::Text(step) => Step::Text(step),
    }
}

fn list_step_with<'a>(step: SampleStep<'a>, points: Points<'a>) -> SampleStep<'a>
    ensures { result ≡ list_step_with step.entry points.entry }
{
    match step {
        SampleStep::AddSample { at, .. } => {
            let mut sample = step.into_sample();
            sample.points = points;
            SampleStep::AddSample { at, sample }
        }
        SampleStep::RenameSample { .. }
        | SampleStep::RemoveSample { .. }
        | SampleStep::MoveSample { .. } => step,
    }
}
