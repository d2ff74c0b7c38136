//! The edits that put a recording in the place of a sample, as `import_edits` of `wave_file` are those that append one.
ghost use Rattle.std.specs.Prelude.{◌≡◌, ◌++◌, ◌∷◌, [], length, IfOk, OnOk, MatchResult, Ok};
ghost use Rattle.std.specs.List.{flat_map};
ghost use Rattle.bank_changes.specs.Points.{points_of};
ghost use Rattle.wave_file.specs.Imports.{sides_of};
ghost use Rattle.sample_replacements.specs.Replacements.{target, pair_targets, mono_targets, stereo_targets};
ghost use Rattle.sample_replacements.specs.Replacements.{point_edit, pitch_at, target_edits, edits_of, replacement_edits};
ghost use Rattle.sample_replacements.specs.Replacements.{AreReplacement, IsReplaceFault};

use crate::fault::ReplaceFault;
use crate::pairs::pair_of;
use bank_core::Bank;
use edit_forms::{Edit, PointStep, Step};
use sample_view::Points;
use sf_base::OutOfMemory;
use std::alloc::Global;
use wave_file::{Channels, DEFAULT_PITCH, Pitch, Recording, Sampler, Sides};

/// The edits that give a sample the points, rate, loop, key and correction of a recording, at most 10; its name, kind
/// and number stay. Where the recording has no pitch, the sample keeps its key and correction, of a pair each its own.
/// `sides` has the points that are not borrowed from the file.
///
/// If the sample is one of a pair ([`pair_of`]), both are replaced: by a stereo recording each by its channel, by a
/// mono recording both by the same points. Any other sample can be replaced only by a mono recording: `TwoChannels`.
#[tactic(auto, unfolding(crate::specs::Replacements::replacement_edits))]
pub fn replacement_edits<'a>(
    alloc: Global,
    bank: &Bank<'a>,
    sample: u32,
    recording: Recording<'a>,
    sides: &'a Sides,
) -> Result<Vec<Edit<'a>>, ReplaceFault>
    requires split { sides.now ≡ sides_of recording.channels }
    ensures { let due = replacement_edits bank.now sample recording.entry in
        MatchResult result (λ edits. AreReplacement due edits.items) (λ fault. IsReplaceFault due fault) }
{
    if sample as usize >= bank.samples().len() {
        return Err(ReplaceFault::NoSuchSample);
    }
    let pair = pair_of(bank, sample);
    let Recording {
        channels,
        rate,
        sampler,
    } = recording;
    match channels {
        Channels::Mono(points) => Ok(mono_edits(alloc, bank, sample, pair, rate, sampler, points)?),
        Channels::MonoSamples(_) => {
            let points = sides.left(alloc);
            Ok(mono_edits(alloc, bank, sample, pair, rate, sampler, points)?)
        }
        Channels::Stereo(_, _) => stereo_edits(alloc, bank, pair, rate, sampler, sides),
    }
}

// The edits by a stereo recording, of which `sides` has the channels.
fn stereo_edits<'a>(
    alloc: Global,
    bank: &Bank<'_>,
    pair: Option<(u32, u32)>,
    rate: u32,
    sampler: Sampler,
    sides: &'a Sides,
) -> Result<Vec<Edit<'a>>, ReplaceFault>
    ensures { let due = edits_of bank.now rate sampler (stereo_targets sides.now.left sides.now.right pair) in
        MatchResult result (λ edits. due ≡ Ok edits.items) (λ fault. IsReplaceFault due fault) }
{
    match pair {
        None => Err(ReplaceFault::TwoChannels),
        Some(pair) => {
            let left = sides.left(alloc);
            let right = sides.right(alloc);
            Ok(pair_edits(alloc, bank, pair, rate, sampler, left, right)?)
        }
    }
}

// The edits by a mono recording.
fn mono_edits<'a>(
    alloc: Global,
    bank: &Bank<'_>,
    sample: u32,
    pair: Option<(u32, u32)>,
    rate: u32,
    sampler: Sampler,
    points: Points<'a>,
) -> Result<Vec<Edit<'a>>, OutOfMemory>
    ensures { IfOk result (λ edits.
        edits.items ≡ flat_map (target_edits bank.now rate sampler) (mono_targets sample points.entry pair)) }
{
    match pair {
        None => {
            let mut edits = Vec::new(alloc);
            push_content(alloc, bank, sample, rate, sampler, points, &mut edits)?;
            Ok(edits)
        }
        Some(pair) => {
            let left = points.copy(alloc)?;
            pair_edits(alloc, bank, pair, rate, sampler, left, points)
        }
    }
}

// The edits of both samples of a pair.
fn pair_edits<'a>(
    alloc: Global,
    bank: &Bank<'_>,
    pair: (u32, u32),
    rate: u32,
    sampler: Sampler,
    left: Points<'a>,
    right: Points<'a>,
) -> Result<Vec<Edit<'a>>, OutOfMemory>
    ensures { IfOk result (λ edits.
        edits.items ≡ flat_map (target_edits bank.now rate sampler) (pair_targets pair left.entry right.entry)) }
{
    let mut edits = Vec::new(alloc);
    push_content(alloc, bank, pair.0, rate, sampler, left, &mut edits)?;
    push_content(alloc, bank, pair.1, rate, sampler, right, &mut edits)?;
    Ok(edits)
}

// Appends the edits of one sample.
fn push_content<'a>(
    alloc: Global,
    bank: &Bank<'_>,
    number: u32,
    rate: u32,
    sampler: Sampler,
    points: Points<'a>,
    edits: &mut Vec<Edit<'a>>,
) -> Result<(), OutOfMemory>
    ensures { OnOk result (edits.new.items
        ≡ edits.old.items ++ target_edits bank.now rate sampler (target number points.entry)) }
{
    let Sampler { pitch, looped } = sampler;
    let Pitch { key, correction } = pitch.unwrap_or(pitch_at(bank, number));
    let trim = PointStep::Trim {
        front: point_count(bank, number),
        back: 0,
    };
    let extend = PointStep::Extend {
        front: Points::empty(alloc),
        back: points,
    };
    push_step(edits, number, PointStep::SetLoop { looped: None })?;
    push_step(edits, number, trim)?;
    push_step(edits, number, extend)?;
    push_step(edits, number, PointStep::SetLoop { looped })?;
    let tune = PointStep::SetTune {
        rate,
        key,
        correction,
    };
    push_step(edits, number, tune)
}

// Appends the edit of this step.
fn push_step<'a>(
    edits: &mut Vec<Edit<'a>>,
    number: u32,
    step: PointStep<'a>,
) -> Result<(), OutOfMemory>
    ensures { OnOk result (edits.new.items ≡ edits.old.items ++ point_edit number step.entry ∷ []) }
{
    edits.push(Edit::One(Step::Points(number, step)))?;
    Ok(())
}

// The key and the correction of a sample; those of a new one if there is no such sample.
fn pitch_at(bank: &Bank<'_>, number: u32) -> Pitch
    ensures { result ≡ pitch_at bank.now number }
{
    match bank.sample(number) {
        Some(sample) => Pitch {
            key: sample.key,
            correction: sample.correction,
        },
        None => DEFAULT_PITCH,
    }
}

// The number of points of a sample; 0 if there is no such sample.
fn point_count(bank: &Bank<'_>, number: u32) -> u32
    ensures { result ≡ length (points_of bank.now number) }
{
    bank.soundness();
    match bank.sample(number) {
        Some(sample) => sample.points.len() as u32,
        None => 0,
    }
}
