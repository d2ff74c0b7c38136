//! The edits that import a recording into a bank: `read_recording` reads it of a WAVE file, and `import_run` of `sfbank`
//! applies them.
ghost use Rattle.std.specs.Prelude.{◌≡◌, ◌≤◌, [], ◌∷◌, IfOk};
ghost use Rattle.std.specs.List.{AllByRecursion};
ghost use Rattle.sf_base.specs.Names.{IsName, IsTextByte};
ghost use Rattle.sf_base.specs.declared.limits.TheConstants.{SAMPLES};
ghost use Rattle.wave_file.specs.Imports.{sides_of, mono_name, side_name, sample_of, add_edit, pair_edits, mono_edits, import_edits};

use crate::recording::{Channels, DEFAULT_PITCH, Pitch, Recording, Sampler};
use crate::sides::Sides;
use arrayvec::ArrayVec;
use bank_format::before_zero;
use bank_parts::{Kind, Sample};
use edit_forms::{Edit, PointStep, SampleStep, Step};
use sample_view::Points;
use sf_base::limits::{NAME_LENGTH, SAMPLES};
use sf_base::{Name20, OutOfMemory, front_of};
use std::alloc::Global;

/// The suffixes of the names of a left and a right sample.
const LEFT: &[u8; 2] = b" L";

const RIGHT: &[u8; 2] = b" R";

/// The most bytes of a name before its suffix.
const OWN_LENGTH: usize = 18;

/// The edits that append a recording to `samples` samples. A mono recording becomes one sample, a stereo recording a
/// left and a right sample that are linked to each other; `sides` has the points that are not borrowed from the file.
/// Without a pitch a sample gets [`DEFAULT_PITCH`].
///
/// The name is truncated at a zero byte and to 20 bytes; for a stereo recording to 18 bytes, followed by ` L` or ` R`.
#[tactic(auto, unfolding(crate::specs::Imports::import_edits))]
pub fn import_edits<'a>(
    alloc: Global,
    samples: usize,
    name: &[u8],
    recording: Recording<'a>,
    sides: &'a Sides,
) -> Result<Vec<Edit<'a>>, OutOfMemory>
    requires count { samples ≤ SAMPLES }
    requires split { sides.now ≡ sides_of recording.channels }
    ensures { IfOk result (λ edits. edits.items ≡ import_edits samples name.now recording.entry) }
{
    let Recording {
        channels,
        rate,
        sampler,
    } = recording;
    match channels {
        Channels::Mono(points) => mono_edits(alloc, samples, name, rate, sampler, points),
        Channels::MonoSamples(_) => {
            let points = sides.left(alloc);
            mono_edits(alloc, samples, name, rate, sampler, points)
        }
        Channels::Stereo(_, _) => {
            let left_name = side_name(name, LEFT);
            let right_name = side_name(name, RIGHT);
            let left_kind = Kind::Mono;
            let right_kind = Kind::Right(samples as u16);
            let left = sample_of(rate, sampler, left_name, sides.left(alloc), left_kind);
            let right = sample_of(rate, sampler, right_name, sides.right(alloc), right_kind);
            pair_edits(alloc, samples, left, right)
        }
    }
}

// The edit that appends a mono recording to `samples` samples.
fn mono_edits<'a>(
    alloc: Global,
    samples: usize,
    name: &[u8],
    rate: u32,
    sampler: Sampler,
    points: Points<'a>,
) -> Result<Vec<Edit<'a>>, OutOfMemory>
    requires { samples ≤ SAMPLES }
    ensures { IfOk result (λ edits. edits.items ≡ mono_edits samples name.now rate sampler points.entry) }
{
    let name = mono_name(name);
    let sample = sample_of(rate, sampler, name, points, Kind::Mono);
    single_edit(alloc, samples, sample)
}

// The first 20 bytes, up to the first zero byte.
fn mono_name(name: &[u8]) -> Name20
    ensures { result ≡ mono_name name.now }
{
    name_of(before_zero(front_of(name, NAME_LENGTH)))
}

// The first 18 bytes, up to the first zero byte, then the suffix.
fn side_name(name: &[u8], side: &[u8; 2]) -> Name20
    requires { AllByRecursion IsTextByte side.now }
    ensures { result ≡ side_name name.now side.now }
{
    let mut text: ArrayVec<u8, 20> = ArrayVec::new();
    let own = before_zero(front_of(name, OWN_LENGTH));
    text.try_extend_from_slice(own).unwrap();
    text.try_extend_from_slice(side).unwrap();
    name_of(text.as_slice())
}

fn name_of(text: &[u8]) -> Name20
    requires { IsName text.now }
    ensures { result ≡ text.now }
{
    Name20::from_bytes(text).unwrap()
}

fn sample_of<'a>(
    rate: u32,
    sampler: Sampler,
    name: Name20,
    points: Points<'a>,
    kind: Kind,
) -> Sample<'a>
    ensures { result ≡ sample_of rate sampler name points.entry kind }
{
    let Pitch { key, correction } = sampler.pitch.unwrap_or(DEFAULT_PITCH);
    Sample {
        name,
        points,
        looped: sampler.looped,
        rate,
        key,
        correction,
        kind,
    }
}

fn add_edit(at: u32, sample: Sample<'_>) -> Edit<'_>
    ensures { result ≡ add_edit at sample.entry }
{
    Edit::One(Step::Sample(SampleStep::AddSample { at, sample }))
}

// The edit that appends a sample to `samples` others.
fn single_edit<'a>(
    alloc: Global,
    samples: usize,
    sample: Sample<'a>,
) -> Result<Vec<Edit<'a>>, OutOfMemory>
    requires { samples ≤ SAMPLES }
    ensures { IfOk result (λ edits. edits.items ≡ add_edit samples sample.entry ∷ []) }
{
    let mut edits = Vec::new(alloc);
    edits.push(add_edit(samples as u32, sample))?;
    Ok(edits)
}

// The edits that append a left and a right sample to `samples` others. In a full bank only the first edit, which is
// refused: the later ones have numbers that would not fit.
fn pair_edits<'a>(
    alloc: Global,
    samples: usize,
    left: Sample<'a>,
    right: Sample<'a>,
) -> Result<Vec<Edit<'a>>, OutOfMemory>
    requires { samples ≤ SAMPLES }
    ensures { IfOk result (λ edits. edits.items ≡ pair_edits samples left.entry right.entry) }
{
    let mut edits = single_edit(alloc, samples, left)?;
    if samples >= SAMPLES {
        return Ok(edits);
    }
    let at = samples as u32;
    edits.push(add_edit(at + 1, right))?;
    let kind = Kind::Left(samples as u16 + 1);
    edits.push(Edit::One(Step::Points(at, PointStep::SetKind { kind })))?;
    Ok(edits)
}
