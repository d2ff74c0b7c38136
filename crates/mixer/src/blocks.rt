//! Blocks of frames: the sum of the voices, computed in parts and clipped once.
ghost use Rattle.std.specs.Prelude.{◌≡◌, ℕ, ◌+◌, ◌*◌, ◌/◌, ◌%◌, ◌<◌, ◌≤◌, ◌^◌, ◌+ℤ◌, pos, EachIndex, length, map, slice_index_or};
ghost use Rattle.voices.specs.Within.{AllWithin};
ghost use Rattle.mixer.specs.StartFrames as heard;
ghost use Rattle.mixer.specs.Events.{aged, total_at, next_side};
ghost use Rattle.mixer.specs.KeptVoices.{AllYounger};

use crate::measuring::{report_sums, report_totals};
use crate::playing::PlayingVoice;
use base_progress::Progress;
use voices::Workspace;

// The most frames that are summed in one pass.
const PART: usize = 1024;

// The values of these frames, two for each.
pub(crate) const PART_SIDES: usize = 2 * PART;

// The most voices for which two sums together fit in 32 bits.
pub(crate) const GROUP: usize = 32767;

// Buffers for the frames of a part, with arbitrary contents: those of the voices, the sums of each side, and the sums
// that both sides share.
#[derive(Drop)]
pub(crate) struct MixBuffers {
    pub(crate) work: Workspace,
    sides: [i32; PART_SIDES],
    middle: [i32; PART],
}

impl MixBuffers {
    pub(crate) fn new() -> MixBuffers {
        MixBuffers {
            work: Workspace::new(),
            sides: [0; PART_SIDES],
            middle: [0; PART],
        }
    }
}

// Adds the next frames of all voices: those of centred voices to `middle`, which both sides share, and the others to
// `sides`. Each voice advances by as many frames.
pub(crate) fn add_voices(
    voices: &mut [PlayingVoice],
    work: &mut Workspace,
    sides: &mut [i32],
    middle: &mut [i32],
)
    requires sides { length sides.old ≡ 2 * length middle.old }
    requires few { length voices.old ≤ GROUP }
    requires young { AllYounger (2 ^ 63 + 2 ^ 34) voices.old }
    requires short { length middle.old ≤ PART }
    requires room { AllWithin GROUP sides.old }
    requires middle { AllWithin GROUP middle.old }
    ensures value { EachIndex sides.new (λ i. slice_index_or sides.new i (pos 0) +ℤ slice_index_or middle.new (i / 2) (pos 0)
        ≡ slice_index_or sides.old i (pos 0) +ℤ slice_index_or middle.old (i / 2) (pos 0) +ℤ total_at voices.old i) }
    ensures room { (j : ℕ) → AllWithin j sides.old → AllWithin (j + length voices.old) sides.new }
    ensures middle { (j : ℕ) → AllWithin j middle.old → AllWithin (j + length voices.old) middle.new }
    ensures live { voices.new ≡ map (aged (length sides.old / 2)) voices.old }
{
    for p in voices.iter_mut() {
        p.voice.add_frames_apart(work, sides, middle);
    }
}

// Computes the sums of all voices of a group.
fn sum_group(
    voices: &mut [PlayingVoice],
    work: &mut Workspace,
    sides: &mut [i32],
    middle: &mut [i32],
)
    requires sides { length sides.old ≡ 2 * length middle.old }
    requires few { length voices.old ≤ GROUP }
    requires young { AllYounger (2 ^ 63 + 2 ^ 34) voices.old }
    requires short { length middle.old ≤ PART }
    ensures value { EachIndex sides.new (λ i. slice_index_or sides.new i (pos 0) +ℤ slice_index_or middle.new (i / 2) (pos 0) ≡ total_at voices.old i) }
    ensures room { AllWithin (length voices.old) sides.new }
    ensures middle { AllWithin (length voices.old) middle.new }
    ensures live { voices.new ≡ map (aged (length sides.old / 2)) voices.old }
{
    sides.fill(0);
    middle.fill(0);
    add_voices(voices, work, sides, middle);
}

// Adds the sums of a group to totals.
fn add_to_totals(sides: &[i32], middle: &[i32], totals: &mut [i128])
    requires sides { length totals.old ≡ length sides.now }
    requires middle { length totals.old ≡ 2 * length middle.now }
    requires room { AllWithin (2 ^ 65) totals.old }
    ensures { EachIndex totals.new (λ i. slice_index_or totals.new i (pos 0) ≡ slice_index_or totals.old i (pos 0)
        +ℤ (slice_index_or sides.now i (pos 0) +ℤ slice_index_or middle.now (i / 2) (pos 0))) }
{
    for i in 0..totals.len() {
        let side = i128::from(sides[i]);
        let both = i128::from(middle[i / 2]);
        totals[i] += side + both;
    }
}

// Writes each side's sum plus the shared one, clipped to 16 bits.
pub(crate) fn clip_sums(sums: &[i32], middle: &[i32], out: &mut [i16])
    requires sums { length sums.now ≡ length out.old }
    requires middle { length out.old ≡ 2 * length middle.now }
    requires room { AllWithin GROUP sums.now }
    requires middle_room { AllWithin GROUP middle.now }
    ensures { EachIndex out.new (λ i. slice_index_or out.new i (pos 0)
        ≡ heard.clipped (slice_index_or sums.now i (pos 0) +ℤ slice_index_or middle.now (i / 2) (pos 0))) }
{
    for i in 0..out.len() {
        let both = sums[i] + middle[i / 2];
        out[i] = both.min(32767).max(-32768) as i16;
    }
}

// Writes each total, clipped to 16 bits.
fn clip_totals(totals: &[i128], out: &mut [i16])
    requires { length totals.now ≡ length out.old }
    ensures { EachIndex out.new (λ i. slice_index_or out.new i (pos 0) ≡ heard.clipped (slice_index_or totals.now i (pos 0))) }
{
    for i in 0..out.len() {
        out[i] = totals[i].min(32767).max(-32768) as i16;
    }
}

fn silent_totals() -> [i128; PART_SIDES]
    ensures silent { (k : ℕ) → slice_index_or result k (pos 0) ≡ pos 0 }
    ensures long { length result ≡ 2 * PART }
{
    [0; PART_SIDES]
}

// Adds a group of voices to totals.
fn add_group(
    voices: &mut [PlayingVoice],
    work: &mut Workspace,
    sides: &mut [i32; PART_SIDES],
    middle: &mut [i32; PART],
    totals: &mut [i128],
)
    requires few { length voices.old ≤ GROUP }
    requires young { AllYounger (2 ^ 63 + 2 ^ 34) voices.old }
    requires short { length totals.old ≤ 2 * PART }
    requires even { length totals.old % 2 ≡ 0 }
    requires room { AllWithin (2 ^ 65) totals.old }
    ensures value { EachIndex totals.new (λ i. slice_index_or totals.new i (pos 0) ≡ slice_index_or totals.old i (pos 0) +ℤ total_at voices.old i) }
    ensures room { (j : ℕ) → AllWithin j totals.old → AllWithin (j + 2 * length voices.old) totals.new }
    ensures live { voices.new ≡ map (aged (length totals.old / 2)) voices.old }
{
    let n = totals.len();
    let sides = &mut sides[..n];
    let middle = &mut middle[..n / 2];
    sum_group(voices, work, sides, middle);
    add_to_totals(sides, middle, totals);
}

// Adds all voices to totals, group by group.
fn add_all(voices: &mut [PlayingVoice], buffers: &mut MixBuffers, totals: &mut [i128])
    requires young { AllYounger (2 ^ 63 + 2 ^ 34) voices.old }
    requires short { length totals.old ≤ 2 * PART }
    requires even { length totals.old % 2 ≡ 0 }
    requires silent { AllWithin 0 totals.old }
    ensures value { EachIndex totals.new (λ i. slice_index_or totals.new i (pos 0) ≡ slice_index_or totals.old i (pos 0) +ℤ total_at voices.old i) }
    ensures live { voices.new ≡ map (aged (length totals.old / 2)) voices.old }
{
    let mut at = 0;
    while at < voices.len() {
        let n = (voices.len() - at).min(GROUP);
        add_group(
            &mut voices[at..at + n],
            &mut buffers.work,
            &mut buffers.sides,
            &mut buffers.middle,
            totals,
        );
        at += n;
    }
}

// Mixes a part of a block of at most one group of voices.
#[tactic(auto, unfolding(crate::specs::Events::next_side))]
fn mix_group<P: Progress>(
    voices: &mut [PlayingVoice],
    work: &mut Workspace,
    sides: &mut [i32; PART_SIDES],
    middle: &mut [i32; PART],
    out: &mut [i16],
    progress: &mut P,
)
    requires few { length voices.old ≤ GROUP }
    requires young { AllYounger (2 ^ 63 + 2 ^ 34) voices.old }
    requires short { length out.old ≤ 2 * PART }
    requires even { length out.old % 2 ≡ 0 }
    ensures value { EachIndex out.new (λ i. slice_index_or out.new i (pos 0) ≡ next_side voices.old i) }
    ensures live { voices.new ≡ map (aged (length out.old / 2)) voices.old }
{
    let n = out.len();
    let sides = &mut sides[..n];
    let middle = &mut middle[..n / 2];
    sum_group(voices, work, sides, middle);
    clip_sums(sides, middle, out);
    report_sums(voices.len(), sides, middle, progress);
}

// Mixes a part of a block of any number of voices.
#[tactic(auto, unfolding(crate::specs::Events::next_side))]
fn mix_groups<P: Progress>(
    voices: &mut [PlayingVoice],
    buffers: &mut MixBuffers,
    out: &mut [i16],
    progress: &mut P,
)
    requires young { AllYounger (2 ^ 63 + 2 ^ 34) voices.old }
    requires short { length out.old ≤ 2 * PART }
    requires even { length out.old % 2 ≡ 0 }
    ensures value { EachIndex out.new (λ i. slice_index_or out.new i (pos 0) ≡ next_side voices.old i) }
    ensures live { voices.new ≡ map (aged (length out.old / 2)) voices.old }
{
    let mut totals = silent_totals();
    let n = out.len();
    add_all(voices, buffers, &mut totals[..n]);
    clip_totals(&totals[..n], out);
    report_totals(voices.len(), &totals[..n], progress);
}

// Mixes a part of a block, and reports it. Each voice advances; those that are over are not dropped.
pub(crate) fn mix_part<P: Progress>(
    voices: &mut [PlayingVoice],
    buffers: &mut MixBuffers,
    out: &mut [i16],
    progress: &mut P,
)
    requires young { AllYounger (2 ^ 63 + 2 ^ 34) voices.old }
    requires short { length out.old ≤ 2 * PART }
    requires even { length out.old % 2 ≡ 0 }
    ensures value { EachIndex out.new (λ i. slice_index_or out.new i (pos 0) ≡ next_side voices.old i) }
    ensures live { voices.new ≡ map (aged (length out.old / 2)) voices.old }
{
    if voices.len() <= GROUP {
        mix_group(
            voices,
            &mut buffers.work,
            &mut buffers.sides,
            &mut buffers.middle,
            out,
            progress,
        );
    } else {
        mix_groups(voices, buffers, out, progress);
    }
}
