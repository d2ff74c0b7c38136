//! Whether notes have the same voices in two banks.
ghost use Rattle.std.specs.Prelude.{◌≡◌, true, ℕ, slice_get, Some};
ghost use Rattle.std.specs.Option.{option_map};
ghost use Rattle.zone_select.specs.Pairs.{voice_by};
ghost use Rattle.plan_edits.specs.Playing.{HavePointsOf, HasSameVoices, HaveSameVoices};

use bank_core::{Bank, Sample};
use bank_equality::same_points;
use script_notes::Note;
use zone_select::{Params, VoiceParameters, matches, params};

/// Whether a note has the same voices in both banks. `samples` has, for each sample of the second bank, its number in
/// the first.
pub(crate) fn has_same_voices(from: &Bank<'_>, to: &Bank<'_>, samples: &[u32], note: &Note) -> bool
    requires { HavePointsOf samples.now from.now.samples to.now.samples }
    ensures { result ≡ true → HasSameVoices from.now to.now note.now }
{
    let mut old = matches(from, note);
    let mut new = matches(to, note);
    while let Some(pair) = old.next() {
        let Some(other) = new.next() else {
            return false;
        };
        if !is_same_voice(from, to, samples, note, pair, other) {
            return false;
        }
    }
    new.next().is_none()
}

// Whether two pairs of zones have the same voice.
fn is_same_voice(
    from: &Bank<'_>,
    to: &Bank<'_>,
    samples: &[u32],
    note: &Note,
    pair: (u32, u32),
    other: (u32, u32),
) -> bool
    requires { HavePointsOf samples.now from.now.samples to.now.samples }
    ensures { result ≡ true → voice_by from.now note.now pair ≡ voice_by to.now note.now other }
{
    let (Some(old), Some(new)) = (params(from, note, pair), params(to, note, other)) else {
        return false;
    };
    are_equal(&old.voice, &new.voice) && is_number(samples, new.sample, old.sample)
}

fn is_number(samples: &[u32], t: u32, s: u32) -> bool
    ensures { result ≡ true → slice_get samples.now t ≡ Some s }
{
    match samples.get(t as usize) {
        Some(number) => *number == s,
        None => false,
    }
}

fn are_equal(a: &VoiceParameters, b: &VoiceParameters) -> bool
    ensures { result ≡ true → a.now ≡ b.now }
{
    play_same_points(a, b) && have_same_times(a, b) && have_same_levels(a, b)
}

fn play_same_points(a: &VoiceParameters, b: &VoiceParameters) -> bool
    ensures ends { result ≡ true → (a.now.start ≡ b.now.start) × (a.now.end ≡ b.now.end) }
    ensures loops { result ≡ true → (a.now.loop_start ≡ b.now.loop_start) × (a.now.loop_end ≡ b.now.loop_end) }
    ensures looped { result ≡ true → a.now.looped ≡ b.now.looped }
    ensures until_release { result ≡ true → a.now.until_release ≡ b.now.until_release }
    ensures phase_increment { result ≡ true → a.now.phase_increment ≡ b.now.phase_increment }
{
    a.start == b.start
        && a.end == b.end
        && a.loop_start == b.loop_start
        && a.loop_end == b.loop_end
        && a.looped == b.looped
        && a.until_release == b.until_release
        && a.phase_increment == b.phase_increment
}

fn have_same_times(a: &VoiceParameters, b: &VoiceParameters) -> bool
    ensures delay { result ≡ true → a.now.delay ≡ b.now.delay }
    ensures attack { result ≡ true → a.now.attack ≡ b.now.attack }
    ensures hold { result ≡ true → a.now.hold ≡ b.now.hold }
    ensures decay { result ≡ true → a.now.decay ≡ b.now.decay }
    ensures release { result ≡ true → a.now.release ≡ b.now.release }
    ensures length { result ≡ true → a.now.length ≡ b.now.length }
{
    a.delay == b.delay
        && a.attack == b.attack
        && a.hold == b.hold
        && a.decay == b.decay
        && a.release == b.release
        && a.length == b.length
}

fn have_same_levels(a: &VoiceParameters, b: &VoiceParameters) -> bool
    ensures sustain { result ≡ true → a.now.sustain ≡ b.now.sustain }
    ensures attenuation { result ≡ true → a.now.attenuation ≡ b.now.attenuation }
    ensures pan { result ≡ true → a.now.pan ≡ b.now.pan }
    ensures class { result ≡ true → a.now.class ≡ b.now.class }
{
    a.sustain == b.sustain && a.attenuation == b.attenuation && a.pan == b.pan && a.class == b.class
}

/// Whether each of the notes has the same voices in both banks. See [`has_same_voices`].
pub(crate) fn have_same_voices(
    from: &Bank<'_>,
    to: &Bank<'_>,
    samples: &[u32],
    notes: &[Note],
) -> bool
    requires { HavePointsOf samples.now from.now.samples to.now.samples }
    ensures { result ≡ true → HaveSameVoices notes.now from.now to.now }
{
    for note in notes {
        if !has_same_voices(from, to, samples, note) {
            return false;
        }
    }
    true
}

/// Whether each sample of the second bank has the points of the first bank's sample whose number is listed for it.
pub(crate) fn have_points_of(numbers: &[u32], from: &[Sample<'_>], to: &[Sample<'_>]) -> bool
    ensures { result ≡ true → HavePointsOf numbers.now from.now to.now }
{
    for i in 0..numbers.len() {
        if !has_points_of(from, numbers[i] as usize, to, i) {
            return false;
        }
    }
    true
}

fn has_points_of(from: &[Sample<'_>], s: usize, to: &[Sample<'_>], t: usize) -> bool
    ensures { result ≡ true → option_map (λ x. x.points) (slice_get to.now t) ≡ option_map (λ x. x.points) (slice_get from.now s) }
{
    s < from.len() && t < to.len() && same_points(&to[t].points, &from[s].points)
}
