//! The parameters of the voice of a pair of zones.
ghost use Rattle.std.specs.Prelude.{◌≡◌, ◌<◌, ◌^◌, ◌↔◌, length, IsSome, IfSome};
ghost use Rattle.std.specs.List.{Contains};
ghost use Rattle.std.specs.Option.{option_map};
ghost use Rattle.zone_select.specs.Amounts.{parameters_of, mode_of};
ghost use Rattle.zone_select.specs.At.{instrument_zone_at, preset_zone_at};
ghost use Rattle.zone_select.specs.ZoneSettings.{settings_of};
ghost use Rattle.zone_select.specs.Pairs.{pairs, selected_pair, voice_by};
ghost use Rattle.zone_select.specs.Playable.{IsPlayable};

use crate::amounts::{PairAmounts, exclusive_class};
use crate::amplitude::{attenuation, moved_time, pan, sustain, time};
use crate::pitches::phase_increment_of;
use crate::sample_range::{UNTIL_RELEASE, loop_within, mode, sample_range};
use crate::selected_pair::{PairAt, selected_zones};
use crate::zone_amounts::ZoneAmounts;
use bank_core::{Bank, Owner};
use bank_parts::Sample;
use generators::operators::{
    ATTACK_VOL_ENV, DECAY_VOL_ENV, DELAY_VOL_ENV, HOLD_VOL_ENV, RELEASE_VOL_ENV,
};
use script_notes::Note;

/// The parameters of a voice, besides the points of its sample (SoundFont 2.04, sections 8.1.2 and 9). Points are
/// counted from the sample's first; times are frames of 1/44100 second.
#[derive(Debug, Clone, Copy, PartialEq, Eq)]
pub struct VoiceParameters {
    /// The first point that is played.
    pub start: u32,
    /// The point after the last one.
    pub end: u32,
    /// The first point of the loop; 0 without a loop.
    pub loop_start: u32,
    /// The point after the loop's last; 0 without a loop.
    pub loop_end: u32,
    /// Whether the voice loops.
    pub looped: bool,
    /// Whether the loop ends when the note ends, so that the rest of the sample is played.
    pub until_release: bool,
    /// The phase increment: how far the position advances in a frame, in 65536ths of a point; at most 73,043,661.
    pub phase_increment: u32,
    /// Frames of silence before the attack.
    pub delay: u32,
    /// Frames in which the gain rises from 0 to the full gain.
    pub attack: u32,
    /// Frames at the full gain.
    pub hold: u32,
    /// Frames in which the decay would fall by 960 centibels.
    pub decay: u32,
    /// Frames in which the release falls by 960 centibels.
    pub release: u32,
    /// How far the decay falls, in centibels, up to 960.
    pub sustain: u32,
    /// The attenuation of the whole voice, in centibels; a negative one counts as zero.
    pub attenuation: i32,
    /// The pan, from -500 (left) to 500 (right).
    pub pan: i32,
    /// The length of the note in frames.
    pub length: u32,
    /// The exclusive class; 0 means none.
    pub class: i16,
}

/// The sample and the parameters of a pair of zones.
#[derive(Debug, Clone, Copy, PartialEq, Eq)]
pub struct PairParameters {
    /// The number of the sample.
    pub sample: u32,
    /// The low two bits of the amount of sampleModes (generator 54): 0 to 3.
    pub mode: u8,
    /// The parameters of the voice.
    pub voice: VoiceParameters,
}

/// Returns the sample and the parameters of a pair of zones: a zone of the first preset with the note's bank and preset
/// number, and a zone of its instrument, by number.
///
/// Returns `None` if a zone doesn't exist or doesn't contain the note; so it returns `Some` exactly for the pairs of
/// [`matches`](crate::matches). It allocates nothing.
pub fn params(bank: &Bank<'_>, note: &Note, pair: (u32, u32)) -> Option<PairParameters>
    ensures sample { option_map (λ p. p.sample) result ≡ option_map (λ c. c.sample) (selected_pair bank.now note.now pair) }
    ensures mode { option_map (λ p. p.mode) result
        ≡ option_map (λ c. mode_of c.instrument_zone c.preset_zone) (selected_pair bank.now note.now pair) }
    ensures voice { option_map (λ p. p.voice) result
        ≡ option_map (λ v. v.parameters) (voice_by bank.now note.now pair) }
    ensures there { IsSome result ↔ Contains (pairs bank.now note.now) pair }
    ensures playable { IfSome (voice_by bank.now note.now pair) (λ v. IsPlayable (length v.points) v.parameters) }
{
    bank.soundness();
    let selected_zones = selected_zones(bank, note, pair)?;
    let sample = bank.sample(selected_zones.sample)?;
    let zones = pair_amounts(bank, &selected_zones.zones);
    let mode = mode(&zones);
    Some(PairParameters {
        sample: selected_zones.sample,
        mode,
        voice: parameters_of(&zones, note, sample, mode),
    })
}

// The amounts of the zones of a pair.
fn pair_amounts<'b>(bank: &'b Bank<'_>, at: &PairAt) -> PairAmounts<'b>
    ensures instrument { settings_of result.instrument ≡ instrument_zone_at bank.now at.now }
    ensures preset { settings_of result.preset ≡ preset_zone_at bank.now at.now }
{
    PairAmounts {
        instrument: ZoneAmounts::of(bank, Owner::Inst(at.instrument), at.instrument_zone),
        preset: ZoneAmounts::of(bank, Owner::Preset(at.preset), at.preset_zone),
    }
}

// The parameters of two zones and their sample.
#[tactic(auto, using(crate::proofs::SampleRangeLaws::loop_there, crate::proofs::SampleRangeLaws::loop_start_is, crate::proofs::SampleRangeLaws::loop_end_is), unfolding(crate::specs::Amounts::parameters_of))]
fn parameters_of(
    zones: &PairAmounts<'_>,
    note: &Note,
    sample: &Sample<'_>,
    mode: u8,
) -> VoiceParameters
    requires points { length sample.now.points < 2 ^ 32 }
    requires mode { mode ≡ mode_of (settings_of zones.now.instrument) (settings_of zones.now.preset) }
    ensures { result ≡ parameters_of note.now (settings_of zones.now.instrument) (settings_of zones.now.preset) sample.now }
{
    let played = sample_range(zones, sample);
    let looped = loop_within(zones, sample, &played, mode);
    let (loop_start, loop_end) = looped.unwrap_or((0, 0));
    VoiceParameters {
        start: played.start,
        end: played.end,
        loop_start,
        loop_end,
        looped: looped.is_some(),
        until_release: mode == UNTIL_RELEASE,
        phase_increment: phase_increment_of(zones, note, sample),
        delay: time(zones, DELAY_VOL_ENV),
        attack: moved_time(zones, note, ATTACK_VOL_ENV),
        hold: time(zones, HOLD_VOL_ENV),
        decay: moved_time(zones, note, DECAY_VOL_ENV),
        release: moved_time(zones, note, RELEASE_VOL_ENV),
        sustain: sustain(zones, note),
        attenuation: attenuation(zones, note),
        pan: pan(zones, note),
        length: note.length(),
        class: exclusive_class(zones),
    }
}
