//! State that a voice keeps between calls, so that it need not be computed again.
ghost use Rattle.std.specs.Prelude.{◌≡◌, ◌+◌, ◌≤◌, ◌<◌, ℕ, List, true};
ghost use Rattle.sound_tables.specs.Tables.{gain_of};
ghost use Rattle.sound_envelopes.specs.Constant.{IsConstantUntil};
ghost use Rattle.voices.specs.VoiceState.{IsVoiceState, IsCurrentSlice};
ghost use Rattle.sound_envelopes.specs.Envelope.{held, envelope};
ghost use Rattle.voices.specs.Position.{position};

use crate::positions::{is_over_by, position_at};
use crate::slices::Slice;
use sound_envelopes::{EnvelopeGain, held_at};
use sound_tables::{MOST_PHASE_INCREMENT, UNITY_GAIN, gain};
use zone_select::VoiceParameters;

// The state of a voice at its next frame.
#[derive(Clone, Copy)]
pub(crate) struct VoiceState<'a> {
    // Whether the voice is over.
    pub(crate) over: bool,
    // The position in the sample, in 65536ths of a point; meaningless once the voice is over.
    pub(crate) position: u64,
    // The envelope's gain, and how long it stays the same; it may have expired.
    pub(crate) level: EnvelopeGain,
    // The envelope's gain when the note ends.
    pub(crate) at_end: u32,
    // The gain of the attenuation, of 65536.
    pub(crate) loudness: u32,
    // The slice of points read last; the position may be past it.
    pub(crate) slice: Slice<'a>,
}

impl<'a> VoiceState<'a> {
    // The state of a voice at its first frame.
    #[tactic(auto, using(crate::proofs::SliceLaws::none_is_current))]
    pub(crate) fn start(v: &VoiceParameters) -> VoiceState<'a>
        requires loop_is { v.now.looped ≡ true → v.now.loop_start < v.now.loop_end }
        requires steps { v.now.phase_increment ≤ MOST_PHASE_INCREMENT }
        ensures { (points : List ℕ) → IsVoiceState points v.now 0 result }
    {
        let x = position_at(v, 0);
        VoiceState {
            over: is_over_by(v, 0, x),
            position: x,
            level: EnvelopeGain::ended(),
            at_end: held_at(v, u64::from(v.length)),
            loudness: gain(i64::from(v.attenuation)),
            slice: Slice::none(),
        }
    }

    // Advances to frame `t`, whose position is `x` unless the release is over by then.
    pub(crate) fn advance_to(
        &mut self,
        v: &VoiceParameters,
        t: u64,
        x: u64,
        level: EnvelopeGain,
        slice: Slice<'a>,
    )
        requires here { t < v.now.length + v.now.release → x ≡ position v.now t }
        requires level { IsConstantUntil (envelope v.now) t level }
        requires at_end { (self.old.at_end ≡ held v.now v.now.length) × (self.old.at_end ≤ UNITY_GAIN) }
        requires loudness { (self.old.loudness ≡ gain_of v.now.attenuation) × (self.old.loudness ≤ UNITY_GAIN) }
        ensures { (points : List ℕ) → IsCurrentSlice points slice.entry → IsVoiceState points v.now t self.new }
    {
        self.over = is_over_by(v, t, x);
        self.position = x;
        self.level = level;
        self.slice = slice;
    }

    // Moves to any frame `t`, also an earlier one. The envelope's gain is computed when it is next needed.
    pub(crate) fn move_to(&mut self, v: &VoiceParameters, t: u64)
        requires loop_is { v.now.looped ≡ true → v.now.loop_start < v.now.loop_end }
        requires steps { v.now.phase_increment ≤ MOST_PHASE_INCREMENT }
        requires at_end { (self.old.at_end ≡ held v.now v.now.length) × (self.old.at_end ≤ UNITY_GAIN) }
        requires loudness { (self.old.loudness ≡ gain_of v.now.attenuation) × (self.old.loudness ≤ UNITY_GAIN) }
        ensures { (points : List ℕ) → IsCurrentSlice points self.old.slice → IsVoiceState points v.now t self.new }
    {
        // After the release the voice is over, whatever its position.
        let release_end = u64::from(v.length) + u64::from(v.release);
        let x = position_at(v, t.min(release_end));
        let slice = self.slice;
        self.advance_to(v, t, x, EnvelopeGain::ended(), slice);
    }

    // Moves to the end of the note, frame `t`, which may differ from the end before.
    pub(crate) fn end_note(&mut self, v: &VoiceParameters, t: u64)
        requires loop_is { v.now.looped ≡ true → v.now.loop_start < v.now.loop_end }
        requires steps { v.now.phase_increment ≤ MOST_PHASE_INCREMENT }
        requires loudness { (self.old.loudness ≡ gain_of v.now.attenuation) × (self.old.loudness ≤ UNITY_GAIN) }
        ensures { (points : List ℕ) → IsCurrentSlice points self.old.slice → IsVoiceState points v.now t self.new }
    {
        self.at_end = held_at(v, u64::from(v.length));
        self.move_to(v, t);
    }
}
