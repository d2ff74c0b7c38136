//! A voice.
ghost use Rattle.std.specs.Prelude.{◌≡◌, ℕ, ◌+◌, ◌-◌, ◌*◌, ◌/◌, ◌%◌, ◌^◌, ◌≤◌, ◌<◌, ◌+ℤ◌, ◌≤ℤ◌, pos, negsuc, true, false, EachIndex, length, nat_eq, slice_index_or};
ghost use Rattle.std.specs.Bool.{OnFalse};
ghost use Rattle.voices.specs.Classes.{exclusive_class};
ghost use Rattle.voices.specs.Position.{is_over};
ghost use Rattle.zone_select.specs.Playable.{IsPlayable};
ghost use Rattle.voices.specs.Sound.{snd, after_frame};
ghost use Rattle.voices.specs.Release.{released};
ghost use Rattle.voices.specs.Within.{AllWithin};

use crate::adding::{add_run, add_run_apart};
use crate::frames::{frame, next_position};
use crate::voice_state::VoiceState;
use crate::workspace::{LONGEST, Workspace};
use sample_view::Points;
use std::marker::Model;
use zone_select::VoiceParameters;

/// A voice: a sample played with the parameters of a pair of zones.
///
/// It borrows the points from the file, not from the bank. Its model is its points, its parameters and the number of
/// its next frame.
#[derive(Drop)]
pub struct Voice<'a> {
    points: Points<'a>,
    parameters: VoiceParameters,
    age: u64,
    state: VoiceState<'a>,
}

impl<'a> Model for Voice<'a> {
    ghost use Rattle.std.specs.Prelude.{length};
    ghost use Rattle.zone_select.specs.Playable.{IsPlayable};
    ghost use Rattle.voices.specs.VoiceState.{IsVoiceState};
    ghost use Rattle.voices.specs.Sound.{Live};

    ghost Value = { Live };

    ghost view = { λ v. record { value = record { points = v.points; parameters = v.parameters }; age = v.age } };

    ghost invariant = { λ v. IsPlayable (length v.points) v.parameters × IsVoiceState v.points v.parameters v.age v.state };
}

impl<'a> Voice<'a> {
    /// Creates a voice at its first frame.
    pub fn of(points: Points<'a>, parameters: VoiceParameters) -> Voice<'a>
        requires { IsPlayable (length points) parameters }
        ensures { result ≡ record { value = record { points = points.entry; parameters = parameters }; age = 0 } }
    {
        let state = VoiceState::start(&parameters);
        Voice {
            points,
            parameters,
            age: 0,
            state,
        }
    }

    /// Whether the voice is over: it is silent from the next frame on.
    pub fn done(&self) -> bool
        ensures value { result ≡ is_over self.now.value.parameters self.now.age }
        ensures young { OnFalse result (self.now.age < 2 ^ 33) }
    {
        self.state.over
    }

    /// The exclusive class of the voice's zones, if it isn't 0 (SoundFont 2.04, section 8.1.2, generator 57).
    pub fn exclusive_class(&self) -> Option<i16>
        ensures { result ≡ exclusive_class self.now.value.parameters }
    {
        if self.parameters.class == 0 {
            return None;
        }
        Some(self.parameters.class)
    }

    /// Returns the next frame, left and right, each from -32768 to 32767.
    ///
    /// A voice that is over returns silence and doesn't advance.
    #[tactic(auto, using(sound_envelopes::proofs::PhaseLaws::constant_later))]
    pub fn next_frame(&mut self) -> (i32, i32)
        ensures left { result.0 ≡ snd self.old.value true self.old.age }
        ensures right { result.1 ≡ snd self.old.value false self.old.age }
        ensures left_fits { (negsuc 32767 ≤ℤ result.0) × (result.0 ≤ℤ pos 32767) }
        ensures right_fits { (negsuc 32767 ≤ℤ result.1) × (result.1 ≤ℤ pos 32767) }
        ensures live { self.new ≡ after_frame self.old }
    {
        let state = self.state;
        if state.over {
            return (0, 0);
        }
        let sides = frame(&self.points, &self.parameters, self.age, state.position);
        let next = next_position(&self.points, &self.parameters, self.age, state.position);
        self.age += 1;
        self.state
            .advance_to(&self.parameters, self.age, next, state.level, state.slice);
        sides
    }

    /// Adds the next frames to interleaved left and right sums, which have space for one more voice: each is within the
    /// sum of 65534 voices.
    pub fn add_frames(&mut self, work: &mut Workspace, sums: &mut [i32])
        requires even { length sums.old % 2 ≡ 0 }
        requires young { self.old.age + length sums.old < 2 ^ 64 }
        requires room { AllWithin 65534 sums.old }
        ensures value { EachIndex sums.new (λ i. slice_index_or sums.new i (pos 0)
            ≡ slice_index_or sums.old i (pos 0) +ℤ snd self.old.value (nat_eq (i % 2) 0) (self.old.age + i / 2)) }
        ensures room { (j : ℕ) → AllWithin j sums.old → AllWithin (j + 1) sums.new }
        ensures live { self.new ≡ record { value = self.old.value; age = self.old.age + length sums.old / 2 } }
    {
        add_run(
            &self.points,
            &self.parameters,
            self.age,
            &mut self.state,
            &mut work.stages,
            &mut work.run,
            sums,
        );
        self.age += sums.len() as u64 / 2;
    }

    /// Adds the next frames like `add_frames`, but those of a centred voice to `middle`, which both sides share.
    ///
    /// A side's total is its own sum plus the shared one.
    pub fn add_frames_apart(&mut self, work: &mut Workspace, sums: &mut [i32], middle: &mut [i32])
        requires sums { length sums.old ≡ 2 * length middle.old }
        requires short { length middle.old ≤ LONGEST }
        requires young { self.old.age + length sums.old < 2 ^ 64 }
        requires room { AllWithin 65534 sums.old }
        requires middle { AllWithin 65534 middle.old }
        ensures value { EachIndex sums.new (λ i. slice_index_or sums.new i (pos 0) +ℤ slice_index_or middle.new (i / 2) (pos 0)
            ≡ slice_index_or sums.old i (pos 0) +ℤ slice_index_or middle.old (i / 2) (pos 0)
            +ℤ snd self.old.value (nat_eq (i % 2) 0) (self.old.age + i / 2)) }
        ensures room { (j : ℕ) → AllWithin j sums.old → AllWithin (j + 1) sums.new }
        ensures middle { (j : ℕ) → AllWithin j middle.old → AllWithin (j + 1) middle.new }
        ensures live { self.new ≡ record { value = self.old.value; age = self.old.age + length sums.old / 2 } }
    {
        add_run_apart(
            &self.points,
            &self.parameters,
            self.age,
            &mut self.state,
            &mut work.stages,
            &mut work.run,
            sums,
            middle,
        );
        self.age += middle.len() as u64;
    }

    /// Goes back by a number of frames, in constant time.
    pub fn go_back(&mut self, frames: u64)
        requires { frames ≤ self.old.age }
        ensures { self.new ≡ record { value = self.old.value; age = self.old.age - frames } }
    {
        self.age -= frames;
        self.state.move_to(&self.parameters, self.age);
    }

    /// Ends the note at the next frame, unless it has ended before: the release begins, and a loop that lasts until the
    /// release is left.
    pub fn release(&mut self)
        ensures { self.new ≡ released self.old }
    {
        if self.age < u64::from(self.parameters.length) {
            self.parameters.length = self.age as u32;
            self.state.end_note(&self.parameters, self.age);
        }
    }
}
