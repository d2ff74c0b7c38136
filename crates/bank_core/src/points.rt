//! The raw changes of one sample of a bank: of its points, loop, kind and tuning.
ghost use Rattle.std.specs.Prelude.{◌≡◌, ◌<◌, ◌≤◌, ◌+◌, ◌-◌, ℕ, List, length, take, drop, slice_get, IfSome, IfOk, OnOk, OnErr, IfErr};
ghost use Rattle.bank_parts.specs.Sound.{IsSound};
ghost use Rattle.bank_parts.specs.Counts.{counted};
ghost use Rattle.bank_validity.specs.Limits.{broken_limit};
ghost use Rattle.bank_changes.specs.Points.{points_of, loop_of, sample_trimmed, sample_extended, loop_set, kind_set, tune_set};

use crate::bank::Bank;
use bank_changes::{extend_sample, set_kind, set_loop, set_tune, trim_sample};
use bank_parts::Kind;
use bank_validity::Limit;
use sample_view::Points;
use sf_base::OutOfMemory;
use sf_base::limits::POINTS;
use std::alloc::Global;

impl<'a> Bank<'a> {
    /// Removes the first `front` and the last `back` points of a sample, and returns both parts. The loop moves with
    /// its points. No point is copied, and the time depends on the number of slices only. On `OutOfMemory` the bank
    /// is unchanged.
    pub fn trim_sample(
        &mut self,
        alloc: Global,
        number: u32,
        front: u32,
        back: u32,
    ) -> Result<(Points<'a>, Points<'a>), OutOfMemory>
        requires there { number < length self.old.samples }
        requires points { front + back ≤ length (points_of self.old number) }
        requires sound { IsSound (sample_trimmed self.old number front back) }
        ensures front { IfOk result (λ cut. cut.0 ≡ take front (points_of self.old number)) }
        ensures back { IfOk result (λ cut. cut.1 ≡ drop (length (points_of self.old number) - back) (points_of self.old number)) }
        ensures ok { OnOk result (self.new ≡ sample_trimmed self.old number front back) }
        ensures err { OnErr result (self.new ≡ self.old) }
    {
        let cut = trim_sample(&mut self.parts, alloc, number, front, back)?;
        self.points -= front as usize + back as usize;
        Ok(cut)
    }

    /// Adds points before and after those of a sample. The loop moves with its points; no point is copied. If an
    /// allocation fails, the bank is unchanged and the points are returned.
    pub fn extend_sample(
        &mut self,
        number: u32,
        front: Points<'a>,
        back: Points<'a>,
    ) -> Result<(), (Points<'a>, Points<'a>)>
        requires there { number < length self.old.samples }
        requires sound { IsSound (sample_extended self.old number front back) }
        ensures ok { OnOk result (self.new ≡ sample_extended self.old number front.entry back.entry) }
        ensures err { OnErr result (self.new ≡ self.old) }
        ensures front_returned { IfErr result (λ given. given.0 ≡ front.entry) }
        ensures back_returned { IfErr result (λ given. given.1 ≡ back.entry) }
    {
        let more = front.len() + back.len();
        extend_sample(&mut self.parts, number, front, back)?;
        self.points += more;
        Ok(())
    }

    /// Replaces the loop of a sample and returns the old one. A loop is its first point and the point after its last,
    /// counted from the start of the sample. Allocates nothing.
    pub fn set_loop(&mut self, number: u32, looped: Option<(u32, u32)>) -> Option<(u32, u32)>
        requires there { number < length self.old.samples }
        requires sound { IsSound (loop_set self.old number looped) }
        ensures value { IfSome (slice_get self.old.samples number) (λ sample. result ≡ sample.looped) }
        ensures change { self.new ≡ loop_set self.old number looped }
    {
        set_loop(&mut self.parts, number, looped)
    }

    /// Replaces the kind of a sample (SoundFont 2.04, section 7.10) and returns the old one. A sample that it links
    /// to does not change. Allocates nothing.
    pub fn set_kind(&mut self, number: u32, kind: Kind) -> Kind
        requires there { number < length self.old.samples }
        requires sound { IsSound (kind_set self.old number kind) }
        ensures value { IfSome (slice_get self.old.samples number) (λ sample. result ≡ sample.kind) }
        ensures change { self.new ≡ kind_set self.old number kind }
    {
        set_kind(&mut self.parts, number, kind)
    }

    /// Replaces the rate (in frames per second), the original key (above 127 for none) and the pitch correction (in
    /// cents) of a sample, and returns the old three. Allocates nothing.
    pub fn set_tune(&mut self, number: u32, rate: u32, key: u8, correction: i8) -> (u32, u8, i8)
        requires there { number < length self.old.samples }
        requires sound { IsSound (tune_set self.old number rate key correction) }
        ensures rate { IfSome (slice_get self.old.samples number) (λ sample. result.0 ≡ sample.rate) }
        ensures key { IfSome (slice_get self.old.samples number) (λ sample. result.1 ≡ sample.key) }
        ensures correction { IfSome (slice_get self.old.samples number) (λ sample. result.2 ≡ sample.correction) }
        ensures change { self.new ≡ tune_set self.old number rate key correction }
    {
        set_tune(&mut self.parts, number, rate, key, correction)
    }

    /// The first limit that is broken after `more` points are added to one of the samples. `more` may be saturated.
    pub fn broken_with_points(&self, more: usize) -> Option<Limit>
        ensures { (number : ℕ) (front back : List ℕ) → number < length self.now.samples → more ≡ counted (length front + length back)
            → result ≡ broken_limit (sample_extended self.now number front back) }
    {
        let room = POINTS as usize - self.points;
        if more > room {
            return Some(Limit::Points);
        }
        None
    }

    /// How many points a sample has; 0 if there is no such sample.
    pub fn point_count(&self, number: u32) -> usize
        ensures { result ≡ length (points_of self.now number) }
    {
        self.sample(number).map_or(0, |sample| sample.points.len())
    }

    /// The loop of a sample; none if there is no loop or no such sample.
    pub fn loop_of(&self, number: u32) -> Option<(u32, u32)>
        ensures { result ≡ loop_of self.now number }
    {
        self.sample(number).and_then(|sample| sample.looped)
    }
}
