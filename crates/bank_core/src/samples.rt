//! The raw changes of the samples of a bank, and whether a sample is in use.
ghost use Rattle.std.specs.Prelude.{◌≡◌, ◌<◌, ◌≤◌, Some, length, slice_get, IfSome, IfOk, OnOk, OnErr, IfErr};
ghost use Rattle.bank_parts.specs.Sound.{IsSound};
ghost use Rattle.bank_changes.specs.Samples.{sample_renamed, sample_added, sample_removed, sample_moved, sample_in_use};
ghost use Rattle.bank_changes.specs.SampleMoves.{AreMoves, samples_moved, moved_names};

use crate::bank::Bank;
use bank_changes::{
    SampleMove, add_sample, move_sample, move_samples, remove_sample, rename_sample,
};
use bank_parts::Sample;
use sf_base::limits::ZERO_POINTS;
use sf_base::{Name20, OutOfMemory};
use std::alloc::Global;

impl<'a> Bank<'a> {
    /// Renames a sample and returns the old name. Allocates nothing.
    pub fn rename_sample(&mut self, number: u32, name: Name20) -> Name20
        requires there { number < length self.old.samples }
        requires sound { IsSound (sample_renamed self.old number name) }
        ensures value { IfSome (slice_get self.old.samples number) (λ sample. result ≡ sample.name) }
        ensures change { self.new ≡ sample_renamed self.old number name }
    {
        rename_sample(&mut self.parts, number, name)
    }

    /// Inserts a sample as number `number`; later samples move up by one, and targets and links follow. Its own link
    /// is a number after the insertion. An append does not traverse the bank. If an allocation fails, the bank is
    /// unchanged and the sample is returned.
    pub fn add_sample(&mut self, number: u32, sample: Sample<'a>) -> Result<(), Sample<'a>>
        requires place { number ≤ length self.old.samples }
        requires sound { IsSound (sample_added self.old number sample) }
        ensures ok { OnOk result (self.new ≡ sample_added self.old number sample.entry) }
        ensures err { OnErr result (self.new ≡ self.old) }
        ensures value_returned { IfErr result (λ back. back ≡ sample.entry) }
    {
        let more = sample.points.len() + ZERO_POINTS;
        add_sample(&mut self.parts, number, sample)?;
        self.points += more;
        Ok(())
    }

    /// Removes a sample and returns it; later samples move down by one, and targets and links follow. If it is the
    /// last, the bank is not traversed. Allocates nothing.
    pub fn remove_sample(&mut self, number: u32) -> Sample<'a>
        requires there { number < length self.old.samples }
        requires sound { IsSound (sample_removed self.old number) }
        ensures value { slice_get self.old.samples number ≡ Some result }
        ensures change { self.new ≡ sample_removed self.old number }
    {
        let sample = remove_sample(&mut self.parts, number);
        self.points -= sample.points.len() + ZERO_POINTS;
        sample
    }

    /// Moves sample `from` to number `to`; the others keep their order, and targets and links follow. Allocates
    /// nothing.
    pub fn move_sample(&mut self, from: u32, to: u32)
        requires there { from < length self.old.samples }
        requires place { to < length self.old.samples }
        requires sound { IsSound (sample_moved self.old from to) }
        ensures { self.new ≡ sample_moved self.old from to }
    {
        move_sample(&mut self.parts, from, to);
    }

    /// Moves samples in order, and returns the name of each before its move; the others keep their order, and targets
    /// and links follow. It moves only indexes of samples, and traverses the samples once. A failed allocation changes
    /// nothing.
    pub fn move_samples(
        &mut self,
        alloc: Global,
        moves: &[SampleMove],
    ) -> Result<Vec<Name20>, OutOfMemory>
        requires { AreMoves (length self.old.samples) moves.now }
        ensures change { OnOk result (self.new ≡ samples_moved self.old moves.now) }
        ensures names { IfOk result (λ names. names.items ≡ moved_names self.old moves.now) }
        ensures err { OnErr result (self.new ≡ self.old) }
    {
        move_samples(&mut self.parts, alloc, moves)
    }

    /// Whether some zone targets the sample, or another sample is linked to it.
    #[tactic(auto, unfolding(bank_changes::specs::Samples::sample_in_use))]
    pub fn is_sample_in_use(&self, number: u32) -> bool
        requires { number < length self.now.samples }
        ensures { result ≡ sample_in_use self.now number }
    {
        self.parts.instruments.any_targets(number) || self.parts.samples.others_link_to(number)
    }
}
