//! Sets of samples.
ghost use Rattle.std.specs.Prelude.{◌≡◌, ℕ, ◌^◌, ◌<◌, Bool, false, ◌||◌, ◌==◌};
ghost use Rattle.show_zone_map.specs.Samples.{has_sample};

/// The words of a set: a bit for each of 65,536 numbers.
const WORDS: usize = 1024;

// A set of sample numbers.
#[derive(Drop)]
pub(crate) struct SampleSet {
    words: [u64; WORDS],
}

impl SampleSet {
    // The empty set.
    pub(crate) fn new() -> SampleSet
        ensures { (s : ℕ) → s < 2 ^ 16 → has_sample result.words s ≡ false }
    {
        SampleSet { words: [0; WORDS] }
    }

    pub(crate) fn contains(&self, sample: u16) -> bool
        ensures { result ≡ has_sample self.now.words sample }
    {
        (self.words[usize::from(sample / 64)] >> (sample % 64)) & 1 == 1
    }

    pub(crate) fn insert(&mut self, sample: u16)
        ensures { (s : ℕ) → s < 2 ^ 16 → has_sample self.new.words s ≡ (s == sample || has_sample self.old.words s) }
    {
        self.words[usize::from(sample / 64)] |= 1 << (sample % 64);
    }
}
