//! Ranges of keys and of velocities.
ghost use Rattle.std.specs.Prelude.{◌≡◌, ◌+◌, ◌*◌, ◌/◌, ◌%◌, ◌≤◌, ◌↔◌, IsTrue};
ghost use Rattle.generators.specs.Ranges.{AreEnds};

/// A range of keys or of velocities, including both ends (SoundFont 2.04, section 8.1.2, `keyRange` and `velRange`).
///
/// The ends may be in the wrong order or above 127, as in any amount of a file: see `is_valid`.
#[derive(Debug, Clone, Copy, PartialEq, Eq)]
pub struct Range {
    pub low: u8,
    pub high: u8,
}

impl Range {
    /// The range in an amount: the low end is in the low byte.
    pub fn of_amount(amount: u16) -> Range
        ensures low { result.low ≡ amount % 256 }
        ensures high { result.high ≡ amount / 256 }
    {
        Range {
            low: (amount % 256) as u8,
            high: (amount / 256) as u8,
        }
    }

    /// The amount with these ends.
    pub fn to_amount(self) -> u16
        ensures amount { result ≡ self.low + 256 * self.high }
        ensures low { result % 256 ≡ self.low }
        ensures high { result / 256 ≡ self.high }
    {
        self.low as u16 + 256 * self.high as u16
    }

    /// Whether the ends are in order and at most 127.
    pub fn is_valid(self) -> bool
        ensures { IsTrue result ↔ AreEnds self.low self.high }
    {
        self.low <= self.high && self.high <= 127
    }

    /// Whether a key or a velocity is in the range.
    pub fn contains(self, value: u8) -> bool
        ensures { IsTrue result ↔ ((self.low ≤ value) × (value ≤ self.high)) }
    {
        self.low <= value && value <= self.high
    }
}
