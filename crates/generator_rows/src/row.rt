//! What the table has of a generator.
ghost use Rattle.std.specs.Prelude.{◌≡◌};
ghost use Rattle.generator_rows.specs.Rows.{unit_name, without_blanks};

/// The unit of a generator's amount.
#[derive(Clone, Copy)]
pub enum Unit {
    /// Points of the sample data.
    Points,
    /// Multiples of 32,768 points.
    PointBlocks,
    /// Hundredths of a semitone.
    Cents,
    /// Cents above 8.176 Hz.
    AbsoluteCents,
    /// Cents between adjacent keys.
    CentsPerKey,
    /// Semitones.
    Semitones,
    /// Tenths of a decibel.
    Centibels,
    /// Times: 0 is a second, and 1200 more double it.
    Timecents,
    /// Timecents for each key below 60.
    TimecentsPerKey,
    /// Tenths of a percent.
    TenthsOfPercent,
    /// Key numbers.
    Keys,
    /// Velocities.
    Velocities,
    /// The number of an instrument.
    Instrument,
    /// The number of a sample.
    Sample,
    /// How a loop is played: 0 never, 1 without end, 3 until the key is released.
    Mode,
    /// The number of a class in which a new note ends the others.
    Class,
}

/// The amount that counts where no zone sets a generator.
#[derive(Clone, Copy)]
pub enum DefaultAmount {
    /// This number.
    Number(i16),
    /// All keys, or all velocities.
    WholeRange,
    /// None: each zone but a global one has the generator.
    Nothing,
}

/// The length of the longest name.
pub const NAME_LENGTH: usize = 26;

/// The length of the longest range.
pub const RANGE_LENGTH: usize = 13;

/// A generator, and its amounts (SoundFont 2.04, sections 8.1.2 and 8.1.3).
#[derive(Clone, Copy)]
pub struct GeneratorRow {
    /// The number of its operator.
    pub number: u16,
    /// Its name in the standard, and blanks: see `full_name`.
    pub name: [u8; NAME_LENGTH],
    /// The unit of its amount.
    pub unit: Unit,
    /// The lowest amount that the standard allows; of a range of keys or velocities, the lowest end. The lowest `i16` if
    /// only the sample limits it.
    pub low: i16,
    /// The highest amount, or the highest end. The highest `i16` if only the sample or the number of members limits it.
    pub high: i16,
    /// The two in a text, without an end that only the bank limits, or `any`, and blanks.
    pub range: [u8; RANGE_LENGTH],
    /// The amount that counts where no zone sets it.
    pub default: DefaultAmount,
    /// Whether the frames of a note depend on it.
    pub is_played: bool,
}

impl GeneratorRow {
    /// Returns its name in the standard, without blanks.
    pub fn full_name(&self) -> &[u8]
        ensures { result.now ≡ without_blanks self.now.name }
    {
        self.name.trim_ascii_end()
    }
}

impl Unit {
    /// Returns its name, as the table has it.
    pub fn name(self) -> &'static str
        ensures { result.now ≡ unit_name self }
    {
        match self {
            Unit::Points => "points",
            Unit::PointBlocks => "32,768 points",
            Unit::Cents => "cents",
            Unit::AbsoluteCents => "absolute cents",
            Unit::CentsPerKey => "cents a key",
            Unit::Semitones => "semitones",
            Unit::Centibels => "centibels",
            Unit::Timecents => "timecents",
            Unit::TimecentsPerKey => "timecents a key",
            Unit::TenthsOfPercent => "0.1 %",
            Unit::Keys => "key",
            Unit::Velocities => "velocity",
            Unit::Instrument => "instrument",
            Unit::Sample => "sample",
            Unit::Mode => "loop mode",
            Unit::Class => "class",
        }
    }
}
