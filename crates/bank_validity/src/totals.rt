//! How long the lists of a bank are in a file.
ghost use Rattle.std.specs.Prelude.{◌≡◌};
ghost use Rattle.bank_parts.specs.Valid.{IsWithin, point_total};
ghost use Rattle.bank_validity.specs.Limits.{totals_of, level_totals, totals_at, level_changed, level_counted, broken, broken_limit};
ghost use Rattle.bank_parts.specs.Counts.{counted};

use bank_parts::{OwnerHead, Owners, Parts, Records, Sample};
use generators::Level;
use sf_base::limits::ZERO_POINTS;

/// How many presets or instruments there are, and how many records they have.
#[derive(Clone, Copy, Debug, PartialEq, Eq)]
pub struct LevelTotals {
    pub count: usize,
    pub records: Records,
}

/// How long the lists of a bank are in a file. The target of a zone counts as a generator, an empty global zone
/// counts as none, and 46 zero points follow the points of each sample.
#[derive(Clone, Copy, Debug, PartialEq, Eq)]
pub struct Totals {
    pub presets: LevelTotals,
    pub instruments: LevelTotals,
    pub samples: usize,
    pub points: usize,
}

impl Totals {
    /// The totals of a level.
    pub fn at(self, at: Level) -> LevelTotals
        ensures { result ≡ totals_at at self }
    {
        match at {
            Level::Preset => self.presets,
            Level::Inst => self.instruments,
        }
    }

    /// The same with other totals of a level.
    pub fn with_level(self, at: Level, level: LevelTotals) -> Totals
        ensures { result ≡ level_changed at (λ _. level) self }
    {
        match at {
            Level::Preset => Totals {
                presets: level,
                ..self
            },
            Level::Inst => Totals {
                instruments: level,
                ..self
            },
        }
    }
}

/// Counts the points of all samples, and reads the lengths of the other lists. Each number saturates at 2^64 - 1, far
/// above each limit. Allocates nothing.
pub fn totals_of(parts: &Parts<'_>) -> Totals
    ensures value { IsWithin parts.now → result ≡ totals_of parts.now }
    ensures limits { broken result ≡ broken_limit parts.now }
{
    totals_with(parts, points_in(parts.samples.as_slice()))
}

/// The totals of parts whose samples have so many points, with the zero points after each. It reads the lengths of
/// lists and counts nothing. Each number saturates at 2^64 - 1.
pub fn totals_with(parts: &Parts<'_>, points: usize) -> Totals
    requires { points ≡ counted (point_total parts.now.samples) }
    ensures value { IsWithin parts.now → result ≡ totals_of parts.now }
    ensures limits { broken result ≡ broken_limit parts.now }
{
    Totals {
        presets: level_totals(&parts.presets),
        instruments: level_totals(&parts.instruments),
        samples: parts.samples.len(),
        points,
    }
}

fn level_totals<H: OwnerHead>(owners: &Owners<H>) -> LevelTotals
    ensures { result ≡ level_counted (level_totals owners.now) }
{
    LevelTotals {
        count: owners.len(),
        records: owners.records(),
    }
}

// The points of all samples, each with the zero points after it.
fn points_in(samples: &[Sample<'_>]) -> usize
    ensures { result ≡ counted (point_total samples.now) }
{
    let mut total: usize = 0;
    for sample in samples {
        let points = sample.points.len().saturating_add(ZERO_POINTS);
        total = total.saturating_add(points);
    }
    total
}
