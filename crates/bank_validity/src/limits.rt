//! The limits of a bank, and the first one that it breaks.
ghost use Rattle.std.specs.Prelude.{◌≡◌, ◌<◌, ◌+◌, ◌≤◌, None};
ghost use Rattle.bank_validity.specs.Limits.{broken, with_sample, with_owner, with_owner_counted, with_records, with_records_counted, word_of};
ghost use Rattle.bank_parts.specs.Counts.{all_counted, records_sum};
ghost use Rattle.bank_parts.specs.declared.counting.Records.{Records};

use crate::totals::{LevelTotals, Totals};
use bank_parts::Records;
use generators::Level;
use sf_base::limits::{
    GENERATORS, INSTRUMENTS, MODULATORS, POINTS, PRESETS, SAMPLES, ZERO_POINTS, ZONES,
};

/// A limit of a bank, in the order in which they are tested. Zones, generators and modulators are counted separately
/// for presets and for instruments.
#[derive(Clone, Copy, Debug, PartialEq, Eq)]
pub enum Limit {
    Presets,
    Instruments,
    Samples,
    Zones,
    Generators,
    Modulators,
    Points,
}

impl Limit {
    /// The name of the limit in a fault line.
    pub fn word(self) -> &'static str
        ensures { result.now ≡ word_of self }
    {
        match self {
            Limit::Presets => "presets",
            Limit::Instruments => "instruments",
            Limit::Samples => "samples",
            Limit::Zones => "zones",
            Limit::Generators => "generators",
            Limit::Modulators => "modulators",
            Limit::Points => "points",
        }
    }
}

impl Totals {
    /// The first limit that these totals break.
    #[tactic(auto, unfolding(crate::specs::Limits::broken))]
    pub fn broken(self) -> Option<Limit>
        ensures { result ≡ broken self }
    {
        let (presets, instruments) = (self.presets.records, self.instruments.records);
        if self.presets.count > PRESETS {
            Some(Limit::Presets)
        } else if self.instruments.count > INSTRUMENTS {
            Some(Limit::Instruments)
        } else if self.samples > SAMPLES {
            Some(Limit::Samples)
        } else if presets.zones > ZONES || instruments.zones > ZONES {
            Some(Limit::Zones)
        } else if presets.gens > GENERATORS || instruments.gens > GENERATORS {
            Some(Limit::Generators)
        } else if presets.mods > MODULATORS || instruments.mods > MODULATORS {
            Some(Limit::Modulators)
        } else if self.points > POINTS as usize {
            Some(Limit::Points)
        } else {
            None
        }
    }

    /// The first limit that is broken after a sample with `points` points is added.
    pub fn broken_with_sample(self, points: usize) -> Option<Limit>
        requires { broken self ≡ None }
        ensures { result ≡ broken (with_sample self points) }
    {
        if self.samples >= SAMPLES {
            return Some(Limit::Samples);
        }
        let room = POINTS as usize - self.points;
        if room < ZERO_POINTS {
            return Some(Limit::Points);
        }
        if room - ZERO_POINTS < points {
            return Some(Limit::Points);
        }
        None
    }

    /// The first limit that is broken after a preset or an instrument with `more` records is added. Their numbers
    /// may be saturated, as those of `ZoneOwner::records` are.
    pub fn broken_with_owner(self, at: Level, more: Records) -> Option<Limit>
        requires { broken self ≡ None }
        ensures { (r : Records) → more ≡ all_counted r → result ≡ broken (with_owner at self r) }
    {
        self.plus_owner(at, more).broken()
    }

    /// The first limit that is broken after `more` records are added to a preset or an instrument. Their numbers may be
    /// saturated, as those of `Zone::records` are.
    pub fn broken_with_records(self, at: Level, more: Records) -> Option<Limit>
        requires { broken self ≡ None }
        ensures { (r : Records) → more ≡ all_counted r → result ≡ broken (with_records at self r) }
    {
        self.plus_records(at, more).broken()
    }

    // Each number saturates at 2^64 - 1.
    fn plus_records(self, at: Level, more: Records) -> Totals
        ensures { result ≡ with_records_counted at self more }
    {
        self.with_level(at, self.at(at).plus(more))
    }

    // Each number saturates at 2^64 - 1.
    fn plus_owner(self, at: Level, more: Records) -> Totals
        ensures { result ≡ with_owner_counted at self more }
    {
        let level = self.at(at);
        let level = LevelTotals {
            count: level.count.saturating_add(1),
            records: level.plus(more).records,
        };
        self.with_level(at, level)
    }
}

impl LevelTotals {
    /// The totals of a level after `more` records are added. Each number saturates at 2^64 - 1.
    pub fn plus(self, more: Records) -> LevelTotals
        ensures { result ≡ record self { records = all_counted (records_sum self.records more) } }
    {
        LevelTotals {
            records: Records {
                zones: self.records.zones.saturating_add(more.zones),
                gens: self.records.gens.saturating_add(more.gens),
                mods: self.records.mods.saturating_add(more.mods),
            },
            ..self
        }
    }
}
