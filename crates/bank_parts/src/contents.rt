//! Tests for what makes the zones of a preset or an instrument invalid in a bank.
ghost use Rattle.std.specs.Prelude.{◌≡◌};
ghost use Rattle.std.specs.List.{list_any};
ghost use Rattle.bank_parts.specs.declared.parts.Zone.{Zone};
ghost use Rattle.bank_parts.specs.Contents.{has_missing_target, sets_bad_generator, has_bad_generator, is_bad_range, sets_bad_range, has_bad_range};

use crate::parts::{Zone, ZoneOwner};
use generators::{GenMap, Level, Range, allowed, is_range_operator};

impl<H> ZoneOwner<H> {
    /// Whether the target of any zone is not below `count`, the number of instruments or samples.
    pub fn has_missing_target(&self, count: usize) -> bool
        ensures { result ≡ has_missing_target count self.now }
    {
        self.zones
            .as_slice()
            .iter()
            .any(|zone| count <= zone.target as usize)
    }

    /// Whether any zone has a generator that the level does not allow (SoundFont 2.04, section 8.1.2). The target
    /// does not count as a generator.
    pub fn has_bad_generator(&self, at: Level) -> bool
        ensures { result ≡ has_bad_generator at self.now }
    {
        sets_bad_generator(at, &self.global.gens)
            || any_sets_bad_generator(at, self.zones.as_slice())
    }

    /// Whether any zone has a key or velocity range that is reversed or exceeds 127 (SoundFont 2.04, section 8.1.2,
    /// `keyRange` and `velRange`).
    pub fn has_bad_range(&self) -> bool
        ensures { result ≡ has_bad_range self.now }
    {
        sets_bad_range(&self.global.gens) || any_sets_bad_range(self.zones.as_slice())
    }
}

fn any_sets_bad_generator(at: Level, zones: &[Zone]) -> bool
    ensures { result ≡ list_any (λ (z : Zone). sets_bad_generator at z.gens) zones.now }
{
    zones.iter().any(|zone| sets_bad_generator(at, &zone.gens))
}

/// Whether a map has an operator that the level does not allow (SoundFont 2.04, section 8.1.2).
pub fn sets_bad_generator(at: Level, gens: &GenMap) -> bool
    ensures { result ≡ sets_bad_generator at gens.now }
{
    gens.entries()
        .iter()
        .any(|&(operator, _)| !allowed(operator, at))
}

fn any_sets_bad_range(zones: &[Zone]) -> bool
    ensures { result ≡ list_any (λ (z : Zone). sets_bad_range z.gens) zones.now }
{
    zones.iter().any(|zone| sets_bad_range(&zone.gens))
}

/// Whether a map has a key or velocity range that is reversed or exceeds 127.
pub fn sets_bad_range(gens: &GenMap) -> bool
    ensures { result ≡ sets_bad_range gens.now }
{
    gens.entries().iter().any(|&entry| is_bad_range(entry))
}

/// Whether a generator, given as operator and amount, is a key or velocity range that is reversed or exceeds 127.
pub fn is_bad_range(entry: (u16, u16)) -> bool
    ensures { result ≡ is_bad_range entry }
{
    let (operator, amount) = entry;
    is_range_operator(operator) && !Range::of_amount(amount).is_valid()
}
