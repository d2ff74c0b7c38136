//! Whether all presets or all instruments are valid, whether they use a target, and how many records they have.
ghost use Rattle.std.specs.Prelude.{◌≡◌, ◌↔◌, IsTrue};
ghost use Rattle.std.specs.Bool.{OnTrue};
ghost use Rattle.std.specs.List.{AllByRecursion, list_any, list_all};
ghost use Rattle.generators.specs.Gens.{FitsEntry, FitEntries};
ghost use Rattle.generators.specs.declared.level.Level.{Level};
ghost use Rattle.modulators.specs.Modulators.{FitsModulator};
ghost use Rattle.sf_base.specs.Names.{IsName};
ghost use Rattle.bank_parts.specs.Fits.{FitsOwner};
ghost use Rattle.bank_parts.specs.Valid.{IsOwner};
ghost use Rattle.bank_parts.specs.Owners.{targets};
ghost use Rattle.bank_parts.specs.Counts.{records_of_owner, records_total, all_counted};
ghost use Rattle.bank_parts.specs.Records.{is_target, is_valid_record};

use crate::bag_targets::without_last;
use crate::contents::is_bad_range;
use crate::counting::Records;
use crate::fits::modulator_fits;
use crate::heads::OwnerHead;
use crate::owners::Owners;
use generators::{Level, allowed};
use modulators::Modulator;

impl<H: OwnerHead> Owners<H> {
    /// Whether any zone has this number as its target.
    pub fn any_targets(&self, number: u32) -> bool
        ensures { result ≡ list_any (targets number) self.now }
    {
        any_is_target(Self::operator(), number, self.bags.gen_records())
    }

    /// How many records all of them have in a file. Each number saturates at 2^64 - 1, far above each limit.
    pub fn records(&self) -> Records
        ensures { result ≡ all_counted (records_total records_of_owner self.now) }
    {
        let (zones, gens, mods) = self.bags.record_counts();
        Records { zones, gens, mods }
    }

    /// Whether all are valid in a bank that has `targets` instruments (for presets) or samples (for instruments).
    pub fn are_valid(&self, targets: usize) -> bool
        ensures valid { IsTrue result ↔ AllByRecursion (IsOwner H.name H.LEVEL targets) self.now }
        ensures fits { OnTrue result (AllByRecursion (FitsOwner H.IsFit) self.now) }
    {
        heads_fit(self.heads.as_slice());
        let gens = without_last(self.bags.gen_records());
        gens_fit(gens);
        mods_fit(self.bags.mod_records());
        are_valid_records(H::LEVEL, targets, gens)
    }
}

// Reads all entries without an early exit, so that the compiler can vectorize the loop.
fn any_is_target(operator: u16, number: u32, gens: &[(u16, u16)]) -> bool
    ensures { result ≡ list_any (is_target operator number) gens.now }
{
    let mut found = false;
    for &(other, amount) in gens {
        found = found | ((other == operator) & (u32::from(amount) == number));
    }
    found
}

fn are_valid_records(level: Level, targets: usize, gens: &[(u16, u16)]) -> bool
    ensures { result ≡ list_all (is_valid_record level targets) gens.now }
{
    gens.iter()
        .all(|&entry| is_valid_record(level, targets, entry))
}

// Whether the entry is a target below `targets`, or another generator that is valid at the level.
fn is_valid_record(level: Level, targets: usize, entry: (u16, u16)) -> bool
    ensures { result ≡ is_valid_record level targets entry }
{
    let (operator, amount) = entry;
    if operator == level.target_operator() {
        return (amount as usize) < targets;
    }
    allowed(operator, level) && !is_bad_range(entry)
}

// The law that the names are valid, and that each field lies in its range. It does nothing.
fn heads_fit<H: OwnerHead>(heads: &[H])
    ensures named { AllByRecursion (λ h. IsName (H.name h)) heads.now }
    ensures fit { AllByRecursion H.IsFit heads.now }
{
    for head in heads {
        head.fits();
    }
}

/// The law that operators and amounts lie in the ranges of their fields. It does nothing.
pub(crate) fn gens_fit(gens: &[(u16, u16)])
    ensures { FitEntries gens.now }
{
    for entry in gens {
        entry_fits(*entry);
    }
}

fn entry_fits(_entry: (u16, u16))
    ensures { FitsEntry _entry }
{}

// The law that the numbers of modulators lie in the ranges of their fields. It does nothing.
fn mods_fit(mods: &[Modulator])
    ensures { AllByRecursion FitsModulator mods.now }
{
    for modulator in mods {
        modulator_fits(*modulator);
    }
}
