//! Reading the zones of presets and instruments from bags.
ghost use Rattle.std.specs.Prelude.{◌≡◌, ◌≤◌, ◌∷◌, [], length, nat_lt, slice_range, OnOk};
ghost use Rattle.sf_base.specs.declared.limits.TheConstants.{RECORDS};
ghost use Rattle.bank_format.specs.FaultChecks.{Passes, PassesOrOutOfMemory, check};
ghost use Rattle.bank_format.specs.Reading.{bagged, bags_in};
ghost use Rattle.sf_reader.specs.Bags.{counts_read, own_bags, zone_bags, checks_of_bags};
ghost use Rattle.sf_reader.specs.LaterBags.{AreFew, counts_with_later};
ghost use Rattle.sf_reader.specs.Records.{Appends};

use crate::bag::{GensRead, read_gens};
use crate::records::{RecordsSoFar, end_global, end_zone};
use bank_format::ReadFault;
use generators::Level;
use hydra_records::{Bag, Generator, Table};
use modulators::Modulator;
use sf_base::Failure;

/// What was dropped or repaired in the bags of a preset or an instrument.
#[derive(Clone, Copy, Debug, PartialEq, Eq)]
pub(crate) struct ZoneCounts {
    /// Zones without a target that were dropped. The first bag is not counted.
    pub(crate) zones: u64,
    /// Generator records that were dropped.
    pub(crate) gens: u64,
    /// Ranges that were repaired.
    pub(crate) ranges: u64,
}

/// The possible targets of the zones of a level.
#[derive(Clone, Copy)]
pub(crate) struct Targets {
    /// The number of targets.
    pub(crate) count: usize,

    /// The fault of a zone whose target does not exist.
    pub(crate) missing: ReadFault,
}

/// Nothing was dropped or repaired.
pub(crate) const NO_COUNTS: ZoneCounts = ZoneCounts {
    zones: 0,
    gens: 0,
    ranges: 0,
};

/// Reads the zones of a preset or an instrument, and appends their records. The last of `bags` only marks the end of
/// the bag before it.
///
/// Of the records before the first target, the last of each operator is kept if the level allows the operator. Ends
/// of ranges above 127 become 127, and ends in the wrong order are exchanged. The first bag is the global zone if it
/// has no target; a later bag without a target is dropped. Each target must exist.
pub(crate) fn read_bags(
    level: Level,
    bags: &Table<'_, Bag>,
    generators: &Table<'_, Generator>,
    modulators: &Table<'_, Modulator>,
    targets: Targets,
    records: &mut RecordsSoFar,
) -> Result<ZoneCounts, Failure<ReadFault>>
    requires bags { length bags.now ≤ RECORDS }
    requires generators { length generators.now ≤ RECORDS }
    ensures passes { PassesOrOutOfMemory (λ counts. counts) result
        (checks_of_bags level targets.count targets.missing (bags_in bags.now generators.now modulators.now))
        (counts_read level (bags_in bags.now generators.now modulators.now)) }
    ensures records { OnOk result (Appends records.old records.new (own_bags level (bags_in bags.now generators.now modulators.now))) }
{
    let mut rest = bags.iter();
    let Some(first) = rest.next() else {
        return Ok(NO_COUNTS);
    };
    let Some(second) = rest.next() else {
        return Ok(NO_COUNTS);
    };
    let (gens, mods) = bag_between(&first, &second, generators, modulators);
    let mut counts = read_first(level, &gens, &mods, targets, records)?;
    let mut start = second;
    for end in rest {
        let (gens, mods) = bag_between(&start, &end, generators, modulators);
        counts = read_later(level, &gens, &mods, targets, counts, records)?;
        start = end;
    }
    Ok(counts)
}

// The generators and the modulators of a bag, up to those of the next bag.
fn bag_between<'g, 'm>(
    start: &Bag,
    end: &Bag,
    generators: &Table<'g, Generator>,
    modulators: &Table<'m, Modulator>,
) -> (Table<'g, Generator>, Table<'m, Modulator>)
    ensures gens { result.0 ≡ slice_range generators.now start.now.gens end.now.gens }
    ensures mods { result.1 ≡ slice_range modulators.now start.now.mods end.now.mods }
{
    let gens = generators.part(start.gens as usize, end.gens as usize);
    let mods = modulators.part(start.mods as usize, end.mods as usize);
    (gens, mods)
}

// Reads the first bag. It is the global zone if it has no target.
fn read_first(
    level: Level,
    generators: &Table<'_, Generator>,
    modulators: &Table<'_, Modulator>,
    targets: Targets,
    records: &mut RecordsSoFar,
) -> Result<ZoneCounts, Failure<ReadFault>>
    ensures passes { PassesOrOutOfMemory (λ counts. counts) result
        (checks_of_bags level targets.count targets.missing (bagged generators.now modulators.now ∷ []))
        (counts_read level (bagged generators.now modulators.now ∷ [])) }
    ensures records { OnOk result (Appends records.old records.new (own_bags level (bagged generators.now modulators.now ∷ []))) }
{
    let start = records.gens.len();
    let GensRead {
        target,
        dropped,
        ranges,
    } = read_gens(&mut records.gens, level, generators)?;
    let counts = ZoneCounts {
        zones: 0,
        gens: dropped,
        ranges,
    };
    let Some(target) = target else {
        end_global(records, start, modulators)?;
        return Ok(counts);
    };
    check_target(target, targets)?;
    end_zone(records, (level.target_operator(), target), modulators)?;
    Ok(counts)
}

// Reads a later bag, and adds to the counts. It is dropped if it has no target.
fn read_later(
    level: Level,
    generators: &Table<'_, Generator>,
    modulators: &Table<'_, Modulator>,
    targets: Targets,
    counts: ZoneCounts,
    records: &mut RecordsSoFar,
) -> Result<ZoneCounts, Failure<ReadFault>>
    requires few { AreFew counts }
    requires generators { length generators.now ≤ RECORDS }
    ensures passes { PassesOrOutOfMemory (λ counts. counts) result
        (checks_of_bags level targets.count targets.missing (bagged generators.now modulators.now ∷ []))
        (counts_with_later level counts (bagged generators.now modulators.now ∷ [])) }
    ensures records { OnOk result (Appends records.old records.new (zone_bags level (bagged generators.now modulators.now ∷ []))) }
{
    let start = records.gens.len();
    let GensRead {
        target,
        dropped,
        ranges,
    } = read_gens(&mut records.gens, level, generators)?;
    let Some(target) = target else {
        records.gens.truncate(start);
        return Ok(ZoneCounts {
            zones: counts.zones + 1,
            ..counts
        });
    };
    check_target(target, targets)?;
    end_zone(records, (level.target_operator(), target), modulators)?;
    Ok(ZoneCounts {
        zones: counts.zones,
        gens: counts.gens + dropped,
        ranges: counts.ranges + ranges,
    })
}

// Checks that the target exists.
fn check_target(target: u16, targets: Targets) -> Result<(), ReadFault>
    ensures { Passes (λ u. u) result (check (nat_lt target targets.count) targets.missing ∷ []) tt }
{
    if target as usize >= targets.count {
        return Err(targets.missing);
    }
    Ok(())
}
