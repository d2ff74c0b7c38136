//! The presets and the instruments of a file, with their zones (SoundFont 2.04, sections 7.2 to 7.9).
ghost use Rattle.std.specs.Prelude.{◌≡◌, ◌≤◌, ◌+◌, None, [], length, IfOk, OnOk};
ghost use Rattle.sf_base.specs.declared.limits.TheConstants.{RECORDS};
ghost use Rattle.bank_format.specs.FaultChecks.{PassesOrOutOfMemory, first_fault};
ghost use Rattle.bank_format.specs.ReadChecks.{count_checks, all_index_checks};
ghost use Rattle.sf_reader.specs.Bags.{counts_read, own_bags, checks_of_bags};
ghost use Rattle.sf_reader.specs.Owners.{added, AreSmall, AreOwnersSoFar, AppendsOwner, AreEnded, window_of, windows_of, owners_seen, owners_with_counts, zone_checks, bank_owners_seen, bank_owners_of, bank_owner_checks};

use crate::hydra::{LevelTables, Tables, row_count};
use crate::records::{RecordsSoFar, bag_count, empty_records};
use crate::zones::{NO_COUNTS, Targets, ZoneCounts, read_bags};
use bank_core::{FlatHeads, Recs};
use bank_format::{ReadFault, RecordedHead};
use bank_parts::Head;
use base_numbered_lists::NumberedList;
use sf_base::{Failure, Name20, OutOfMemory};
use std::alloc::Global;

/// The presets or the instruments read so far.
pub(crate) struct OwnersSoFar<H> {
    heads: Vec<H>,

    // The index of the first bag of each, and last the number of bags.
    first_bags: Vec<u16>,

    records: RecordsSoFar,

    // What was dropped or repaired in their zones.
    counts: ZoneCounts,
}

// Written by hand: a derived drop is inlined, and proved again, wherever a value is dropped.
impl<H: Drop> Drop for OwnersSoFar<H> {
    fn drop(self) {
        let OwnersSoFar {
            heads: _,
            first_bags: _,
            records: _,
            counts: _,
        } = self;
    }
}

impl<H: Drop> OwnersSoFar<H> {
    // Completes the lists with their terminals.
    fn ended(self) -> Result<OwnersRead<H>, OutOfMemory>
        requires { length self.first_bags.items ≡ length self.heads.items + 1 }
        ensures { IfOk result (λ read. AreEnded self read) }
    {
        let OwnersSoFar {
            heads,
            first_bags,
            records,
            counts,
        } = self;
        let records = records.ended()?;
        let heads = FlatHeads::new(NumberedList::from_vec(heads), first_bags).unwrap();
        Ok(OwnersRead {
            heads,
            records,
            counts,
        })
    }
}

/// The presets or the instruments of a file in flat lists, and what was dropped or repaired in their zones.
pub(crate) struct OwnersRead<H> {
    pub(crate) heads: FlatHeads<H>,
    pub(crate) records: Recs,
    pub(crate) counts: ZoneCounts,
}

// Written by hand, for the same reason.
impl<H: Drop> Drop for OwnersRead<H> {
    fn drop(self) {
        let OwnersRead {
            heads: _,
            records: _,
            counts: _,
        } = self;
    }
}

impl<H: Drop> OwnersRead<H> {
    /// Returns the heads and the records.
    pub(crate) fn into_lists(self) -> (FlatHeads<H>, Recs)
        ensures heads { result.0 ≡ self.heads }
        ensures records { result.1 ≡ self.records }
    {
        let OwnersRead {
            heads,
            records,
            counts: _,
        } = self;
        (heads, records)
    }
}

/// The presets and the instruments of a file.
#[derive(Drop)]
pub(crate) struct BankOwners {
    pub(crate) presets: OwnersRead<Head>,
    pub(crate) instruments: OwnersRead<Name20>,
}

/// Reads the presets, then the instruments. The target of each zone must exist.
pub(crate) fn read_bank_owners(
    alloc: Global,
    tables: &Tables,
) -> Result<BankOwners, Failure<ReadFault>>
    requires counts { first_fault (count_checks tables.now) ≡ None }
    requires indexes { first_fault (all_index_checks tables.now) ≡ None }
    ensures { PassesOrOutOfMemory bank_owners_seen result (bank_owner_checks tables.now) (bank_owners_of tables.now) }
{
    let instruments = Targets {
        count: row_count(&tables.instruments().heads),
        missing: ReadFault::BadInstrument,
    };
    let presets = read_owners(alloc, tables.presets(), instruments)?;
    let samples = Targets {
        count: row_count(tables.samples()),
        missing: ReadFault::BadSample,
    };
    let instruments = read_owners(alloc, tables.instruments(), samples)?;
    Ok(BankOwners {
        presets,
        instruments,
    })
}

// Reads the presets or the instruments; the targets of their zones must be in `targets`.
fn read_owners<H: RecordedHead>(
    alloc: Global,
    level: &LevelTables<H::Record>,
    targets: Targets,
) -> Result<OwnersRead<H>, Failure<ReadFault>>
    requires heads { length level.now.heads ≤ RECORDS }
    requires bags { length level.now.bags ≤ RECORDS }
    requires generators { length level.now.generators ≤ RECORDS }
    ensures { PassesOrOutOfMemory owners_seen result
        (zone_checks H.headers.level targets.count targets.missing (windows_of H.headers.first_bag level.now))
        (owners_with_counts H.headers level.now.heads (windows_of H.headers.first_bag level.now)) }
{
    let mut read = empty_owners(alloc, level)?;
    let mut heads = level.heads.iter();
    let Some(mut head) = heads.next() else {
        return Ok(read.ended()?);
    };
    for next in heads {
        read_owner(level, &head, &next, targets, &mut read)?;
        head = next;
    }
    Ok(read.ended()?)
}

// Empty lists with capacity for all records of the tables.
fn empty_owners<H: RecordedHead>(
    alloc: Global,
    level: &LevelTables<H::Record>,
) -> Result<OwnersSoFar<H>, OutOfMemory>
    ensures { IfOk result (λ read. AreOwnersSoFar read [] [] NO_COUNTS) }
{
    let heads = Vec::with_capacity(alloc, row_count(&level.heads))?;
    let mut first_bags = Vec::with_capacity(alloc, level.heads.len())?;
    first_bags.push(0)?;
    let records = empty_records(
        alloc,
        level.bags.len(),
        level.generators.len(),
        level.modulators.len(),
    )?;
    Ok(OwnersSoFar {
        heads,
        first_bags,
        records,
        counts: NO_COUNTS,
    })
}

// Reads one preset or instrument. Its bags end at the first bag of the next header.
fn read_owner<H: RecordedHead>(
    level: &LevelTables<H::Record>,
    head: &H::Record,
    next: &H::Record,
    targets: Targets,
    read: &mut OwnersSoFar<H>,
) -> Result<(), Failure<ReadFault>>
    requires bags { length level.now.bags ≤ RECORDS }
    requires generators { length level.now.generators ≤ RECORDS }
    requires counts { AreSmall (added read.old.counts (counts_read H.headers.level (window_of H.headers.first_bag level.now head.now next.now))) }
    ensures passes { PassesOrOutOfMemory (λ u. u) result
        (checks_of_bags H.headers.level targets.count targets.missing (window_of H.headers.first_bag level.now head.now next.now)) tt }
    ensures read { OnOk result (AppendsOwner read.old read.new (H.headers.read head.now)
        (own_bags H.headers.level (window_of H.headers.first_bag level.now head.now next.now))
        (counts_read H.headers.level (window_of H.headers.first_bag level.now head.now next.now))) }
{
    let bags = level.bags.part(H::first_bag(head) as usize, H::first_bag(next) as usize + 1);
    let counts = read_bags(
        H::LEVEL,
        &bags,
        &level.generators,
        &level.modulators,
        targets,
        &mut read.records,
    )?;
    read.heads.push(H::of_record(head))?;
    let past = bag_count(&read.records)?;
    read.first_bags.push(past)?;
    read.counts = add(read.counts, counts);
    Ok(())
}

/// Adds the counts.
pub(crate) fn add(a: ZoneCounts, b: ZoneCounts) -> ZoneCounts
    requires { AreSmall (added a b) }
    ensures { result ≡ added a b }
{
    ZoneCounts {
        zones: a.zones + b.zones,
        gens: a.gens + b.gens,
        ranges: a.ranges + b.ranges,
    }
}
