//! Reading a file as a bank.
ghost use Rattle.std.specs.Prelude.{◌≡◌, ◌%◌, length, IfOk, IfErr, OnOk};
ghost use Rattle.sf_base.specs.Fields.{field_at};
ghost use Rattle.bank_parts.specs.Valid.{IsValid};
ghost use Rattle.bank_parts.specs.Fits.{Fits};
ghost use Rattle.bank_format.specs.Ids.{SMPL};
ghost use Rattle.bank_format.specs.FaultChecks.{Passes, PassesOrOutOfMemory, Fails};
ghost use Rattle.bank_format.specs.Chunks.{body_in};
ghost use Rattle.bank_format.specs.Reading.{sm24_dropped};
ghost use Rattle.bank_format.specs.ReadChecks.{ReadsAs, fault_of};
ghost use Rattle.sf_reader.specs.Content.{list_content_checks, list_content, version_checks, early_table_checks, table_checks, table_content, content_with};
ghost use Rattle.sf_reader.specs.Owners.{added, AreSmall, bank_owners_seen};
ghost use Rattle.sf_reader.specs.FlatContent.{content_seen};

use crate::hydra::{HydraChunks, Tables, needed_body};
use crate::lists::{Lists, lists_of};
use crate::owners::{BankOwners, add, read_bank_owners};
use crate::samples::{
    check_samples, check_total, count_lost_links, count_lost_loops, read_samples,
};
use crate::texts::{count_too_long, texts_of, truncated_texts};
use bank_core::{Bank, Flat, Sample};
use bank_format::{Counts, ReadFault, read_banks_are_valid, window_of};
use bank_linked_members::LinkedMembers;
use riff_chunks::FirstChunks;
use sf_base::{Failure, u16_at};
use std::alloc::Global;

/// Reads the bank of a file, and counts what was dropped or repaired.
///
/// It returns the fault of the first check that the file fails. `OutOfMemory` may be returned for any file, if an
/// allocation for presets, instruments or samples fails.
///
/// The bank borrows its texts and the points of its samples from `file`. It is always valid.
pub fn read<'a>(alloc: Global, file: &'a [u8]) -> Result<(Bank<'a>, Counts), Failure<ReadFault>>
    ensures ok { IfOk result (λ r. ReadsAs file.now r.0 r.1) }
    ensures err { IfErr result (λ failure. Fails failure (fault_of file.now)) }
    ensures valid { IfOk result (λ r. IsValid r.0) }
    ensures fits { IfOk result (λ r. Fits r.0) }
{
    let window = window_of(
        file,
        *b"sfbk",
        ReadFault::NotRiff,
        ReadFault::Truncated,
        ReadFault::NotSfbk,
    )?;
    let lists = lists_of(window)?;
    let (flat, counts) = read_lists(alloc, &lists)?;
    read_banks_are_valid();
    Ok((Bank::from_sound_flat(flat), counts))
}

// Checks and reads the three lists.
fn read_lists<'a>(
    alloc: Global,
    lists: &Lists<'a>,
) -> Result<(Flat<'a>, Counts), Failure<ReadFault>>
    ensures { PassesOrOutOfMemory content_seen result (list_content_checks lists.now)
        (list_content lists.now) }
{
    let version = needed_body(&lists.info, *b"ifil")?;
    let bodies = HydraChunks::of(&lists.pdta)?;
    let minor = minor_of(version)?;
    let tables = bodies.tables()?;
    let smpl = smpl_of(&lists.sdta);
    read_tables(alloc, minor, lists, &tables, smpl)
}

// Returns the minor version; the major version must be 2 (SoundFont 2.04, section 5.1).
fn minor_of(ifil: &[u8]) -> Result<u16, ReadFault>
    ensures { Passes (λ minor. minor) result (version_checks ifil.now) (field_at 2 2 ifil.now) }
{
    if ifil.len() != 4 || u16_at(ifil, 0) != 2 {
        return Err(ReadFault::Version);
    }
    Ok(u16_at(ifil, 2))
}

// Returns the bytes of the points; none if the chunk is missing.
#[tactic(auto, unfolding(bank_format::specs::Ids::SMPL))]
fn smpl_of<'a>(sdta: &FirstChunks<'a>) -> &'a [u8]
    ensures { result.now ≡ body_in SMPL sdta.now }
{
    sdta.body_of(*b"smpl").unwrap_or(&[])
}

// Checks and reads the nine lists and the points.
fn read_tables<'a>(
    alloc: Global,
    minor: u16,
    lists: &Lists<'a>,
    tables: &Tables,
    smpl: &'a [u8],
) -> Result<(Flat<'a>, Counts), Failure<ReadFault>>
    ensures { PassesOrOutOfMemory content_seen result (table_checks tables.now smpl.now)
        (table_content minor lists.now tables.now smpl.now) }
{
    check_tables(tables, smpl)?;
    let members = read_bank_owners(alloc, tables)?;
    check_total(tables.samples())?;
    let samples = read_samples(alloc, tables.samples(), smpl)?;
    Ok(content_of(minor, lists, tables, members, samples))
}

// Makes the checks of the nine lists and the points that precede reading presets and instruments.
#[tactic(auto, unfolding(crate::specs::Content::early_table_checks))]
fn check_tables(tables: &Tables, smpl: &[u8]) -> Result<(), ReadFault>
    ensures passes { Passes (λ u. u) result (early_table_checks tables.now smpl.now) tt }
    ensures even { OnOk result (length smpl.now % 2 ≡ 0) }
{
    tables.check_counts()?;
    if smpl.len() % 2 != 0 {
        return Err(ReadFault::OddSamples);
    }
    tables.check_indexes()?;
    check_samples(tables.samples(), smpl.len() / 2)
}

// The flat lists of the bank, and the counts.
fn content_of<'a>(
    minor: u16,
    lists: &Lists<'a>,
    tables: &Tables,
    members: BankOwners,
    samples: LinkedMembers<Sample<'a>>,
) -> (Flat<'a>, Counts)
    requires { AreSmall (added members.presets.counts members.instruments.counts) }
    ensures { content_seen result ≡ content_with minor lists.now tables.now (bank_owners_seen members) samples.entry }
{
    let texts = texts_of(&lists.info);
    let zone_counts = add(members.presets.counts, members.instruments.counts);
    let counts = Counts {
        texts: count_too_long(&texts),
        sm24: count_sm24(&lists.sdta),
        zones: zone_counts.zones,
        gens: zone_counts.gens,
        ranges: zone_counts.ranges,
        loops: count_lost_loops(tables.samples()),
        links: count_lost_links(tables.samples()),
    };
    let BankOwners {
        presets,
        instruments,
    } = members;
    let (preset_heads, preset) = presets.into_lists();
    let (inst_heads, inst) = instruments.into_lists();
    let flat = Flat {
        minor,
        texts: truncated_texts(&texts),
        preset_heads,
        inst_heads,
        preset,
        inst,
        samples,
    };
    (flat, counts)
}

// Returns 1 if there is a chunk `sm24`, which is dropped.
#[tactic(auto, unfolding(bank_format::specs::Ids::SM24))]
fn count_sm24(sdta: &FirstChunks<'_>) -> u64
    ensures { result ≡ sm24_dropped sdta.now }
{
    u64::from(sdta.body_of(*b"sm24").is_some())
}
