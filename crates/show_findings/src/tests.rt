//! Tests of the findings of a small bank, by their lines.

use crate::finding::{Finding, Member};
use crate::findings::findings_of;
use crate::lines::FindingLines;
use bank_core::{
    Bank, GlobalZone, Head, Kind, Owner, Owners, Parts, Sample, Texts, Zone, ZoneOwner,
};
use bank_linked_members::LinkedMembers;
use bank_parts::OwnerHead;
use base_numbered_lists::NumberedList;
use base_texts::write_text;
use generators::GenMap;
use sample_view::Points;
use sf_base::{BorrowedBytes, Name20};
use std::alloc::Global;
use std::test::Fail;

/// The generators of a place: operators and amounts.
type Gens = &'static [(u16, u16)];

/// A zone: its target and its generators.
type ZoneRow = (u16, Gens);

const RANGE_10_TO_20: u16 = 10 + 256 * 20;

const RANGE_30_TO_40: u16 = 30 + 256 * 40;

const RANGE_50_TO_60: u16 = 50 + 256 * 60;

/// The findings of `bank`.
const LINES: &[u8] =
    b"preset 1 \"low\": hidden by preset 0, which has the same bank and number; repair: remove-preset 1
preset 1 0: no note selects this zone; repair: remove-zone preset 1 0
inst 1 1: no note selects this zone; repair: remove-zone inst 1 1
inst 2 \"off\": unused; repair: remove-inst 2
sample 1 \"right\": unused; repair: remove-sample 1
preset 0 \"low\": notes with the keys from 21 to 29 select nothing
inst 0 global: generator 48 is set by each zone too; repair: clear-gen inst 0 global 48
inst 0 1: generator 48 is outside its range: -5; repair: set-gen inst 0 1 48 0
sample 1 \"right\": linked with sample 0, which is not linked with it; repair: set-kind 0 left 1
sample 0 \"beat\": short loop (points: 2)
sample 1 \"right\": unusual rate 200
sample 0 \"beat\": clipped (points: 3)
sample 2 \"rest\": all points are 0
sample 3 \"rest too\": all points are 0
sample 3 \"rest too\": equal to sample 2, but for name and link
";

fn gens(alloc: Global, rows: Gens) -> Result<GenMap, Fail> {
    let mut gens = GenMap::new(alloc);
    for (operator, amount) in rows {
        gens.set(*operator, *amount)?;
    }
    Ok(gens)
}

fn zones(alloc: Global, rows: &[ZoneRow]) -> Result<NumberedList<Zone>, Fail> {
    let mut zones = Vec::new(alloc);
    for (target, rows) in rows {
        zones.push(Zone {
            target: *target,
            gens: gens(alloc, rows)?,
            mods: NumberedList::new(alloc),
        })?;
    }
    Ok(NumberedList::from_vec(zones))
}

fn push<H: OwnerHead>(
    alloc: Global,
    owners: &mut Owners<H>,
    head: H,
    global: Gens,
    rows: &[ZoneRow],
) -> Result<(), Fail> {
    let owner = ZoneOwner {
        head,
        global: GlobalZone {
            gens: gens(alloc, global)?,
            mods: NumberedList::new(alloc),
        },
        zones: zones(alloc, rows)?,
    };
    if !owners.has_room_for(&owner) {
        return Err("no room".into());
    }
    owners.push(owner)?;
    Ok(())
}

fn head(name: &[u8]) -> Result<Head, Fail> {
    Ok(Head {
        name: Name20::from_bytes(name)?,
        number: 0,
        bank: 0,
        library: 0,
        genre: 0,
        morphology: 0,
    })
}

/// Two presets of the same numbers.
fn presets(alloc: Global) -> Result<Owners<Head>, Fail> {
    let mut presets = Owners::with_capacity(alloc, 2)?;
    let low: [ZoneRow; 2] = [(0, &[(43, RANGE_10_TO_20)]), (0, &[(43, RANGE_30_TO_40)])];
    push(alloc, &mut presets, head(b"low")?, &[], &low)?;
    let hidden: [ZoneRow; 2] = [(1, &[(43, RANGE_50_TO_60)]), (1, &[(43, RANGE_10_TO_20)])];
    push(alloc, &mut presets, head(b"low")?, &[], &hidden)?;
    Ok(presets)
}

/// Three instruments, of which presets use two.
fn instruments(alloc: Global) -> Result<Owners<Name20>, Fail> {
    let mut instruments = Owners::with_capacity(alloc, 3)?;
    let rests: [ZoneRow; 2] = [(2, &[(48, 5)]), (3, &[(48, 0xfffb)])];
    push(
        alloc,
        &mut instruments,
        Name20::from_bytes(b"rests")?,
        &[(48, 10)],
        &rests,
    )?;
    let beats: [ZoneRow; 2] = [(0, &[(43, RANGE_10_TO_20)]), (0, &[(43, RANGE_30_TO_40)])];
    push(
        alloc,
        &mut instruments,
        Name20::from_bytes(b"beats")?,
        &[],
        &beats,
    )?;
    push(
        alloc,
        &mut instruments,
        Name20::from_bytes(b"off")?,
        &[],
        &[(0, &[])],
    )?;
    Ok(instruments)
}

fn sample<'a>(alloc: Global, name: &[u8], points: &'a [u8], rate: u32) -> Result<Sample<'a>, Fail> {
    Ok(Sample {
        name: Name20::from_bytes(name)?,
        points: Points::of_slice(alloc, points)?,
        looped: None,
        rate,
        key: 60,
        correction: 0,
        kind: Kind::Mono,
    })
}

fn samples<'a>(alloc: Global) -> Result<LinkedMembers<Sample<'a>>, Fail> {
    let mut samples = Vec::new(alloc);
    let mut beat = sample(alloc, b"beat", b"\xff\x7f\xff\x7f\xff\x7f\x05\x00", 44_100)?;
    beat.looped = Some((1, 3));
    samples.push(beat)?;
    let mut right = sample(alloc, b"right", b"\x01\x00\x02\x00", 200)?;
    right.kind = Kind::Right(0);
    samples.push(right)?;
    samples.push(sample(alloc, b"rest", b"\0\0\0\0", 44_100)?)?;
    samples.push(sample(alloc, b"rest too", b"\0\0\0\0", 44_100)?)?;
    Ok(LinkedMembers::from_vec(samples))
}

fn texts<'a>() -> Texts<'a> {
    Texts {
        engine: BorrowedBytes::new(b"EMU8000"),
        name: BorrowedBytes::new(b""),
        date: BorrowedBytes::new(b""),
        engineers: BorrowedBytes::new(b""),
        product: BorrowedBytes::new(b""),
        copyright: BorrowedBytes::new(b""),
        comment: BorrowedBytes::new(b""),
        software: BorrowedBytes::new(b""),
    }
}

fn parts<'a>(alloc: Global) -> Result<Parts<'a>, Fail> {
    Ok(Parts {
        minor: 4,
        texts: texts(),
        presets: presets(alloc)?,
        instruments: instruments(alloc)?,
        samples: samples(alloc)?,
    })
}

/// The lines of the findings of a bank.
fn lines_of(alloc: Global, bank: &Bank<'_>) -> Result<Vec<u8>, Fail> {
    let found = findings_of(alloc, bank)?;
    let lines = FindingLines {
        bank,
        findings: found.as_slice(),
    };
    let mut text = Vec::new(alloc);
    let _ = write_text(&lines, &mut text);
    Ok(text)
}

#[test]
fn the_lines_of_a_bank(rt: HostRuntime) -> Result<(), Fail> {
    let parts = parts(rt.alloc())?;
    let lines = match Bank::from_parts(rt.alloc(), parts) {
        Ok(bank) => lines_of(rt.alloc(), &bank)?,
        Err(_) => Vec::new(rt.alloc()),
    };
    assert!(rt; lines.as_slice() == LINES);
    Ok(())
}

#[test]
fn members_of_findings(rt: HostRuntime) {
    let zone = Finding::UnselectableZone {
        owner: Owner::Inst(3),
        zone: 1,
    };
    assert!(rt; zone.member() == Member::Instrument(3));
    let silent = Finding::SilentSample { sample: 2 };
    assert!(rt; silent.member() == Member::Sample(2));
}
