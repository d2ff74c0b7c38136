//! Tests of `Bank`: its getters, a bank read from a file and a bank built from parts.

use bank_core::{
    Bank, GlobalZone, Head, InfoId, Kind, List, Owner, Owners, Part, Parts, PartsFault, Place,
    Sample, Texts, Zone, ZoneOwner, is_valid,
};
use bank_linked_members::LinkedMembers;
use bank_parts::OwnerHead;
use base_numbered_lists::NumberedList;
use generators::{GenMap, Level};
use sample_view::Points;
use sf_base::{BorrowedBytes, Failure, Name20, OutOfMemory};
use sf_reader::read;
use sf_writer::{encoded_len, write};
use std::alloc::Global;
use std::test::Fail;
use test_inputs::{File, many_points, tone, wide};

/// Whether the getters return the presets, instruments, samples and texts of `wide`.
fn returns_members(bank: &Bank<'_>) -> bool {
    let counts = [List::Presets, List::Instruments, List::Samples].map(|list| bank.count(list));
    bank.minor() == 4
        && bank.info(InfoId::Engine) == b"EMU8000".as_slice()
        && bank.info(InfoId::Software).is_empty()
        && counts == [2, 3, 1]
        && bank.presets().len() == 2
        && bank.instruments().len() == 3
        && bank.samples().len() == 1
        && bank
            .sample(0)
            .is_some_and(|sample| sample.points.len() == 3)
        && bank.sample(1).is_none()
        && bank
            .inst_name(1)
            .is_some_and(|name| name.bytes() == b"c".as_slice())
        && bank
            .head(1)
            .is_some_and(|head| head.bank == 128 && head.morphology == 3)
        && bank.head(2).is_none()
}

/// Whether the getters return the zones of `wide`.
fn returns_zones(bank: &Bank<'_>) -> bool {
    let (preset, instrument) = (Owner::Preset(0), Owner::Inst(2));
    bank.zone_count(preset) == Some(1)
        && bank.zone_count(instrument) == Some(2)
        && bank.zone_count(Owner::Inst(3)).is_none()
        && bank.target(preset, 0) == Some(2)
        && bank.target(preset, 1).is_none()
        && bank.gen_of(preset, Place::Zone(0), 51) == Some(0xfff4)
        && bank.gen_of(preset, Place::Global, 51).is_none()
        && bank.gen_of(Owner::Inst(0), Place::Global, 54) == Some(1)
        && bank.gen_at(instrument, Place::Zone(0), 1) == Some((44, 0x4001))
        && bank.gen_at(instrument, Place::Zone(0), 3).is_none()
        && bank
            .mod_at(preset, Place::Global, 0)
            .is_some_and(|modulator| modulator.amount == 1)
        && bank
            .mod_at(Owner::Inst(0), Place::Zone(0), 1)
            .is_some_and(|modulator| modulator.amount == -2)
        && bank.mod_at(instrument, Place::Zone(1), 0).is_none()
}

/// Whether the getters return the instrument records of `tone`: one bag, whose target is a generator record.
fn returns_records(bank: &Bank<'_>) -> bool {
    let at = Level::Inst;
    let lengths = [Part::Heads, Part::Bags, Part::Gens, Part::Mods].map(|part| bank.rec_len(
        at, part,
    ));
    lengths == [2, 2, 3, 1]
        && bank.bag_of(at, 1) == Some(1)
        && bank.bag_of(at, 2).is_none()
        && bank.bag(at, 1) == Some((2, 0))
        && bank.bag(at, 2).is_none()
        && bank.gen_rec(at, 1) == Some((53, 0))
        && bank.gen_rec(at, 2) == Some((0, 0))
        && bank.gen_rec(at, 3).is_none()
        && bank
            .mod_rec(at, 0)
            .is_some_and(|modulator| modulator.source == 0)
        && bank.mod_rec(at, 1).is_none()
}

/// Whether the canonical file of the bank is this file.
pub(crate) fn is_written(alloc: Global, bank: &Bank<'_>, file: &File) -> bool {
    let mut out = Vec::new(alloc);
    encoded_len(bank) == file.bytes().len() as u64
        && write(bank, &mut out).is_ok()
        && out.as_slice() == file.bytes()
}

/// Whether the canonical files of the bank and of its copy are both this file.
fn is_copied(alloc: Global, bank: &Bank<'_>, file: &File) -> bool {
    match bank.copy(alloc) {
        Ok(copy) => is_written(alloc, bank, file) && is_written(alloc, &copy, file),
        Err(OutOfMemory) => false,
    }
}

#[test]
fn a_bank_that_is_read(rt: HostRuntime) {
    let file = wide();
    let reported = match read(rt.alloc(), file.bytes()) {
        Ok((bank, _)) => returns_members(&bank)
            && returns_zones(&bank)
            && is_copied(rt.alloc(), &bank, &file),
        Err(_) => false,
    };
    assert!(rt; reported);
}

#[test]
fn the_file_length_at_the_limit_of_points(rt: HostRuntime) -> Result<(), Fail> {
    let file = many_points(rt.alloc(), 10_000, 0)?;
    let length = match read(rt.alloc(), &file) {
        Ok((bank, _)) => encoded_len(&bank),
        Err(_) => 0,
    };
    // 80 bytes are records of its preset and its instrument.
    assert!(rt; length == 1_000_460_308 + 80);
    Ok(())
}

fn global(alloc: Global) -> GlobalZone {
    GlobalZone {
        gens: GenMap::new(alloc),
        mods: NumberedList::new(alloc),
    }
}

/// A list of one zone, with one generator or none.
fn one_zone(
    alloc: Global,
    target: u16,
    operator: Option<u16>,
) -> Result<NumberedList<Zone>, OutOfMemory> {
    let mut gens = GenMap::new(alloc);
    if let Some(operator) = operator {
        gens.set(operator, 1)?;
    }
    one(
        alloc,
        Zone {
            target,
            gens,
            mods: NumberedList::new(alloc),
        },
    )
}

pub(crate) fn one<T: Drop>(alloc: Global, member: T) -> Result<NumberedList<T>, OutOfMemory> {
    let mut members = Vec::new(alloc);
    members.push(member)?;
    Ok(NumberedList::from_vec(members))
}

/// A list of one preset or instrument, with these zones.
fn one_owner<H: OwnerHead>(
    alloc: Global,
    head: H,
    zones: NumberedList<Zone>,
) -> Result<Owners<H>, Fail> {
    let mut owners = Owners::with_capacity(alloc, 1)?;
    let owner = ZoneOwner {
        head,
        global: global(alloc),
        zones,
    };
    if !owners.has_room_for(&owner) {
        return Err("no room".into());
    }
    owners.push(owner)?;
    Ok(owners)
}

/// The head of a preset of this name, with all numbers 0.
pub(crate) fn head(name: Name20) -> Head {
    Head {
        name,
        number: 0,
        bank: 0,
        library: 0,
        genre: 0,
        morphology: 0,
    }
}

fn preset(alloc: Global, name: Name20) -> Result<Owners<Head>, Fail> {
    one_owner(alloc, head(name), one_zone(alloc, 0, None)?)
}

fn instrument(alloc: Global, name: Name20, target: u16) -> Result<Owners<Name20>, Fail> {
    one_owner(alloc, name, one_zone(alloc, target, Some(54))?)
}

pub(crate) fn sample<'a>(
    alloc: Global,
    name: Name20,
    points: Points<'a>,
) -> Result<LinkedMembers<Sample<'a>>, OutOfMemory> {
    let members = one(
        alloc,
        Sample {
            name,
            points,
            looped: Some((1, 3)),
            rate: 44_100,
            key: 60,
            correction: 0,
            kind: Kind::Mono,
        },
    )?;
    Ok(LinkedMembers::from_vec(members.into_vec()))
}

/// The texts of a bank: the engine is EMU8000, the others are empty.
pub(crate) fn texts<'a>() -> Texts<'a> {
    Texts {
        engine: BorrowedBytes::new(b"EMU8000"),
        name: BorrowedBytes::new(b""),
        date: BorrowedBytes::new(b""),
        engineers: BorrowedBytes::new(b""),
        product: BorrowedBytes::new(b""),
        copyright: BorrowedBytes::new(b""),
        comment: BorrowedBytes::new(b""),
        software: BorrowedBytes::new(b""),
    }
}

/// The parts of `tone`, with this target of the instrument's zone.
fn tone_parts<'a>(alloc: Global, target: u16) -> Result<Parts<'a>, Fail> {
    let points = Points::of_slice(alloc, b"\xe8\x03\xd0\x07\x30\xf8")?;
    let samples = sample(alloc, Name20::from_bytes(b"t")?, points)?;
    let instruments = instrument(alloc, Name20::from_bytes(b"i")?, target)?;
    Ok(Parts {
        minor: 4,
        texts: texts(),
        presets: preset(alloc, Name20::from_bytes(b"p")?)?,
        instruments,
        samples,
    })
}

#[test]
fn a_bank_of_parts(rt: HostRuntime) -> Result<(), Fail> {
    let parts = tone_parts(rt.alloc(), 0)?;
    assert!(rt; is_valid(&parts));
    let written = match Bank::from_parts(rt.alloc(), parts) {
        Ok(bank) => returns_records(&bank) && is_copied(rt.alloc(), &bank, &tone()),
        Err(_) => false,
    };
    assert!(rt; written);
    Ok(())
}

#[test]
fn invalid_parts_are_rejected(rt: HostRuntime) -> Result<(), Fail> {
    let parts = tone_parts(rt.alloc(), 1)?;
    assert!(rt; !is_valid(&parts));
    let invalid = matches!(
        Bank::from_parts(rt.alloc(), parts),
        Err(PartsFault::Invalid)
    );
    assert!(rt; invalid);
    Ok(())
}
