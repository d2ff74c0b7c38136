//! The bank `tone` as flat lists.
use bank_core::{Flat, FlatHeads, Head, Kind, Recs, Sample, Texts};
use bank_linked_members::LinkedMembers;
use base_numbered_lists::NumberedList;
use modulators::Modulator;
use sample_view::Points;
use sf_base::{BorrowedBytes, Name20, OutOfMemory};
use std::alloc::Global;

static POINTS: [u8; 6] = [0xe8, 0x03, 0xd0, 0x07, 0x30, 0xf8];

/// The terminal modulator of a list.
static LAST: [Modulator; 1] = [Modulator {
    source: 0,
    dest: 0,
    amount: 0,
    amount_source: 0,
    transform: 0,
}];

pub(crate) fn flat_tone(alloc: Global) -> Result<Flat<'static>, OutOfMemory> {
    let head = Head {
        name: name(b"p")?,
        number: 0,
        bank: 0,
        library: 0,
        genre: 0,
        morphology: 0,
    };
    Ok(Flat {
        minor: 4,
        texts: texts(),
        preset_heads: heads(alloc, head)?,
        preset: records(alloc, &[(0, 0), (1, 0)], &[(41, 0), (0, 0)])?,
        inst_heads: heads(alloc, name(b"i")?)?,
        inst: tone_records(alloc)?,
        samples: samples(alloc)?,
    })
}

/// The records of the instrument of `tone`.
pub(crate) fn tone_records(alloc: Global) -> Result<Recs, OutOfMemory> {
    records(alloc, &[(0, 0), (2, 0)], &[(54, 1), (53, 0), (0, 0)])
}

fn records(alloc: Global, bags: &[(u16, u16)], gens: &[(u16, u16)]) -> Result<Recs, OutOfMemory> {
    Ok(Recs {
        bags: Vec::from_slice(alloc, bags)?,
        gens: Vec::from_slice(alloc, gens)?,
        mods: Vec::from_slice(alloc, &LAST)?,
    })
}

// The records of one head.
fn heads<H: Drop>(alloc: Global, head: H) -> Result<FlatHeads<H>, OutOfMemory> {
    let mut heads = Vec::new(alloc);
    heads.push(head)?;
    let first_bags = Vec::from_slice(alloc, &[0, 1])?;
    FlatHeads::new(NumberedList::from_vec(heads), first_bags).ok_or(OutOfMemory)
}

fn name(text: &[u8]) -> Result<Name20, OutOfMemory> {
    match Name20::from_bytes(text) {
        Ok(name) => Ok(name),
        Err(_) => Err(OutOfMemory),
    }
}

fn texts() -> Texts<'static> {
    Texts {
        engine: BorrowedBytes::new(b"EMU8000"),
        name: BorrowedBytes::new(b""),
        date: BorrowedBytes::new(b""),
        engineers: BorrowedBytes::new(b""),
        product: BorrowedBytes::new(b""),
        copyright: BorrowedBytes::new(b""),
        comment: BorrowedBytes::new(b""),
        software: BorrowedBytes::new(b""),
    }
}

fn samples(alloc: Global) -> Result<LinkedMembers<Sample<'static>>, OutOfMemory> {
    let Ok(points) = Points::of_slice(alloc, &POINTS) else {
        return Err(OutOfMemory);
    };
    let mut samples = Vec::new(alloc);
    samples.push(Sample {
        name: name(b"t")?,
        points,
        looped: Some((1, 3)),
        rate: 44_100,
        key: 60,
        correction: 0,
        kind: Kind::Mono,
    })?;
    Ok(LinkedMembers::from_vec(samples))
}
