//! Tests of `Bank::from_flat`: the bank `tone`, with valid and invalid flat lists of its instrument.

use crate::banks::{head, is_written, one, sample, texts};
use bank_core::{Bank, Flat, FlatHeads, Recs};
use modulators::{DEFAULT_VELOCITY, Modulator};
use sample_view::Points;
use sf_base::{Name20, OutOfMemory};
use std::alloc::Global;
use std::test::Fail;
use test_inputs::tone;

/// The flat lists of one instrument: the index of its first bag and the number of bags; the bags; the generators.
type Lists = (&'static [u16], &'static [(u16, u16)], &'static [(u16, u16)]);

const TONE_LISTS: Lists = (&[0, 1], &[(0, 0), (2, 0)], &[(54, 1), (53, 0), (0, 0)]);

const REFUSED: [Lists; 17] = [
    // The number of bags is one too high and one too low; the first bag is not 0.
    (&[0, 2], &[(0, 0), (2, 0)], &[(54, 1), (53, 0), (0, 0)]),
    (&[0, 0], &[(0, 0), (2, 0)], &[(54, 1), (53, 0), (0, 0)]),
    (&[1, 1], &[(0, 0), (2, 0)], &[(54, 1), (53, 0), (0, 0)]),
    // Two more first bags than heads, and as many as heads.
    (&[0, 1, 1], &[(0, 0), (2, 0)], &[(54, 1), (53, 0), (0, 0)]),
    (&[0], &[(0, 0), (2, 0)], &[(54, 1), (53, 0), (0, 0)]),
    // The last bag ends before the generators do, the first begins after they do, and the indexes decrease.
    (&[0, 1], &[(0, 0), (1, 0)], &[(54, 1), (53, 0), (0, 0)]),
    (&[0, 1], &[(1, 0), (2, 0)], &[(54, 1), (53, 0), (0, 0)]),
    (
        &[0, 2],
        &[(0, 0), (3, 0), (2, 0)],
        &[(54, 1), (53, 0), (0, 0)],
    ),
    // An empty bag before the zone, and one after it.
    (
        &[0, 2],
        &[(0, 0), (0, 0), (2, 0)],
        &[(54, 1), (53, 0), (0, 0)],
    ),
    (
        &[0, 2],
        &[(0, 0), (2, 0), (2, 0)],
        &[(54, 1), (53, 0), (0, 0)],
    ),
    // A later bag without a target.
    (
        &[0, 2],
        &[(0, 0), (1, 0), (2, 0)],
        &[(53, 0), (54, 1), (0, 0)],
    ),
    // Operators not in order, the same operator twice, and a target before the last generator.
    (
        &[0, 1],
        &[(0, 0), (3, 0)],
        &[(54, 1), (52, 1), (53, 0), (0, 0)],
    ),
    (
        &[0, 1],
        &[(0, 0), (3, 0)],
        &[(54, 1), (54, 1), (53, 0), (0, 0)],
    ),
    (
        &[0, 1],
        &[(0, 0), (3, 0)],
        &[(53, 0), (54, 1), (53, 0), (0, 0)],
    ),
    // A terminal that is not all zeros.
    (&[0, 1], &[(0, 0), (2, 0)], &[(54, 1), (53, 0), (0, 1)]),
    // Invalid banks: a target that does not exist, and an operator not allowed in instruments.
    (&[0, 1], &[(0, 0), (2, 0)], &[(54, 1), (53, 1), (0, 0)]),
    (&[0, 1], &[(0, 0), (2, 0)], &[(41, 1), (53, 0), (0, 0)]),
];

const NONE: Modulator = Modulator {
    source: 0,
    dest: 0,
    amount: 0,
    amount_source: 0,
    transform: 0,
};

fn recs(
    alloc: Global,
    bags: &[(u16, u16)],
    gens: &[(u16, u16)],
    last: Modulator,
) -> Result<Recs, OutOfMemory> {
    Ok(Recs {
        bags: Vec::from_slice(alloc, bags)?,
        gens: Vec::from_slice(alloc, gens)?,
        mods: Vec::from_slice(alloc, &[last])?,
    })
}

// One head with these first bags; `None` unless there is one more of them than heads.
fn heads<H: Drop>(
    alloc: Global,
    head: H,
    first_bags: &[u16],
) -> Result<Option<FlatHeads<H>>, OutOfMemory> {
    let first_bags = Vec::from_slice(alloc, first_bags)?;
    Ok(FlatHeads::new(one(alloc, head)?, first_bags))
}

// The flat lists of `tone`, with these lists of its instrument.
fn tone_with<'a>(
    alloc: Global,
    inst_heads: FlatHeads<Name20>,
    inst: Recs,
) -> Result<Flat<'a>, Fail> {
    let preset_heads = heads(alloc, head(Name20::from_bytes(b"p")?), &[0, 1])?;
    let points = Points::of_slice(alloc, b"\xe8\x03\xd0\x07\x30\xf8")?;
    Ok(Flat {
        minor: 4,
        texts: texts(),
        preset_heads: preset_heads.ok_or("no preset")?,
        preset: recs(alloc, &[(0, 0), (1, 0)], &[(41, 0), (0, 0)], NONE)?,
        inst_heads,
        inst,
        samples: sample(alloc, Name20::from_bytes(b"t")?, points)?,
    })
}

// Whether the bank of these lists is `tone`; `last` is the terminal modulator.
fn is_accepted(alloc: Global, lists: Lists, last: Modulator) -> Result<bool, Fail> {
    let (first_bags, bags, gens) = lists;
    let Some(heads) = heads(alloc, Name20::from_bytes(b"i")?, first_bags)? else {
        return Ok(false);
    };
    let flat = tone_with(alloc, heads, recs(alloc, bags, gens, last)?)?;
    Ok(match Bank::from_flat(flat) {
        Some(bank) => is_written(alloc, &bank, &tone()),
        None => false,
    })
}

#[test]
fn a_bank_of_flat_lists(rt: HostRuntime) -> Result<(), Fail> {
    assert!(rt; is_accepted(rt.alloc(), TONE_LISTS, NONE)?);
    assert!(rt; !is_accepted(rt.alloc(), TONE_LISTS, DEFAULT_VELOCITY)?);
    for (row, lists) in REFUSED.into_iter().enumerate() {
        assert!(rt; !is_accepted(rt.alloc(), lists, NONE)?, "row {row}");
    }
    Ok(())
}
