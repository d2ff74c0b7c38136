//! Samples that are equal to earlier ones.

use crate::finding::Finding;
use crate::points::{PointFacts, mixed};
use bank_core::{Bank, Kind, Sample};
use bank_equality::same_points;
use sf_base::OutOfMemory;
use std::alloc::Global;

// A sample, and an earlier one that it is equal to.
#[derive(Clone, Copy, PartialEq, Eq, PartialOrd, Ord)]
struct EqualPair {
    sample: u32,
    to: u32,
}

// A hash of what equal samples have in common, and the number of a sample.
#[derive(Clone, Copy, PartialEq, Eq, PartialOrd, Ord)]
struct Hashed {
    hash: u64,
    sample: u32,
}

/// The samples that are equal to earlier ones.
pub(crate) fn equal_samples(
    alloc: Global,
    bank: &Bank<'_>,
    facts: &[PointFacts],
) -> Result<Vec<Finding>, OutOfMemory> {
    let mut found = Vec::new(alloc);
    let pairs = equal_pairs(alloc, bank, facts)?;
    for pair in pairs.as_slice() {
        let (sample, to) = (pair.sample, pair.to);
        found.push(Finding::EqualSample { sample, to })?;
    }
    Ok(found)
}

// The samples that are equal to an earlier one but for their names and links, in ascending order, each with the first
// such one. Only samples with the same hash are compared.
fn equal_pairs(
    alloc: Global,
    bank: &Bank<'_>,
    facts: &[PointFacts],
) -> Result<Vec<EqualPair>, OutOfMemory> {
    let hashed = sorted_hashes(alloc, bank, facts)?;
    let mut pairs = Vec::new(alloc);
    let mut firsts = Vec::new(alloc);
    let mut hash = 0;
    for next in hashed.as_slice() {
        if next.hash != hash {
            firsts.clear();
            hash = next.hash;
        }
        push_pair(bank, next.sample, &mut firsts, &mut pairs)?;
    }
    pairs.as_mut_slice().sort_unstable();
    Ok(pairs)
}

// Appends the sample to the pairs, if it is equal to one of `firsts`, else to these.
fn push_pair(
    bank: &Bank<'_>,
    sample: u32,
    firsts: &mut Vec<u32>,
    pairs: &mut Vec<EqualPair>,
) -> Result<(), OutOfMemory> {
    match first_equal(bank, sample, firsts.as_slice()) {
        Some(to) => pairs.push(EqualPair { sample, to })?,
        None => firsts.push(sample)?,
    }
    Ok(())
}

fn first_equal(bank: &Bank<'_>, sample: u32, firsts: &[u32]) -> Option<u32> {
    let this = bank.sample(sample)?;
    for first in firsts {
        if is_equal_to(bank, this, *first) {
            return Some(*first);
        }
    }
    None
}

fn is_equal_to(bank: &Bank<'_>, sample: &Sample<'_>, other: u32) -> bool {
    match bank.sample(other) {
        Some(other) => are_equal(sample, other),
        None => false,
    }
}

// Whether two samples are equal, but for their names and links.
fn are_equal(first: &Sample<'_>, second: &Sample<'_>) -> bool {
    first.rate == second.rate
        && first.key == second.key
        && first.correction == second.correction
        && first.looped == second.looped
        && side(first.kind) == side(second.kind)
        && same_points(&first.points, &second.points)
}

// A kind without its link.
fn side(kind: Kind) -> u8 {
    match kind {
        Kind::Mono => 0,
        Kind::Right(_) => 1,
        Kind::Left(_) => 2,
        Kind::Linked(_) => 3,
    }
}

fn sorted_hashes(
    alloc: Global,
    bank: &Bank<'_>,
    facts: &[PointFacts],
) -> Result<Vec<Hashed>, OutOfMemory> {
    let mut hashed = Vec::new(alloc);
    let mut sample = 0u32;
    for fact in facts {
        if let Some(found) = bank.sample(sample) {
            let hash = hash_of(found, fact.hash);
            hashed.push(Hashed { hash, sample })?;
        }
        sample = sample.saturating_add(1);
    }
    hashed.as_mut_slice().sort_unstable();
    Ok(hashed)
}

// A hash of a sample without its name and link, from that of its points.
fn hash_of(sample: &Sample<'_>, points: u64) -> u64 {
    let (start, end) = sample.looped.unwrap_or((u32::MAX, 0));
    let hash = mixed(points, u64::from(sample.rate));
    let hash = mixed(hash, u64::from(sample.key));
    let hash = mixed(hash, u64::from(sample.correction.cast_unsigned()));
    let hash = mixed(hash, u64::from(start));
    let hash = mixed(hash, u64::from(end));
    mixed(hash, u64::from(side(sample.kind)))
}
