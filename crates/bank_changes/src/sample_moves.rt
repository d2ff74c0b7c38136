//! Several moves of samples, one after another, for the cost of one pass over the samples.
ghost use Rattle.std.specs.Prelude.{◌≡◌, ◌<◌, ◌≤◌, ◌+◌, ◌^◌, ◌++◌, ◌∷◌, [], All, IfOk, IfSome, OnOk, OnErr, length, slice_get, vec_len, vec_capacity};
ghost use Rattle.base_numbered_lists.specs.Moved.{moved};
ghost use Rattle.bank_parts.specs.Valid.{IsValid};
ghost use Rattle.bank_changes.specs.Samples.{sample_moved};
ghost use Rattle.bank_changes.specs.SampleMoves.{samples_moved, moved_names, names_along, list_moved, AreMoves, IsOrder};

use crate::sample_numbers::{numbers_after, renumber_links, renumber_targets};
use crate::samples::move_sample;
use bank_linked_members::LinkedMembers;
use bank_parts::{Parts, Sample, TryClone};
use base_numbered_lists::move_within;
use sf_base::{Name20, OutOfMemory};
use std::alloc::Global;

/// A move of sample `from` to number `to`.
#[derive(Clone, Copy, Debug, PartialEq, Eq)]
pub struct SampleMove {
    pub from: u32,
    pub to: u32,
}

// A pass over all samples takes about as long as this many moves, each of which moves the samples between two numbers.
const MANY_MOVES: usize = 32;

/// Moves samples in order, and returns the name of each before its move; the others keep their order, and targets and
/// links follow. A failed allocation changes nothing.
///
/// If they are many, only indexes are moved, and then each sample is put where its index is, and each target and link
/// is renumbered once.
pub fn move_samples(
    parts: &mut Parts<'_>,
    alloc: Global,
    moves: &[SampleMove],
) -> Result<Vec<Name20>, OutOfMemory>
    requires valid { IsValid parts.old }
    requires within { AreMoves (length parts.old.samples) moves.now }
    ensures change { OnOk result (parts.new ≡ samples_moved parts.old moves.now) }
    ensures names { IfOk result (λ names. names.items ≡ moved_names parts.old moves.now) }
    ensures err { OnErr result (parts.new ≡ parts.old) }
{
    if moves.len() < MANY_MOVES {
        return move_in_turn(parts, alloc, moves);
    }
    let numbers = numbers_after(alloc, parts.samples.len(), moves)?;
    let (names, mut samples) = arranged_samples(alloc, parts.samples.as_slice(), moves)?;
    renumber_links(&mut samples, &numbers);
    parts.samples = LinkedMembers::from_vec(samples);
    renumber_targets(&mut parts.instruments, &numbers);
    Ok(names)
}

// Moves each sample by itself.
fn move_in_turn(
    parts: &mut Parts<'_>,
    alloc: Global,
    moves: &[SampleMove],
) -> Result<Vec<Name20>, OutOfMemory>
    requires valid { IsValid parts.old }
    requires within { AreMoves (length parts.old.samples) moves.now }
    ensures change { OnOk result (parts.new ≡ samples_moved parts.old moves.now) }
    ensures names { IfOk result (λ names. names.items ≡ moved_names parts.old moves.now) }
    ensures err { OnErr result (parts.new ≡ parts.old) }
{
    let mut names = Vec::with_capacity(alloc, moves.len())?;
    for change in moves {
        let name = move_named(parts, *change);
        push_reserved(&mut names, name);
    }
    Ok(names)
}

// Moves a sample, and returns its name.
fn move_named(parts: &mut Parts<'_>, change: SampleMove) -> Name20
    requires valid { IsValid parts.old }
    requires from { change.from < length parts.old.samples }
    requires to { change.to < length parts.old.samples }
    ensures name { IfSome (slice_get parts.old.samples change.from) (λ s. result ≡ s.name) }
    ensures change { parts.new ≡ sample_moved parts.old change.from change.to }
{
    let name = parts.samples.as_slice()[change.from as usize].name;
    move_sample(parts, change.from, change.to);
    name
}

// Appends a name to a list with spare capacity.
fn push_reserved(names: &mut Vec<Name20>, name: Name20)
    requires { vec_len names.old < vec_capacity names.old }
    ensures items { names.new.items ≡ names.old.items ++ name ∷ [] }
    ensures len { vec_len names.new ≡ vec_len names.old + 1 }
    ensures room { vec_capacity names.old ≤ vec_capacity names.new }
{
    match names.push(name) {
        Ok(()) => {}
        Err(_) => unreachable!(),
    }
}

// The names of the moved samples, and copies of all samples in their order after the moves.
fn arranged_samples<'a>(
    alloc: Global,
    samples: &[Sample<'a>],
    moves: &[SampleMove],
) -> Result<(Vec<Name20>, Vec<Sample<'a>>), OutOfMemory>
    requires few { length samples.now < 2 ^ 32 }
    requires within { AreMoves (length samples.now) moves.now }
    ensures names { IfOk result (λ both. both.0.items ≡ names_along samples.now moves.now) }
    ensures samples { IfOk result (λ both. both.1.items ≡ list_moved samples.now moves.now) }
{
    let mut order = first_order(alloc, samples)?;
    let names = move_indexes(alloc, samples, &mut order, moves)?;
    let arranged = copies_in_order(alloc, samples, &order)?;
    Ok((names, arranged))
}

// The index of each sample.
fn first_order(alloc: Global, samples: &[Sample<'_>]) -> Result<Vec<u32>, OutOfMemory>
    requires { length samples.now < 2 ^ 32 }
    ensures { IfOk result (λ order. IsOrder samples.now order.items samples.now) }
{
    let count = samples.len() as u32;
    let mut order = Vec::with_capacity(alloc, samples.len())?;
    for index in 0..count {
        order.push(index)?;
    }
    Ok(order)
}

// Moves indexes of samples in order, and returns the name of each one's sample.
fn move_indexes(
    alloc: Global,
    samples: &[Sample<'_>],
    order: &mut [u32],
    moves: &[SampleMove],
) -> Result<Vec<Name20>, OutOfMemory>
    requires order { IsOrder samples.now order.old samples.now }
    requires within { AreMoves (length samples.now) moves.now }
    ensures order { OnOk result (IsOrder samples.now order.new (list_moved samples.now moves.now)) }
    ensures names { IfOk result (λ names. names.items ≡ names_along samples.now moves.now) }
{
    let mut names = Vec::with_capacity(alloc, moves.len())?;
    for change in moves {
        let name = move_index(samples, order, *change);
        names.push(name)?;
    }
    Ok(names)
}

// Moves the index of a sample, and returns its name.
fn move_index(samples: &[Sample<'_>], order: &mut [u32], change: SampleMove) -> Name20
    requires from { change.from < length order.old }
    requires to { change.to < length order.old }
    requires indexes { All (λ index. index < length samples.now) order.old }
    ensures order { order.new ≡ moved order.old change.from change.to }
    ensures name { IfSome (slice_get order.old change.from) (λ index. IfSome (slice_get samples.now index) (λ s. result ≡ s.name)) }
{
    let index = order[change.from as usize];
    move_within(order, change.from as usize, change.to as usize);
    samples[index as usize].name
}

// Copies of samples in the order of their indexes.
fn copies_in_order<'a>(
    alloc: Global,
    samples: &[Sample<'a>],
    order: &[u32],
) -> Result<Vec<Sample<'a>>, OutOfMemory>
    requires { All (λ index. index < length samples.now) order.now }
    ensures { IfOk result (λ copies. IsOrder samples.now order.now copies.items) }
{
    let mut copies = Vec::with_capacity(alloc, order.len())?;
    for index in order {
        copies.push(samples[*index as usize].try_clone(alloc)?)?;
    }
    Ok(copies)
}
