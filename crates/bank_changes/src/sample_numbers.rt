//! The numbers of samples after several moves, as a table, and the targets and links that are renumbered by it.
ghost use Rattle.std.specs.Prelude.{◌≡◌, ◌<◌, ◌≤◌, ◌^◌, All, IfOk, IfSome, length, map, slice_get};
ghost use Rattle.std.specs.List.{range_with_len};
ghost use Rattle.std.specs.Option.{IsSomeAnd};
ghost use Rattle.base_numbered_lists.specs.Moved.{moved, changed};
ghost use Rattle.bank_parts.specs.declared.owners.ZonePlace.TheVariants as place;
ghost use Rattle.bank_parts.specs.Owners.{HasPlace, target_at};
ghost use Rattle.bank_parts.specs.Renumbered.{sample_with, zone_with, owner_with};
ghost use Rattle.bank_parts.specs.Settings.{zones_changed};
ghost use Rattle.bank_changes.specs.SampleMoves.{AreMoves};
ghost use Rattle.bank_changes.specs.SampleNumbers.{AreNumbers, number_in, LinksBelow, TargetsBelow};

use crate::sample_moves::SampleMove;
use bank_parts::{OwnerHead, Owners, Sample};
use base_numbered_lists::move_within;
use sf_base::OutOfMemory;
use std::alloc::Global;

/// The number that each of `count` samples has after moves, by its number before them.
pub(crate) fn numbers_after(
    alloc: Global,
    count: usize,
    moves: &[SampleMove],
) -> Result<Vec<u16>, OutOfMemory>
    requires few { count ≤ 2 ^ 16 }
    requires within { AreMoves count moves.now }
    ensures { IfOk result (λ numbers. AreNumbers count moves.now numbers.items) }
{
    let mut numbers = first_numbers(alloc, count)?;
    move_numbers(numbers.as_mut_slice(), moves);
    Ok(numbers)
}

fn first_numbers(alloc: Global, count: usize) -> Result<Vec<u16>, OutOfMemory>
    requires { count ≤ 2 ^ 16 }
    ensures { IfOk result (λ numbers. numbers.items ≡ range_with_len 0 count) }
{
    let mut numbers = Vec::with_capacity(alloc, count)?;
    for number in 0..count {
        numbers.push(number as u16)?;
    }
    Ok(numbers)
}

// Makes a table without moves one of these moves. The table of all moves is that of the later ones, with the first move
// made backwards: so it begins with the last move.
fn move_numbers(numbers: &mut [u16], moves: &[SampleMove])
    requires numbers { numbers.old ≡ range_with_len 0 (length numbers.old) }
    requires within { AreMoves (length numbers.old) moves.now }
    ensures { AreNumbers (length numbers.old) moves.now numbers.new }
{
    let count = moves.len();
    for done in 0..count {
        move_number(numbers, moves[count - 1 - done]);
    }
}

fn move_number(numbers: &mut [u16], change: SampleMove)
    requires from { change.from < length numbers.old }
    requires to { change.to < length numbers.old }
    ensures { numbers.new ≡ moved numbers.old change.to change.from }
{
    move_within(numbers, change.to as usize, change.from as usize);
}

/// Renumbers the links of samples.
pub(crate) fn renumber_links(samples: &mut Vec<Sample<'_>>, numbers: &[u16])
    requires { All (LinksBelow (length numbers.now)) samples.old.items }
    ensures { samples.new.items ≡ map (sample_with (number_in numbers.now)) samples.old.items }
{
    renumber_each_link(samples.as_mut_slice(), numbers);
}

fn renumber_each_link(samples: &mut [Sample<'_>], numbers: &[u16])
    requires { All (LinksBelow (length numbers.now)) samples.old }
    ensures { samples.new ≡ map (sample_with (number_in numbers.now)) samples.old }
{
    for sample in samples.iter_mut() {
        renumber_link(sample, numbers);
    }
}

fn renumber_link(sample: &mut Sample<'_>, numbers: &[u16])
    requires { LinksBelow (length numbers.now) sample.old }
    ensures { sample.new ≡ sample_with (number_in numbers.now) sample.old }
{
    if let Some(link) = sample.kind.link() {
        sample.kind = sample.kind.with_link(numbers[link as usize]);
    }
}

/// Renumbers the targets of all zones.
pub(crate) fn renumber_targets<H: OwnerHead>(owners: &mut Owners<H>, numbers: &[u16])
    requires { All (TargetsBelow (length numbers.now)) owners.old }
    ensures { owners.new ≡ map (owner_with (number_in numbers.now)) owners.old }
{
    for i in 0..owners.len() {
        renumber_zones(owners, i, numbers);
    }
}

// Renumbers the targets of the zones of owner i.
fn renumber_zones<H: OwnerHead>(owners: &mut Owners<H>, i: usize, numbers: &[u16])
    requires { IsSomeAnd (slice_get owners.old i) (TargetsBelow (length numbers.now)) }
    ensures { owners.new ≡ changed owners.old i (owner_with (number_in numbers.now)) }
{
    for k in 0..owners.zone_count(i) {
        renumber_zone(owners, i, k, numbers);
    }
}

// Renumbers the target of a zone.
fn renumber_zone<H: OwnerHead>(owners: &mut Owners<H>, i: usize, k: usize, numbers: &[u16])
    requires there { HasPlace owners.old i (place.Zone k) }
    requires below { IfSome (target_at owners.old i k) (λ target. target < length numbers.now) }
    ensures { owners.new ≡ zones_changed owners.old i (λ zones. changed zones k (zone_with (number_in numbers.now))) }
{
    let target = owners.target(i, k);
    owners.set_target(i, k, numbers[target as usize]);
}
