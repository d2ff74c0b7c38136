//! The samples of a file (SoundFont 2.04, section 7.10).
ghost use Rattle.std.specs.Prelude.{◌≡◌, ◌+◌, ◌-◌, ◌%◌, ◌/◌, ◌==◌, not, flat_map, length, map, take, count_by, slice_range, IfOk};
ghost use Rattle.std.specs.Iterator.Adapters.{take_source, take_count};
ghost use Rattle.sample_view.specs.Words.{words};
ghost use Rattle.bank_format.specs.FaultChecks.{Passes};
ghost use Rattle.bank_format.specs.Windows.{without_terminal};
ghost use Rattle.bank_format.specs.Samples.{has_loop, loop_read, kind_read, sample_read, is_loop_lost, is_link_lost};
ghost use Rattle.bank_format.specs.Reading.{samples_read};
ghost use Rattle.bank_format.specs.ReadChecks.{sample_checks, total_checks};

use crate::hydra::row_count;
use bank_core::{Kind, Sample};
use bank_format::{ReadFault, name_of};
use bank_linked_members::LinkedMembers;
use hydra_records::{Records, SampleHead, Table};
use sample_view::Points;
use sf_base::limits::{POINTS, ZERO_POINTS};
use sf_base::{OutOfMemory, part_of};
use std::alloc::Global;
use std::iter::Take;

/// `sfSampleType` of a mono sample.
const MONO: u16 = 1;

/// `sfSampleType` of the right sample of a stereo pair.
const RIGHT: u16 = 2;

/// `sfSampleType` of the left sample of a stereo pair.
const LEFT: u16 = 4;

/// `sfSampleType` of a linked sample.
const LINKED: u16 = 8;

/// The bit of `sfSampleType` that marks packed points.
const PACKED: u16 = 0x0010;

/// The bit of `sfSampleType` that marks points in ROM.
const ROM: u16 = 0x8000;

// The headers of the samples without the terminal.
fn without_terminal<'a>(heads: &Table<'a, SampleHead>) -> Take<Records<'a, SampleHead>>
    ensures { take (take_count result) (take_source result) ≡ without_terminal heads.now }
{
    heads.iter().take(row_count(heads))
}

/// Checks that each sample can be read, where `points` is the number of points in the file.
pub(crate) fn check_samples(heads: &Table<SampleHead>, points: usize) -> Result<(), ReadFault>
    ensures { Passes (λ u. u) result (flat_map (sample_checks points) (without_terminal heads.now)) tt }
{
    for head in without_terminal(heads) {
        check_sample(&head, points)?;
    }
    Ok(())
}

// Checks that the sample is neither packed (fault 15) nor in ROM (16), and its range is within the points (14).
#[tactic(auto, unfolding(bank_format::specs::ReadChecks::sample_checks))]
fn check_sample(head: &SampleHead, points: usize) -> Result<(), ReadFault>
    ensures { Passes (λ u. u) result (sample_checks points head.now) tt }
{
    if is_packed(head.kind) {
        return Err(ReadFault::SampleType);
    }
    if is_in_rom(head.kind) {
        return Err(ReadFault::RomSample);
    }
    if head.end < head.start || points < head.end as usize {
        return Err(ReadFault::SampleRange);
    }
    Ok(())
}

/// Checks that the points of all samples, with the zero points after each, are not too many.
#[tactic(auto, unfolding(bank_format::specs::ReadChecks::total_checks))]
pub(crate) fn check_total(heads: &Table<SampleHead>) -> Result<(), ReadFault>
    ensures { Passes (λ u. u) result (total_checks (without_terminal heads.now)) tt }
{
    let mut total = 0;
    for head in without_terminal(heads) {
        total += u64::from(point_count(&head)) + ZERO_POINTS as u64;
        if total > POINTS {
            return Err(ReadFault::TooMany);
        }
    }
    Ok(())
}

// The number of points of a sample.
fn point_count(head: &SampleHead) -> u32
    ensures { result ≡ head.now.end - head.now.start }
{
    head.end.saturating_sub(head.start)
}

/// Reads the samples. They borrow their points from `smpl`.
pub(crate) fn read_samples<'a>(
    alloc: Global,
    heads: &Table<SampleHead>,
    smpl: &'a [u8],
) -> Result<LinkedMembers<Sample<'a>>, OutOfMemory>
    requires { length smpl.now % 2 ≡ 0 }
    ensures { IfOk result (λ samples. samples ≡ samples_read (words smpl.now) (without_terminal heads.now)) }
{
    let count = row_count(heads);
    let mut samples = Vec::with_capacity(alloc, count)?;
    for head in without_terminal(heads) {
        samples.push(read_sample(alloc, &head, count, smpl))?;
    }
    Ok(LinkedMembers::from_vec(samples))
}

// Reads one of `count` samples.
#[tactic(auto, unfolding(bank_format::specs::Samples::sample_read))]
fn read_sample<'a>(alloc: Global, head: &SampleHead, count: usize, smpl: &'a [u8]) -> Sample<'a>
    requires { length smpl.now % 2 ≡ 0 }
    ensures { result ≡ sample_read count (words smpl.now) head.now }
{
    Sample {
        name: name_of(&head.name),
        points: points_of(alloc, head, smpl),
        looped: loop_of(head),
        rate: head.rate,
        key: head.key,
        correction: head.correction,
        kind: kind_of(head, count),
    }
}

// The points of the sample, borrowed from `smpl`.
fn points_of<'a>(alloc: Global, head: &SampleHead, smpl: &'a [u8]) -> Points<'a>
    requires { length smpl.now % 2 ≡ 0 }
    ensures { result ≡ slice_range (words smpl.now) head.now.start head.now.end }
{
    let start = head.start as usize;
    let count = point_count(head) as usize;
    Points::of_slice(alloc, part_of(smpl, 2 * start, 2 * count)).unwrap()
}

// Whether the loop is not empty, and inside the sample.
fn has_loop(head: &SampleHead) -> bool
    ensures { result ≡ has_loop head.now }
{
    head.start <= head.loop_start && head.loop_start < head.loop_end && head.loop_end <= head.end
}

// The loop relative to the start of the sample, if there is one.
#[tactic(auto, unfolding(bank_format::specs::Samples::loop_read))]
fn loop_of(head: &SampleHead) -> Option<(u32, u32)>
    ensures { result ≡ loop_read head.now }
{
    if !has_loop(head) {
        return None;
    }
    Some((head.loop_start - head.start, head.loop_end - head.start))
}

// The kind of the sample, one of `count`.
#[tactic(auto, unfolding(bank_format::specs::Samples::kind_read))]
fn kind_of(head: &SampleHead, count: usize) -> Kind
    ensures { result ≡ kind_read count head.now }
{
    if head.link as usize >= count {
        return Kind::Mono;
    }
    match head.kind {
        RIGHT => Kind::Right(head.link),
        LEFT => Kind::Left(head.link),
        LINKED => Kind::Linked(head.link),
        _ => Kind::Mono,
    }
}

/// Returns how many loops are dropped: those that are not inside their sample, unless their ends are equal.
pub(crate) fn count_lost_loops(heads: &Table<SampleHead>) -> u64
    ensures { result ≡ count_by is_loop_lost (without_terminal heads.now) }
{
    without_terminal(heads)
        .filter(|head| is_loop_lost(head))
        .count() as u64
}

// Whether the loop is dropped.
#[tactic(auto, unfolding(bank_format::specs::Samples::is_loop_lost))]
fn is_loop_lost(head: &SampleHead) -> bool
    ensures { result ≡ is_loop_lost head.now }
{
    !has_loop(head) && head.loop_start != head.loop_end
}

/// Returns how many samples have an unknown type other than 0, or a link to a sample that does not exist.
pub(crate) fn count_lost_links(heads: &Table<SampleHead>) -> u64
    ensures { result ≡ count_by (is_link_lost (length (without_terminal heads.now))) (without_terminal heads.now) }
{
    let count = row_count(heads);
    without_terminal(heads)
        .filter(|head| is_link_lost(head, count))
        .count() as u64
}

// Whether the sample has an unknown type other than 0, or a link to a sample that does not exist.
#[tactic(auto, unfolding(bank_format::specs::Samples::is_link_lost))]
fn is_link_lost(head: &SampleHead, count: usize) -> bool
    ensures { result ≡ is_link_lost count head.now }
{
    match head.kind {
        RIGHT | LEFT | LINKED => head.link as usize >= count,
        kind => kind != MONO && kind != 0,
    }
}

// Whether the points are packed.
fn is_packed(kind: u16) -> bool
    ensures { result ≡ not (kind / 16 % 2 == 0) }
{
    kind & PACKED != 0
}

// Whether the points are in ROM.
fn is_in_rom(kind: u16) -> bool
    ensures { result ≡ not (kind / 32768 % 2 == 0) }
{
    kind & ROM != 0
}
