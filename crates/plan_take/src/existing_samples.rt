//! Samples of a bank that are equal to samples of the other bank. They are found by hash keys, and compared.
use crate::member_index::MemberIndex;
use crate::names::Names;
use crate::numbers::{number_of, renumbered_kind};
use crate::sample_matches::is_match;
use bank_core::{Kind, Sample};
use diff_orders::{EMPTY_KEY, with_number};
use sample_view::Points;
use sf_base::OutOfMemory;
use std::alloc::Global;

/// For each sample that is needed, the number of an equal one that the bank has, with the same link. A link to a sample
/// that isn't needed doesn't count.
pub(crate) fn existing_samples<'a>(
    alloc: Global,
    had: &[Sample<'a>],
    wanted: &[Sample<'a>],
    needed: &[bool],
) -> Result<Vec<Option<u16>>, OutOfMemory> {
    let alike = alike_samples(alloc, had, wanted, needed, Names::Compared)?;
    let mut numbers = Vec::with_capacity(alloc, wanted.len())?;
    for (i, sample) in wanted.iter().enumerate() {
        let kind = renumbered_kind(alike.as_slice(), kept_kind(sample.kind, needed));
        numbers.push(number_of_kind(had, number_of(alike.as_slice(), i), kind))?;
    }
    Ok(numbers)
}

/// For each sample that is needed, the number of the first one that is equal except for the number of its link.
pub(crate) fn alike_samples<'a>(
    alloc: Global,
    had: &[Sample<'a>],
    wanted: &[Sample<'a>],
    needed: &[bool],
    names: Names,
) -> Result<Vec<Option<u16>>, OutOfMemory> {
    let keys = sample_keys(alloc, had, names)?;
    let index = MemberIndex::new(alloc, keys.as_slice())?;
    let mut numbers = Vec::with_capacity(alloc, wanted.len())?;
    for (i, sample) in wanted.iter().enumerate() {
        let number = if needed.get(i) == Some(&true) {
            alike_sample(had, &index, sample, needed, names)
        } else {
            None
        };
        numbers.push(number)?;
    }
    Ok(numbers)
}

fn alike_sample(
    had: &[Sample<'_>],
    index: &MemberIndex,
    wanted: &Sample<'_>,
    needed: &[bool],
    names: Names,
) -> Option<u16> {
    let kind = kept_kind(wanted.kind, needed);
    let number = index.first(sample_key(wanted, kind, names))?;
    let sample = had.get(number)?;
    if names.are_equal(&sample.name, &wanted.name) && is_match(wanted, sample) {
        return u16::try_from(number).ok();
    }
    None
}

// The kind, or mono if the linked sample isn't needed.
fn kept_kind(kind: Kind, needed: &[bool]) -> Kind {
    match kind.link() {
        Some(link) if needed.get(usize::from(link)) == Some(&true) => kind,
        _ => Kind::Mono,
    }
}

// The number, if its sample is of this kind.
fn number_of_kind(samples: &[Sample<'_>], number: Option<u16>, kind: Kind) -> Option<u16> {
    let sample = samples.get(usize::from(number?))?;
    if sample.kind == kind {
        return number;
    }
    None
}

fn sample_keys(
    alloc: Global,
    samples: &[Sample<'_>],
    names: Names,
) -> Result<Vec<u64>, OutOfMemory> {
    let mut keys = Vec::with_capacity(alloc, samples.len())?;
    for sample in samples {
        keys.push(sample_key(sample, sample.kind, names))?;
    }
    Ok(keys)
}

// The key of a sample of this kind, whatever the number of its link.
fn sample_key(sample: &Sample<'_>, kind: Kind, names: Names) -> u64 {
    let key = names.with_name(points_key(&sample.points), &sample.name);
    let key = with_number(key, sample.rate.into());
    let key = with_number(key, sample.key.into());
    let key = with_number(key, sample.correction.cast_unsigned().into());
    let (first, end) = sample.looped.unwrap_or((0, 0));
    with_number(
        with_number(with_number(key, first.into()), end.into()),
        form_of(kind),
    )
}

/// A number for the form of a kind, whatever its link.
pub(crate) fn form_of(kind: Kind) -> u64 {
    match kind {
        Kind::Mono => 0,
        Kind::Right(_) => 1,
        Kind::Left(_) => 2,
        Kind::Linked(_) => 3,
    }
}

// How many points at each end of a sample are in its key, and how many between, at equal distances.
const ENDS: usize = 16;

const BETWEEN: usize = 64;

fn points_key(points: &Points<'_>) -> u64 {
    let count = points.len();
    let mut key = with_points_between(with_number(EMPTY_KEY, count as u64), points);
    for i in 0..count.min(ENDS) {
        key = with_point(key, points.point(i));
        key = with_point(key, points.point(count - 1 - i));
    }
    key
}

fn with_points_between(key: u64, points: &Points<'_>) -> u64 {
    let distance = points.len() / BETWEEN + 1;
    let mut key = key;
    for i in 0..BETWEEN {
        let at = distance.saturating_mul(i);
        if at < points.len() {
            key = with_point(key, points.point(at));
        }
    }
    key
}

fn with_point(key: u64, point: i16) -> u64 {
    with_number(key, point.cast_unsigned().into())
}
