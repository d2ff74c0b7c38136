//! Tests of calls of the lower crates that no run of the program makes.
use bank_core::PartsFault;
use base_numbered_lists::{NumberedList, Renumbering, insert_within, move_within};
use base_outputs::WriteFault;
use generators::{GenMap, Level, Range, allowed, default_of};
use hydra_records::{Bag, Generator, Table};
use modulators::{DEFAULT_VELOCITY, Modulator};
use riff_chunks::Truncated;
use sample_view::Points;
use sf_base::{NameFault, OutOfMemory};
use std::alloc::{AllocError, Global};
use std::fmt::Display;
use std::test::Fail;

#[test]
fn a_list_is_extended(rt: HostRuntime) -> Result<(), Fail> {
    let mut list = NumberedList::new(rt.alloc());
    assert!(rt; list.is_empty());
    list.push(10u16)?;
    list.push(20)?;
    assert!(rt; list.len() == 2 && list.as_slice() == [10, 20].as_slice());
    let list = NumberedList::from_vec(list.into_vec());
    assert!(rt; list.as_slice() == [10, 20].as_slice());
    Ok(())
}

#[test]
fn a_list_is_changed_in_place(rt: HostRuntime) -> Result<(), Fail> {
    let mut members = [10u16, 20, 30].to_vec(rt.alloc())?;
    move_within(members.as_mut_slice(), 0, 2);
    assert!(rt; members.as_slice() == [20, 30, 10].as_slice());
    move_within(members.as_mut_slice(), 2, 1);
    assert!(rt; members.as_slice() == [20, 10, 30].as_slice());
    members.try_reserve(1)?;
    insert_within(&mut members, 1, 15);
    assert!(rt; members.as_slice() == [20, 15, 10, 30].as_slice());
    Ok(())
}

#[test]
fn numbers_follow_a_list(rt: HostRuntime) {
    let inserted = Renumbering::Insertion { at: 2 };
    assert!(rt; inserted.number_after(1) == 1 && inserted.number_after(2) == 3);
    let removed = Renumbering::Removal { at: 2 };
    assert!(rt; removed.number_after(1) == 1 && removed.number_after(3) == 2);
    let moved = Renumbering::Move { from: 1, to: 3 };
    assert!(rt;
        moved.number_after(0) == 0 && moved.number_after(1) == 3 && moved.number_after(3) == 2
    );
    let moved_back = Renumbering::Move { from: 3, to: 1 };
    assert!(rt; moved_back.number_after(3) == 1 && moved_back.number_after(2) == 3);
}

/// The points 1 to 10.
const TEN: [u8; 20] = [1, 0, 2, 0, 3, 0, 4, 0, 5, 0, 6, 0, 7, 0, 8, 0, 9, 0, 10, 0];

/// Whether `points` has exactly these points.
fn has(points: &Points<'_>, want: &[i16]) -> bool {
    points.len() == want.len()
        && (0..points.len()).all(|index| want.get(index) == Some(&points.point(index)))
}

/// The low byte of the point at `index`, read from the slice that holds it.
fn low_byte_in_slice(points: &Points<'_>, index: usize) -> Option<u8> {
    if index >= points.len() {
        return None;
    }
    let (bytes, position) = points.slice_at(index);
    Some(bytes[2 * position])
}

#[test]
fn points_are_narrowed_and_joined(rt: HostRuntime) -> Result<(), Fail> {
    let mut points = Points::of_slice(rt.alloc(), &TEN)?;
    assert!(rt; points.len() == 10);
    let (front, back) = points.narrow(rt.alloc(), 2, 3)?;
    assert!(rt; has(&points, &[3, 4, 5, 6, 7]) && has(&front, &[1, 2]) && has(&back, &[8, 9, 10]));
    assert!(rt; points.join(front, back).is_ok());
    assert!(rt; has(&points, &[1, 2, 3, 4, 5, 6, 7, 8, 9, 10]));
    Ok(())
}

#[test]
fn points_of_other_slices_are_joined(rt: HostRuntime) -> Result<(), Fail> {
    let mut points = Points::of_slice(rt.alloc(), &TEN)?;
    let front = Points::of_slice(rt.alloc(), &[11, 0])?;
    let back = Points::of_slice(rt.alloc(), &[0x30, 0xf8])?;
    assert!(rt; points.len() == 10 && front.len() == 1 && back.len() == 1);
    assert!(rt; points.join(front, back).is_ok());
    assert!(rt; has(&points, &[11, 1, 2, 3, 4, 5, 6, 7, 8, 9, 10, -2000]));
    let low_bytes = [0, 1, 10, 11].map(|index| low_byte_in_slice(&points, index));
    assert!(rt; low_bytes == [Some(11), Some(1), Some(10), Some(0x30)]);
    let pieces: [&[u8]; 3] = [&[11, 0], &TEN, &[0x30, 0xf8]];
    assert!(rt; points.copy(rt.alloc())?.pieces() == pieces.as_slice());
    Ok(())
}

#[test]
fn points_are_whole_words(rt: HostRuntime) {
    assert!(rt; Points::of_slice(rt.alloc(), &TEN[..19]).is_err());
    assert!(rt; Points::empty(rt.alloc()).is_empty());
}

#[test]
fn a_map_of_generators(rt: HostRuntime) -> Result<(), Fail> {
    let mut map = GenMap::new(rt.alloc());
    for operator in [17, 43, 44, 5, 17] {
        let _before = map.set(operator, operator + 100)?;
    }
    let entries = [(43, 143), (44, 144), (5, 105), (17, 117)];
    assert!(rt; map.len() == 4 && map.at(2) == Some((5, 105)) && map.at(4).is_none());
    assert!(rt; map.copy(rt.alloc())?.entries() == entries.as_slice());
    assert!(rt; map.set(17, 2)? == Some(117) && map.get(17) == Some(2) && map.get(48).is_none());
    assert!(rt; map.clear(17) == Some(2) && map.clear(17).is_none() && !map.is_empty());
    Ok(())
}

/// The operators allowed at both levels; below, those allowed in instruments only.
const BOTH_LEVELS: [u16; 37] = [
    5, 6, 7, 8, 9, 10, 11, 13, 15, 16, 17, 21, 22, 23, 24, 25, 26, 27, 28, 29, 30, 31, 32, 33, 34,
    35, 36, 37, 38, 39, 40, 43, 44, 48, 51, 52, 56,
];

const INSTRUMENT_ONLY: [u16; 13] = [0, 1, 2, 3, 4, 12, 45, 46, 47, 50, 54, 57, 58];

#[test]
fn operators(rt: HostRuntime) {
    for operator in 0..=65_535 {
        let both = BOTH_LEVELS.contains(&operator);
        let all = both || INSTRUMENT_ONLY.contains(&operator);
        assert!(rt; allowed(operator, Level::Preset) == both, "{operator}");
        assert!(rt; allowed(operator, Level::Inst) == all, "{operator}");
    }
    let zero = [0, 4, 12, 17, 37, 45, 48, 50, 51, 52, 54, 57].map(|operator| default_of(operator));
    assert!(rt; zero == [Some(0); 12]);
    let others = [33, 34, 35, 36, 38, 46, 47, 58, 56].map(|operator| default_of(operator));
    assert!(rt;
        others[..5] == [Some(-12000); 5] && others[5..8] == [Some(-1); 3] && others[8] == Some(100)
    );
    let none = [5, 11, 13, 16, 21, 32, 39, 43, 44, 49, 53, 55, 59, 65_535].map(
        |operator| default_of(operator),
    );
    assert!(rt; none == [None; 14]);
    let range = Range::of_amount(0x7f3c);
    assert!(rt;
        range.low == 60 && range.high == 127 && range.to_amount() == 0x7f3c && range.is_valid()
    );
    assert!(rt; range.contains(60) && !range.contains(59) && !Range::of_amount(0x8000).is_valid());
}

#[test]
fn modulators_and_tables(rt: HostRuntime) -> Result<(), Fail> {
    let (mut other, mut link) = (DEFAULT_VELOCITY, DEFAULT_VELOCITY);
    (other.amount, other.transform, link.source) = (-1, 2, 127);
    assert!(rt; DEFAULT_VELOCITY.same_identity(&other) && !other.same_identity(&link));
    assert!(rt; link.is_link() && !DEFAULT_VELOCITY.is_link());
    assert!(rt; Table::<Bag>::over(&[0; 5]).is_none());
    let bytes = [0x2b, 0, 0x24, 0x48, 0x35, 0, 0, 0];
    let table = Table::<Generator>::over(&bytes).ok_or("no table")?;
    let target = table.get(1).ok_or("no target")?;
    assert!(rt; table.len() == 2 && target.operator == 53 && table.get(2).is_none());
    assert!(rt; table.part(1, 2).iter().next() == Some(target) && table.part(2, 1).is_empty());
    Ok(())
}

/// Whether the error is displayed as this text.
fn is_displayed_as<T: Display + Drop>(alloc: Global, error: T, want: &str) -> bool {
    match format!(in alloc; "{error}") {
        Ok(text) => text.as_str() == want,
        Err(AllocError) => false,
    }
}

#[test]
fn errors_are_displayed(rt: HostRuntime) {
    let alloc = rt.alloc();
    assert!(rt; is_displayed_as(alloc, Truncated, "a chunk passes the end of its window"));
    assert!(rt; is_displayed_as(alloc, PartsFault::Invalid, "the parts are no valid bank"));
    assert!(rt; is_displayed_as(alloc, OutOfMemory, "out of memory"));
    assert!(rt;
        is_displayed_as(
            alloc,
            WriteFault { written: 7 },
            "write fault after 7 bytes"
        )
    );
    assert!(rt; is_displayed_as(alloc, NameFault::TooLong, "a name has at most 20 bytes"));
}
