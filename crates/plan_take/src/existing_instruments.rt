//! Instruments of a bank that are equal to instruments of the other bank. They are found by hash keys, and compared.
use crate::member_index::MemberIndex;
use crate::names::Names;
use crate::numbers::renumbered_target;
use crate::zone_matches::is_renumbered;
use bank_core::{Owners, ZonePlace};
use diff_orders::{EMPTY_KEY, with_number};
use modulators::Modulator;
use sf_base::{Name20, OutOfMemory};
use std::alloc::Global;

/// For each instrument that is needed, the number of an equal one that the bank has, given the numbers of samples.
pub(crate) fn existing_instruments(
    alloc: Global,
    had: &Owners<Name20>,
    wanted: &Owners<Name20>,
    needed: &[bool],
    samples: &[Option<u16>],
) -> Result<Vec<Option<u16>>, OutOfMemory> {
    let keys = instrument_keys(alloc, had)?;
    let index = MemberIndex::new(alloc, keys.as_slice())?;
    let mut numbers = Vec::with_capacity(alloc, wanted.len())?;
    for i in 0..wanted.len() {
        let number = if needed.get(i) == Some(&true) {
            existing_instrument(had, &index, wanted, i, samples)
        } else {
            None
        };
        numbers.push(number)?;
    }
    Ok(numbers)
}

fn existing_instrument(
    had: &Owners<Name20>,
    index: &MemberIndex,
    wanted: &Owners<Name20>,
    i: usize,
    samples: &[Option<u16>],
) -> Option<u16> {
    let j = index.first(instrument_key(wanted, i, Some(samples), Names::Compared))?;
    if is_renumbered(wanted, i, had, j, samples) && has_same_name(wanted, i, had, j) {
        return u16::try_from(j).ok();
    }
    None
}

fn has_same_name(a: &Owners<Name20>, i: usize, b: &Owners<Name20>, j: usize) -> bool {
    i < a.len() && j < b.len() && *a.head(i) == *b.head(j)
}

fn instrument_keys(alloc: Global, instruments: &Owners<Name20>) -> Result<Vec<u64>, OutOfMemory> {
    let mut keys = Vec::with_capacity(alloc, instruments.len())?;
    for i in 0..instruments.len() {
        keys.push(instrument_key(instruments, i, None, Names::Compared))?;
    }
    Ok(keys)
}

/// The key of instrument `i`, with its targets renumbered if numbers are given.
pub(crate) fn instrument_key(
    instruments: &Owners<Name20>,
    i: usize,
    samples: Option<&[Option<u16>]>,
    names: Names,
) -> u64 {
    if i >= instruments.len() {
        return EMPTY_KEY;
    }
    let key = names.with_name(EMPTY_KEY, instruments.head(i));
    let mut key = place_key(key, instruments, i, ZonePlace::Global);
    for k in 0..instruments.zone_count(i) {
        let target = instruments.target(i, k);
        let number = match samples {
            Some(samples) => renumbered_target(samples, target),
            None => target,
        };
        key = with_number(key, number.into());
        key = place_key(key, instruments, i, ZonePlace::Zone(k));
    }
    key
}

// The key with the generators and modulators of a place appended.
fn place_key(key: u64, instruments: &Owners<Name20>, i: usize, place: ZonePlace) -> u64 {
    if !instruments.has_place(i, place) {
        return key;
    }
    let entries = instruments.entries(i, place);
    let mods = instruments.mods(i, place);
    let key = with_number(key, entries.len() as u64);
    let key = entries.iter().fold(key, with_entry);
    let key = with_number(key, mods.len() as u64);
    mods.iter().fold(key, with_mod)
}

fn with_entry(key: u64, entry: &(u16, u16)) -> u64 {
    with_number(with_number(key, entry.0.into()), entry.1.into())
}

fn with_mod(key: u64, modulator: &Modulator) -> u64 {
    let amount = modulator.amount.cast_unsigned();
    let key = with_number(key, modulator.source.into());
    let key = with_number(key, modulator.dest.into());
    let key = with_number(key, amount.into());
    let key = with_number(key, modulator.amount_source.into());
    with_number(key, modulator.transform.into())
}
