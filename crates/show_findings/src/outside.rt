//! Generators whose amounts are outside the ranges of the standard.

use crate::finding::Finding;
use crate::gathering::{owners_of, push_option};
use crate::overridden::entries_of;
use bank_core::{Bank, Owner, Place};
use generator_rows::{DefaultAmount, GeneratorRow, row_of};
use generators::is_range_operator;
use generators::operators::{
    ATTACK_MOD_ENV, ATTACK_VOL_ENV, DELAY_MOD_ENV, DELAY_MOD_LFO, DELAY_VIB_LFO, DELAY_VOL_ENV,
    HOLD_MOD_ENV, HOLD_VOL_ENV,
};
use sf_base::OutOfMemory;
use std::alloc::Global;
use zone_select::zones_in;

/// The generators with amounts outside their ranges.
pub(crate) fn outside_ranges(alloc: Global, bank: &Bank<'_>) -> Result<Vec<Finding>, OutOfMemory> {
    let mut found = Vec::new(alloc);
    let owners = owners_of(alloc, bank)?;
    for owner in owners.as_slice() {
        push_outside_of(bank, *owner, &mut found)?;
    }
    Ok(found)
}

fn push_outside_of(
    bank: &Bank<'_>,
    owner: Owner,
    found: &mut Vec<Finding>,
) -> Result<(), OutOfMemory> {
    push_outside_at(bank, owner, Place::Global, found)?;
    for zone in 0..zones_in(bank, owner) {
        push_outside_at(bank, owner, Place::Zone(zone), found)?;
    }
    Ok(())
}

fn push_outside_at(
    bank: &Bank<'_>,
    owner: Owner,
    place: Place,
    found: &mut Vec<Finding>,
) -> Result<(), OutOfMemory> {
    for entry in entries_of(bank, owner, place) {
        let (operator, amount) = *entry;
        push_option(found, outside_range(owner, place, operator, amount))?;
    }
    Ok(())
}

fn outside_range(owner: Owner, place: Place, operator: u16, amount: u16) -> Option<Finding> {
    let (low, high) = amount_range(owner, operator)?;
    let signed = i32::from(amount.cast_signed());
    if low <= signed && signed <= high
        || is_default(operator, amount)
        || is_instant(operator, amount)
    {
        return None;
    }
    Some(Finding::OutsideRange {
        owner,
        place,
        operator,
        amount,
        nearest: signed.max(low).min(high),
    })
}

// The lowest and the highest amount of an operator in zones of an owner. Those of presets are added to those of
// instruments, so they may be as far from 0 as the ends of the range are apart.
fn amount_range(owner: Owner, operator: u16) -> Option<(i32, i32)> {
    if is_range_operator(operator) {
        return None;
    }
    Some(ends_in(owner, *row_of(operator)?))
}

fn ends_in(owner: Owner, row: GeneratorRow) -> (i32, i32) {
    let (low, high) = (i32::from(row.low), i32::from(row.high));
    match owner {
        Owner::Preset(_) => (low - high, high - low),
        Owner::Inst(_) => (low, high),
    }
}

// Whether the amount leaves out a delay, an attack or a hold, as -32,768 does by convention.
fn is_instant(operator: u16, amount: u16) -> bool {
    amount.cast_signed() == i16::MIN
        && matches!(
            operator,
            DELAY_MOD_LFO
                | DELAY_VIB_LFO
                | DELAY_MOD_ENV
                | ATTACK_MOD_ENV
                | HOLD_MOD_ENV
                | DELAY_VOL_ENV
                | ATTACK_VOL_ENV
                | HOLD_VOL_ENV
        )
}

// Whether the amount is the default of the operator.
fn is_default(operator: u16, amount: u16) -> bool {
    match row_of(operator) {
        Some(row) => is_default_of(row, amount),
        None => false,
    }
}

fn is_default_of(row: &GeneratorRow, amount: u16) -> bool {
    match row.default {
        DefaultAmount::Number(number) => amount.cast_signed() == number,
        DefaultAmount::WholeRange | DefaultAmount::Nothing => false,
    }
}
