//! Why two zones can't be joined.

use crate::remarks::Remarks;
use bank_changes::{Owner, Place};
use bank_core::Bank;
use bank_zone_ranges::Axis;

/// The generators of the key and the velocity range.
const KEY_RANGE: u16 = 43;

const VELOCITY_RANGE: u16 = 44;

/// The range of a zone that sets none: its low end, and 256 times its high end.
const WHOLE_RANGE: u16 = 127 << 8;

/// One more than the highest operator of a generator.
const OPERATORS: u16 = 61;

/// Two zones of an owner, of which the second is the next after the first.
#[derive(Clone, Copy)]
struct Pair {
    owner: Owner,
    first: u32,
    second: u32,
}

/// Says by what a zone and the next differ that can't be joined.
pub(crate) fn remark_on_join(
    bank: &Bank<'_>,
    owner: Owner,
    zone: u32,
    axis: Axis,
    remarks: &mut Remarks,
) {
    let pair = Pair {
        owner,
        first: zone,
        second: zone.saturating_add(1),
    };
    let targets = (
        bank.target(owner, pair.first),
        bank.target(owner, pair.second),
    );
    if let (Some(one), Some(other)) = targets {
        if one != other {
            put_targets(owner, one, other, remarks);
        } else if let Some(operator) = first_difference(bank, pair, range_operator(axis)) {
            put_generator(operator, remarks);
        } else {
            put_ranges(bank, pair, axis, remarks);
        }
    }
}

/// The range of a zone, its own or that of the global zone: its low end, and 256 times its high end.
pub(crate) fn range_of(bank: &Bank<'_>, owner: Owner, zone: u32, axis: Axis) -> u16 {
    let operator = range_operator(axis);
    let own = bank.gen_of(owner, Place::Zone(zone), operator);
    let common = bank.gen_of(owner, Place::Global, operator);
    own.or(common).unwrap_or(WHOLE_RANGE)
}

fn range_operator(axis: Axis) -> u16 {
    match axis {
        Axis::Key => KEY_RANGE,
        Axis::Vel => VELOCITY_RANGE,
    }
}

// The first generator of which two zones have not the same amount, but for that of a range.
fn first_difference(bank: &Bank<'_>, pair: Pair, range: u16) -> Option<u16> {
    for operator in 0..OPERATORS {
        let one = bank.gen_of(pair.owner, Place::Zone(pair.first), operator);
        let other = bank.gen_of(pair.owner, Place::Zone(pair.second), operator);
        if operator != range && one != other {
            return Some(operator);
        }
    }
    None
}

fn put_targets(owner: Owner, one: u16, other: u16, remarks: &mut Remarks) {
    match owner {
        Owner::Preset(_) => remarks.put(b"  They play different instruments: "),
        Owner::Inst(_) => remarks.put(b"  They play different samples: "),
    }
    remarks.put_number(one);
    remarks.put(b" and ");
    remarks.put_number(other);
    remarks.put(b". Only zones that play the same can become one.\n");
}

fn put_generator(operator: u16, remarks: &mut Remarks) {
    remarks.put(b"  They differ in generator ");
    remarks.put_number(operator);
    remarks.put(b": set it in both to the same amount by set-gen, or clear it by clear-gen.\n");
}

fn put_ranges(bank: &Bank<'_>, pair: Pair, axis: Axis, remarks: &mut Remarks) {
    remarks.put(b"  Their ranges are ");
    remarks.put_range(range_of(bank, pair.owner, pair.first, axis));
    remarks.put(b" and ");
    remarks.put_range(range_of(bank, pair.owner, pair.second, axis));
    remarks.put(b": the second must begin after the last of the first, and modulators be equal.\n");
}
