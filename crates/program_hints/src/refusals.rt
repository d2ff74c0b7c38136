//! What a bank has in the place where an edit is refused.

use crate::joins::{range_of, remark_on_join};
use crate::numbers::numbered;
use crate::remarks::Remarks;
use crate::users::remark_on_users;
use bank_changes::{Owner, Place};
use bank_core::Bank;
use bank_parts::InfoId;
use bank_zone_ranges::Axis;
use edit_forms::{
    Edit, InstrumentStep, PointStep, PresetStep, SampleStep, SettingStep, Step, TextStep, ZoneStep,
};
use edit_refusals::{Cause, Refusal};

/// The generators of the target of a zone of a preset and of an instrument.
const INSTRUMENT: u16 = 41;

const SAMPLE: u16 = 53;

/// Says what the bank has in the place where an edit is refused.
pub fn remark_on_refusal(bank: &Bank<'_>, why: Refusal, edit: &Edit<'_>, remarks: &mut Remarks) {
    match (why, edit) {
        (Refusal::Of(cause), Edit::One(step)) => remark_on_step(bank, cause, step, remarks),
        (Refusal::GroupRefused(index, cause), Edit::Group(steps)) => {
            if let Some(step) = steps.as_slice().get(index) {
                remarks.line(&[b"Before the group:"]);
                remark_on_step(bank, cause, step, remarks);
            }
        }
        _ => {}
    }
}

fn remark_on_step(bank: &Bank<'_>, cause: Cause, step: &Step<'_>, remarks: &mut Remarks) {
    match cause {
        Cause::NoSuchPreset => put_numbers(b"presets", bank.presets().len(), remarks),
        Cause::NoSuchInstrument => put_numbers(b"instruments", bank.instruments().len(), remarks),
        Cause::NoSuchSample => put_numbers(b"samples", bank.samples().len(), remarks),
        Cause::BadPlace => remark_on_index(bank, step, remarks),
        Cause::InUse => remark_on_users(bank, step, remarks),
        _ => match step {
            Step::Zone(owner, step) => remark_on_zone(bank, *owner, cause, step, remarks),
            Step::Setting(owner, place, step) => {
                remark_on_setting(bank, *owner, *place, cause, *step, remarks);
            }
            Step::Points(sample, step) => remark_on_points(bank, *sample, cause, step, remarks),
            Step::Text(TextStep::SetInfo { id, .. }) => remark_on_text(*id, cause, remarks),
            _ => {}
        },
    }
}

// Says which numbers the members of a list have.
fn put_numbers(members: &[u8], count: usize, remarks: &mut Remarks) {
    match numbered(count).checked_sub(1) {
        Some(0) => remarks.line(&[b"The only number of ", members, b" here is 0."]),
        Some(last) => {
            remarks.put(b"  The numbers of ");
            remarks.put(members);
            remarks.put(b" here are 0 to ");
            remarks.put_number(last);
            remarks.put(b".\n");
        }
        None => remarks.line(&[b"There are no ", members, b"."]),
    }
}

// Says which indexes an edit that adds or moves a member can have.
fn remark_on_index(bank: &Bank<'_>, step: &Step<'_>, remarks: &mut Remarks) {
    match step {
        Step::Preset(PresetStep::AddPreset { .. }) => put_highest(bank.presets().len(), remarks),
        Step::Instrument(InstrumentStep::AddInstrument { .. }) => {
            put_highest(bank.instruments().len(), remarks);
        }
        Step::Sample(SampleStep::AddSample { .. }) => put_highest(bank.samples().len(), remarks),
        Step::Preset(_) => put_numbers(b"presets", bank.presets().len(), remarks),
        Step::Instrument(_) => put_numbers(b"instruments", bank.instruments().len(), remarks),
        Step::Sample(_) => put_numbers(b"samples", bank.samples().len(), remarks),
        Step::Zone(owner, ZoneStep::AddZone { .. }) => put_highest(zones_of(bank, *owner), remarks),
        Step::Zone(owner, _) => put_numbers(b"zones", zones_of(bank, *owner), remarks),
        _ => {}
    }
}

fn put_highest(count: usize, remarks: &mut Remarks) {
    remarks.put(b"  The highest number for a new one here is ");
    remarks.put_number(numbered(count));
    remarks.put(b".\n");
}

fn zones_of(bank: &Bank<'_>, owner: Owner) -> usize {
    bank.zone_count(owner).unwrap_or(0)
}

fn remark_on_zone(
    bank: &Bank<'_>,
    owner: Owner,
    cause: Cause,
    step: &ZoneStep,
    remarks: &mut Remarks,
) {
    match (cause, step) {
        (Cause::NoSuchZone, _) => put_numbers(b"zones", zones_of(bank, owner), remarks),
        (Cause::SplitOutside, ZoneStep::SplitZone { zone, axis, .. }) => {
            put_range(bank, owner, *zone, *axis, remarks);
        }
        (Cause::NotJoinable, ZoneStep::JoinZone { zone, axis, .. }) => {
            remark_on_join(bank, owner, *zone, *axis, remarks);
        }
        _ => {}
    }
}

// Says which range a zone has, its own or that of the global zone.
fn put_range(bank: &Bank<'_>, owner: Owner, zone: u32, axis: Axis, remarks: &mut Remarks) {
    let range = range_of(bank, owner, zone, axis);
    remarks.put(b"  The range of the zone is ");
    remarks.put_range(range);
    remarks.put(b": a split is above its low end, and not above its high end.\n");
}

fn remark_on_setting(
    bank: &Bank<'_>,
    owner: Owner,
    place: Place,
    cause: Cause,
    step: SettingStep,
    remarks: &mut Remarks,
) {
    match (cause, step) {
        (Cause::NoSuchZone, _) => put_numbers(b"zones", zones_of(bank, owner), remarks),
        (Cause::NoSuchModulator, _) => {
            put_numbers(
                b"modulators",
                bank.mod_count(owner, place).unwrap_or(0),
                remarks,
            );
        }
        (Cause::NotSet, SettingStep::ClearGen { operator }) => {
            if bank.gen_of(owner, Place::Global, operator).is_some() {
                remarks.line(&[
                    b"It is set in the global zone: write global in the place of the zone's number.",
                ]);
            }
        }
        (Cause::BadGenerator, SettingStep::SetGen { operator, .. }) => {
            remark_on_generator(owner, operator, remarks);
        }
        _ => {}
    }
}

fn remark_on_generator(owner: Owner, operator: u16, remarks: &mut Remarks) {
    match (owner, operator) {
        (_, INSTRUMENT | SAMPLE) => {
            remarks.line(&[b"set-target sets what a zone plays, as in: set-target inst 0 0 1"]);
        }
        (Owner::Preset(_), _) => {
            remarks.line(&[
                b"It is not for presets: set it in the instruments, as in: set-gen inst 0 global ..",
            ]);
        }
        _ => {}
    }
}

// Says how many points a sample has, its loop, and which loop a trim leaves room for.
fn remark_on_points(
    bank: &Bank<'_>,
    sample: u32,
    cause: Cause,
    step: &PointStep<'_>,
    remarks: &mut Remarks,
) {
    match (cause, step) {
        (Cause::LoopCut, PointStep::Trim { front, back }) => {
            put_points(bank, sample, remarks);
            put_loop_left(bank, sample, *front, *back, remarks);
        }
        (Cause::TooShort | Cause::BadLoop, _) => put_points(bank, sample, remarks),
        _ => {}
    }
}

fn put_points(bank: &Bank<'_>, sample: u32, remarks: &mut Remarks) {
    remarks.put(b"  The sample has ");
    remarks.put_number(bank.point_count(sample));
    remarks.put(b" points");
    if let Some((start, end)) = bank.loop_of(sample) {
        remarks.put(b", and a loop from ");
        remarks.put_number(start);
        remarks.put(b" to ");
        remarks.put_number(end);
    }
    remarks.put(b".\n");
}

// Gives the edit that leaves the rest of the loop, or none, to a sample before it is trimmed.
fn put_loop_left(bank: &Bank<'_>, sample: u32, front: u32, back: u32, remarks: &mut Remarks) {
    let Some((start, end)) = bank.loop_of(sample) else {
        return;
    };
    let last = numbered(bank.point_count(sample)).saturating_sub(back);
    let (start, end) = (start.max(front), end.min(last));
    remarks.put(b"  Write before it: set-loop ");
    remarks.put_number(sample);
    if start < end {
        remarks.put(b" loop ");
        remarks.put_number(start);
        remarks.put(b" ");
        remarks.put_number(end);
    } else {
        remarks.put(b" noloop");
    }
    remarks.put(b"\n");
}

// Says how long a text may be.
fn remark_on_text(id: InfoId, cause: Cause, remarks: &mut Remarks) {
    match (cause, id) {
        (Cause::BadText, InfoId::Engine) => {
            remarks.line(&[b"isng has 1 to 255 bytes. In most banks it is \"EMU8000\"."]);
        }
        (Cause::BadText, InfoId::Comment) => {
            remarks.line(&[b"ICMT has at most 65,535 bytes, none of them zero."]);
        }
        (Cause::BadText, _) => {
            remarks.line(&[b"This text has at most 255 bytes, none of them zero."]);
        }
        _ => {}
    }
}
