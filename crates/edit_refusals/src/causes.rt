//! The tests of whether an edit is refused: each returns its cause if it applies.
ghost use Rattle.std.specs.Prelude.{◌≡◌, ◌<◌, ◌+◌, length};
ghost use Rattle.std.specs.Option.{option_map};
ghost use Rattle.bank_parts.specs.Texts as texts;
ghost use Rattle.edit_forms.specs.declared.cause.Cause.TheVariants as cause;
ghost use Rattle.edit_refusals.specs.Answers.{IsTestResult, IsRefuseResult};
ghost use Rattle.edit_forms.specs.Causes as causes;

use bank_core::{Bank, Owner, Place};
use bank_parts::{
    InfoId, Kind, Sample, Zone, ZoneOwner, is_bad_range, sets_bad_generator, sets_bad_range,
};
use bank_validity::Limit;
use bank_zone_ranges::{Axis, Keep};
use edit_forms::Cause;
use generators::{Level, allowed};
use modulators::Modulator;
use sf_base::BorrowedBytes;
use sf_base::limits::{COMMENT_LENGTH, TEXT_LENGTH};

/// The last test of every form: a limit that the changed bank would break.
pub(crate) fn full(limit: Option<Limit>) -> Result<(), Cause>
    ensures { IsRefuseResult (option_map cause.Full limit) result }
{
    match limit {
        Some(limit) => Err(Cause::Full(limit)),
        None => Ok(()),
    }
}

// ---- presets and instruments

pub(crate) fn no_such_preset(bank: &Bank<'_>, preset: u32) -> Result<(), Cause>
    ensures { IsTestResult (causes.no_such_preset bank.now preset) result }
{
    judge(bank.presets().len() <= preset as usize, Cause::NoSuchPreset)
}

pub(crate) fn no_such_instrument(bank: &Bank<'_>, instrument: u32) -> Result<(), Cause>
    ensures { IsTestResult (causes.no_such_instrument bank.now instrument) result }
{
    judge(
        bank.instruments().len() <= instrument as usize,
        Cause::NoSuchInstrument,
    )
}

pub(crate) fn used_instrument(bank: &Bank<'_>, instrument: u32) -> Result<(), Cause>
    ensures { IsTestResult (causes.used_instrument bank.now instrument) result }
{
    judge(bank.is_instrument_in_use(instrument), Cause::InUse)
}

pub(crate) fn no_such_owner(bank: &Bank<'_>, owner: Owner) -> Result<(), Cause>
    ensures { IsTestResult (causes.no_such_owner bank.now owner) result }
{
    match owner {
        Owner::Preset(number) => no_such_preset(bank, number),
        Owner::Inst(number) => no_such_instrument(bank, number),
    }
}

// ---- zones of a preset or an instrument

/// The number of zones of an owner without its global zone; 0 if there is no such owner.
pub(crate) fn zone_total(bank: &Bank<'_>, owner: Owner) -> usize
    ensures { result ≡ causes.zone_total bank.now owner }
{
    bank.zone_count(owner).unwrap_or(0)
}

pub(crate) fn no_such_zone(bank: &Bank<'_>, owner: Owner, zone: u32) -> Result<(), Cause>
    ensures { IsTestResult (causes.no_such_zone bank.now owner zone) result }
{
    judge(zone_total(bank, owner) <= zone as usize, Cause::NoSuchZone)
}

/// Every owner has a global zone.
pub(crate) fn no_such_zone_at(bank: &Bank<'_>, owner: Owner, place: Place) -> Result<(), Cause>
    ensures { IsTestResult (causes.no_such_zone_at bank.now owner place) result }
{
    match place {
        Place::Global => Ok(()),
        Place::Zone(zone) => no_such_zone(bank, owner, zone),
    }
}

/// The target of a zone is not below `count`; `cause` names the kind of target.
pub(crate) fn no_such_target<H>(
    count: usize,
    owner: &ZoneOwner<H>,
    cause: Cause,
) -> Result<(), Cause>
    ensures { IsTestResult (causes.no_such_target count owner.now cause) result }
{
    judge(owner.has_missing_target(count), cause)
}

pub(crate) fn bad_generator<H>(at: Level, owner: &ZoneOwner<H>) -> Result<(), Cause>
    ensures { IsTestResult (causes.bad_generator at owner.now) result }
{
    judge(owner.has_bad_generator(at), Cause::BadGenerator)
}

pub(crate) fn bad_range<H>(owner: &ZoneOwner<H>) -> Result<(), Cause>
    ensures { IsTestResult (causes.bad_range owner.now) result }
{
    judge(owner.has_bad_range(), Cause::BadRange)
}

// ---- one zone

/// There is no zone after this one.
pub(crate) fn no_next_zone(bank: &Bank<'_>, owner: Owner, zone: u32) -> Result<(), Cause>
    ensures { IsTestResult (causes.no_such_zone bank.now owner (zone + 1)) result }
{
    let next = zone as usize + 1;
    judge(zone_total(bank, owner) <= next, Cause::NoSuchZone)
}

/// The target does not exist: an instrument for a preset, a sample for an instrument.
pub(crate) fn no_such_target_of(bank: &Bank<'_>, owner: Owner, target: u16) -> Result<(), Cause>
    ensures { IsTestResult (causes.no_such_target_of bank.now owner target) result }
{
    match owner {
        Owner::Preset(_) => judge(
            bank.instruments().len() <= target as usize,
            Cause::NoSuchInstrument,
        ),
        Owner::Inst(_) => judge(bank.samples().len() <= target as usize, Cause::NoSuchSample),
    }
}

pub(crate) fn bad_zone_generator(at: Level, zone: &Zone) -> Result<(), Cause>
    ensures { IsTestResult (causes.bad_zone_generator at zone.now) result }
{
    judge(sets_bad_generator(at, &zone.gens), Cause::BadGenerator)
}

pub(crate) fn bad_zone_range(zone: &Zone) -> Result<(), Cause>
    ensures { IsTestResult (causes.bad_zone_range zone.now) result }
{
    judge(sets_bad_range(&zone.gens), Cause::BadRange)
}

pub(crate) fn split_outside(
    bank: &Bank<'_>,
    owner: Owner,
    zone: u32,
    axis: Axis,
    at: u8,
) -> Result<(), Cause>
    ensures { IsTestResult (causes.split_outside bank.now owner zone axis at) result }
{
    judge(!bank.can_split(owner, zone, axis, at), Cause::SplitOutside)
}

pub(crate) fn not_joinable(
    bank: &Bank<'_>,
    owner: Owner,
    zone: u32,
    axis: Axis,
    keep: Keep,
) -> Result<(), Cause>
    ensures { IsTestResult (causes.not_joinable bank.now owner zone axis keep) result }
{
    judge(!bank.can_join(owner, zone, axis, keep), Cause::NotJoinable)
}

// ---- modulators of a place

/// The number of modulators of a place; 0 if there is no such place.
pub(crate) fn mods_there(bank: &Bank<'_>, owner: Owner, place: Place) -> usize
    ensures { result ≡ length (causes.mods_there bank.now owner place) }
{
    bank.mod_count(owner, place).unwrap_or(0)
}

pub(crate) fn no_such_modulator(
    bank: &Bank<'_>,
    owner: Owner,
    place: Place,
    index: u32,
) -> Result<(), Cause>
    ensures { IsTestResult (causes.no_such_modulator bank.now owner place index) result }
{
    judge(
        mods_there(bank, owner, place) <= index as usize,
        Cause::NoSuchModulator,
    )
}

pub(crate) fn linked_place(bank: &Bank<'_>, owner: Owner, place: Place) -> Result<(), Cause>
    ensures { IsTestResult (causes.linked_place bank.now owner place) result }
{
    judge(bank.has_link(owner, place), Cause::LinkedModulator)
}

pub(crate) fn linked_modulator(
    bank: &Bank<'_>,
    owner: Owner,
    place: Place,
    modulator: Modulator,
) -> Result<(), Cause>
    ensures { IsTestResult (causes.linked_modulator bank.now owner place modulator) result }
{
    judge(
        bank.has_link(owner, place) || modulator.is_link(),
        Cause::LinkedModulator,
    )
}

// ---- generators of a place

pub(crate) fn foreign_operator(at: Level, operator: u16) -> Result<(), Cause>
    ensures { IsTestResult (causes.foreign_operator at operator) result }
{
    judge(!allowed(operator, at), Cause::BadGenerator)
}

pub(crate) fn bad_amount(operator: u16, amount: u16) -> Result<(), Cause>
    ensures { IsTestResult (causes.bad_amount operator amount) result }
{
    judge(is_bad_range((operator, amount)), Cause::BadRange)
}

pub(crate) fn not_set(
    bank: &Bank<'_>,
    owner: Owner,
    place: Place,
    operator: u16,
) -> Result<(), Cause>
    ensures { IsTestResult (causes.not_set bank.now owner place operator) result }
{
    judge(bank.gen_of(owner, place, operator).is_none(), Cause::NotSet)
}

// ---- samples

pub(crate) fn no_such_sample(bank: &Bank<'_>, sample: u32) -> Result<(), Cause>
    ensures { IsTestResult (causes.no_such_sample bank.now sample) result }
{
    judge(bank.samples().len() <= sample as usize, Cause::NoSuchSample)
}

pub(crate) fn no_such_link(bank: &Bank<'_>, kind: Kind) -> Result<(), Cause>
    ensures { IsTestResult (causes.no_such_link bank.now kind) result }
{
    judge(
        link_misses(bank.samples().len() + 1, kind),
        Cause::NoSuchSample,
    )
}

/// The link of an existing sample may be itself or any other sample.
pub(crate) fn no_such_link_among(bank: &Bank<'_>, kind: Kind) -> Result<(), Cause>
    ensures { IsTestResult (causes.no_such_link_among bank.now kind) result }
{
    judge(link_misses(bank.samples().len(), kind), Cause::NoSuchSample)
}

/// The loop would not be inside the sample.
pub(crate) fn bad_loop_of(
    bank: &Bank<'_>,
    sample: u32,
    looped: Option<(u32, u32)>,
) -> Result<(), Cause>
    ensures { IsTestResult (causes.bad_loop_of bank.now sample looped) result }
{
    judge(
        loop_misses(bank.point_count(sample), looped),
        Cause::BadLoop,
    )
}

pub(crate) fn too_short(bank: &Bank<'_>, sample: u32, front: u32, back: u32) -> Result<(), Cause>
    ensures { IsTestResult (causes.too_short bank.now sample front back) result }
{
    let off = front as usize + back as usize;
    judge(bank.point_count(sample) < off, Cause::TooShort)
}

pub(crate) fn loop_cut(bank: &Bank<'_>, sample: u32, front: u32, back: u32) -> Result<(), Cause>
    ensures { IsTestResult (causes.loop_cut bank.now sample front back) result }
{
    let applies = cuts_loop(bank.point_count(sample), front, back, bank.loop_of(sample));
    judge(applies, Cause::LoopCut)
}

pub(crate) fn bad_loop(sample: &Sample<'_>) -> Result<(), Cause>
    ensures { IsTestResult (causes.bad_loop sample.now) result }
{
    judge(
        loop_misses(sample.points.len(), sample.looped),
        Cause::BadLoop,
    )
}

pub(crate) fn used_sample(bank: &Bank<'_>, sample: u32) -> Result<(), Cause>
    requires { sample < length bank.now.samples }
    ensures { IsTestResult (causes.used_sample bank.now sample) result }
{
    judge(bank.is_sample_in_use(sample), Cause::InUse)
}

// ---- indexes

pub(crate) fn bad_insert_index(count: usize, at: u32) -> Result<(), Cause>
    ensures { IsTestResult (causes.bad_insert_index count at) result }
{
    judge(count < at as usize, Cause::BadPlace)
}

pub(crate) fn bad_member_index(count: usize, at: u32) -> Result<(), Cause>
    ensures { IsTestResult (causes.bad_member_index count at) result }
{
    judge(count <= at as usize, Cause::BadPlace)
}

// ---- texts

pub(crate) fn bad_text(id: InfoId, text: &BorrowedBytes<'_>) -> Result<(), Cause>
    ensures { IsTestResult (causes.bad_text id text.now) result }
{
    let bytes = text.bytes();
    judge(
        bytes.len() > most_bytes(id) || bytes.contains(&0) || is_engine(id) && bytes.is_empty(),
        Cause::BadText,
    )
}

// ---- parts of tests

fn judge(applies: bool, cause: Cause) -> Result<(), Cause>
    ensures { IsTestResult (causes.test applies cause) result }
{
    if applies {
        return Err(cause);
    }
    Ok(())
}

fn link_misses(count: usize, kind: Kind) -> bool
    ensures { result ≡ causes.link_misses count kind }
{
    match kind {
        Kind::Mono => false,
        Kind::Right(link) | Kind::Left(link) | Kind::Linked(link) => count <= link as usize,
    }
}

fn loop_misses(count: usize, looped: Option<(u32, u32)>) -> bool
    ensures { result ≡ causes.loop_misses count looped }
{
    match looped {
        Some((start, end)) => end <= start || count < end as usize,
        None => false,
    }
}

fn cuts_loop(count: usize, front: u32, back: u32, looped: Option<(u32, u32)>) -> bool
    ensures { result ≡ causes.cuts_loop count front back looped }
{
    match looped {
        Some((start, end)) => start < front || count < end as usize + back as usize,
        None => false,
    }
}

fn most_bytes(id: InfoId) -> usize
    ensures { result ≡ texts.most_bytes id }
{
    match id {
        InfoId::Comment => COMMENT_LENGTH,
        _ => TEXT_LENGTH,
    }
}

fn is_engine(id: InfoId) -> bool
    ensures { result ≡ texts.is_engine id }
{
    matches!(id, InfoId::Engine)
}
