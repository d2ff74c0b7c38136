//! The members that the line of a step names by number, without the targets of zones that it lists.
ghost use Rattle.std.specs.Prelude.{◌≡◌};
ghost use Rattle.std.specs.List.{flat_map};
ghost use Rattle.script_comments.specs.Names.{each_of, named};
ghost use Rattle.script_comments.specs.Putting.{PutsItems};
ghost use Rattle.script_comments.specs.Comments.{link_of, before_insertion, inserted_link, owner_member, preset_members, instrument_members, sample_members, point_members, zone_members, members};

use crate::lead::Lead;
use crate::names::{Member, put_named};
use bank_changes::Owner;
use bank_core::Bank;
use bank_parts::Kind;
use base_outputs::Output;
use edit_forms::{InstrumentStep, PointStep, PresetStep, SampleStep, Step, ZoneStep};
use std::io::Write;

// Puts the names of the members of a step.
pub(crate) fn put_members<W: Write>(
    bank: &Bank<'_>,
    step: &Step<'_>,
    lead: Lead,
    output: &mut Output<'_, W>,
) -> Lead
    ensures { PutsItems W.contents output.old output.new lead result (flat_map (named bank.now) (members step.now)) }
{
    match step {
        Step::Preset(step) => put_if_any(bank, preset_member(step), lead, output),
        Step::Instrument(step) => put_if_any(bank, instrument_member(step), lead, output),
        Step::Sample(step) => put_if_any(bank, sample_member(step), lead, output),
        Step::Points(sample, step) => {
            let lead = put_named(bank, Member::Sample(*sample), lead, output);
            put_if_any(bank, point_member(step), lead, output)
        }
        Step::Zone(owner, step) => {
            let lead = put_named(bank, owner_member(*owner), lead, output);
            put_if_any(bank, zone_member(*owner, step), lead, output)
        }
        Step::Setting(owner, _, _) => put_named(bank, owner_member(*owner), lead, output),
        Step::Text(_) => lead,
    }
}

// Puts the name of a member, if there is one.
fn put_if_any<W: Write>(
    bank: &Bank<'_>,
    member: Option<Member>,
    lead: Lead,
    output: &mut Output<'_, W>,
) -> Lead
    ensures { PutsItems W.contents output.old output.new lead result (flat_map (named bank.now) (each_of member)) }
{
    match member {
        Some(member) => put_named(bank, member, lead, output),
        None => lead,
    }
}

fn owner_member(owner: Owner) -> Member
    ensures { result ≡ owner_member owner }
{
    match owner {
        Owner::Preset(number) => Member::Preset(number),
        Owner::Inst(number) => Member::Instrument(number),
    }
}

fn preset_member(step: &PresetStep) -> Option<Member>
    ensures { each_of result ≡ preset_members step.now }
{
    match step {
        PresetStep::AddPreset { .. } => None,
        PresetStep::RemovePreset { preset } => Some(Member::Preset(*preset)),
        PresetStep::MovePreset { from, .. } => Some(Member::Preset(*from)),
        PresetStep::SetHead { preset, .. } => Some(Member::Preset(*preset)),
    }
}

fn instrument_member(step: &InstrumentStep) -> Option<Member>
    ensures { each_of result ≡ instrument_members step.now }
{
    match step {
        InstrumentStep::AddInstrument { .. } => None,
        InstrumentStep::RemoveInstrument { instrument } => Some(Member::Instrument(*instrument)),
        InstrumentStep::RenameInstrument { instrument, .. } => {
            Some(Member::Instrument(*instrument))
        }
        InstrumentStep::MoveInstrument { from, .. } => Some(Member::Instrument(*from)),
    }
}

fn sample_member(step: &SampleStep<'_>) -> Option<Member>
    ensures { each_of result ≡ sample_members step.now }
{
    match step {
        SampleStep::RenameSample { sample, .. } => Some(Member::Sample(*sample)),
        SampleStep::AddSample { at, sample } => inserted_link(*at, sample.kind),
        SampleStep::RemoveSample { sample } => Some(Member::Sample(*sample)),
        SampleStep::MoveSample { from, .. } => Some(Member::Sample(*from)),
    }
}

fn point_member(step: &PointStep<'_>) -> Option<Member>
    ensures { each_of result ≡ point_members step.now }
{
    match step {
        PointStep::Trim { .. } => None,
        PointStep::Extend { .. } => None,
        PointStep::SetLoop { .. } => None,
        PointStep::SetKind { kind } => link_of(*kind),
        PointStep::SetTune { .. } => None,
    }
}

fn zone_member(owner: Owner, step: &ZoneStep) -> Option<Member>
    ensures { each_of result ≡ zone_members owner step.now }
{
    match step {
        ZoneStep::AddZone { .. } => None,
        ZoneStep::RemoveZone { .. } => None,
        ZoneStep::MoveZone { .. } => None,
        ZoneStep::SplitZone { .. } => None,
        ZoneStep::JoinZone { .. } => None,
        ZoneStep::SetTarget { target, .. } => Some(Member::target(owner.level(), *target)),
    }
}

// The linked sample.
fn link_of(kind: Kind) -> Option<Member>
    ensures { each_of result ≡ link_of kind }
{
    match kind {
        Kind::Mono => None,
        Kind::Right(link) | Kind::Left(link) | Kind::Linked(link) => {
            Some(Member::Sample(u32::from(link)))
        }
    }
}

// The linked sample of one that is inserted as number `at`.
fn inserted_link(at: u32, kind: Kind) -> Option<Member>
    ensures { each_of result ≡ inserted_link at kind }
{
    match kind {
        Kind::Mono => None,
        Kind::Right(link) | Kind::Left(link) | Kind::Linked(link) => {
            before_insertion(at, u32::from(link))
        }
    }
}

// The sample that has this number after another is inserted as number `at`.
fn before_insertion(at: u32, number: u32) -> Option<Member>
    ensures { each_of result ≡ before_insertion at number }
{
    if number < at {
        return Some(Member::Sample(number));
    }
    if number == at {
        return None;
    }
    Some(Member::Sample(number - 1))
}
