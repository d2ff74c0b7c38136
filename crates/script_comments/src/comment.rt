//! The comment of an edit.
ghost use Rattle.std.specs.Prelude.{◌≡◌};
ghost use Rattle.std.specs.List.{flat_map};
ghost use Rattle.base_outputs.specs.Output.{Puts};
ghost use Rattle.bank_changes.specs.Members.{level_of};
ghost use Rattle.edit_forms.specs.declared.step.Step.{Step};
ghost use Rattle.edit_forms.specs.declared.edit.Edit.TheVariants.{One, Group};
ghost use Rattle.script_comments.specs.Putting.{PutsItems};
ghost use Rattle.script_comments.specs.Comments.{preset_targets, instrument_targets, zone_targets, targets, preset_operators, instrument_operators, zone_operators, setting_operators, operators, member_items, lists_zones, comment_of};

use crate::lead::Lead;
use crate::members::put_members;
use crate::names::{Member, put_numbered, put_operator};
use crate::zones::{put_operators_in, put_operators_of, put_targets};
use bank_changes::Owner;
use bank_core::Bank;
use base_outputs::Output;
use edit_forms::{Edit, InstrumentStep, PresetStep, SettingStep, Step, ZoneStep};
use generators::Level;
use std::io::Write;

/// Puts the comment of an edit with the names of the bank before it: three blanks, `#` and the names, or nothing if no
/// number of the edit has a name. Allocates nothing.
pub fn put_comment<W: Write>(bank: &Bank<'_>, edit: &Edit<'_>, output: &mut Output<'_, W>)
    ensures { Puts W.contents output.old output.new (comment_of bank.now edit.now) }
{
    match edit {
        Edit::One(step) => put_step_comment(bank, step, output),
        Edit::Group(steps) => put_group_comment(bank, steps.as_slice(), output),
    }
}

fn put_step_comment<W: Write>(bank: &Bank<'_>, step: &Step<'_>, output: &mut Output<'_, W>)
    ensures { Puts W.contents output.old output.new (comment_of bank.now (One step.now)) }
{
    let lead = put_member_items(bank, step, Lead::first(lists_zones(step)), output);
    put_operators(step, lead, output);
}

// Members of the first step, and operators of all.
fn put_group_comment<W: Write>(bank: &Bank<'_>, steps: &[Step<'_>], output: &mut Output<'_, W>)
    ensures { Puts W.contents output.old output.new (comment_of bank.now (Group steps.now)) }
{
    if let Some(step) = steps.first() {
        let lead = put_member_items(bank, step, Lead::first(true), output);
        put_all_operators(steps, lead, output);
    }
}

// Puts the names of the members of a step, and the targets of zones that it lists.
fn put_member_items<W: Write>(
    bank: &Bank<'_>,
    step: &Step<'_>,
    lead: Lead,
    output: &mut Output<'_, W>,
) -> Lead
    ensures { PutsItems W.contents output.old output.new lead result (member_items bank.now step.now) }
{
    let lead = put_members(bank, step, lead, output);
    put_targets_of(bank, step, lead, output)
}

// ---- the targets of zones

fn put_targets_of<W: Write>(
    bank: &Bank<'_>,
    step: &Step<'_>,
    lead: Lead,
    output: &mut Output<'_, W>,
) -> Lead
    ensures { PutsItems W.contents output.old output.new lead result (targets bank.now step.now) }
{
    match step {
        Step::Preset(step) => put_preset_targets(bank, step, lead, output),
        Step::Instrument(step) => put_instrument_targets(bank, step, lead, output),
        Step::Zone(owner, step) => put_zone_target(bank, *owner, step, lead, output),
        Step::Sample(_) | Step::Points(..) | Step::Setting(..) | Step::Text(_) => lead,
    }
}

fn put_preset_targets<W: Write>(
    bank: &Bank<'_>,
    step: &PresetStep,
    lead: Lead,
    output: &mut Output<'_, W>,
) -> Lead
    ensures { PutsItems W.contents output.old output.new lead result (preset_targets bank.now step.now) }
{
    match step {
        PresetStep::AddPreset { preset, .. } => {
            put_targets(bank, Level::Preset, preset.zones.as_slice(), lead, output)
        }
        PresetStep::RemovePreset { .. }
        | PresetStep::MovePreset { .. }
        | PresetStep::SetHead { .. } => lead,
    }
}

fn put_instrument_targets<W: Write>(
    bank: &Bank<'_>,
    step: &InstrumentStep,
    lead: Lead,
    output: &mut Output<'_, W>,
) -> Lead
    ensures { PutsItems W.contents output.old output.new lead result (instrument_targets bank.now step.now) }
{
    match step {
        InstrumentStep::AddInstrument { instrument, .. } => {
            put_targets(bank, Level::Inst, instrument.zones.as_slice(), lead, output)
        }
        InstrumentStep::RemoveInstrument { .. }
        | InstrumentStep::RenameInstrument { .. }
        | InstrumentStep::MoveInstrument { .. } => lead,
    }
}

fn put_zone_target<W: Write>(
    bank: &Bank<'_>,
    owner: Owner,
    step: &ZoneStep,
    lead: Lead,
    output: &mut Output<'_, W>,
) -> Lead
    ensures { PutsItems W.contents output.old output.new lead result (zone_targets bank.now owner step.now) }
{
    match step {
        ZoneStep::AddZone { zone, .. } => {
            let target = Member::target(owner.level(), zone.target);
            put_numbered(bank, target, lead, output)
        }
        ZoneStep::RemoveZone { .. }
        | ZoneStep::MoveZone { .. }
        | ZoneStep::SplitZone { .. }
        | ZoneStep::JoinZone { .. }
        | ZoneStep::SetTarget { .. } => lead,
    }
}

// ---- operators

// Puts the operators of steps.
fn put_all_operators<W: Write>(steps: &[Step<'_>], lead: Lead, output: &mut Output<'_, W>) -> Lead
    ensures { PutsItems W.contents output.old output.new lead result (flat_map operators steps.now) }
{
    let mut next = lead;
    for step in steps {
        next = put_operators(step, next, output);
    }
    next
}

// Puts the operators of a step.
fn put_operators<W: Write>(step: &Step<'_>, lead: Lead, output: &mut Output<'_, W>) -> Lead
    ensures { PutsItems W.contents output.old output.new lead result (operators step.now) }
{
    match step {
        Step::Preset(step) => put_preset_operators(step, lead, output),
        Step::Instrument(step) => put_instrument_operators(step, lead, output),
        Step::Zone(_, step) => put_zone_operators(step, lead, output),
        Step::Setting(_, _, step) => put_setting_operator(*step, lead, output),
        Step::Sample(_) | Step::Points(..) | Step::Text(_) => lead,
    }
}

fn put_preset_operators<W: Write>(step: &PresetStep, lead: Lead, output: &mut Output<'_, W>) -> Lead
    ensures { PutsItems W.contents output.old output.new lead result (preset_operators step.now) }
{
    match step {
        PresetStep::AddPreset { preset, .. } => {
            put_operators_of(&preset.global, preset.zones.as_slice(), lead, output)
        }
        PresetStep::RemovePreset { .. }
        | PresetStep::MovePreset { .. }
        | PresetStep::SetHead { .. } => lead,
    }
}

fn put_instrument_operators<W: Write>(
    step: &InstrumentStep,
    lead: Lead,
    output: &mut Output<'_, W>,
) -> Lead
    ensures { PutsItems W.contents output.old output.new lead result (instrument_operators step.now) }
{
    match step {
        InstrumentStep::AddInstrument { instrument, .. } => put_operators_of(
            &instrument.global,
            instrument.zones.as_slice(),
            lead,
            output,
        ),
        InstrumentStep::RemoveInstrument { .. }
        | InstrumentStep::RenameInstrument { .. }
        | InstrumentStep::MoveInstrument { .. } => lead,
    }
}

fn put_zone_operators<W: Write>(step: &ZoneStep, lead: Lead, output: &mut Output<'_, W>) -> Lead
    ensures { PutsItems W.contents output.old output.new lead result (zone_operators step.now) }
{
    match step {
        ZoneStep::AddZone { zone, .. } => put_operators_in(zone, lead, output),
        ZoneStep::RemoveZone { .. }
        | ZoneStep::MoveZone { .. }
        | ZoneStep::SplitZone { .. }
        | ZoneStep::JoinZone { .. }
        | ZoneStep::SetTarget { .. } => lead,
    }
}

fn put_setting_operator<W: Write>(step: SettingStep, lead: Lead, output: &mut Output<'_, W>) -> Lead
    ensures { PutsItems W.contents output.old output.new lead result (setting_operators step) }
{
    match step {
        SettingStep::SetGen { operator, .. } | SettingStep::ClearGen { operator } => {
            put_operator(operator, lead, output)
        }
        SettingStep::AddMod { modulator, .. } | SettingStep::SetMod { modulator, .. } => {
            put_operator(modulator.dest, lead, output)
        }
        SettingStep::RemoveMod { .. } => lead,
    }
}

// Whether a line lists zones.
fn lists_zones(step: &Step<'_>) -> bool
    ensures { result ≡ lists_zones step.now }
{
    matches!(
        step,
        Step::Preset(PresetStep::AddPreset { .. })
            | Step::Instrument(InstrumentStep::AddInstrument { .. })
            | Step::Zone(_, ZoneStep::AddZone { .. })
    )
}
