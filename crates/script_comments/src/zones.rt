//! The comments of lines that list zones.
ghost use Rattle.std.specs.Prelude.{◌≡◌, ◌==◌, ◌∷◌, [], if◌then◌else◌};
ghost use Rattle.std.specs.List.{flat_map, list_any};
ghost use Rattle.modulators.specs.declared.modulator.Modulator.{Modulator};
ghost use Rattle.script_comments.specs.Names.{numbered_operator};
ghost use Rattle.script_comments.specs.Putting.{PutsItems};
ghost use Rattle.script_comments.specs.Zones.{content_has, zone_has, zones_have, target_items, operator_items};

use crate::lead::Lead;
use crate::names::{Member, put_numbered, put_numbered_operator};
use bank_core::Bank;
use bank_parts::{GlobalZone, Zone};
use base_outputs::Output;
use generator_rows::{GeneratorRow, usable_generators};
use generators::Level;
use modulators::Modulator;
use std::io::Write;

// Whether some generator has this operator, or some modulator has it as its destination.
pub(crate) fn content_has(operator: u16, entries: &[(u16, u16)], mods: &[Modulator]) -> bool
    ensures { result ≡ content_has operator entries.now mods.now }
{
    is_set(operator, entries) || is_destination(operator, mods)
}

fn is_set(operator: u16, entries: &[(u16, u16)]) -> bool
    ensures { result ≡ list_any (λ e. e.0 == operator) entries.now }
{
    entries.iter().any(|entry| entry.0 == operator)
}

fn is_destination(operator: u16, mods: &[Modulator]) -> bool
    ensures { result ≡ list_any (λ (m : Modulator). m.dest == operator) mods.now }
{
    mods.iter().any(|modulator| modulator.dest == operator)
}

// The same of a zone.
fn zone_has(operator: u16, zone: &Zone) -> bool
    ensures { result ≡ zone_has operator zone.now }
{
    content_has(operator, zone.gens.entries(), zone.mods.as_slice())
}

// The same of a global zone or any of some zones.
fn zones_have(operator: u16, global: &GlobalZone, zones: &[Zone]) -> bool
    ensures { result ≡ zones_have global.now zones.now operator }
{
    if content_has(operator, global.gens.entries(), global.mods.as_slice()) {
        return true;
    }
    any_has(operator, zones)
}

fn any_has(operator: u16, zones: &[Zone]) -> bool
    ensures { result ≡ list_any (zone_has operator) zones.now }
{
    zones.iter().any(|zone| zone_has(operator, zone))
}

// Puts the targets of zones of this level.
pub(crate) fn put_targets<W: Write>(
    bank: &Bank<'_>,
    level: Level,
    zones: &[Zone],
    lead: Lead,
    output: &mut Output<'_, W>,
) -> Lead
    ensures { PutsItems W.contents output.old output.new lead result (target_items bank.now level zones.now) }
{
    let mut next = lead;
    for zone in zones {
        next = put_numbered(bank, Member::target(level, zone.target), next, output);
    }
    next
}

// Puts the operators of a global zone and zones.
pub(crate) fn put_operators_of<W: Write>(
    global: &GlobalZone,
    zones: &[Zone],
    lead: Lead,
    output: &mut Output<'_, W>,
) -> Lead
    ensures { PutsItems W.contents output.old output.new lead result (operator_items (zones_have global.now zones.now)) }
{
    let mut next = lead;
    let rows = usable_generators();
    for row in rows {
        let is_listed = zones_have(row.number, global, zones);
        next = put_if_listed(row, is_listed, next, output);
    }
    next
}

// Puts the operators of a zone.
pub(crate) fn put_operators_in<W: Write>(
    zone: &Zone,
    lead: Lead,
    output: &mut Output<'_, W>,
) -> Lead
    ensures { PutsItems W.contents output.old output.new lead result (operator_items (λ op. zone_has op zone.now)) }
{
    let mut next = lead;
    let rows = usable_generators();
    for row in rows {
        let is_listed = zone_has(row.number, zone);
        next = put_if_listed(row, is_listed, next, output);
    }
    next
}

// Puts an operator if it is listed.
pub(crate) fn put_if_listed<W: Write>(
    row: &GeneratorRow,
    is_listed: bool,
    lead: Lead,
    output: &mut Output<'_, W>,
) -> Lead
    ensures { PutsItems W.contents output.old output.new lead result (if is_listed then numbered_operator row.now ∷ [] else []) }
{
    if is_listed {
        put_numbered_operator(row, lead, output)
    } else {
        lead
    }
}
