//! The comment of the line that adds a preset or an instrument of a bank.
ghost use Rattle.std.specs.Prelude.{◌≡◌, ◌<◌, length, slice_get, IfSome};
ghost use Rattle.std.specs.List.{list_any};
ghost use Rattle.base_outputs.specs.Output.{Puts};
ghost use Rattle.script_comments.specs.Putting.{PutsItems};
ghost use Rattle.script_comments.specs.Zones.{zone_has, zones_have, target_items, operator_items, zones_comment};

use crate::lead::Lead;
use crate::names::{Member, put_numbered};
use crate::zones::{content_has, put_if_listed};
use bank_core::{Bank, Owners, ZonePlace};
use bank_parts::OwnerHead;
use base_outputs::Output;
use generator_rows::usable_generators;
use std::io::Write;

/// Puts the comment of the line that adds owner `i`, with the names of `bank`. Allocates nothing.
pub fn put_zones_comment<H: OwnerHead, W: Write>(
    bank: &Bank<'_>,
    owners: &Owners<H>,
    i: usize,
    output: &mut Output<'_, W>,
)
    requires { i < length owners.now }
    ensures { IfSome (slice_get owners.now i) (λ x. Puts W.contents output.old output.new (zones_comment bank.now H.LEVEL x.global x.zones)) }
{
    let lead = put_targets_of(bank, owners, i, Lead::first(true), output);
    put_operators_of_owner(owners, i, lead, output);
}

// Puts the targets of the zones.
fn put_targets_of<H: OwnerHead, W: Write>(
    bank: &Bank<'_>,
    owners: &Owners<H>,
    i: usize,
    lead: Lead,
    output: &mut Output<'_, W>,
) -> Lead
    requires { i < length owners.now }
    ensures { IfSome (slice_get owners.now i) (λ x. PutsItems W.contents output.old output.new lead result (target_items bank.now H.LEVEL x.zones)) }
{
    let mut next = lead;
    for k in 0..owners.zone_count(i) {
        let target = Member::target(H::LEVEL, owners.target(i, k));
        next = put_numbered(bank, target, next, output);
    }
    next
}

// Puts the operators of the global zone and the zones.
fn put_operators_of_owner<H: OwnerHead, W: Write>(
    owners: &Owners<H>,
    i: usize,
    lead: Lead,
    output: &mut Output<'_, W>,
) -> Lead
    requires { i < length owners.now }
    ensures { IfSome (slice_get owners.now i) (λ x. PutsItems W.contents output.old output.new lead result (operator_items (zones_have x.global x.zones))) }
{
    let mut next = lead;
    let rows = usable_generators();
    for row in rows {
        let is_listed = owner_has(owners, i, row.number);
        next = put_if_listed(row, is_listed, next, output);
    }
    next
}

// Whether the global zone or a zone has this operator.
fn owner_has<H: OwnerHead>(owners: &Owners<H>, i: usize, operator: u16) -> bool
    requires { i < length owners.now }
    ensures { IfSome (slice_get owners.now i) (λ x. result ≡ zones_have x.global x.zones operator) }
{
    let entries = owners.entries(i, ZonePlace::Global);
    if content_has(operator, entries, owners.mods(i, ZonePlace::Global)) {
        return true;
    }
    zone_of_owner_has(owners, i, operator)
}

// Whether a zone has this operator.
fn zone_of_owner_has<H: OwnerHead>(owners: &Owners<H>, i: usize, operator: u16) -> bool
    requires { i < length owners.now }
    ensures { IfSome (slice_get owners.now i) (λ x. result ≡ list_any (zone_has operator) x.zones) }
{
    for k in 0..owners.zone_count(i) {
        let entries = owners.entries(i, ZonePlace::Zone(k));
        if content_has(operator, entries, owners.mods(i, ZonePlace::Zone(k))) {
            return true;
        }
    }
    false
}
