//! Reads zones.
ghost use Rattle.std.specs.Prelude.{◌≡◌, ◌++◌, ◌∷◌, []};
ghost use Rattle.script_grammar.specs.Zones.{zone_after_brace, zone, remaining_zones, global_zones, global_after_brace, first_zone_after_brace, zones_after_brace, is_end, zones};
ghost use Rattle.script_grammar.specs.Memory.{ReadsOrOutOfMemory};

use crate::items::{items, no_content};
use crate::names::fixed;
use bank_parts::{GlobalZone, Zone};
use base_numbered_lists::NumberedList;
use script_tokens::{Cursor, LineFault};
use sf_base::Failure;
use std::alloc::Global;

// ---- read

/// Reads `GLOBAL? ZONE*`, up to the line's end or a closing brace: the global zone, which is empty where
/// there is none on the line, and the zones. `global` after a later brace is a fault of number; a token other
/// than a brace where a zone could begin is a fault of syntax.
pub fn zones(
    alloc: Global,
    line: &mut Cursor<'_, '_>,
) -> Result<(GlobalZone, NumberedList<Zone>), Failure<LineFault>>
    ensures { ReadsOrOutOfMemory (λ z. z) zones line.old line.new result }
{
    if is_end(line) {
        return Ok((no_content(alloc), NumberedList::new(alloc)));
    }
    fixed(line, b"{")?;
    zones_after_brace(alloc, line)
}

// Reads the zones after their first brace.
fn zones_after_brace(
    alloc: Global,
    line: &mut Cursor<'_, '_>,
) -> Result<(GlobalZone, NumberedList<Zone>), Failure<LineFault>>
    ensures { ReadsOrOutOfMemory (λ z. z) zones_after_brace line.old line.new result }
{
    if line.is_next(b"global") {
        global_after_brace(alloc, line)
    } else {
        first_zone_after_brace(alloc, line)
    }
}

// `global ITEM* }`, and the zones
fn global_after_brace(
    alloc: Global,
    line: &mut Cursor<'_, '_>,
) -> Result<(GlobalZone, NumberedList<Zone>), Failure<LineFault>>
    ensures { ReadsOrOutOfMemory (λ z. z) global_after_brace line.old line.new result }
{
    line.word()?;
    global_zones(alloc, line)
}

// Reads the items of the global zone, and the zones.
fn global_zones(
    alloc: Global,
    line: &mut Cursor<'_, '_>,
) -> Result<(GlobalZone, NumberedList<Zone>), Failure<LineFault>>
    ensures { ReadsOrOutOfMemory (λ z. z) global_zones line.old line.new result }
{
    let global = items(alloc, line)?;
    let zones = remaining_zones(alloc, NumberedList::new(alloc), line)?;
    Ok((global, zones))
}

// Reads the first zone after its brace, and the other zones.
fn first_zone_after_brace(
    alloc: Global,
    line: &mut Cursor<'_, '_>,
) -> Result<(GlobalZone, NumberedList<Zone>), Failure<LineFault>>
    ensures { ReadsOrOutOfMemory (λ z. z) first_zone_after_brace line.old line.new result }
{
    let zone = zone_after_brace(alloc, line)?;
    let mut zones = NumberedList::new(alloc);
    if zones.push(zone).is_err() {
        return Err(Failure::OutOfMemory);
    }
    let zones = remaining_zones(alloc, zones, line)?;
    Ok((no_content(alloc), zones))
}

// Reads the remaining zones and appends them.
fn remaining_zones(
    alloc: Global,
    mut zones: NumberedList<Zone>,
    line: &mut Cursor<'_, '_>,
) -> Result<NumberedList<Zone>, Failure<LineFault>>
    ensures { ReadsOrOutOfMemory (λ zs. zs) (remaining_zones zones) line.old line.new result }
{
    while !is_end(line) {
        let zone = zone(alloc, line)?;
        if zones.push(zone).is_err() {
            return Err(Failure::OutOfMemory);
        }
    }
    Ok(zones)
}

/// Reads a zone: `{ TARGET ITEM* }`. `global` in place of the target is a fault of number.
pub fn zone(alloc: Global, line: &mut Cursor<'_, '_>) -> Result<Zone, Failure<LineFault>>
    ensures { ReadsOrOutOfMemory (λ z. z) zone line.old line.new result }
{
    fixed(line, b"{")?;
    zone_after_brace(alloc, line)
}

// `TARGET ITEM* }`
fn zone_after_brace(alloc: Global, line: &mut Cursor<'_, '_>) -> Result<Zone, Failure<LineFault>>
    ensures { ReadsOrOutOfMemory (λ z. z) zone_after_brace line.old line.new result }
{
    let target = line.number(u32::from(u16::MAX))? as u16;
    let content = items(alloc, line)?;
    Ok(content.into_zone(target))
}

// Whether the zones end here: no token remains, or the next token closes the braces around them.
fn is_end(line: &Cursor<'_, '_>) -> bool
    ensures { result ≡ is_end line.now.token_values }
{
    line.is_empty() || line.is_next(b"}")
}
