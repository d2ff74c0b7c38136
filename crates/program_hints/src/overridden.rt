//! Settings of global zones that have no effect.

use crate::numbers::numbered;
use bank_changes::{Owner, Place};
use bank_core::Bank;
use base_progress::OverriddenSetting;
use script_tokens::{Cursor, LineFault, Lines};

/// The most settings that are checked, since each needs all zones of its owner.
const MOST_CHECKED: u64 = 1_000;

/// A `set-gen` of a global zone.
#[derive(Clone, Copy)]
struct GlobalSetting {
    owner: Owner,
    operator: u16,
}

/// What a line of a script does to global zones.
#[derive(Clone, Copy)]
enum Effect {
    /// It sets a generator.
    Sets(GlobalSetting),
    /// It may change the numbers of presets or instruments.
    Renumbers,
    Other,
}

/// The lines of a script by which `bank` was edited that set a generator of a global zone, where each zone of the
/// preset or instrument has a value of its own: the first, and how many more there are. Only lines after the last one
/// that may change the numbers of presets or instruments count, and at most a thousand settings are checked.
pub fn first_overridden(bank: &Bank<'_>, script: &[u8]) -> Option<OverriddenSetting> {
    let mut found = None;
    let mut number = 0u64;
    let mut checked = 0u64;
    for line in Lines::of(script) {
        number = number.saturating_add(1);
        match effect_of(line) {
            Effect::Sets(setting) if checked < MOST_CHECKED => {
                checked = checked.saturating_add(1);
                if is_overridden(bank, setting) {
                    found = Some(one_more(found, number));
                }
            }
            Effect::Renumbers => found = None,
            _ => {}
        }
    }
    found
}

fn one_more(found: Option<OverriddenSetting>, line: u64) -> OverriddenSetting {
    match found {
        Some(first) => OverriddenSetting {
            line: first.line,
            more: first.more.saturating_add(1),
        },
        None => OverriddenSetting { line, more: 0 },
    }
}

fn effect_of(line: &[u8]) -> Effect {
    let mut cursor = Cursor::of(line, &[]);
    match cursor.word() {
        Ok(b"set-gen") => match read_setting(&mut cursor) {
            Ok(Some(setting)) => Effect::Sets(setting),
            _ => Effect::Other,
        },
        Ok(
            b"add-preset"
            | b"remove-preset"
            | b"move-preset"
            | b"add-inst"
            | b"remove-inst"
            | b"move-inst"
            | b"group",
        ) => Effect::Renumbers,
        _ => Effect::Other,
    }
}

// Reads the operands of `set-gen`; none for a zone that isn't global.
fn read_setting(cursor: &mut Cursor<'_, '_>) -> Result<Option<GlobalSetting>, LineFault> {
    let level = cursor.word()?;
    let number = cursor.number(u32::MAX)?;
    if !cursor.is_next(b"global") {
        return Ok(None);
    }
    let _global = cursor.word()?;
    let operator = cursor.number(u32::from(u16::MAX))? as u16;
    let owner = if level == b"preset".as_slice() {
        Owner::Preset(number)
    } else {
        Owner::Inst(number)
    };
    Ok(Some(GlobalSetting { owner, operator }))
}

// Whether each zone has a value of its own, and there is a zone.
fn is_overridden(bank: &Bank<'_>, setting: GlobalSetting) -> bool {
    let count = numbered(bank.zone_count(setting.owner).unwrap_or(0));
    for zone in 0..count {
        if bank
            .gen_of(setting.owner, Place::Zone(zone), setting.operator)
            .is_none()
        {
            return false;
        }
    }
    count > 0
}
