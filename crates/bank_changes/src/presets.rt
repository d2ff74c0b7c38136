//! The raw changes of the presets of a bank. Nothing in a bank refers to presets by number.
ghost use Rattle.std.specs.Prelude.{◌≡◌, ◌<◌, ◌≤◌, Some, length, slice_get, OnOk, OnErr, IfOk, IfErr};
ghost use Rattle.bank_parts.specs.Owners.{head_at};
ghost use Rattle.bank_parts.specs.Room.{IsStorable};
ghost use Rattle.bank_changes.specs.Presets.{preset_added, preset_removed, preset_moved, head_set};

use bank_parts::{Head, Parts, Preset};
use sf_base::{Name20, OutOfMemory};
use std::alloc::Global;

/// Inserts a preset as number `number`; later presets move up by one. If an allocation fails, the bank is unchanged
/// and the preset is returned.
pub fn add_preset(parts: &mut Parts<'_>, number: u32, preset: Preset) -> Result<(), Preset>
    requires place { number ≤ length parts.old.presets }
    requires storable { IsStorable (preset_added parts.old number preset) }
    ensures ok { OnOk result (parts.new ≡ preset_added parts.old number preset) }
    ensures err { OnErr result (parts.new ≡ parts.old) }
    ensures value_returned { IfErr result (λ back. back ≡ preset) }
{
    parts.presets.insert(number as usize, preset)
}

/// Removes a preset and returns it; later presets move down by one. On `OutOfMemory` the bank is unchanged.
pub fn remove_preset(
    parts: &mut Parts<'_>,
    alloc: Global,
    number: u32,
) -> Result<Preset, OutOfMemory>
    requires { number < length parts.old.presets }
    ensures value { IfOk result (λ preset. slice_get parts.old.presets number ≡ Some preset) }
    ensures change { OnOk result (parts.new ≡ preset_removed parts.old number) }
    ensures err { OnErr result (parts.new ≡ parts.old) }
{
    parts.presets.remove(alloc, number as usize)
}

/// Moves preset `from` to number `to`; the others keep their order. Allocates nothing.
pub fn move_preset(parts: &mut Parts<'_>, from: u32, to: u32)
    requires there { from < length parts.old.presets }
    requires place { to < length parts.old.presets }
    ensures { parts.new ≡ preset_moved parts.old from to }
{
    parts.presets.move_member(from as usize, to as usize);
}

/// Replaces the name and both numbers of a preset, and returns the old head; its other fields are kept. Allocates
/// nothing.
pub fn set_head(parts: &mut Parts<'_>, preset: u32, name: Name20, number: u16, bank: u16) -> Head
    requires { preset < length parts.old.presets }
    ensures value { head_at parts.old.presets preset ≡ Some result }
    ensures change { parts.new ≡ head_set parts.old preset name number bank }
{
    let preset = preset as usize;
    let old = *parts.presets.head(preset);
    let head = Head {
        name,
        number,
        bank,
        ..old
    };
    parts.presets.replace_head(preset, head)
}
