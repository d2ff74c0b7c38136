//! Steps that edit presets.
ghost use Rattle.std.specs.Prelude.{◌≡◌, Some, IsSome, IfOk};
ghost use Rattle.edit_forms.specs.Presets.{Fits, added_preset, new_name};

use bank_parts::{Preset, TryClone};
use sf_base::{Name20, OutOfMemory};
use std::alloc::Global;

/// A step that edits presets. Numbers count from 0.
pub enum PresetStep {
    /// `add-preset P NAME NUMBER BANK LIBRARY GENRE MORPHOLOGY GLOBAL? ZONE*`: inserts the preset with its zones as
    /// number `at`.
    AddPreset {
        at: u32,
        preset: Preset,
    },
    /// `remove-preset P`: removes the preset with its zones.
    RemovePreset {
        preset: u32,
    },
    /// `move-preset I J`: moves preset `from` to number `to`.
    MovePreset {
        from: u32,
        to: u32,
    },
    /// `set-head P NAME NUMBER BANK`: sets the name, the preset number and the bank number.
    SetHead {
        preset: u32,
        name: Name20,
        number: u16,
        bank: u16,
    },
}

// Written by hand: a derived drop is inlined, and proved again, wherever a value is dropped.
impl Drop for PresetStep {
    fn drop(self) {
        match self {
            PresetStep::AddPreset { at: _, preset: _ } => {}
            PresetStep::RemovePreset { preset: _ } => {}
            PresetStep::MovePreset { from: _, to: _ } => {}
            PresetStep::SetHead {
                preset: _,
                name: _,
                number: _,
                bank: _,
            } => {}
        }
    }
}

impl PresetStep {
    /// Returns the preset that the step adds.
    pub fn into_preset(self) -> Preset
        requires { IsSome (added_preset self) }
        ensures { added_preset self ≡ Some result }
    {
        match self {
            PresetStep::AddPreset { at: _, preset } => preset,
            _ => unreachable!(),
        }
    }

    /// Returns the name that the step sets.
    pub fn into_name(self) -> Name20
        requires { IsSome (new_name self) }
        ensures { new_name self ≡ Some result }
    {
        match self {
            PresetStep::SetHead {
                preset: _,
                name,
                number: _,
                bank: _,
            } => name,
            _ => unreachable!(),
        }
    }

    /// Proves that each number and name is in the range of its field. It does nothing at run time.
    pub fn fits(&self)
        ensures { Fits self.now }
    {
        match self {
            PresetStep::AddPreset { at, preset } => {
                let _at = *at;
                preset.fits();
            }
            PresetStep::RemovePreset { preset } => {
                let _preset = *preset;
            }
            PresetStep::MovePreset { from, to } => {
                let _from = *from;
                let _to = *to;
            }
            PresetStep::SetHead {
                preset,
                name,
                number,
                bank,
            } => {
                let _preset = *preset;
                let _bytes = name.bytes();
                let _number = *number;
                let _bank = *bank;
            }
        }
    }

    /// Copies the step, or returns `OutOfMemory`.
    pub fn copy(&self, alloc: Global) -> Result<PresetStep, OutOfMemory>
        ensures { IfOk result (λ copy. copy ≡ self.now) }
    {
        Ok(match *self {
            PresetStep::AddPreset { at, ref preset } => PresetStep::AddPreset {
                at,
                preset: preset.try_clone(alloc)?,
            },
            PresetStep::RemovePreset { preset } => PresetStep::RemovePreset { preset },
            PresetStep::MovePreset { from, to } => PresetStep::MovePreset { from, to },
            PresetStep::SetHead {
                preset,
                name,
                number,
                bank,
            } => PresetStep::SetHead {
                preset,
                name,
                number,
                bank,
            },
        })
    }
}
