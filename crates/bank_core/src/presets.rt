//! The raw changes of the presets of a bank.
ghost use Rattle.std.specs.Prelude.{◌≡◌, ◌<◌, ◌≤◌, Some, length, slice_get, OnOk, OnErr, IfOk, IfErr};
ghost use Rattle.bank_parts.specs.Sound.{IsSound};
ghost use Rattle.bank_changes.specs.Members.{head_of};
ghost use Rattle.bank_changes.specs.Presets.{preset_added, preset_removed, preset_moved, head_set};

use crate::bank::Bank;
use bank_changes::{add_preset, move_preset, remove_preset, set_head};
use bank_parts::{Head, Preset};
use sf_base::{Name20, OutOfMemory};
use std::alloc::Global;

impl<'a> Bank<'a> {
    /// Inserts a preset as number `number`; later presets move up by one. Nothing in a bank refers to presets by
    /// number. If an allocation fails, the bank is unchanged and the preset is returned.
    pub fn add_preset(&mut self, number: u32, preset: Preset) -> Result<(), Preset>
        requires place { number ≤ length self.old.presets }
        requires sound { IsSound (preset_added self.old number preset) }
        ensures ok { OnOk result (self.new ≡ preset_added self.old number preset) }
        ensures err { OnErr result (self.new ≡ self.old) }
        ensures value_returned { IfErr result (λ back. back ≡ preset) }
    {
        add_preset(&mut self.parts, number, preset)
    }

    /// Removes a preset and returns it; later presets move down by one. On `OutOfMemory` the bank is unchanged.
    pub fn remove_preset(&mut self, alloc: Global, number: u32) -> Result<Preset, OutOfMemory>
        requires there { number < length self.old.presets }
        requires sound { IsSound (preset_removed self.old number) }
        ensures value { IfOk result (λ preset. slice_get self.old.presets number ≡ Some preset) }
        ensures change { OnOk result (self.new ≡ preset_removed self.old number) }
        ensures err { OnErr result (self.new ≡ self.old) }
    {
        remove_preset(&mut self.parts, alloc, number)
    }

    /// Moves preset `from` to number `to`; the others keep their order. Allocates nothing.
    pub fn move_preset(&mut self, from: u32, to: u32)
        requires there { from < length self.old.presets }
        requires place { to < length self.old.presets }
        requires sound { IsSound (preset_moved self.old from to) }
        ensures { self.new ≡ preset_moved self.old from to }
    {
        move_preset(&mut self.parts, from, to);
    }

    /// Replaces the name and both numbers of a preset, and returns the old head; its other fields are kept. Allocates
    /// nothing.
    pub fn set_head(&mut self, preset: u32, name: Name20, number: u16, bank: u16) -> Head
        requires there { preset < length self.old.presets }
        requires sound { IsSound (head_set self.old preset name number bank) }
        ensures value { head_of self.old preset ≡ Some result }
        ensures change { self.new ≡ head_set self.old preset name number bank }
    {
        set_head(&mut self.parts, preset, name, number, bank)
    }
}
