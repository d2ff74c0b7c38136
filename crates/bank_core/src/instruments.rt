//! The raw changes of the instruments of a bank, and whether an instrument is in use.
ghost use Rattle.std.specs.Prelude.{◌≡◌, ◌<◌, ◌≤◌, Some, length, slice_get, OnOk, OnErr, IfOk, IfErr};
ghost use Rattle.bank_parts.specs.Sound.{IsSound};
ghost use Rattle.bank_changes.specs.Members.{instrument_name_of};
ghost use Rattle.bank_changes.specs.Instruments.{instrument_renamed, instrument_added, instrument_removed, instrument_moved, instrument_in_use};

use crate::bank::Bank;
use bank_changes::{add_instrument, move_instrument, remove_instrument, rename_instrument};
use bank_parts::Instrument;
use sf_base::{Name20, OutOfMemory};
use std::alloc::Global;

impl<'a> Bank<'a> {
    /// Renames an instrument and returns the old name. Allocates nothing.
    pub fn rename_instrument(&mut self, number: u32, name: Name20) -> Name20
        requires there { number < length self.old.instruments }
        requires sound { IsSound (instrument_renamed self.old number name) }
        ensures value { instrument_name_of self.old number ≡ Some result }
        ensures change { self.new ≡ instrument_renamed self.old number name }
    {
        rename_instrument(&mut self.parts, number, name)
    }

    /// Inserts an instrument as number `number`; later instruments move up by one, and the targets of presets follow.
    /// An append reads no preset. If an allocation fails, the bank is unchanged and the instrument is returned.
    pub fn add_instrument(&mut self, number: u32, instrument: Instrument) -> Result<(), Instrument>
        requires place { number ≤ length self.old.instruments }
        requires sound { IsSound (instrument_added self.old number instrument) }
        ensures ok { OnOk result (self.new ≡ instrument_added self.old number instrument) }
        ensures err { OnErr result (self.new ≡ self.old) }
        ensures value_returned { IfErr result (λ back. back ≡ instrument) }
    {
        add_instrument(&mut self.parts, number, instrument)
    }

    /// Removes an instrument and returns it; later instruments move down by one, and the targets of presets follow.
    /// If it is the last, no preset is read. On `OutOfMemory` the bank is unchanged.
    pub fn remove_instrument(
        &mut self,
        alloc: Global,
        number: u32,
    ) -> Result<Instrument, OutOfMemory>
        requires there { number < length self.old.instruments }
        requires sound { IsSound (instrument_removed self.old number) }
        ensures value { IfOk result (λ instrument. slice_get self.old.instruments number ≡ Some instrument) }
        ensures change { OnOk result (self.new ≡ instrument_removed self.old number) }
        ensures err { OnErr result (self.new ≡ self.old) }
    {
        remove_instrument(&mut self.parts, alloc, number)
    }

    /// Moves instrument `from` to number `to`; the others keep their order, and the targets of presets follow.
    /// Allocates nothing.
    pub fn move_instrument(&mut self, from: u32, to: u32)
        requires there { from < length self.old.instruments }
        requires place { to < length self.old.instruments }
        requires sound { IsSound (instrument_moved self.old from to) }
        ensures { self.new ≡ instrument_moved self.old from to }
    {
        move_instrument(&mut self.parts, from, to);
    }

    /// Whether some zone of a preset targets the instrument with this number. There need not be such an instrument.
    #[tactic(auto, unfolding(bank_changes::specs::Instruments::instrument_in_use))]
    pub fn is_instrument_in_use(&self, number: u32) -> bool
        ensures { result ≡ instrument_in_use self.now number }
    {
        self.parts.presets.any_targets(number)
    }
}
