//! The heads of presets and instruments, and the steps that edit such members.
use bank_core::{Head, Owner};
use bank_parts::{OwnerHead, ZoneOwner};
use diff_orders::{EMPTY_KEY, with_bytes, with_number};
use edit_forms::{InstrumentStep, PresetStep, Step};
use sf_base::Name20;

/// The head of a preset or an instrument, and the steps that edit such an owner.
pub trait EditableHead: OwnerHead + PartialEq {
    /// The hash key of what no step changes.
    fn fixed_key(self) -> u64;

    /// The hash key of the name, appended to another key.
    fn with_name(self, key: u64) -> u64;

    /// The hash key of all that a step sets, appended to another key.
    fn with_head(self, key: u64) -> u64;

    /// The owner of this number.
    fn owner(number: u32) -> Owner;

    /// Sets the head of the owner of this number.
    fn head_step<'a>(self, number: u32) -> Step<'a>;

    /// Adds an owner.
    fn add_step<'a>(at: u32, owner: ZoneOwner<Self>) -> Step<'a>;

    /// Moves an owner.
    fn move_step<'a>(from: u32, to: u32) -> Step<'a>;

    /// Removes an owner.
    fn remove_step<'a>(number: u32) -> Step<'a>;
}

impl EditableHead for Head {
    fn fixed_key(self) -> u64 {
        let key = with_number(EMPTY_KEY, self.library.into());
        let key = with_number(key, self.genre.into());
        with_number(key, self.morphology.into())
    }

    fn with_name(self, key: u64) -> u64 {
        with_bytes(key, self.name.bytes())
    }

    fn with_head(self, key: u64) -> u64 {
        let named = with_bytes(key, self.name.bytes());
        with_number(with_number(named, self.number.into()), self.bank.into())
    }

    fn owner(number: u32) -> Owner {
        Owner::Preset(number)
    }

    fn head_step<'a>(self, number: u32) -> Step<'a> {
        Step::Preset(PresetStep::SetHead {
            preset: number,
            name: self.name,
            number: self.number,
            bank: self.bank,
        })
    }

    fn add_step<'a>(at: u32, owner: ZoneOwner<Head>) -> Step<'a> {
        Step::Preset(PresetStep::AddPreset { at, preset: owner })
    }

    fn move_step<'a>(from: u32, to: u32) -> Step<'a> {
        Step::Preset(PresetStep::MovePreset { from, to })
    }

    fn remove_step<'a>(number: u32) -> Step<'a> {
        Step::Preset(PresetStep::RemovePreset { preset: number })
    }
}

impl EditableHead for Name20 {
    fn fixed_key(self) -> u64 {
        EMPTY_KEY
    }

    fn with_name(self, key: u64) -> u64 {
        with_bytes(key, self.bytes())
    }

    fn with_head(self, key: u64) -> u64 {
        self.with_name(key)
    }

    fn owner(number: u32) -> Owner {
        Owner::Inst(number)
    }

    fn head_step<'a>(self, number: u32) -> Step<'a> {
        Step::Instrument(InstrumentStep::RenameInstrument {
            instrument: number,
            name: self,
        })
    }

    fn add_step<'a>(at: u32, owner: ZoneOwner<Name20>) -> Step<'a> {
        Step::Instrument(InstrumentStep::AddInstrument {
            at,
            instrument: owner,
        })
    }

    fn move_step<'a>(from: u32, to: u32) -> Step<'a> {
        Step::Instrument(InstrumentStep::MoveInstrument { from, to })
    }

    fn remove_step<'a>(number: u32) -> Step<'a> {
        Step::Instrument(InstrumentStep::RemoveInstrument { instrument: number })
    }
}
