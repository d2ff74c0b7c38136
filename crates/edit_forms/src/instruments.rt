//! Steps that edit instruments.
ghost use Rattle.std.specs.Prelude.{◌≡◌, Some, IsSome, IfOk};
ghost use Rattle.edit_forms.specs.Instruments.{Fits, added_instrument, new_name};

use bank_parts::{Instrument, TryClone};
use sf_base::{Name20, OutOfMemory};
use std::alloc::Global;

/// A step that edits instruments. Numbers count from 0.
pub enum InstrumentStep {
    /// `add-inst I NAME GLOBAL? ZONE*`: inserts the instrument with its zones as number `at`.
    AddInstrument { at: u32, instrument: Instrument },
    /// `remove-inst I`: removes the instrument with its zones. No zone may target it.
    RemoveInstrument { instrument: u32 },
    /// `rename-inst I NAME`: renames the instrument.
    RenameInstrument { instrument: u32, name: Name20 },
    /// `move-inst I J`: moves instrument `from` to number `to`.
    MoveInstrument { from: u32, to: u32 },
}

// Written by hand: a derived drop is inlined, and proved again, wherever a value is dropped.
impl Drop for InstrumentStep {
    fn drop(self) {
        match self {
            InstrumentStep::AddInstrument {
                at: _,
                instrument: _,
            } => {}
            InstrumentStep::RemoveInstrument { instrument: _ } => {}
            InstrumentStep::RenameInstrument {
                instrument: _,
                name: _,
            } => {}
            InstrumentStep::MoveInstrument { from: _, to: _ } => {}
        }
    }
}

impl InstrumentStep {
    /// Returns the instrument that the step adds.
    pub fn into_instrument(self) -> Instrument
        requires { IsSome (added_instrument self) }
        ensures { added_instrument self ≡ Some result }
    {
        match self {
            InstrumentStep::AddInstrument { at: _, instrument } => instrument,
            _ => unreachable!(),
        }
    }

    /// Returns the name that the step sets.
    pub fn into_name(self) -> Name20
        requires { IsSome (new_name self) }
        ensures { new_name self ≡ Some result }
    {
        match self {
            InstrumentStep::RenameInstrument {
                instrument: _,
                name,
            } => name,
            _ => unreachable!(),
        }
    }

    /// Proves that each number and name is in the range of its field. It does nothing at run time.
    pub fn fits(&self)
        ensures { Fits self.now }
    {
        match self {
            InstrumentStep::AddInstrument { at, instrument } => {
                let _at = *at;
                instrument.fits();
            }
            InstrumentStep::RemoveInstrument { instrument } => {
                let _instrument = *instrument;
            }
            InstrumentStep::RenameInstrument { instrument, name } => {
                let _instrument = *instrument;
                let _bytes = name.bytes();
            }
            InstrumentStep::MoveInstrument { from, to } => {
                let _from = *from;
                let _to = *to;
            }
        }
    }

    /// Copies the step, or returns `OutOfMemory`.
    pub fn copy(&self, alloc: Global) -> Result<InstrumentStep, OutOfMemory>
        ensures { IfOk result (λ copy. copy ≡ self.now) }
    {
        Ok(match *self {
            InstrumentStep::AddInstrument { at, ref instrument } => InstrumentStep::AddInstrument {
                at,
                instrument: instrument.try_clone(alloc)?,
            },
            InstrumentStep::RemoveInstrument { instrument } => {
                InstrumentStep::RemoveInstrument { instrument }
            }
            InstrumentStep::RenameInstrument { instrument, name } => {
                InstrumentStep::RenameInstrument { instrument, name }
            }
            InstrumentStep::MoveInstrument { from, to } => {
                InstrumentStep::MoveInstrument { from, to }
            }
        })
    }
}
