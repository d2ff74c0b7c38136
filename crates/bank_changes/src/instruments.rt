//! The raw changes of the instruments of a bank.
ghost use Rattle.std.specs.Prelude.{◌≡◌, ◌<◌, ◌≤◌, Some, length, slice_get, OnOk, OnErr, IfOk, IfErr};
ghost use Rattle.bank_parts.specs.Owners.{head_at};
ghost use Rattle.bank_parts.specs.Room.{IsStorable};
ghost use Rattle.bank_parts.specs.Valid.{IsValid};
ghost use Rattle.bank_changes.specs.Instruments.{instrument_renamed, instrument_added, instrument_removed, instrument_moved};

use bank_parts::{Instrument, Parts};
use base_numbered_lists::{Renumber, Renumbering};
use sf_base::{Name20, OutOfMemory};
use std::alloc::Global;

/// Renames an instrument and returns the old name. Allocates nothing.
pub fn rename_instrument(parts: &mut Parts<'_>, number: u32, name: Name20) -> Name20
    requires { number < length parts.old.instruments }
    ensures value { head_at parts.old.instruments number ≡ Some result }
    ensures change { parts.new ≡ instrument_renamed parts.old number name }
{
    parts.instruments.replace_head(number as usize, name)
}

/// Inserts an instrument as number `number`; later instruments move up by one, and the targets of presets follow. An
/// append reads no preset. If an allocation fails, the bank is unchanged and the instrument is returned.
pub fn add_instrument(
    parts: &mut Parts<'_>,
    number: u32,
    instrument: Instrument,
) -> Result<(), Instrument>
    requires valid { IsValid parts.old }
    requires place { number ≤ length parts.old.instruments }
    requires storable { IsStorable (instrument_added parts.old number instrument) }
    ensures ok { OnOk result (parts.new ≡ instrument_added parts.old number instrument) }
    ensures err { OnErr result (parts.new ≡ parts.old) }
    ensures value_returned { IfErr result (λ back. back ≡ instrument) }
{
    let count = parts.instruments.len();
    parts.instruments.insert(number as usize, instrument)?;
    if (number as usize) < count {
        let by = Renumbering::Insertion { at: number };
        parts.presets.renumber(by);
    }
    Ok(())
}

/// Removes an instrument and returns it; later instruments move down by one, and the targets of presets follow. If it
/// is the last, no preset is read. On `OutOfMemory` the bank is unchanged.
pub fn remove_instrument(
    parts: &mut Parts<'_>,
    alloc: Global,
    number: u32,
) -> Result<Instrument, OutOfMemory>
    requires valid { IsValid parts.old }
    requires there { number < length parts.old.instruments }
    ensures value { IfOk result (λ instrument. slice_get parts.old.instruments number ≡ Some instrument) }
    ensures change { OnOk result (parts.new ≡ instrument_removed parts.old number) }
    ensures err { OnErr result (parts.new ≡ parts.old) }
{
    let instrument = parts.instruments.remove(alloc, number as usize)?;
    if (number as usize) < parts.instruments.len() {
        let by = Renumbering::Removal { at: number };
        parts.presets.renumber(by);
    }
    Ok(instrument)
}

/// Moves instrument `from` to number `to`; the others keep their order, and the targets of presets follow. Allocates
/// nothing.
pub fn move_instrument(parts: &mut Parts<'_>, from: u32, to: u32)
    requires valid { IsValid parts.old }
    requires there { from < length parts.old.instruments }
    requires place { to < length parts.old.instruments }
    ensures { parts.new ≡ instrument_moved parts.old from to }
{
    let by = Renumbering::Move { from, to };
    parts.instruments.move_member(from as usize, to as usize);
    parts.presets.renumber(by);
}
