//! Lists of findings that grow.
ghost use Rattle.std.specs.Prelude.{◌≡◌, ◌++◌, [], OnOk, IfOk};
ghost use Rattle.std.specs.List.{cons_option};
ghost use Rattle.bank_changes.specs.Members.{member_count};
ghost use Rattle.show_findings.specs.Numbers.{preset_owners, instrument_owners, owners};

use bank_core::{Bank, List, Owner};
use sf_base::OutOfMemory;
use std::alloc::Global;

// Appends an option's value, if it has one.
pub(crate) fn push_option<T: Copy>(found: &mut Vec<T>, option: Option<T>) -> Result<(), OutOfMemory>
    ensures { OnOk result (found.new.items ≡ found.old.items ++ cons_option option []) }
{
    if let Some(value) = option {
        found.push(value)?;
    }
    Ok(())
}

// The length of a list of the bank.
pub(crate) fn count_in(bank: &Bank<'_>, list: List) -> u32
    ensures { result ≡ member_count bank.now list }
{
    bank.soundness();
    bank.count(list) as u32
}

// The presets, then the instruments.
pub(crate) fn owners_of(alloc: Global, bank: &Bank<'_>) -> Result<Vec<Owner>, OutOfMemory>
    ensures { IfOk result (λ found. found.items ≡ owners bank.now) }
{
    let mut found = Vec::new(alloc);
    push_presets(bank, &mut found)?;
    push_instruments(bank, &mut found)?;
    Ok(found)
}

pub(crate) fn presets_of(alloc: Global, bank: &Bank<'_>) -> Result<Vec<Owner>, OutOfMemory>
    ensures { IfOk result (λ found. found.items ≡ preset_owners bank.now) }
{
    let mut found = Vec::new(alloc);
    push_presets(bank, &mut found)?;
    Ok(found)
}

pub(crate) fn instruments_of(alloc: Global, bank: &Bank<'_>) -> Result<Vec<Owner>, OutOfMemory>
    ensures { IfOk result (λ found. found.items ≡ instrument_owners bank.now) }
{
    let mut found = Vec::new(alloc);
    push_instruments(bank, &mut found)?;
    Ok(found)
}

fn push_presets(bank: &Bank<'_>, found: &mut Vec<Owner>) -> Result<(), OutOfMemory>
    ensures { OnOk result (found.new.items ≡ found.old.items ++ preset_owners bank.now) }
{
    for preset in 0..count_in(bank, List::Presets) {
        found.push(Owner::Preset(preset))?;
    }
    Ok(())
}

fn push_instruments(bank: &Bank<'_>, found: &mut Vec<Owner>) -> Result<(), OutOfMemory>
    ensures { OnOk result (found.new.items ≡ found.old.items ++ instrument_owners bank.now) }
{
    for instrument in 0..count_in(bank, List::Instruments) {
        found.push(Owner::Inst(instrument))?;
    }
    Ok(())
}
