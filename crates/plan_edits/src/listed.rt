//! Sets of presets by their MIDI numbers.
ghost use Rattle.std.specs.Prelude.{◌≡◌, IfOk};
ghost use Rattle.plan_edits.specs.Keeping.{is_listed, HaveSameNumbers};

use plan_presets::PresetNumbers;
use sf_base::OutOfMemory;
use std::alloc::Global;
use std::collections::BTreeSet;

/// The presets of a list, as a set.
pub(crate) fn set_of(
    alloc: Global,
    list: &[PresetNumbers],
) -> Result<BTreeSet<PresetNumbers>, OutOfMemory>
    ensures { IfOk result (λ set. HaveSameNumbers set.keys list.now) }
{
    let set: BTreeSet<PresetNumbers> = list.iter().copied().collect(alloc)?;
    Ok(set)
}

/// Whether the numbers are in a set.
pub(crate) fn is_listed(set: &BTreeSet<PresetNumbers>, bank: u16, number: u16) -> bool
    ensures { result ≡ is_listed set.now.keys bank number }
{
    set.contains(&PresetNumbers { bank, number })
}
