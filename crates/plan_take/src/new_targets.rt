//! Sets the targets of zones to the numbers that these have.
ghost use Rattle.std.specs.Prelude.{◌≡◌, ◌<◌, length};

use crate::numbers::{renumbered_target, step_number};
use bank_core::{Head, Owner, Owners};
use bank_parts::OwnerHead;
use edit_drafts::{Draft, Stop};
use edit_forms::{Step, ZoneStep};
use std::alloc::Global;

/// Sets the targets of the zones of all presets.
pub(crate) fn set_preset_targets(
    alloc: Global,
    draft: &mut Draft<'_, '_>,
    presets: &Owners<Head>,
    instruments: &[Option<u16>],
) -> Result<(), Stop>
    ensures { draft.new.first ≡ draft.old.first }
{
    for i in 0..presets.len() {
        let preset = Owner::Preset(step_number(i));
        set_targets(alloc, draft, preset, presets, i, instruments)?;
    }
    Ok(())
}

/// Sets the targets of the zones of a preset or an instrument, number `i` of its list.
pub(crate) fn set_targets<H: OwnerHead>(
    alloc: Global,
    draft: &mut Draft<'_, '_>,
    owner: Owner,
    owners: &Owners<H>,
    i: usize,
    numbers: &[Option<u16>],
) -> Result<(), Stop>
    requires { i < length owners.now }
    ensures { draft.new.first ≡ draft.old.first }
{
    for k in 0..owners.zone_count(i) {
        set_target(alloc, draft, owner, k, owners.target(i, k), numbers)?;
    }
    Ok(())
}

// Sets the target of zone `k`, unless it has its number already.
fn set_target(
    alloc: Global,
    draft: &mut Draft<'_, '_>,
    owner: Owner,
    k: usize,
    old: u16,
    numbers: &[Option<u16>],
) -> Result<(), Stop>
    ensures { draft.new.first ≡ draft.old.first }
{
    let target = renumbered_target(numbers, old);
    if target == old {
        return Ok(());
    }
    let zone = step_number(k);
    draft.edit(
        alloc,
        Step::Zone(owner, ZoneStep::SetTarget { zone, target }),
    )
}
