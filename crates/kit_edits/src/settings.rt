//! The generators of a kit's zones.
ghost use Rattle.std.specs.Prelude.{◌≡◌, OnOk, IfOk};
ghost use Rattle.generators.specs.Gens.{set_in_order};
ghost use Rattle.kit_edits.specs.Zones.{setting, range_amount, root_of, left_pan, right_pan, zone_gens};

use generators::{GenMap, Range, operators};
use kit_tables::KitZone;
use sf_base::OutOfMemory;
use std::alloc::Global;

/// The pan of a left and of a right sample, in 0.1 %.
const LEFT: i16 = -500;

const RIGHT: i16 = 500;

/// The mode of a loop that is played without end.
const LOOPED: u16 = 1;

/// The generators of a zone with this pan, of a sample that may have a loop.
pub(crate) fn zone_gens(
    alloc: Global,
    zone: KitZone,
    pan: Option<i16>,
    is_looped: bool,
) -> Result<GenMap, OutOfMemory>
    ensures { IfOk result (λ gens. gens ≡ zone_gens zone pan is_looped) }
{
    let mut gens = GenMap::new(alloc);
    set(&mut gens, operators::KEY_RANGE, range_amount(zone.keys))?;
    set(
        &mut gens,
        operators::VEL_RANGE,
        range_amount(zone.velocities),
    )?;
    set(&mut gens, operators::OVERRIDING_ROOT_KEY, root_of(zone))?;
    set(
        &mut gens,
        operators::PAN,
        pan.map(|pan| pan.cast_unsigned()),
    )?;
    set(
        &mut gens,
        operators::SAMPLE_MODES,
        is_looped.then_some(LOOPED),
    )?;
    set(
        &mut gens,
        operators::EXCLUSIVE_CLASS,
        zone.class.map(u16::from),
    )?;
    Ok(gens)
}

/// The pan of the left sample of a zone with this pan.
pub(crate) fn left_pan(pan: Option<i16>) -> i16
    ensures { result ≡ left_pan pan }
{
    pan.unwrap_or(0).max(0) + LEFT
}

/// The pan of the right sample of a zone with this pan.
pub(crate) fn right_pan(pan: Option<i16>) -> i16
    ensures { result ≡ right_pan pan }
{
    pan.unwrap_or(0).min(0) + RIGHT
}

// Sets an operator, if there is an amount.
fn set(gens: &mut GenMap, operator: u16, amount: Option<u16>) -> Result<(), OutOfMemory>
    ensures { OnOk result (gens.new ≡ set_in_order gens.old (setting operator amount)) }
{
    if let Some(amount) = amount {
        gens.set(operator, amount)?;
    }
    Ok(())
}

// The amount of a range; none if it is of all keys or velocities.
fn range_amount(range: Range) -> Option<u16>
    ensures { result ≡ range_amount range }
{
    if range.low == 0 && range.high == 127 {
        None
    } else {
        Some(range.to_amount())
    }
}

// The key at which a zone plays at its recorded pitch: the one given, or its only key.
fn root_of(zone: KitZone) -> Option<u16>
    ensures { result ≡ root_of zone }
{
    match zone.root {
        Some(root) => Some(u16::from(root)),
        None if zone.keys.low == zone.keys.high => Some(u16::from(zone.keys.low)),
        None => None,
    }
}
