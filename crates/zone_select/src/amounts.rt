//! The generator and modulator amounts of a pair of zones.
ghost use Rattle.std.specs.Prelude.{◌≡◌, ◌≤ℤ◌, pos, negsuc, false, unwrap_or};
ghost use Rattle.generators.specs.Ranges.{is_range_operator};
ghost use Rattle.zone_select.specs.Amounts.{amount, modulator_amount};
ghost use Rattle.zone_select.specs.ZoneSettings.{settings_of};

use crate::zone_amounts::ZoneAmounts;
use generators::operators::EXCLUSIVE_CLASS;
use generators::{Level, allowed, default_of};
use modulators::Modulator;

// The amounts of a zone of a preset and of a zone of its instrument.
#[derive(Drop)]
pub(crate) struct PairAmounts<'b> {
    pub(crate) instrument: ZoneAmounts<'b>,
    pub(crate) preset: ZoneAmounts<'b>,
}

// The amount of an operator that isn't a range: the instrument's, plus the preset's if presets may set it.
#[tactic(auto, unfolding(crate::specs::Amounts::amount))]
pub(crate) fn amount(zones: &PairAmounts<'_>, operator: u16) -> i32
    requires { is_range_operator operator ≡ false }
    ensures value { result ≡ amount (settings_of zones.now.instrument) (settings_of zones.now.preset) operator }
    ensures within { (negsuc 65535 ≤ℤ result) × (result ≤ℤ pos 65534) }
{
    let of_instrument = match zones.instrument.amount(operator) {
        Some(amount) => amount.cast_signed(),
        None => default_of(operator).unwrap_or(0),
    };
    let of_preset = if allowed(operator, Level::Preset) {
        zones.preset.amount(operator).unwrap_or(0).cast_signed()
    } else {
        0
    };
    i32::from(of_instrument) + i32::from(of_preset)
}

// The exclusive class, which only an instrument sets.
#[tactic(auto, using(crate::proofs::LinearLaws::class_is))]
pub(crate) fn exclusive_class(zones: &PairAmounts<'_>) -> i16
    ensures { result ≡ amount (settings_of zones.now.instrument) (settings_of zones.now.preset) 57 }
{
    match zones.instrument.amount(EXCLUSIVE_CLASS) {
        Some(amount) => amount.cast_signed(),
        None => 0,
    }
}

// The amount of a modulator: the instrument's plus the preset's.
#[tactic(auto, unfolding(crate::specs::Amounts::modulator_amount))]
pub(crate) fn modulator_amount(zones: &PairAmounts<'_>, like: &Modulator, default: i16) -> i32
    ensures value { result ≡ modulator_amount like.now (settings_of zones.now.instrument) (settings_of zones.now.preset) default }
    ensures within { (negsuc 65535 ≤ℤ result) × (result ≤ℤ pos 65534) }
{
    let of_instrument = zones.instrument.modulator_amount(like).unwrap_or(default);
    let of_preset = zones.preset.modulator_amount(like).unwrap_or(0);
    i32::from(of_instrument) + i32::from(of_preset)
}
