//! Generator amounts with linear modulators.
ghost use Rattle.std.specs.Prelude.{◌≡◌, ◌<◌, ◌≤◌, ◌≤ℤ◌, ◌+ℤ◌, ◌*ℤ◌, pos, negsuc, false, map};
ghost use Rattle.generators.specs.Ranges.{is_range_operator};
ghost use Rattle.sound_tables.specs.Floor.{floor_div};
ghost use Rattle.zone_select.specs.Amounts.{linear_part, linear_sources, total, moved};
ghost use Rattle.zone_select.specs.ZoneSettings.{settings_of};

use crate::amounts::{PairAmounts, amount, modulator_amount};
use crate::pitches::{key, velocity};
use modulators::{Modulator, linear_value};
use script_notes::Note;

/// The sources of linear modulators: velocity or key, increasing or decreasing, unipolar or bipolar.
const LINEAR_SOURCES: [u16; 8] = [2, 3, 258, 259, 514, 515, 770, 771];

// The fraction `parts` of `whole` of an amount, rounded down.
pub(crate) fn part_of(amount: i32, parts: i32, whole: u32) -> i32
    requires amount { (negsuc 65535 ≤ℤ amount) × (amount ≤ℤ pos 65534) }
    requires parts { (pos 0 ≤ℤ (parts +ℤ pos whole)) × (parts ≤ℤ pos whole) }
    requires whole { (0 < whole) × (whole ≤ 1000) }
    ensures value { result ≡ floor_div (amount *ℤ parts) whole }
    ensures within { (negsuc 65535 ≤ℤ result) × (result ≤ℤ pos 65536) }
{
    (amount * parts).div_euclid(whole as i32)
}

// The contribution to a generator of the linear modulator from one source.
fn linear_part(zones: &PairAmounts<'_>, key: u8, velocity: u8, operator: u16, source: u16) -> i32
    requires key { key ≤ 127 }
    requires velocity { velocity ≤ 127 }
    ensures value { result ≡ linear_part key velocity (settings_of zones.now.instrument) (settings_of zones.now.preset) operator source }
    ensures within { (negsuc 65535 ≤ℤ result) × (result ≤ℤ pos 65536) }
{
    let modulator = Modulator {
        source,
        dest: operator,
        amount: 0,
        amount_source: 0,
        transform: 0,
    };
    match linear_value(&modulator, key, velocity) {
        Some(value) => {
            let most = modulator_amount(zones, &modulator, 0);
            part_of(most, i32::from(value), 128)
        }
        None => 0,
    }
}

// The contribution to a generator of all its linear modulators.
fn linear_parts(zones: &PairAmounts<'_>, key: u8, velocity: u8, operator: u16) -> i32
    requires key { key ≤ 127 }
    requires velocity { velocity ≤ 127 }
    ensures value { result ≡ total (map (linear_part key velocity (settings_of zones.now.instrument) (settings_of zones.now.preset) operator) linear_sources) }
    ensures within { (negsuc 524287 ≤ℤ result) × (result ≤ℤ pos 524288) }
{
    let mut sum = 0;
    for source in LINEAR_SOURCES {
        sum += linear_part(zones, key, velocity, operator, source);
    }
    sum
}

// The amount of an operator with its linear modulators.
#[tactic(auto, unfolding(crate::specs::Amounts::moved_amount))]
pub(crate) fn moved(zones: &PairAmounts<'_>, note: &Note, operator: u16) -> i32
    requires { is_range_operator operator ≡ false }
    ensures value { result ≡ moved note.now (settings_of zones.now.instrument) (settings_of zones.now.preset) operator }
    ensures within { (negsuc 589823 ≤ℤ result) × (result ≤ℤ pos 589824) }
{
    let key = key(zones, note);
    let velocity = velocity(zones, note);
    amount(zones, operator) + linear_parts(zones, key, velocity, operator)
}
