//! The key, velocity, pitch and phase increment of a voice.
ghost use Rattle.std.specs.Prelude.{◌≡◌, ◌≤◌, ◌≤ℤ◌, ◌+ℤ◌, ◌-ℤ◌, ◌*ℤ◌, pos, negsuc};
ghost use Rattle.sound_tables.specs.Tables.{phase_increment_of};
ghost use Rattle.zone_select.specs.Amounts.{midi_value_or, key_of, velocity_of, root_of, cents_of};
ghost use Rattle.zone_select.specs.ZoneSettings.{settings_of};

use crate::amounts::{PairAmounts, amount};
use crate::linear::moved;
use bank_parts::Sample;
use generators::operators::{
    COARSE_TUNE, FINE_TUNE, KEYNUM, OVERRIDING_ROOT_KEY, SCALE_TUNING, VELOCITY,
};
use script_notes::Note;
use sound_tables::step;

/// The root key of a sample that has none: middle C.
const MIDDLE_KEY: u8 = 60;

// `number` if it is from 0 to 127, else `other`.
fn up_to_127(number: i32, other: u8) -> u8
    ensures value { result ≡ midi_value_or number other }
    ensures within { other ≤ 127 → result ≤ 127 }
{
    if 0 <= number && number <= 127 {
        number as u8
    } else {
        other
    }
}

// The key of the voice: the zones' own, else the note's.
pub(crate) fn key(zones: &PairAmounts<'_>, note: &Note) -> u8
    ensures value { result ≡ key_of note.now (settings_of zones.now.instrument) (settings_of zones.now.preset) }
    ensures within { result ≤ 127 }
{
    up_to_127(amount(zones, KEYNUM), note.key())
}

// The velocity of the voice: the zones' own, else the note's.
pub(crate) fn velocity(zones: &PairAmounts<'_>, note: &Note) -> u8
    ensures value { result ≡ velocity_of note.now (settings_of zones.now.instrument) (settings_of zones.now.preset) }
    ensures within { result ≤ 127 }
{
    up_to_127(amount(zones, VELOCITY), note.velocity())
}

// The root key: that of the zones, else the sample's.
fn root(zones: &PairAmounts<'_>, sample: &Sample<'_>) -> u8
    ensures value { result ≡ root_of (settings_of zones.now.instrument) (settings_of zones.now.preset) sample.now }
    ensures within { result ≤ 127 }
{
    let own = if sample.key <= 127 {
        sample.key
    } else {
        MIDDLE_KEY
    };
    up_to_127(amount(zones, OVERRIDING_ROOT_KEY), own)
}

// The phase increment: how far the position advances in a frame, in 65536ths of a point.
pub(crate) fn phase_increment_of(zones: &PairAmounts<'_>, note: &Note, sample: &Sample<'_>) -> u32
    ensures { result ≡ phase_increment_of (cents_of note.now (settings_of zones.now.instrument) (settings_of zones.now.preset) sample.now) sample.now.rate }
{
    step(i64::from(cents(zones, note, sample)), sample.rate)
}

// The product of `tuning` and a number of keys.
fn times(tuning: i32, keys: i32) -> i32
    requires tuning { (negsuc 65535 ≤ℤ tuning) × (tuning ≤ℤ pos 65534) }
    requires keys { (pos 0 ≤ℤ (keys +ℤ pos 127)) × (keys ≤ℤ pos 127) }
    ensures value { result ≡ tuning *ℤ keys }
    ensures within { (pos 0 ≤ℤ (result +ℤ pos 8323072)) × (result ≤ℤ pos 8323072) }
{
    tuning * keys
}

// The interval from a root key to a key, with `tuning` cents for each key.
fn interval(tuning: i32, key: u8, root: u8) -> i32
    requires tuning { (negsuc 65535 ≤ℤ tuning) × (tuning ≤ℤ pos 65534) }
    requires keys { (key ≤ 127) × (root ≤ 127) }
    ensures value { result ≡ tuning *ℤ (pos key -ℤ pos root) }
    ensures within { (pos 0 ≤ℤ (result +ℤ pos 8323072)) × (result ≤ℤ pos 8323072) }
{
    let keys = i32::from(key) - i32::from(root);
    times(tuning, keys)
}

// The pitch relative to the recorded one, in cents.
fn cents(zones: &PairAmounts<'_>, note: &Note, sample: &Sample<'_>) -> i32
    ensures { result ≡ cents_of note.now (settings_of zones.now.instrument) (settings_of zones.now.preset) sample.now }
{
    let key = key(zones, note);
    let root = root(zones, sample);
    interval(amount(zones, SCALE_TUNING), key, root)
        + 100 * amount(zones, COARSE_TUNE)
        + moved(zones, note, FINE_TUNE)
        + i32::from(sample.correction)
}
