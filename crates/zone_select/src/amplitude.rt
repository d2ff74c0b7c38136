//! The attenuation, pan, sustain and times of a voice.
ghost use Rattle.std.specs.Prelude.{◌≡◌, ◌≤ℤ◌, pos, negsuc, false};
ghost use Rattle.std.specs.Int.{int_max, int_min};
ghost use Rattle.generators.specs.Ranges.{is_range_operator};
ghost use Rattle.sound_tables.specs.Tables.{frames_of};
ghost use Rattle.zone_select.specs.Amounts.{amount, moved, clamped, attenuation_of};
ghost use Rattle.zone_select.specs.ZoneSettings.{settings_of};

use crate::amounts::{PairAmounts, amount, modulator_amount};
use crate::linear::{moved, part_of};
use crate::pitches::velocity;
use generators::operators::{INITIAL_ATTENUATION, PAN, SUSTAIN_VOL_ENV};
use modulators::DEFAULT_VELOCITY;
use script_notes::Note;
use sound_tables::{frames, velatt};

// The attenuation of a voice in centibels: that of its zones plus that of its velocity.
pub(crate) fn attenuation(zones: &PairAmounts<'_>, note: &Note) -> i32
    ensures { result ≡ attenuation_of note.now (settings_of zones.now.instrument) (settings_of zones.now.preset) }
{
    let quieter = velatt(velocity(zones, note)) as i32;
    let most = modulator_amount(zones, &DEFAULT_VELOCITY, DEFAULT_VELOCITY.amount);
    moved(zones, note, INITIAL_ATTENUATION) + part_of(most, quieter, 960)
}

// The pan of a voice, from -500 (left) to 500 (right).
pub(crate) fn pan(zones: &PairAmounts<'_>, note: &Note) -> i32
    ensures { result ≡ int_min (int_max (moved note.now (settings_of zones.now.instrument) (settings_of zones.now.preset) 17) (negsuc 499)) (pos 500) }
{
    moved(zones, note, PAN).max(-500).min(500)
}

// The sustain of a voice: how far the decay falls, in centibels.
pub(crate) fn sustain(zones: &PairAmounts<'_>, note: &Note) -> u32
    ensures { result ≡ clamped 0 960 (moved note.now (settings_of zones.now.instrument) (settings_of zones.now.preset) 37) }
{
    moved(zones, note, SUSTAIN_VOL_ENV).max(0).min(960) as u32
}

// A time in frames, without modulators.
pub(crate) fn time(zones: &PairAmounts<'_>, operator: u16) -> u32
    requires { is_range_operator operator ≡ false }
    ensures { result ≡ frames_of (amount (settings_of zones.now.instrument) (settings_of zones.now.preset) operator) }
{
    frames(i64::from(amount(zones, operator)))
}

// A time in frames, with linear modulators.
pub(crate) fn moved_time(zones: &PairAmounts<'_>, note: &Note, operator: u16) -> u32
    requires { is_range_operator operator ≡ false }
    ensures { result ≡ frames_of (moved note.now (settings_of zones.now.instrument) (settings_of zones.now.preset) operator) }
{
    frames(i64::from(moved(zones, note, operator)))
}
