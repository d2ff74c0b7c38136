//! Linear modulators of a note's key or velocity.
ghost use Rattle.std.specs.Prelude.{◌≡◌, ◌≤◌, ◌<◌, ◌≤ℤ◌, pos, negsuc, IfSome, MatchOption, ◌==◌};
ghost use Rattle.std.specs.List.{list_any};
ghost use Rattle.modulators.specs.Modulators.{bit_of};
ghost use Rattle.modulators.specs.Linear.{IsLinear, is_linear, linear_value, controller_value, directed, polarized, linear_destinations};

use crate::modulator::Modulator;

/// The low byte of a source that is the velocity of the note: general controller 2.
const VELOCITY: u16 = 2;

/// The low byte of a source that is the key of the note: general controller 3.
const KEY: u16 = 3;

/// The direction bit of a source: set if it falls as its controller grows.
const FALLING: u32 = 8;

/// The polarity bit of a source: set if its values start at -128.
const BIPOLAR: u32 = 9;

/// The value of a linear modulator for a note's key and velocity, in 128ths: the part of its amount that it adds to its
/// generator. `None` if the modulator is not played.
///
/// A modulator is played if it maps the velocity (general controller 2) or the key (3) of SoundFont 2.04, section
/// 8.2.1, linearly and with amount source 0 to pan, to the attack, decay, sustain or release of the volume envelope, to
/// the attenuation or to the fine tune. For a key and a velocity up to 127, the value is -128 to 127.
#[tactic(auto, using(crate::proofs::LinearLaws::linear_is, crate::proofs::LinearLaws::linear_is_not))]
pub fn linear_value(modulator: &Modulator, key: u8, velocity: u8) -> Option<i16>
    ensures value { result ≡ linear_value modulator.now key velocity }
    ensures played { MatchOption result (¬ IsLinear modulator.now) (λ x. IsLinear modulator.now) }
    ensures within { key ≤ 127 → velocity ≤ 127 → IfSome result (λ x. (negsuc 127 ≤ℤ x) × (x ≤ℤ pos 127)) }
{
    if !is_linear(modulator) {
        return None;
    }
    let controller = controller_value(modulator.source, key, velocity);
    Some(polarized(modulator.source, directed(modulator.source, controller)))
}

// Whether a modulator is played.
fn is_linear(modulator: &Modulator) -> bool
    ensures { result ≡ is_linear modulator.now }
{
    matches!(modulator.source & 0xff, VELOCITY | KEY)
        && modulator.source >> 10 == 0
        && modulator.amount_source == 0
        && is_linear_destination(modulator.dest)
}

// Whether a linear modulator may change this generator: pan; the volume envelope's attack, decay, sustain or release;
// attenuation; fine tune.
fn is_linear_destination(generator: u16) -> bool
    ensures { result ≡ list_any (λ operator. generator == operator) linear_destinations }
{
    matches!(generator, 17 | 34 | 36 | 37 | 38 | 48 | 52)
}

// The value of a source's controller: the velocity, or else the key.
fn controller_value(source: u16, key: u8, velocity: u8) -> u8
    ensures value { result ≡ controller_value source key velocity }
    ensures within { key ≤ 127 → velocity ≤ 127 → result ≤ 127 }
{
    if source & 0x7f == VELOCITY {
        velocity
    } else {
        key
    }
}

// Whether a bit of a source is set.
fn has_bit(source: u16, bit: u32) -> bool
    requires { bit < 16 }
    ensures { result ≡ (bit_of bit source == 1) }
{
    source >> bit & 1 == 1
}

// A controller's value in the direction of the source.
fn directed(source: u16, controller: u8) -> i16
    ensures value { result ≡ directed source (pos controller) }
    ensures low { negsuc 127 ≤ℤ result }
    ensures high { result ≤ℤ pos 255 }
    ensures within { controller ≤ 127 → (pos 0 ≤ℤ result) × (result ≤ℤ pos 127) }
{
    let value = i16::from(controller);
    if has_bit(source, FALLING) {
        127 - value
    } else {
        value
    }
}

// A value in the polarity of the source.
fn polarized(source: u16, value: i16) -> i16
    requires low { negsuc 127 ≤ℤ value }
    requires high { value ≤ℤ pos 255 }
    ensures value { result ≡ polarized source value }
    ensures within { pos 0 ≤ℤ value → value ≤ℤ pos 127 → (negsuc 127 ≤ℤ result) × (result ≤ℤ pos 127) }
{
    if has_bit(source, BIPOLAR) {
        2 * value - 128
    } else {
        value
    }
}
