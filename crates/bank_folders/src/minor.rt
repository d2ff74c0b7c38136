//! The minor version that a text begins with.
ghost use Rattle.std.specs.Prelude.{◌≡◌, ◌+◌, min};
ghost use Rattle.std.specs.List.{prefix_len};
ghost use Rattle.script_tokens.specs.Parsers.{is_digit, digits_value};
ghost use Rattle.bank_folders.specs.Minors.{begins_with_minor, minor_with, minor_in};

use sf_base::{front_of, rest_from};

/// The minor version of a new bank, as of `sfbank new`.
const DEFAULT_MINOR: u16 = 4;

/// The highest minor version: a word of 16 bits.
const HIGHEST_MINOR: u32 = 65_535;

/// How many bytes come before the minor version.
const BEGINNING_LENGTH: usize = 21;

/// The minor version of the bank that a text lists: the number after `# sfbank new --minor `, if the text begins with
/// these bytes and decimal digits follow whose value is at most 65,535. Otherwise 4, that of `sfbank new`.
#[tactic(auto, unfolding(crate::specs::Minors::minor_in))]
pub fn minor_of(text: &[u8]) -> u16
    ensures { result ≡ minor_in text.now }
{
    if !begins_with_minor(text) {
        return DEFAULT_MINOR;
    }
    let rest = rest_from(text, BEGINNING_LENGTH);
    minor_with(front_of(rest, digit_count(rest)))
}

fn begins_with_minor(text: &[u8]) -> bool
    ensures { result ≡ begins_with_minor text.now }
{
    text.starts_with(b"# sfbank new --minor ")
}

// The number of leading decimal digits.
fn digit_count(bytes: &[u8]) -> usize
    ensures { result ≡ prefix_len is_digit bytes.now }
{
    bytes
        .iter()
        .take_while(|byte| **byte >= b'0' && **byte <= b'9')
        .count()
}

// The minor version with these digits.
fn minor_with(digits: &[u8]) -> u16
    ensures { result ≡ minor_with digits.now }
{
    let value = clipped_value(digits);
    if digits.is_empty() || value > HIGHEST_MINOR {
        return DEFAULT_MINOR;
    }
    value as u16
}

// The value of digits, or the first number that is too high if theirs is.
#[tactic(auto, using(crate::proofs::MinorLaws::clipped_on))]
fn clipped_value(digits: &[u8]) -> u32
    ensures { result ≡ min (digits_value digits.now) (HIGHEST_MINOR + 1) }
{
    let mut value = 0;
    for digit in digits {
        value = (value * 10 + u32::from(digit.saturating_sub(b'0'))).min(HIGHEST_MINOR + 1);
    }
    value
}
