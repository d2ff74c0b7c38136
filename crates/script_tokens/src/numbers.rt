//! Numbers in decimal digits.
ghost use Rattle.std.specs.Prelude.{◌≡◌, ◌≤◌, ◌≤ℤ◌, ◌+ℤ◌, pos, neg_ℤ, true, length, IfSome};
ghost use Rattle.std.specs.List.{list_all};
ghost use Rattle.script_tokens.specs.Parsers.{is_digit, digits_value, number_of, signed_of, is_dots, dots_at, range_of};

use sf_base::{front_of, rest_from};

// The value of 1 to 10 decimal digits, if it is at most `limit`.
#[tactic(auto, unfolding(crate::specs::Parsers::number_of))]
pub(crate) fn number_of(word: &[u8], limit: u32) -> Option<u32>
    ensures value { result ≡ number_of limit word.now }
    ensures within { IfSome result (λ n. n ≤ limit) }
{
    if word.is_empty() || word.len() > 10 || !all_digits(word) {
        return None;
    }
    let value = digits_value(word);
    if value > u64::from(limit) {
        return None;
    }
    Some(value as u32)
}

// The value of digits with an optional `-`, if it is from `-limit - 1` to `limit`.
#[tactic(auto, unfolding(crate::specs::Parsers::signed_of))]
pub(crate) fn signed_of(word: &[u8], limit: u16) -> Option<i32>
    ensures value { result ≡ signed_of limit word.now }
    ensures low { IfSome result (λ z. neg_ℤ (pos limit) ≤ℤ (z +ℤ pos 1)) }
    ensures high { IfSome result (λ z. z ≤ℤ pos limit) }
{
    if word.is_empty() {
        return None;
    }
    if word[0] == b'-' {
        let value = number_of(rest_from(word, 1), u32::from(limit) + 1)?;
        return Some(-(value as i32));
    }
    let value = number_of(word, u32::from(limit))?;
    Some(value as i32)
}

// The two ends of a range: the numbers before and after the first `..`.
#[tactic(auto, unfolding(crate::specs::Parsers::range_of))]
pub(crate) fn range_of(word: &[u8]) -> Option<(u8, u8)>
    ensures { result ≡ range_of word.now }
{
    let dots = dots_at(word);
    let low = number_of(front_of(word, dots), 255)?;
    let high = number_of(rest_from(word, dots + 2), 255)?;
    Some((low as u8, high as u8))
}

// The position of the first `..`, or the length where there is none.
#[tactic(auto, using(crate::proofs::TestLaws::dots_on))]
fn dots_at(word: &[u8]) -> usize
    ensures at { result ≡ dots_at word.now }
    ensures within { result ≤ length word.now }
{
    let mut at = 0;
    while at < word.len() && !is_dots(rest_from(word, at)) {
        at += 1;
    }
    at
}

// Whether the bytes begin with `..`.
fn is_dots(bytes: &[u8]) -> bool
    ensures { result ≡ is_dots bytes.now }
{
    bytes.len() >= 2 && bytes[0] == b'.' && bytes[1] == b'.'
}

fn all_digits(word: &[u8]) -> bool
    ensures { result ≡ list_all is_digit word.now }
{
    word.iter().all(|digit| *digit >= b'0' && *digit <= b'9')
}

// The value of decimal digits.
fn digits_value(word: &[u8]) -> u64
    requires short { length word.now ≤ 10 }
    requires digits { list_all is_digit word.now ≡ true }
    ensures { result ≡ digits_value word.now }
{
    let mut value = 0;
    for digit in word {
        value = value * 10 + u64::from(*digit - b'0');
    }
    value
}
