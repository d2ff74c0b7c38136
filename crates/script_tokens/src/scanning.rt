//! Positions of bytes.
ghost use Rattle.std.specs.Prelude.{◌≡◌, ◌≤◌, ◌+◌, length, drop};
ghost use Rattle.std.specs.List.{position_or_len, prefix_len};
ghost use Rattle.script_tokens.specs.Lines.{is_feed};
ghost use Rattle.script_tokens.specs.Tokens.{is_blank, is_quote};

use sf_base::rest_from;

// The bytes after the position `at`, or none where there are no more.
pub(crate) fn bytes_after(bytes: &[u8], at: usize) -> &[u8]
    ensures { result.now ≡ drop (at + 1) bytes.now }
{
    if at < bytes.len() {
        rest_from(bytes, at + 1)
    } else {
        &[]
    }
}

pub(crate) fn is_blank(byte: u8) -> bool
    ensures { result ≡ is_blank byte }
{
    byte == b' ' || byte == b'\t' || byte == b'\r'
}

// The position of the first line feed, or the length where there is none.
pub(crate) fn feed_at(bytes: &[u8]) -> usize
    ensures { result ≡ position_or_len is_feed bytes.now }
{
    bytes.iter().take_while(|byte| **byte != b'\n').count()
}

// The position of the first quote, or the length where there is none.
pub(crate) fn quote_at(bytes: &[u8]) -> usize
    ensures { result ≡ position_or_len is_quote bytes.now }
{
    bytes.iter().take_while(|byte| **byte != b'"').count()
}

// The position of the first blank, or the length where there is none.
pub(crate) fn blank_at(bytes: &[u8]) -> usize
    ensures at { result ≡ position_or_len is_blank bytes.now }
    ensures within { result ≤ length bytes.now }
{
    bytes.iter().take_while(|byte| !is_blank(**byte)).count()
}

// The number of leading blanks.
pub(crate) fn blanks_before(bytes: &[u8]) -> usize
    ensures { result ≡ prefix_len is_blank bytes.now }
{
    bytes.iter().take_while(|byte| is_blank(**byte)).count()
}
