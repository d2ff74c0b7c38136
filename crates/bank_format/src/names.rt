//! Names in the fields of records.
ghost use Rattle.std.specs.Prelude.{◌≡◌, ◌==◌};
ghost use Rattle.sf_base.specs.Names.{before_zero};

use sf_base::{Name20, front_of};

/// Returns the bytes before the first zero, or all bytes if there is none.
pub fn before_zero(bytes: &[u8]) -> &[u8]
    ensures { result.now ≡ before_zero bytes.now }
{
    let end = bytes
        .iter()
        .position(|byte| *byte == 0)
        .unwrap_or(bytes.len());
    front_of(bytes, end)
}

/// Reads the name in a field of a record: the bytes before the first zero (SoundFont 2.04, sections 7.2, 7.6 and
/// 7.10).
pub fn name_of(field: &[u8; 20]) -> Name20
    ensures { result ≡ before_zero field.now }
{
    Name20::from_bytes(before_zero(field)).unwrap()
}
