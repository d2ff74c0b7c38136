//! Little-endian numbers in a slice, as in every field of a SoundFont file.
ghost use Rattle.std.specs.Prelude.{◌≡◌, ◌+◌, ◌≤◌, length};
ghost use Rattle.std.specs.Int.{w16, cast_signed};
ghost use Rattle.sf_base.specs.Fields.{field_at};

use crate::rest_from;
use byteorder::{ByteOrder, LittleEndian};

/// Reads the 16-bit unsigned number at offset `at`.
pub fn u16_at(bytes: &[u8], at: usize) -> u16
    requires { at + 2 ≤ length bytes.now }
    ensures { result ≡ field_at at 2 bytes.now }
{
    LittleEndian::read_u16(rest_from(bytes, at))
}

/// Reads the 16-bit signed number at offset `at`.
pub fn i16_at(bytes: &[u8], at: usize) -> i16
    requires { at + 2 ≤ length bytes.now }
    ensures { result ≡ cast_signed w16 (field_at at 2 bytes.now) }
{
    u16_at(bytes, at).cast_signed()
}

/// Reads the 32-bit unsigned number at offset `at`.
pub fn u32_at(bytes: &[u8], at: usize) -> u32
    requires { at + 4 ≤ length bytes.now }
    ensures { result ≡ field_at at 4 bytes.now }
{
    LittleEndian::read_u32(rest_from(bytes, at))
}
