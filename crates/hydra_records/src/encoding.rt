//! Encodes a record, field by field.
ghost use Rattle.std.specs.Prelude.{◌≡◌, ◌+◌, ◌≤◌, ◌++◌, ℕ, List, [], length};
ghost use Rattle.byteorder.specs.Endian.{little_bytes};

use std::marker::Model;

// The fields of a record encoded so far. Its value is the list of their bytes.
#[derive(Drop)]
pub(crate) struct Encoding<const N: usize> {
    bytes: [u8; N],
    len: usize,
}

impl<const N: usize> Model for Encoding<N> {
    ghost use Rattle.std.specs.Prelude.{◌≡◌, ◌≤◌, ℕ, List, length, take};

    ghost Value = { List ℕ };

    ghost view = { λ s. take s.len s.bytes };

    ghost invariant = { λ s. (s.len ≤ N) × (length s.bytes ≡ N) };
}

impl<const N: usize> Encoding<N> {
    // Starts with no fields.
    pub(crate) fn new() -> Encoding<N>
        ensures { result ≡ [] }
    {
        Encoding {
            bytes: [0; N],
            len: 0,
        }
    }

    // Appends bytes.
    pub(crate) fn with_bytes(mut self, bytes: &[u8]) -> Encoding<N>
        requires { length self + length bytes.now ≤ N }
        ensures value { result ≡ self.entry ++ bytes.now }
        ensures len { length result ≡ length self.entry + length bytes.now }
    {
        let end = self.len + bytes.len();
        self.bytes[self.len..end].copy_from_slice(bytes);
        self.len = end;
        self
    }

    // Appends a number, little-endian.
    pub(crate) fn with_u8(self, byte: u8) -> Encoding<N>
        requires { length self + 1 ≤ N }
        ensures value { result ≡ self.entry ++ little_bytes 1 byte }
        ensures len { length result ≡ length self.entry + 1 }
    {
        self.with_bytes(&[byte])
    }

    pub(crate) fn with_u16(self, word: u16) -> Encoding<N>
        requires { length self + 2 ≤ N }
        ensures value { result ≡ self.entry ++ little_bytes 2 word }
        ensures len { length result ≡ length self.entry + 2 }
    {
        self.with_bytes(&word.to_le_bytes())
    }

    pub(crate) fn with_u32(self, dword: u32) -> Encoding<N>
        requires { length self + 4 ≤ N }
        ensures value { result ≡ self.entry ++ little_bytes 4 dword }
        ensures len { length result ≡ length self.entry + 4 }
    {
        self.with_bytes(&dword.to_le_bytes())
    }

    // The bytes of the complete record.
    pub(crate) fn whole(self) -> [u8; N]
        requires { length self ≡ N }
        ensures { result ≡ self.entry }
    {
        self.bytes
    }
}
