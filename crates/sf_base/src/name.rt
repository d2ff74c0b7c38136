//! Names of at most twenty bytes.
ghost use Rattle.std.specs.Prelude.{◌≡◌, ◌<◌, ◌≤◌, ◌↔◌, ℕ, List, length, Contains, IfOk};
ghost use Rattle.sf_base.specs.Names.{IsName, filled};

use crate::blank::Blank;
use crate::limits::NAME_LENGTH;
use std::alloc::Global;
use std::marker::Model;
use thiserror::Error;

/// Why bytes are not a name. A text that is too long is `TooLong` even if it has a zero byte.
#[derive(Debug, Drop, Clone, Copy, PartialEq, Eq, Error)]
pub enum NameFault {
    #[error("a name has at most 20 bytes")]
    TooLong,
    #[error("a name has no zero byte")]
    ZeroByte,
}

/// The name of a preset, an instrument or a sample: at most 20 bytes of any value but zero
/// (SoundFont 2.04, `achPresetName`, `achInstName`, `achSampleName`).
#[derive(Clone, Copy, PartialEq, Eq)]
pub struct Name20 {
    bytes: [u8; 20],
    len: usize,
}

impl Model for Name20 {
    ghost use Rattle.std.specs.Prelude.{ℕ, List, take, length};
    ghost use Rattle.sf_base.specs.Names.{HoldsName, filled, filled-take};

    ghost Value = { List ℕ };

    ghost view = { λ n. take n.len n.bytes };

    ghost invariant = { λ n. HoldsName n.bytes n.len };

    ghost inverse = { λ text. record { bytes = filled text; len = length text } };

    ghost inverse_ok = { λ n h. filled-take (λ bytes len. record { bytes = bytes; len = len }) n.bytes n.len h };
}

/// The empty name.
impl Blank for Name20 {
    fn blank(_alloc: Global) -> Name20 {
        Name20 {
            bytes: [0; 20],
            len: 0,
        }
    }
}

impl Name20 {
    /// Makes a name of these bytes. More than 20 bytes are `TooLong`; otherwise a zero byte is `ZeroByte`.
    pub fn from_bytes(text: &[u8]) -> Result<Name20, NameFault>
        ensures value { IfOk result (λ name. name ≡ text.now) }
        ensures named { IfOk result (λ name. IsName name) }
        ensures too_long { (result ≡ Err NameFault.TooLong) ↔ (20 < length text.now) }
        ensures zero_byte { (result ≡ Err NameFault.ZeroByte) ↔ ((length text.now ≤ 20) × Contains text.now 0) }
    {
        if text.len() > NAME_LENGTH {
            return Err(NameFault::TooLong);
        }
        if text.contains(&0) {
            return Err(NameFault::ZeroByte);
        }
        let mut bytes = [0; 20];
        bytes[..text.len()].copy_from_slice(text);
        Ok(Name20 {
            bytes,
            len: text.len(),
        })
    }

    /// The bytes of the name, without padding.
    pub fn bytes(&self) -> &[u8]
        ensures value { result.now ≡ self.now }
        ensures named { IsName self.now }
    {
        &self.bytes[..self.len]
    }

    /// The bytes of the name, padded with zero bytes to 20, as in a record of the file.
    pub fn filled(&self) -> [u8; 20]
        ensures { result ≡ filled self.now }
    {
        self.bytes
    }
}
