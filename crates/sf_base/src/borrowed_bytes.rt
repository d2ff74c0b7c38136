//! Borrowed bytes.
ghost use Rattle.std.specs.Prelude.{◌≡◌, ◌<◌};
ghost use Rattle.std.specs.List.{AllByRecursion};

use std::marker::Model;

/// Bytes borrowed from a file, a script or its pool. Its value is the list of them.
#[derive(Debug, Drop)]
pub struct BorrowedBytes<'a> {
    bytes: &'a [u8],
}

impl<'a> Model for BorrowedBytes<'a> {
    ghost use Rattle.std.specs.Prelude.{◌<◌, ℕ, List};
    ghost use Rattle.std.specs.List.{AllByRecursion};

    ghost Value = { List ℕ };

    ghost view = { λ borrowed_bytes. borrowed_bytes.bytes.now };

    ghost invariant = { λ borrowed_bytes. AllByRecursion (λ byte. byte < 256) borrowed_bytes.bytes.now };
}

impl<'a> BorrowedBytes<'a> {
    /// Wraps a slice.
    pub fn new(bytes: &'a [u8]) -> BorrowedBytes<'a>
        ensures { result ≡ bytes.now }
    {
        BorrowedBytes { bytes }
    }

    /// Returns the slice.
    pub fn bytes(&self) -> &'a [u8]
        ensures value { result.now ≡ self.now }
        ensures fits { AllByRecursion (λ byte. byte < 256) self.now }
    {
        self.bytes
    }
}
