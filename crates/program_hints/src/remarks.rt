//! Lines that help with a fault.

use arrayvec::ArrayVec;
use itoa::{Buffer, Integer};

/// The most bytes of all lines.
const MOST: usize = 2048;

/// Indented lines that help with a fault, 2,048 bytes at most: what goes beyond is left out. It has no allocation, so
/// that it can be used where memory is short.
#[derive(Drop)]
pub struct Remarks {
    text: ArrayVec<u8, MOST>,
    is_wanted: bool,
}

impl Remarks {
    /// No lines yet, and whether a person reads them.
    pub fn new(is_wanted: bool) -> Remarks {
        Remarks {
            text: ArrayVec::new(),
            is_wanted,
        }
    }

    /// Whether a person reads them. If not, nothing needs to be found out.
    pub fn is_wanted(&self) -> bool {
        self.is_wanted
    }

    /// The lines, each with its line feed.
    pub fn text(&self) -> &[u8] {
        self.text.as_slice()
    }

    /// Adds a line, indented by two blanks.
    pub fn line(&mut self, pieces: &[&[u8]]) {
        self.put(b"  ");
        for piece in pieces {
            self.put(piece);
        }
        self.put(b"\n");
    }

    /// Adds the lines of others.
    pub fn append(&mut self, others: &Remarks) {
        self.put(others.text());
    }

    /// Adds bytes, or none of them if they are too many.
    pub(crate) fn put(&mut self, bytes: &[u8]) {
        let _ = self.text.try_extend_from_slice(bytes);
    }

    /// Adds a number.
    pub(crate) fn put_number<I: Integer>(&mut self, number: I) {
        let mut digits = Buffer::new();
        self.put(digits.format(number).as_bytes());
    }

    /// Adds a range of keys or velocities, which is its low end, and 256 times its high end.
    pub(crate) fn put_range(&mut self, range: u16) {
        self.put_number(range & 0xff);
        self.put(b"..");
        self.put_number(range >> 8);
    }
}
