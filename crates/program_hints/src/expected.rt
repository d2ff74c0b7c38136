//! What the parser of edits accepts in the place of a wrong or missing token, found by trying.

use crate::remarks::Remarks;
use itoa::Buffer;
use script_trials::{accepts_after, is_edit};
use std::alloc::Global;

/// The words of the grammar, but for those of forms.
static WORDS: [&[u8]; 26] = [
    b"preset", b"inst", b"global", b"key", b"vel", b"keep", b"bare", b"{", b"}", b"g", b"m",
    b"mono", b"left", b"right", b"linked", b"loop", b"noloop", b"isng", b"INAM", b"ICRD", b"IENG",
    b"IPRD", b"ICOP", b"ICMT", b"ISFT", b"group",
];

/// The highest bit of a number.
const HIGHEST_BIT: u32 = 1 << 31;

/// The place of a token in a line: the bytes before it, and the parser's allocator.
#[derive(Clone, Copy)]
pub(crate) struct TokenPlace<'t> {
    pub alloc: Global,
    pub line: &'t [u8],
    pub start: usize,
}

impl TokenPlace<'_> {
    /// Whether the parser accepts this token there.
    pub(crate) fn accepts(self, token: &[u8]) -> bool {
        accepts_after(self.alloc, self.line, self.start, token)
    }

    /// Whether the line may end there.
    pub(crate) fn may_end(self) -> bool {
        is_edit(self.alloc, self.line, self.start)
    }

    /// Whether a text in quotes is accepted there.
    pub(crate) fn accepts_text(self) -> bool {
        self.accepts(b"\"A\"") || self.accepts(b"x0000")
    }

    /// Whether a range is accepted there, and no number.
    pub(crate) fn accepts_range(self) -> bool {
        self.accepts(b"0..0") && !self.accepts(b"0")
    }

    // Whether a number is accepted there.
    fn accepts_number(self, number: u32) -> bool {
        let mut digits = Buffer::new();
        self.accepts(digits.format(number).as_bytes())
    }

    // The highest number that is accepted there, if 0 is.
    fn highest(self) -> Option<u32> {
        if !self.accepts_number(0) {
            return None;
        }
        let mut highest = 0u32;
        let mut bit = HIGHEST_BIT;
        for _bit in 0..u32::BITS {
            if self.accepts_number(highest | bit) {
                highest |= bit;
            }
            bit /= 2;
        }
        Some(highest)
    }
}

/// Says what is expected in the place of a token.
pub(crate) fn remark_on_expected(place: TokenPlace<'_>, remarks: &mut Remarks) {
    if place.may_end() {
        remarks.line(&[
            b"The edit is complete before this: one edit a line, and a comment begins with #.",
        ]);
    } else if place.accepts_text() {
        remarks.line(&[b"Expected: a text in quotes, or x and hex digits."]);
    } else if place.accepts_range() {
        remarks.line(&[b"Expected: a range, such as 0..59, or 60..60 for one key"]);
    } else if let Some(highest) = place.highest() {
        remark_on_number(place, highest, remarks);
    } else {
        remark_on_words(place, remarks);
    }
}

// Says which numbers are expected, and which words, such as `global` for a number of a zone.
fn remark_on_number(place: TokenPlace<'_>, highest: u32, remarks: &mut Remarks) {
    remarks.put(b"  Expected: a whole number from ");
    if place.accepts(b"-1") {
        remarks.put(b"-");
        remarks.put_number(u64::from(highest).saturating_add(1));
    } else {
        remarks.put(b"0");
    }
    remarks.put(b" to ");
    remarks.put_number(highest);
    put_words(place, b", or ", remarks);
    remarks.put(b".\n");
}

fn remark_on_words(place: TokenPlace<'_>, remarks: &mut Remarks) {
    if WORDS.iter().any(|word| place.accepts(word)) {
        remarks.put(b"  Expected: ");
        put_words(place, b"", remarks);
        remarks.put(b".\n");
    }
}

// Puts the words that are accepted, with this text before the first of them.
fn put_words(place: TokenPlace<'_>, before: &[u8], remarks: &mut Remarks) {
    let mut separator = before;
    for word in &WORDS {
        if place.accepts(word) {
            remarks.put(separator);
            remarks.put(word);
            separator = b" or ";
        }
    }
}
