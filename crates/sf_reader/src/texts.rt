//! The eight texts of a file (SoundFont 2.04, section 5).
ghost use Rattle.std.specs.Prelude.{◌≡◌, ◌≤◌, take};
ghost use Rattle.bank_format.specs.Texts.{text_in, engine_read, over};
ghost use Rattle.sf_reader.specs.Texts.{texts_in, truncated_to_limits, too_long_count};

use bank_core::Texts;
use bank_format::before_zero;
use riff_chunks::FirstChunks;
use sf_base::limits::{COMMENT_LENGTH, TEXT_LENGTH};
use sf_base::{BorrowedBytes, front_of};

/// The eight texts of the list `INFO`, before they are truncated. A missing text is empty.
#[tactic(auto, unfolding(crate::specs::Texts::texts_in, bank_format::specs::Ids::ISNG, bank_format::specs::Ids::INAM, bank_format::specs::Ids::ICRD, bank_format::specs::Ids::IENG, bank_format::specs::Ids::IPRD, bank_format::specs::Ids::ICOP, bank_format::specs::Ids::ICMT, bank_format::specs::Ids::ISFT))]
pub(crate) fn texts_of<'a>(info: &FirstChunks<'a>) -> Texts<'a>
    ensures { result ≡ texts_in info.now }
{
    Texts {
        engine: text_of(info, *b"isng"),
        name: text_of(info, *b"INAM"),
        date: text_of(info, *b"ICRD"),
        engineers: text_of(info, *b"IENG"),
        product: text_of(info, *b"IPRD"),
        copyright: text_of(info, *b"ICOP"),
        comment: text_of(info, *b"ICMT"),
        software: text_of(info, *b"ISFT"),
    }
}

// The text of the first chunk with an id.
fn text_of<'a>(info: &FirstChunks<'a>, id: [u8; 4]) -> BorrowedBytes<'a>
    ensures { result ≡ text_in id info.now }
{
    let body = info.body_of(id).unwrap_or(&[]);
    BorrowedBytes::new(before_zero(body))
}

/// The texts of the bank: truncated to their maximum lengths, with a default engine.
#[tactic(auto, unfolding(crate::specs::Texts::truncated_to_limits))]
pub(crate) fn truncated_texts<'a>(texts: &Texts<'a>) -> Texts<'a>
    ensures { result ≡ truncated_to_limits texts.now }
{
    Texts {
        engine: engine_or_default(front_of(texts.engine.bytes(), TEXT_LENGTH)),
        name: truncated(&texts.name, TEXT_LENGTH),
        date: truncated(&texts.date, TEXT_LENGTH),
        engineers: truncated(&texts.engineers, TEXT_LENGTH),
        product: truncated(&texts.product, TEXT_LENGTH),
        copyright: truncated(&texts.copyright, TEXT_LENGTH),
        comment: truncated(&texts.comment, COMMENT_LENGTH),
        software: truncated(&texts.software, TEXT_LENGTH),
    }
}

// The first `most` bytes of a text.
fn truncated<'a>(text: &BorrowedBytes<'a>, most: usize) -> BorrowedBytes<'a>
    ensures { result ≡ take most text.now }
{
    BorrowedBytes::new(front_of(text.bytes(), most))
}

// The engine that the file names, or `EMU8000`, the default of the standard.
#[tactic(auto, unfolding(bank_format::specs::Ids::EMU8000))]
fn engine_or_default(engine: &[u8]) -> BorrowedBytes
    ensures { result ≡ engine_read engine.now }
{
    if engine.is_empty() {
        return BorrowedBytes::new(b"EMU8000");
    }
    BorrowedBytes::new(engine)
}

/// Returns how many of the texts are too long.
#[tactic(auto, unfolding(crate::specs::Texts::too_long_count))]
pub(crate) fn count_too_long(texts: &Texts) -> u64
    ensures { result ≡ too_long_count texts.now }
{
    over(&texts.engine, TEXT_LENGTH)
        + over(&texts.name, TEXT_LENGTH)
        + over(&texts.date, TEXT_LENGTH)
        + over(&texts.engineers, TEXT_LENGTH)
        + over(&texts.product, TEXT_LENGTH)
        + over(&texts.copyright, TEXT_LENGTH)
        + over(&texts.comment, COMMENT_LENGTH)
        + over(&texts.software, TEXT_LENGTH)
}

// Returns 1 if the text is longer than `most`.
fn over(text: &BorrowedBytes, most: usize) -> u64
    ensures value { result ≡ over most text.now }
    ensures small { result ≤ 1 }
{
    u64::from(text.bytes().len() > most)
}
