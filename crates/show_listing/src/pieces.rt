//! The pieces of lines.
ghost use Rattle.std.specs.Prelude.{◌≡◌};
ghost use Rattle.script_tokens.specs.declared.printing.Piece.TheVariants.{Number, Word, Name};

use script_tokens::Piece;
use sf_base::{BorrowedBytes, Name20};

// A number as a piece.
pub(crate) fn number_piece<'a>(number: u64) -> Piece<'a>
    ensures { result ≡ Number number }
{
    Piece::Number(number)
}

// A word as a piece.
pub(crate) fn word_piece(word: &[u8]) -> Piece<'_>
    ensures { result ≡ Word word.now }
{
    Piece::Word(BorrowedBytes::new(word))
}

// A name as a piece.
pub(crate) fn name_piece(name: &Name20) -> Piece<'_>
    ensures { result ≡ Name name.now }
{
    Piece::Name(BorrowedBytes::new(name.bytes()))
}
