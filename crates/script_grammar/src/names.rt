//! Values that a word of the script names.
ghost use Rattle.std.specs.Prelude.{◌≡◌};
ghost use Rattle.std.specs.Str.{bytes_eq};
ghost use Rattle.script_tokens.specs.Parsers.{Reads};
ghost use Rattle.script_grammar.specs.Names.{named, next_named, fixed};

use script_tokens::{Cursor, LineFault};

/// A type whose values are finitely many and each have a word in scripts.
pub trait HasWord: Copy + 'static {
    ghost use Rattle.std.specs.Prelude.{ℕ, List};

    ghost all: { List Self };

    ghost word_of: { Self → List ℕ };

    /// All values of the type.
    fn all() -> &'static [Self]
        ensures { result.now ≡ all };

    /// The word of a value.
    fn word(self) -> &'static [u8]
        ensures { result.now ≡ word_of self };
}

/// The value that a word names, if there is one.
pub fn named<T: HasWord>(word: &[u8]) -> Option<T>
    ensures { result ≡ named T.word_of T.all word.now }
{
    first_named(T::all(), word)
}

/// Reads a word that names a value; `Syntax` for another word.
#[tactic(auto, unfolding(crate::specs::Names::next_named))]
pub fn next_named<T: HasWord>(line: &mut Cursor<'_, '_>) -> Result<T, LineFault>
    ensures { Reads (λ x. x) (next_named T.word_of T.all) line.old line.new result }
{
    let word = line.word()?;
    named(word).ok_or(LineFault::Syntax)
}

/// Reads this word; `Syntax` for any other token and at the line's end.
#[tactic(auto, unfolding(crate::specs::Names::fixed, crate::specs::Names::fixed_by))]
pub fn fixed(line: &mut Cursor<'_, '_>, text: &[u8]) -> Result<(), LineFault>
    ensures { Reads (λ u. u) (fixed text.now) line.old line.new result }
{
    let word = line.word()?;
    if word_is(word, text) {
        Ok(())
    } else {
        Err(LineFault::Syntax)
    }
}

// The first of these values that a word names.
fn first_named<T: HasWord>(items: &[T], word: &[u8]) -> Option<T>
    ensures { result ≡ named T.word_of items.now word.now }
{
    for item in items {
        if word_is(word, item.word()) {
            return Some(*item);
        }
    }
    None
}

/// Whether a word is this text.
pub(crate) fn word_is(word: &[u8], text: &[u8]) -> bool
    ensures { result ≡ bytes_eq word.now text.now }
{
    word == text
}
