//! Reads the id of one of a bank's texts.
ghost use Rattle.std.specs.Prelude.{◌≡◌};
ghost use Rattle.script_tokens.specs.Parsers.{Reads};
ghost use Rattle.script_grammar.specs.Texts.{id_word, ids, info_id};

use crate::names::{HasWord, next_named};
use bank_parts::InfoId;
use script_tokens::{Cursor, LineFault};

static IDS: [InfoId; 8] = [
    InfoId::Engine,
    InfoId::Name,
    InfoId::Date,
    InfoId::Engineers,
    InfoId::Product,
    InfoId::Copyright,
    InfoId::Comment,
    InfoId::Software,
];

impl HasWord for InfoId {
    ghost all = { ids };

    ghost word_of = { id_word };

    fn all() -> &'static [InfoId] {
        &IDS
    }

    fn word(self) -> &'static [u8] {
        match self {
            InfoId::Engine => b"isng",
            InfoId::Name => b"INAM",
            InfoId::Date => b"ICRD",
            InfoId::Engineers => b"IENG",
            InfoId::Product => b"IPRD",
            InfoId::Copyright => b"ICOP",
            InfoId::Comment => b"ICMT",
            InfoId::Software => b"ISFT",
        }
    }
}

/// Reads the id of a text, which is the id of its chunk (SoundFont 2.04, section 5); `Syntax` for another word.
#[tactic(auto, unfolding(crate::specs::Texts::info_id))]
pub fn info_id(line: &mut Cursor<'_, '_>) -> Result<InfoId, LineFault>
    ensures { Reads (λ id. id) info_id line.old line.new result }
{
    next_named(line)
}
