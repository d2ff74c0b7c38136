//! The raw change of the texts of a bank.
ghost use Rattle.std.specs.Prelude.{◌≡◌};
ghost use Rattle.bank_parts.specs.Texts.{text_of};
ghost use Rattle.bank_changes.specs.Texts.{text_set};

use bank_parts::{InfoId, Texts};
use sf_base::BorrowedBytes;

/// Replaces the text with this id and returns the old one. Allocates nothing.
pub fn set_info<'a>(texts: &mut Texts<'a>, id: InfoId, text: BorrowedBytes<'a>) -> BorrowedBytes<'a>
    ensures value { result ≡ text_of texts.old id }
    ensures change { texts.new ≡ text_set texts.old id text.entry }
{
    match id {
        InfoId::Engine => std::mem::replace(&mut texts.engine, text),
        InfoId::Name => std::mem::replace(&mut texts.name, text),
        InfoId::Date => std::mem::replace(&mut texts.date, text),
        InfoId::Engineers => std::mem::replace(&mut texts.engineers, text),
        InfoId::Product => std::mem::replace(&mut texts.product, text),
        InfoId::Copyright => std::mem::replace(&mut texts.copyright, text),
        InfoId::Comment => std::mem::replace(&mut texts.comment, text),
        InfoId::Software => std::mem::replace(&mut texts.software, text),
    }
}
