//! The eight texts of a bank.
ghost use Rattle.std.specs.Prelude.{◌≡◌};
ghost use Rattle.bank_parts.specs.Texts.{text_of};

use sf_base::BorrowedBytes;

/// Which of the eight texts (SoundFont 2.04, section 5).
#[derive(Clone, Copy, Debug, PartialEq, Eq)]
pub enum InfoId {
    /// `isng`, the sound engine that the bank was made for.
    Engine,
    /// `INAM`, the bank's name.
    Name,
    /// `ICRD`, the day of its creation.
    Date,
    /// `IENG`, who designed its sounds.
    Engineers,
    /// `IPRD`, the product that it was made for.
    Product,
    /// `ICOP`, the copyright.
    Copyright,
    /// `ICMT`, the comment.
    Comment,
    /// `ISFT`, the software that made and changed it.
    Software,
}

/// The eight texts, borrowed from the file or from a script's pool. In a valid bank each has at most 255 bytes, the
/// comment 65,535; no byte is zero, and the engine is not empty.
#[derive(Debug, Drop)]
pub struct Texts<'a> {
    pub engine: BorrowedBytes<'a>,
    pub name: BorrowedBytes<'a>,
    pub date: BorrowedBytes<'a>,
    pub engineers: BorrowedBytes<'a>,
    pub product: BorrowedBytes<'a>,
    pub copyright: BorrowedBytes<'a>,
    pub comment: BorrowedBytes<'a>,
    pub software: BorrowedBytes<'a>,
}

impl<'a> Texts<'a> {
    /// The bytes of the text with this id.
    pub fn get(&self, id: InfoId) -> &'a [u8]
        ensures { result.now ≡ text_of self.now id }
    {
        match id {
            InfoId::Engine => self.engine.bytes(),
            InfoId::Name => self.name.bytes(),
            InfoId::Date => self.date.bytes(),
            InfoId::Engineers => self.engineers.bytes(),
            InfoId::Product => self.product.bytes(),
            InfoId::Copyright => self.copyright.bytes(),
            InfoId::Comment => self.comment.bytes(),
            InfoId::Software => self.software.bytes(),
        }
    }
}
