//! Steps that edit the texts of a bank.
ghost use Rattle.std.specs.Prelude.{◌≡◌};
ghost use Rattle.edit_forms.specs.Texts.{Fits};

use bank_parts::InfoId;
use sf_base::BorrowedBytes;

/// A step that edits the texts of a bank. It borrows its text.
#[derive(Drop)]
pub enum TextStep<'a> {
    /// `set-info ID TEXT`: sets the text.
    SetInfo { id: InfoId, text: BorrowedBytes<'a> },
}

impl<'a> TextStep<'a> {
    /// Proves that each byte of the text is below 256. It does nothing at run time.
    pub fn fits(&self)
        ensures { Fits self.now }
    {
        match self {
            TextStep::SetInfo { id: _, text } => {
                let _bytes = text.bytes();
            }
        }
    }

    /// Copies the step. The copy borrows the same text.
    pub fn copy(&self) -> TextStep<'a>
        ensures { result ≡ self.now }
    {
        match self {
            TextStep::SetInfo { id, text } => TextStep::SetInfo {
                id: *id,
                text: BorrowedBytes::new(text.bytes()),
            },
        }
    }
}
