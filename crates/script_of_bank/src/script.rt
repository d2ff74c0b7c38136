//! The script of a bank.
ghost use Rattle.std.specs.Prelude.{◌≡◌};
ghost use Rattle.base_outputs.specs.Output.{Puts};
ghost use Rattle.edit_script.specs.Printing.{texts_of};
ghost use Rattle.script_of_bank.specs.BankEdits.{edits_of_bank};
ghost use Rattle.script_of_bank.specs.BankScript.{first_line, with_points, bank_script};

use crate::links::put_links;
use crate::owners::put_owners;
use crate::samples::{SamplePoints, put_samples};
use crate::texts::put_texts;
use bank_core::Bank;
use base_outputs::Output;
use base_texts::Text;
use script_tokens::{Piece, put_line};
use sf_base::BorrowedBytes;
use std::io::Write;

/// The script that creates a bank from the empty bank of its minor version: a comment with the command that creates the
/// empty bank, and a line for each edit, first of the texts that are not empty, then of the samples, their links, the
/// instruments and the presets. With [`SamplePoints::LeftOut`] the comment states that points are left out, and each
/// sample has none.
#[derive(Clone, Copy)]
pub struct BankScript<'t, 'a> {
    pub bank: &'t Bank<'a>,
    pub points: SamplePoints,
}

impl Text for BankScript<'_, '_> {
    ghost bytes = { λ script. bank_script script.points script.bank.now };

    fn put<W: Write>(&self, output: &mut Output<'_, W>) {
        put_first_line(self.points, self.bank.minor(), output);
        put_parts(self.bank, self.points, output);
    }
}

// Writes the comment before all edits.
fn put_first_line<W: Write>(points: SamplePoints, minor: u16, output: &mut Output<'_, W>)
    ensures { Puts W.contents output.old output.new (first_line points minor) }
{
    let command = b"# sfbank new --minor";
    let minor = Piece::Number(u64::from(minor));
    match points {
        SamplePoints::Kept => put_line(command, &[minor], output),
        SamplePoints::LeftOut => {
            let without = Piece::Word(BorrowedBytes::new(b"without"));
            let points = Piece::Word(BorrowedBytes::new(b"points"));
            put_line(command, &[minor, without, points], output);
        }
    }
}

// Writes the lines of the edits.
pub(crate) fn put_parts<W: Write>(bank: &Bank<'_>, points: SamplePoints, output: &mut Output<'_, W>)
    ensures { Puts W.contents output.old output.new (texts_of (edits_of_bank (with_points points bank.now))) }
{
    put_texts(bank, output);
    put_samples(bank.samples(), points, output);
    put_links(bank.samples(), output);
    put_owners(bank.instruments(), output);
    put_owners(bank.presets(), output);
}
