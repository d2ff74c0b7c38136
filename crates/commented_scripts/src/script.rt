//! The script of a bank with comments.
ghost use Rattle.std.specs.Prelude.{◌++◌};
ghost use Rattle.base_outputs.specs.Output.{Puts};
ghost use Rattle.script_of_bank.specs.BankScript.{first_line};
ghost use Rattle.script_comments.specs.Comments.{comment_of};
ghost use Rattle.script_comments.specs.Lines.{commented};

use bank_core::Bank;
use base_outputs::Output;
use base_texts::Text;
use edit_forms::Edit;
use script_comments::put_named_edit;
use script_of_bank::SamplePoints;
use script_tokens::{Piece, put_line};
use sf_base::BorrowedBytes;
use std::io::Write;

/// The script of a bank, as `BankScript`, with a comment at the end of each line, which has the names that members have
/// in the bank. `edits` are those that `listed_edits` returns for the same bank and points.
#[derive(Clone, Copy)]
pub struct CommentedScript<'t, 'a> {
    pub bank: &'t Bank<'a>,
    pub points: SamplePoints,
    pub edits: &'t [Edit<'a>],
}

impl Text for CommentedScript<'_, '_> {
    ghost bytes = { λ script. first_line script.points script.bank.now.minor
        ++ commented (comment_of script.bank.now) script.edits.now };

    fn put<W: Write>(&self, output: &mut Output<'_, W>) {
        put_first_line(self.points, self.bank.minor(), output);
        put_edits(self.bank, self.edits, output);
    }
}

// Writes the comment before all edits.
fn put_first_line<W: Write>(points: SamplePoints, minor: u16, output: &mut Output<'_, W>)
    ensures { Puts W.contents output.old output.new (first_line points minor) }
{
    let command = b"# sfbank new --minor";
    let minor = Piece::Number(u64::from(minor));
    match points {
        SamplePoints::Kept => put_line(command, &[minor], output),
        SamplePoints::LeftOut => {
            let without = Piece::Word(BorrowedBytes::new(b"without"));
            let points = Piece::Word(BorrowedBytes::new(b"points"));
            put_line(command, &[minor, without, points], output);
        }
    }
}

// Writes the lines of edits, each with its comment.
fn put_edits<W: Write>(bank: &Bank<'_>, edits: &[Edit<'_>], output: &mut Output<'_, W>)
    ensures { Puts W.contents output.old output.new (commented (comment_of bank.now) edits.now) }
{
    for edit in edits {
        put_named_edit(bank, edit, output);
    }
}
