//! The answer to a line.
ghost use Rattle.std.specs.Prelude.{◌≡◌, ◌∷◌, [], codes};
ghost use Rattle.base_outputs.specs.Output.{Puts};
ghost use Rattle.script_tokens.specs.Printing.{line_text};
ghost use Rattle.live_lines.specs.Answers.{answer_text, refused_text, refused_line, fault_text, write_text, rejected_text};

use crate::comment::Comment;
use crate::fault::RequestFault;
use crate::paths::FilePath;
use base_outputs::{Output, OutputFault};
use base_texts::Text;
use edit_refusals::Refusal;
use edit_script::RefusalText;
use script_tokens::{Piece, put_line, put_pieces};
use sf_base::BorrowedBytes;
use std::io::Write;

/// The answer to a line of a live session.
#[derive(Debug, Drop)]
pub enum Answer<'a> {
    /// `ok`
    Done,
    /// `ok COUNT`: a note started this many voices, or so many notes were released or recorded.
    Counted(usize),
    /// `ok # EDIT`: an undo or a redo made this edit.
    Moved(Comment),
    /// `ok N M`: the voices that sound and the notes that are held, or the peak and the clipped frames.
    Measured(u64, u64),
    /// `refused NUMBER NAME ..`: an edit, an undo or a redo is refused.
    Refused(Refusal),
    /// `refused 50 NotNeutral`: the edit may change the sound.
    NotNeutral,
    /// `fault NUMBER NAME # TOKEN`: the line has a fault, at this token; none if one is missing.
    Fault(RequestFault, Option<Comment>),
    /// `out of memory`
    OutOfMemory,
    /// `write fault PATH after N bytes`: a file could not be saved.
    WriteFault {
        path: FilePath<'a>,
        written: u64,
    },
    /// `refused NUMBER NAME PATH`: an output is rejected, and nothing is written.
    Rejected {
        path: FilePath<'a>,
        fault: OutputFault,
    },
}

/// Puts the line of an answer, with its line feed. Allocates nothing.
#[tactic(auto, unfolding(crate::specs::Answers::answer_text))]
pub fn put_answer<W: Write>(answer: &Answer<'_>, output: &mut Output<'_, W>)
    ensures { Puts W.contents output.old output.new (answer_text answer.now) }
{
    match answer {
        Answer::Done => put_line(b"ok", &[], output),
        Answer::Counted(count) => put_line(b"ok", &[Piece::Number(*count as u64)], output),
        Answer::Moved(comment) => put_line(b"ok", &[word("#"), shown(comment)], output),
        Answer::Measured(one, other) => {
            put_line(b"ok", &[Piece::Number(*one), Piece::Number(*other)], output)
        }
        Answer::Refused(why) => put_refused(*why, output),
        Answer::NotNeutral => put_named(50, "NotNeutral", output),
        Answer::Fault(fault, comment) => put_fault(*fault, comment, output),
        Answer::OutOfMemory => output.put(b"out of memory\n"),
        Answer::WriteFault { path, written } => put_write_fault(path.text(), *written, output),
        Answer::Rejected { path, fault } => put_rejected(path.text(), *fault, output),
    }
}

// Puts a refusal by its number and name, for refusals that have no detail.
fn put_named<W: Write>(number: u64, name: &str, output: &mut Output<'_, W>)
    ensures { Puts W.contents output.old output.new (line_text (codes "refused") (Piece.Number number ∷ Piece.Word name.now ∷ [])) }
{
    put_line(b"refused", &[Piece::Number(number), word(name)], output);
}

// Puts why an edit, an undo or a redo is refused.
fn put_refused<W: Write>(why: Refusal, output: &mut Output<'_, W>)
    ensures { Puts W.contents output.old output.new (refused_text why) }
{
    match why {
        Refusal::OutOfMemory => output.put(b"out of memory\n"),
        _ => put_refusal(why, output),
    }
}

// Puts a refusal by its number and name.
fn put_refusal<W: Write>(why: Refusal, output: &mut Output<'_, W>)
    ensures { Puts W.contents output.old output.new (refused_line why) }
{
    output.put(b"refused");
    RefusalText(why).put(output);
    output.put(b"\n");
}

fn put_fault<W: Write>(fault: RequestFault, comment: &Option<Comment>, output: &mut Output<'_, W>)
    ensures { Puts W.contents output.old output.new (fault_text fault comment.now) }
{
    let number = Piece::Number(u64::from(fault.number()));
    output.put(b"fault");
    put_pieces(&[number, word(fault.name())], output);
    if let Some(comment) = comment {
        put_pieces(&[word("#"), shown(comment)], output);
    }
    output.put(b"\n");
}

fn put_write_fault<W: Write>(path: &str, written: u64, output: &mut Output<'_, W>)
    ensures { Puts W.contents output.old output.new (write_text path.now written) }
{
    put_line(
        b"write",
        &[
            word("fault"),
            word(path),
            word("after"),
            Piece::Number(written),
            word("bytes"),
        ],
        output,
    );
}

// Puts why an output is rejected, and its path.
fn put_rejected<W: Write>(path: &str, fault: OutputFault, output: &mut Output<'_, W>)
    ensures { Puts W.contents output.old output.new (rejected_text path.now fault) }
{
    let number = Piece::Number(u64::from(fault.number()));
    put_line(
        b"refused",
        &[number, word(fault.name()), word(path)],
        output,
    );
}

// A piece with the text of a comment.
fn shown(comment: &Comment) -> Piece<'_>
    ensures { result ≡ Piece.Word comment.now }
{
    Piece::Word(BorrowedBytes::new(comment.bytes()))
}

// A piece with this word, written as it is.
fn word(text: &str) -> Piece<'_>
    ensures { result ≡ Piece.Word text.now }
{
    Piece::Word(BorrowedBytes::new(text.as_bytes()))
}
