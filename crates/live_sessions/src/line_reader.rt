//! The source of a session's lines.
ghost use Rattle.std.specs.Prelude.{◌≡◌, IfOk, OnErr, None};
ghost use Rattle.live_sessions.specs.Runs.{IsRead, ReadsPart};

use std::io::{BufRead, ErrorKind};

/// A source of lines for a session.
pub trait LineReader {
    ghost use Rattle.std.specs.Prelude.{◌≡◌, ℕ, List, Option, IfOk, OnErr};
    ghost use Rattle.std.specs.Result.{result_err};
    ghost use Rattle.std.specs.declared.io.ErrorKind.{ErrorKind};
    ghost use Rattle.live_sessions.specs.Runs.{IsRead, ReadsPart};

    // The remaining bytes, or None where they are not known.
    ghost remaining: { Self → Option (List ℕ) };

    // Why the last read failed, or None if it did not.
    ghost failure: { Self → Option ErrorKind };

    /// Replaces the content of `line` by the next line, with its line feed if it has one. Returns false at the end of
    /// the input, where there is none. A failed read may have consumed a part of a line.
    fn read_line(&mut self, line: &mut Vec<u8>) -> Result<bool, ErrorKind>
        ensures read { IfOk result (λ is_line. IsRead is_line (remaining self.old) (remaining self.new) line.new.items) }
        ensures part { OnErr result (ReadsPart (remaining self.old) (remaining self.new)) }
        ensures failed { failure self.new ≡ result_err result };
}

/// The lines of a reader. Keeps why the last read failed.
#[derive(Drop)]
pub struct InputLines<R> {
    reader: R,
    failure: Option<ErrorKind>,
}

impl<R: BufRead> InputLines<R> {
    /// The remaining lines of a reader.
    pub fn new(reader: R) -> InputLines<R>
        ensures reader { result.reader ≡ reader }
        ensures unfailed { result.failure ≡ None }
    {
        InputLines {
            reader,
            failure: None,
        }
    }
}

impl<R: BufRead> LineReader for InputLines<R> {
    ghost remaining = { λ lines. R.remaining lines.reader };

    ghost failure = { λ lines. lines.failure };

    fn read_line(&mut self, line: &mut Vec<u8>) -> Result<bool, ErrorKind> {
        let read = read_next(line, &mut self.reader);
        self.failure = read.err();
        read
    }
}

// Reads the next line, with its line feed if it has one. Returns false at the end of the input.
fn read_next<R: BufRead>(line: &mut Vec<u8>, input: &mut R) -> Result<bool, ErrorKind>
    ensures read { IfOk result (λ is_line. IsRead is_line (R.remaining input.old) (R.remaining input.new) line.new.items) }
    ensures part { OnErr result (ReadsPart (R.remaining input.old) (R.remaining input.new)) }
{
    line.clear();
    match input.read_until(b'\n', line) {
        Ok(0) => Ok(false),
        Ok(_) => Ok(true),
        Err(error) => Err(error.kind()),
    }
}
