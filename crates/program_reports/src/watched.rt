//! The standard output, whose reader may close it early.
ghost use Rattle.std.specs.Prelude.{None};
ghost use Rattle.std.specs.Io.{WritesAtMost};
ghost use Rattle.std.specs.Io.KnownBytes.{WriteAppends, Keeps};

use std::io;
use std::io::{ErrorKind, Write};

/// A writer that knows the kind of the error by which its last write or flush failed, if it did. It is `BrokenPipe`
/// where nothing reads the other end of a pipe.
pub trait KnowsError {
    fn last_error(&self) -> Option<ErrorKind>;
}

/// A writer that notes its last error.
#[derive(Drop)]
pub struct Watched<'a, O: Write> {
    output: &'a mut O,
    last_error: Option<ErrorKind>,
}

impl<'a, O: Write> Watched<'a, O> {
    /// A writer that passes everything on to `output`.
    pub fn new(output: &'a mut O) -> Watched<'a, O> {
        Watched {
            output,
            last_error: None,
        }
    }
}

impl<O: Write> KnowsError for Watched<'_, O> {
    fn last_error(&self) -> Option<ErrorKind> {
        self.last_error
    }
}

impl<O: Write> Write for Watched<'_, O> {
    fn write(&mut self, bytes: &[u8]) -> io::Result<usize>
        ensures bound { WritesAtMost result bytes.now }
        ensures bytes { WriteAppends None None result bytes.now }
    {
        let result = self.output.write(bytes);
        self.last_error = kind_of(&result);
        result
    }

    fn flush(&mut self) -> io::Result<()>
        ensures { Keeps None None }
    {
        let result = self.output.flush();
        self.last_error = kind_of(&result);
        result
    }
}

fn kind_of<T>(answer: &io::Result<T>) -> Option<ErrorKind> {
    match answer {
        Ok(_) => None,
        Err(error) => Some(error.kind()),
    }
}
