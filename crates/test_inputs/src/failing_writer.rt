//! A writer that fails.
ghost use Rattle.std.specs.Prelude.{Some};

use sf_base::front_of;
use std::alloc::Global;
use std::io;
use std::io::{ErrorKind, Write};

/// For `fails_at`: no call fails.
pub const NEVER: usize = usize::MAX;

/// How a write fails: with an error, or by accepting no byte.
#[derive(Clone, Copy)]
pub enum WriteFailure {
    Error,
    AcceptsNone,
}

/// A writer that accepts at most `call_limit` bytes a call, and fails from call `fails_at` on, counted from 0. Its flush
/// fails if `flushes` is false.
#[derive(Drop)]
pub struct FailingWriter {
    pub held: Vec<u8>,
    pub flushes: bool,
    /// The number of calls that accepted bytes.
    pub calls: usize,
    pub failed: bool,
    call_limit: usize,
    fails_at: usize,
    failure: WriteFailure,
}

impl FailingWriter {
    /// A writer that holds nothing yet and whose flush succeeds.
    pub fn new(
        alloc: Global,
        call_limit: usize,
        fails_at: usize,
        failure: WriteFailure,
    ) -> FailingWriter {
        FailingWriter {
            held: Vec::new(alloc),
            flushes: true,
            calls: 0,
            failed: false,
            call_limit,
            fails_at,
            failure,
        }
    }
}

impl Write for FailingWriter {
    ghost contents = { λ s. Some s.held.items };

    fn write(&mut self, buf: &[u8]) -> io::Result<usize> {
        if self.calls >= self.fails_at {
            self.failed = true;
            return match self.failure {
                WriteFailure::Error => Err(io::Error::from(ErrorKind::BrokenPipe)),
                WriteFailure::AcceptsNone => Ok(0),
            };
        }
        self.calls += 1;
        let accepted = front_of(buf, self.call_limit);
        self.held.extend_from_slice(accepted)?;
        Ok(accepted.len())
    }

    fn flush(&mut self) -> io::Result<()> {
        if self.flushes {
            return Ok(());
        }
        self.failed = true;
        Err(io::Error::from(ErrorKind::BrokenPipe))
    }
}
