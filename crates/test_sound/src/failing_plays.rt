//! A test of `play_run` with a writer that fails to flush.

use crate::waves::FILE;
use sfbank::{RunFault, Which, play_run};
use test_inputs::{FailingWriter, NEVER, WriteFailure, tone};

#[test]
fn a_flush_fails(rt: HostRuntime) {
    let mut out = FailingWriter::new(rt.alloc(), 100, NEVER, WriteFailure::Error);
    out.flushes = false;
    let answer = play_run(rt.alloc(), tone().bytes(), b"0 8 0 0 67 127\n", &mut out);
    assert!(rt; out.held.as_slice() == FILE && answer == Err(RunFault::Write(Which::Out, 76)));
}
