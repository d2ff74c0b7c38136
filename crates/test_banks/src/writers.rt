//! Tests of writers that fail: what `put_all` writes before the failure, and failed flushes.

use base_outputs::{WriteFault, put_all};
use sfbank::{RunFault, Which, canon_run, edit_run, fault_text, show_run};
use std::alloc::Global;
use std::test::Fail;
use test_inputs::{
    FailingWriter, NEVER, RENAME, WriteFailure, renamed_saw, saw, tone, with_zero_records,
};

/// Whether the result of `put_all` is right: `Ok` if the writer holds all bytes, else a fault that counts the
/// bytes it holds, which are a prefix of them.
fn is_right_result(answer: Result<(), WriteFault>, out: &FailingWriter, all: &[u8]) -> bool {
    match answer {
        Ok(()) => !out.failed && out.held.as_slice() == all,
        Err(fault) => {
            out.failed
                && fault.written == out.held.len() as u64
                && all.starts_with(out.held.as_slice())
        }
    }
}

/// Whether `put_all` is right with writers that accept `call_limit` bytes a call and fail at the first call, the
/// second, and so on, until one does not fail.
fn is_right_at_each_call(
    alloc: Global,
    text: &[u8],
    call_limit: usize,
    failure: WriteFailure,
) -> bool {
    for fails_at in 0..2000 {
        let mut out = FailingWriter::new(alloc, call_limit, fails_at, failure);
        let answer = put_all(&mut out, text);
        if !is_right_result(answer, &out, text) {
            return false;
        }
        if !out.failed {
            return fails_at > 0;
        }
    }
    false
}

#[test]
fn writers_fail_at_each_call(rt: HostRuntime) {
    for (call_limit, failure) in [
        (1, WriteFailure::Error),
        (1, WriteFailure::AcceptsNone),
        (7, WriteFailure::Error),
        (usize::MAX, WriteFailure::Error),
        (usize::MAX, WriteFailure::AcceptsNone),
    ] {
        assert!(rt; is_right_at_each_call(rt.alloc(), tone().bytes(), call_limit, failure));
    }
    // A writer whose calls all return `Ok(0)`.
    let mut none = FailingWriter::new(rt.alloc(), 0, NEVER, WriteFailure::Error);
    let answer = put_all(&mut none, tone().bytes());
    assert!(rt; answer == Err(WriteFault { written: 0 }));
}

#[test]
fn long_outputs_are_written_in_large_pieces(rt: HostRuntime) -> Result<(), Fail> {
    let file = with_zero_records(rt.alloc(), 258, 46, 400)?;
    assert!(rt; is_right_at_each_call(rt.alloc(), &file, usize::MAX, WriteFailure::Error));
    assert!(rt; is_right_at_each_call(rt.alloc(), &file, 1_000, WriteFailure::AcceptsNone));
    let mut out = FailingWriter::new(rt.alloc(), usize::MAX, NEVER, WriteFailure::Error);
    assert!(rt; put_all(&mut out, &file).is_ok() && out.calls < 60);
    Ok(())
}

/// The output whose writer fails to flush.
#[derive(Clone, Copy)]
enum Call {
    Canon,
    Show,
    Edit,
    Undo,
}

const SCRIPT: &[u8] = b"rename-sample 0 \"u\"\n";

/// Writes the output of a run on the file to `out`.
fn put(alloc: Global, call: Call, file: &[u8], out: &mut FailingWriter) -> Result<(), RunFault> {
    let mut other = Vec::new(alloc);
    match call {
        Call::Canon => canon_run(alloc, file, out),
        Call::Show => show_run(alloc, file, out),
        Call::Edit => edit_run(alloc, file, SCRIPT, out, &mut other),
        Call::Undo => match edit_run(alloc, file, SCRIPT, &mut other, out) {
            Err(RunFault::Write(Which::Undo, written)) => Err(RunFault::Write(Which::Out, written)),
            answer => answer,
        },
    }
}

#[test]
fn flushes_fail(rt: HostRuntime) {
    for (call, all) in [
        (Call::Canon, 532),
        (Call::Show, 184),
        (Call::Edit, 532),
        (Call::Undo, 20),
    ] {
        let mut out = FailingWriter::new(rt.alloc(), 100, NEVER, WriteFailure::Error);
        out.flushes = false;
        let answer = put(rt.alloc(), call, tone().bytes(), &mut out);
        assert!(rt;
            answer == Err(RunFault::Write(Which::Out, all)) && out.held.len() as u64 == all
        );
    }
}

/// Renames a sample by an edit run; its undo script has 22 bytes.
fn renames(
    alloc: Global,
    out: &mut FailingWriter,
    undo: &mut FailingWriter,
) -> Result<(), RunFault> {
    edit_run(alloc, saw().bytes(), RENAME, out, undo)
}

#[test]
fn the_second_of_two_flushes_fails(rt: HostRuntime) {
    let mut out = FailingWriter::new(rt.alloc(), 100, NEVER, WriteFailure::Error);
    let mut undo = FailingWriter::new(rt.alloc(), 100, NEVER, WriteFailure::Error);
    undo.flushes = false;
    let answer = renames(rt.alloc(), &mut out, &mut undo);
    assert!(rt; answer == Err(RunFault::Write(Which::Undo, 22)));
    assert!(rt; out.held.as_slice() == renamed_saw().bytes() && undo.held.len() as u64 == 22);
}

/// A writer for that run which accepts `room` bytes and no more.
fn with_room(alloc: Global, room: usize) -> FailingWriter {
    match room {
        0 => FailingWriter::new(alloc, usize::MAX, 0, WriteFailure::Error),
        _ => FailingWriter::new(alloc, room, 1, WriteFailure::AcceptsNone),
    }
}

#[test]
fn a_run_whose_writers_have_no_room(rt: HostRuntime) {
    let alloc = rt.alloc();
    let mut out = with_room(alloc, 100);
    let mut undo = with_room(alloc, 1_000);
    let answer = renames(alloc, &mut out, &mut undo);
    assert!(rt; answer == Err(RunFault::Write(Which::Out, 100)));
    assert!(rt;
        renamed_saw().bytes().starts_with(out.held.as_slice())
            && out.held.len() == 100
            && undo.held.is_empty()
    );

    let mut out = with_room(alloc, 1_000);
    let mut undo = with_room(alloc, 0);
    let answer = renames(alloc, &mut out, &mut undo);
    assert!(rt; answer == Err(RunFault::Write(Which::Undo, 0)));
    assert!(rt; out.held.len() == 450 && undo.held.is_empty());
    let mut line = Vec::new(alloc);
    let reported = fault_text(&RunFault::Write(Which::Undo, 0), "u.txt", &mut line);
    assert!(rt; reported == Ok(5));
    assert!(rt; line.as_slice() == b"sfbank: write fault u.txt after 0 bytes\n".as_slice());
}
