//! Tests of the text of each answer.

use bank_validity::Limit;
use base_outputs::{Output, OutputFault};
use edit_refusals::{Cause, Refusal};
use live_lines::{Answer, Comment, FilePath, RequestFault, put_answer};
use std::alloc::Global;

/// Refusals and their texts.
const REFUSALS: [(Refusal, &[u8]); 7] = [
    (Refusal::Of(Cause::InUse), b"refused 26 InUse\n"),
    (
        Refusal::Of(Cause::Full(Limit::Samples)),
        b"refused 37 Full samples\n",
    ),
    (
        Refusal::GroupRefused(1, Cause::InUse),
        b"refused 48 GroupRefused 1 26 InUse\n",
    ),
    (
        Refusal::GroupRefused(0, Cause::Full(Limit::Samples)),
        b"refused 48 GroupRefused 0 37 Full samples\n",
    ),
    (Refusal::NothingToUndo, b"refused 39 NothingToUndo\n"),
    (Refusal::NothingToRedo, b"refused 40 NothingToRedo\n"),
    (Refusal::OutOfMemory, b"out of memory\n"),
];

/// Faults of lines and their texts.
const FAULTS: [(RequestFault, &[u8]); 5] = [
    (RequestFault::Syntax, b"fault 41 Syntax\n"),
    (RequestFault::Number, b"fault 42 Number\n"),
    (RequestFault::Literal, b"fault 43 Literal\n"),
    (RequestFault::BadNote, b"fault 45 BadNote\n"),
    (RequestFault::TooLong, b"fault 47 TooLong\n"),
];

/// Whether the answer is written as this text.
fn is_written_as(alloc: Global, answer: &Answer<'_>, text: &[u8]) -> bool {
    let mut output_text = Vec::new(alloc);
    let mut output = Output::to(&mut output_text);
    put_answer(answer, &mut output);
    output.end().is_ok() && output_text.as_slice() == text
}

#[test]
fn refusals_are_reported(rt: HostRuntime) {
    for (why, text) in REFUSALS {
        assert!(rt; is_written_as(rt.alloc(), &Answer::Refused(why), text));
    }
}

#[test]
fn faults_are_reported(rt: HostRuntime) {
    for (fault, text) in FAULTS {
        assert!(rt; is_written_as(rt.alloc(), &Answer::Fault(fault, None), text));
    }
}

#[test]
fn answers_are_written(rt: HostRuntime) {
    let alloc = rt.alloc();
    assert!(rt; is_written_as(alloc, &Answer::Done, b"ok\n"));
    assert!(rt;
        is_written_as(
            alloc,
            &Answer::Moved(Comment::of(b"trim 0 0 1")),
            b"ok # trim 0 0 1\n"
        )
    );
    let fault = Answer::Fault(RequestFault::Number, Some(Comment::of(b"-1")));
    assert!(rt; is_written_as(alloc, &fault, b"fault 42 Number # -1\n"));
    assert!(rt; is_written_as(alloc, &Answer::Counted(0), b"ok 0\n"));
    assert!(rt; is_written_as(alloc, &Answer::Counted(12), b"ok 12\n"));
    assert!(rt; is_written_as(alloc, &Answer::Measured(32_768, 0), b"ok 32768 0\n"));
    assert!(rt; is_written_as(alloc, &Answer::NotNeutral, b"refused 50 NotNeutral\n"));
    assert!(rt; is_written_as(alloc, &Answer::OutOfMemory, b"out of memory\n"));
}

#[test]
fn write_faults_name_their_path(rt: HostRuntime) {
    if let Some(path) = FilePath::of(b"my bank.sf2") {
        let answer = Answer::WriteFault { path, written: 42 };
        assert!(rt;
            is_written_as(
                rt.alloc(),
                &answer,
                b"write fault my bank.sf2 after 42 bytes\n"
            )
        );
    }
}

#[test]
fn rejected_outputs_name_their_path(rt: HostRuntime) {
    if let Some(path) = FilePath::of(b"bank.sf2") {
        let fault = OutputFault::SameFile;
        let answer = Answer::Rejected { path, fault };
        assert!(rt; is_written_as(rt.alloc(), &answer, b"refused 64 SameFile bank.sf2\n"));
    }
    if let Some(path) = FilePath::of(b"my bank.sf2") {
        let fault = OutputFault::HoldsBank;
        let answer = Answer::Rejected { path, fault };
        assert!(rt; is_written_as(rt.alloc(), &answer, b"refused 65 HoldsBank my bank.sf2\n"));
    }
}
