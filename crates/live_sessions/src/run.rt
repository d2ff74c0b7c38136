//! Runs a session line by line.
ghost use Rattle.std.specs.Prelude.{◌≡◌, None};
ghost use Rattle.script_tokens.specs.Lines.{lines_of};
ghost use Rattle.live_lines.specs.Requests.{HasNoFeed};
ghost use Rattle.live_sessions.specs.AnswerTexts.{IsFailureAnswer};
ghost use Rattle.live_sessions.specs.Runs.{IsLineResult, IsNextLineResult, IsFirst, IsReadFault, Plays, Runs};

use crate::answering::write_answer;
use crate::fault::LiveFault;
use crate::line_reader::LineReader;
use crate::live::LiveState;
use crate::request_reading::read_request;
use crate::requests::{Next, RequestKind, do_request, kind_of};
use crate::saving::SessionFiles;
use bank_format::Counts;
use base_progress::Progress;
use file_host::Host;
use live_lines::{Answer, RequestFault, faulty_token};
use script_tokens::Lines;
use sf_base::Failure;
use sf_reader::read;
use std::alloc::Global;
use std::io::{ErrorKind, Write};

/// Reads the file, then answers the lines of `input` up to `quit` or the end. Each line that is not empty or a comment
/// is answered by a text, which is written to `answers` and flushed before the next line is read. Frames are written to
/// `pcm` as 16-bit little-endian samples, left and right in turn, 44,100 frames per second, and flushed before the line
/// is answered. `host` saves. A save is rejected if it would replace the frames, or its undo script a bank, as
/// [`SessionFiles`] says.
///
/// The bytes of the literals of all lines are leaked, since edits borrow them.
///
/// If the file has a fault, nothing is read of `input` and nothing is written. A failed allocation in a line is its
/// answer, and the session continues; if the line itself can't be held, the session ends. It also ends by a fault of a
/// writer, by a failed read, and after 2^64 - 1 lines by [`LiveFault::Input`].
///
/// If details are reported, `progress` receives each note, the measured frames, and each line with a fault once it is
/// answered.
pub fn live_run<R: LineReader, A: Write, P: Write, H: Host, Q: Progress>(
    alloc: Global,
    file: &[u8],
    files: SessionFiles<'_>,
    input: &mut R,
    answers: &mut A,
    pcm: &mut P,
    host: &mut H,
    progress: &mut Q,
) -> Result<(), LiveFault>
    ensures { Runs files.entry file.now
        (record { input = R.remaining input.old; answers = A.contents answers.old; pcm = P.contents pcm.old; files = H.world host.old; written = H.written host.old })
        (record { input = R.remaining input.new; answers = A.contents answers.new; pcm = P.contents pcm.new; files = H.world host.new; written = H.written host.new }) (R.failure input.new) result }
{
    let (bank, counts) = match read(alloc, file) {
        Ok(read) => read,
        Err(Failure::Fault(fault)) => return Err(LiveFault::File(fault)),
        Err(Failure::OutOfMemory) => return Err(LiveFault::Memory),
    };
    let mut live = LiveState::new(alloc, bank);
    play(
        alloc, &mut live, &counts, files, input, answers, pcm, host, progress,
    )
}

// Answers lines up to the end.
fn play<R: LineReader, A: Write, P: Write, H: Host, Q: Progress>(
    alloc: Global,
    live: &mut LiveState<'_>,
    counts: &Counts,
    files: SessionFiles<'_>,
    input: &mut R,
    answers: &mut A,
    pcm: &mut P,
    host: &mut H,
    progress: &mut Q,
) -> Result<(), LiveFault>
    ensures { Plays files.entry counts.now live.old
        (record { input = R.remaining input.old; answers = A.contents answers.old; pcm = P.contents pcm.old; files = H.world host.old; written = H.written host.old })
        (record { input = R.remaining input.new; answers = A.contents answers.new; pcm = P.contents pcm.new; files = H.world host.new; written = H.written host.new }) (R.failure input.new) result }
{
    let mut line = Vec::new(alloc);
    for _turn in 0..u64::MAX {
        match take_line(
            alloc, live, counts, files, &mut line, input, answers, pcm, host, progress,
        )? {
            Next::Line => {}
            Next::End => return Ok(()),
        }
    }
    Err(LiveFault::Input)
}

// Reads and answers the next line, if there is one. All lines share one buffer.
fn take_line<R: LineReader, A: Write, P: Write, H: Host, Q: Progress>(
    alloc: Global,
    live: &mut LiveState<'_>,
    counts: &Counts,
    files: SessionFiles<'_>,
    line: &mut Vec<u8>,
    input: &mut R,
    answers: &mut A,
    pcm: &mut P,
    host: &mut H,
    progress: &mut Q,
) -> Result<Next, LiveFault>
    ensures { IsNextLineResult files.entry counts.now live.old live.new
        (record { input = R.remaining input.old; answers = A.contents answers.old; pcm = P.contents pcm.old; files = H.world host.old; written = H.written host.old })
        (record { input = R.remaining input.new; answers = A.contents answers.new; pcm = P.contents pcm.new; files = H.world host.new; written = H.written host.new }) (R.failure input.new) result }
{
    match input.read_line(line) {
        Ok(is_line) => {
            if is_line {
                let line = first_line(line.as_slice());
                answer_line(
                    alloc, live, counts, files, line, answers, pcm, host, progress,
                )
            } else {
                Ok(Next::End)
            }
        }
        Err(kind) => Err(fault_of(kind)),
    }
}

// The fault of a line that could not be read.
fn fault_of(kind: ErrorKind) -> LiveFault
    ensures { IsReadFault kind result }
{
    match kind {
        ErrorKind::OutOfMemory => LiveFault::Memory,
        _ => LiveFault::Input,
    }
}

// The first line of a text.
#[tactic(auto, using(crate::proofs::LineLaws::first_is_bare))]
fn first_line(text: &[u8]) -> &[u8]
    ensures first { IsFirst (lines_of text.now) result.now }
    ensures bare { HasNoFeed result.now }
{
    match Lines::of(text).next() {
        Some(line) => line,
        None => &[],
    }
}

// Answers a line.
fn answer_line<'a, A: Write, P: Write, H: Host, Q: Progress>(
    alloc: Global,
    live: &mut LiveState<'a>,
    counts: &Counts,
    files: SessionFiles<'_>,
    line: &[u8],
    answers: &mut A,
    pcm: &mut P,
    host: &mut H,
    progress: &mut Q,
) -> Result<Next, LiveFault>
    requires { HasNoFeed line.now }
    ensures { IsLineResult files.entry counts.now line.now live.old live.new
        (record { input = None; answers = A.contents answers.old; pcm = P.contents pcm.old; files = H.world host.old; written = H.written host.old })
        (record { input = None; answers = A.contents answers.new; pcm = P.contents pcm.new; files = H.world host.new; written = H.written host.new }) result }
{
    match read_request(alloc, line) {
        Ok(Some(request)) => {
            let kind = kind_of(&request);
            match do_request(alloc, live, files, request, pcm, host, progress) {
                Ok(answer) => write_answer(live, counts, kind, &answer, answers),
                Err(fault) => Err(fault),
            }
        }
        Ok(None) => Ok(Next::Line),
        Err(failure) => {
            let answer = reported(alloc, line, failure);
            let written = write_answer(live, counts, RequestKind::Plain, &answer, answers);
            report_fault(line, &answer, written.is_ok(), progress);
            written
        }
    }
}

// Reports a line whose fault is answered.
fn report_fault<Q: Progress>(
    line: &[u8],
    answer: &Answer<'_>,
    is_answered: bool,
    progress: &mut Q,
) {
    if is_answered && matches!(answer, Answer::Fault(..)) && progress.is_detailed() {
        progress.found_fault(line);
    }
}

// The answer to a line with a fault or a failed allocation.
fn reported(alloc: Global, line: &[u8], failure: Failure<RequestFault>) -> Answer<'static>
    ensures { IsFailureAnswer line.now failure result }
{
    match failure {
        Failure::Fault(fault) => Answer::Fault(fault, faulty_token(alloc, line)),
        Failure::OutOfMemory => Answer::OutOfMemory,
    }
}
