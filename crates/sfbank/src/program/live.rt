//! The command `live`.
ghost use Rattle.sfbank.specs.Steps.{Passes, live_part};
ghost use Rattle.sfbank.specs.LiveRuns.{EndsFrames, IsReportOf, MeansLive, PlaysOrNot, RunsSession};

use super::checks::{reject_bank, reject_same_file};
use super::inputs::read_input;
use super::outputs::{is_broken_pipe, remark_on_error};
use base_progress::Progress;
use file_host::{Host, InputFault, Which};
use live_sessions::{InputLines, LineReader, LiveFault, SessionFiles, live_run};
use program_commands::LivePaths;
use program_hints::Remarks;
use program_reports::{Fault, KnowsError, RunFault, STANDARD_OUTPUT, Watched};
use std::alloc::Global;
use std::io::{BufReader, Read, Write};

/// The path reported for the standard input in a fault.
const STANDARD_INPUT: &str = "-";

/// Runs a live session on the bank. The bank is read whole first. Frames are written directly to their file, so it may
/// be a pipe to a player. Why frames can't be written is added to `remarks`.
pub(crate) fn live<'a, H: Host, I: Read, O: Write + KnowsError, P: Progress>(
    host: &mut H,
    alloc: Global,
    paths: LivePaths<'a>,
    input: &mut I,
    output: &mut O,
    remarks: &mut Remarks,
    progress: &mut P,
) -> Result<(), Fault<'a>>
    ensures { MeansLive paths.entry (record { files = H.world host.old; printed = O.contents output.old })
        (record { files = H.world host.new; printed = O.contents output.new }) (H.written host.new) result }
{
    match reject_frames(host, paths) {
        Ok(()) => match read_input(host, alloc, paths.input) {
            Ok(file) => play_session(
                host,
                alloc,
                paths,
                file.as_slice(),
                input,
                output,
                remarks,
                progress,
            ),
            Err(fault) => Err(fault),
        },
        Err(fault) => Err(fault),
    }
}

// Rejects frames that would replace the bank or, except with `force`, another one.
fn reject_frames<'a, H: Host>(host: &mut H, paths: LivePaths<'a>) -> Result<(), Fault<'a>>
    ensures { Passes (live_part paths.entry) (H.world host.old) (H.world host.new) result }
{
    match reject_same_file(host, paths.pcm, &[paths.input]) {
        Ok(()) => reject_bank(host, paths.pcm, paths.force),
        Err(fault) => Err(fault),
    }
}

// Plays a session on the file of a bank.
fn play_session<'a, H: Host, I: Read, O: Write + KnowsError, P: Progress>(
    host: &mut H,
    alloc: Global,
    paths: LivePaths<'a>,
    file: &[u8],
    input: &mut I,
    output: &mut O,
    remarks: &mut Remarks,
    progress: &mut P,
) -> Result<(), Fault<'a>>
    ensures { PlaysOrNot paths.entry file.now (record { files = H.world host.old; printed = O.contents output.old })
        (record { files = H.world host.new; printed = O.contents output.new }) (H.written host.new) result }
{
    let Ok(reader) = BufReader::new(alloc, input) else {
        return Err(Fault::Run(RunFault::Memory, paths.pcm));
    };
    let Ok(mut pcm) = host.open_stream(paths.pcm) else {
        return Err(Fault::Run(RunFault::Memory, paths.pcm));
    };
    let mut lines = InputLines::new(reader);
    let mut watched = Watched::new(&mut pcm);
    let ended = play_lines(
        host,
        alloc,
        paths,
        file,
        &mut lines,
        output,
        &mut watched,
        progress,
    );
    remark_on_error(watched.last_error(), remarks);
    ended
}

// Answers the lines of a session.
fn play_lines<'a, H: Host, R: LineReader, O: Write + KnowsError, W: Write, P: Progress>(
    host: &mut H,
    alloc: Global,
    paths: LivePaths<'a>,
    file: &[u8],
    lines: &mut R,
    output: &mut O,
    pcm: &mut W,
    progress: &mut P,
) -> Result<(), Fault<'a>>
    ensures { RunsSession paths.entry file.now (record { files = H.world host.old; printed = O.contents output.old })
        (record { files = H.world host.new; printed = O.contents output.new }) (H.written host.new) result }
{
    let files = SessionFiles {
        bank: paths.input,
        pcm: paths.pcm,
        force: paths.force,
    };
    match live_run(alloc, file, files, lines, output, pcm, host, progress) {
        Ok(()) => {
            progress.report_sound();
            end_frames(paths.pcm, pcm)
        }
        Err(fault) => Err(reported(fault, paths, is_broken_pipe(output.last_error()))),
    }
}

// Creates the file of frames even if no frame was written.
fn end_frames<'a, W: Write>(path: &'a str, pcm: &mut W) -> Result<(), Fault<'a>>
    ensures { EndsFrames path.entry.now result }
{
    match pcm.flush() {
        Ok(()) => Ok(()),
        Err(_) => Err(Fault::Run(RunFault::Write(Which::Out, 0), path)),
    }
}

// The program's fault for a session's fault.
fn reported(fault: LiveFault, paths: LivePaths<'_>, is_pipe_closed: bool) -> Fault<'_>
    ensures { IsReportOf paths.entry fault result }
{
    match fault {
        LiveFault::File(fault) => Fault::Run(RunFault::Read(fault), STANDARD_OUTPUT),
        LiveFault::Memory => Fault::Run(RunFault::Memory, STANDARD_OUTPUT),
        LiveFault::Input => Fault::File(STANDARD_INPUT, InputFault::Unreadable),
        LiveFault::Answers(_) if is_pipe_closed => Fault::PipeClosed,
        LiveFault::Answers(written) => {
            Fault::Run(RunFault::Write(Which::Out, written), STANDARD_OUTPUT)
        }
        LiveFault::Pcm(written) => Fault::Run(RunFault::Write(Which::Out, written), paths.pcm),
    }
}
