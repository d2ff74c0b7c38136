//! The program, from its arguments to its exit status.
ghost use Rattle.std.specs.Prelude.{map};
ghost use Rattle.program_reports.specs.Reporting.{Ends};
ghost use Rattle.sfbank.specs.Meanings.{Answers, EndsExplained, IsReported, Means, is_explained};

mod apply;
mod canon;
mod check;
mod checks;
mod copy;
mod diff;
mod explain;
mod folder_paths;
mod import;
mod inputs;
mod keep;
mod kits;
mod listed;
mod listing;
mod live;
mod map;
mod merge;
mod new;
mod outputs;
mod pack;
mod page;
mod planned;
mod play;
mod recorded;
mod replace;
mod saved_folder;
mod script;
mod show;
mod take;
mod tidy;
mod unpack;
mod wave;
mod wave_all;

use apply::{apply, apply_only};
use base_progress::Progress;
use canon::canon;
use check::check;
use clap::error::ErrorKind;
use copy::copy;
use diff::diff;
use explain::explain;
use file_disk::{Disk, System};
use file_host::Host;
use import::import;
use inputs::remark_on_input;
use keep::keep;
use kits::import_kit;
use live::live;
use map::map;
use merge::merge;
use new::new;
use outputs::{print, remark_on_output};
use pack::pack;
use page::page;
use play::play;
use program_commands::{Request, asks_for_explanations, request_of};
use program_hints::Remarks;
use program_reports::{Fault, KnowsError, Watched, report};
use replace::replace;
use script::script;
use show::show;
use std::alloc::{AllocError, Global};
use std::convert::AsStr;
use std::env::Env;
use std::io::{Read, Write};
use std::rt::Files;
use std::{env, io};
use take::take;
use tidy::tidy;
use unpack::unpack;
use wave::wave;
use wave_all::wave_all;

/// Runs the program on its arguments and on the files of a runtime, and returns its exit status.
pub fn run_with_arguments<R: Env + Files + AllocGlobal, I: Read, O: Write, E: Write, P: Progress>(
    rt: &R,
    input: &mut I,
    output: &mut O,
    errors: &mut E,
    is_terminal: bool,
    progress: &mut P,
) -> u8
    ensures { EndsExplained is_terminal (E.contents errors.old) (E.contents errors.new) result }
{
    match arguments(rt) {
        Ok(words) => run(
            &mut Disk::new(rt.alloc(), System::new(rt)),
            rt.alloc(),
            words.as_slice(),
            input,
            &mut Watched::new(output),
            errors,
            is_terminal,
            progress,
        ),
        Err(fault) => report(&fault, is_terminal, &[], errors),
    }
}

// Collects the arguments of the program.
fn arguments<R: Env + AllocGlobal>(rt: &R) -> Result<Vec<String>, Fault<'static>> {
    let words = match env::args(rt) {
        Ok(words) => words.collect(rt.alloc()),
        Err(error) if error.kind() == io::ErrorKind::OutOfMemory => Err(AllocError),
        Err(_) => return Err(Fault::NotText),
    };
    Ok(words?)
}

/// Runs the program on these arguments, of which the first is its own name. Returns the exit status:
///
/// | status | when |
/// |---|---|
/// | 0 | done, or help or the version was asked for |
/// | 1 | the arguments are rejected |
/// | 2 | a file is not a bank, or not a WAVE file that can be imported |
/// | 3 | the script or the note list has a fault |
/// | 4 | an edit is refused, a preset, instrument or sample does not exist, or the versions of two banks differ |
/// | 5 | an input can't be read or is too long, or an output is rejected or can't be written |
/// | 6 | an allocation failed |
/// | 7 | `check --strict` finds something, or a plan failed: a defect of the program |
///
/// `live` reads its lines from `input`. The texts of `show`, `check` and `explain`, the answers of `live`, help and the version
/// are written to `output`. `apply` and `play` report to `base_progress`.
///
/// If the status is not 0, one line (for arguments that clap rejects, its whole text) is written to `errors`, except
/// where the reader of an output closed it early. If `is_terminal`, which means that `errors` is a terminal, or if
/// `--explain` is given, indented lines follow: the line of the script or the note list, what the fault means and what
/// to do about it, or why an input can't be read. A failed write to `errors` does not change the status.
pub fn run<H: Host, S: AsStr, I: Read, O: Write + KnowsError, E: Write, P: Progress>(
    host: &mut H,
    alloc: Global,
    words: &[S],
    input: &mut I,
    output: &mut O,
    errors: &mut E,
    is_terminal: bool,
    progress: &mut P,
) -> u8
    // The words ask for a request, which does what it plans for the world of files, or for none.
    ensures answers { Answers (map S.text words.entry.now) is_terminal
        (record { files = H.world host.old; printed = O.contents output.old })
        (record { files = H.world host.new; printed = O.contents output.new }) (H.written host.new)
        (E.contents errors.old) (E.contents errors.new) result }
    ensures ends { Ends (is_explained is_terminal (map S.text words.entry.now)) (E.contents errors.old) (E.contents errors.new)
        result }
{
    let explains = is_terminal || asks_for_explanations(words);
    progress.set_detailed(explains);
    match request_of(alloc, words) {
        Ok(request) => {
            let mut remarks = Remarks::new(explains);
            let end = serve(host, alloc, request, input, output, &mut remarks, progress);
            remark_on_input(&end, &mut remarks);
            remark_on_output(&end, host, output, &mut remarks);
            status_of(&end, explains, remarks.text(), errors)
        }
        Err(error) => status_of(&answer(alloc, error, output), explains, &[], errors),
    }
}

// Reports a fault, and returns the exit status.
fn status_of<E: Write>(
    end: &Result<(), Fault<'_>>,
    explains: bool,
    remarks: &[u8],
    errors: &mut E,
) -> u8
    ensures { IsReported explains (E.contents errors.old) (E.contents errors.new) result end.now }
{
    match end {
        Ok(()) => 0,
        Err(fault) => report(fault, explains, remarks, errors),
    }
}

// Does what a request asks for. What helps with a fault is added to `remarks`.
fn serve<'a, H: Host, I: Read, O: Write + KnowsError, P: Progress>(
    host: &mut H,
    alloc: Global,
    request: Request<'a>,
    input: &mut I,
    output: &mut O,
    remarks: &mut Remarks,
    progress: &mut P,
) -> Result<(), Fault<'a>>
    ensures { Means request.entry (record { files = H.world host.old; printed = O.contents output.old })
        (record { files = H.world host.new; printed = O.contents output.new }) (H.written host.new) result }
{
    match request {
        Request::Apply(paths) => apply(host, alloc, paths, remarks, progress),
        Request::ApplyOnly(paths) => apply_only(host, alloc, paths, output, remarks, progress),
        Request::Canon(paths) => canon(host, alloc, paths, output),
        Request::Check(paths) => check(host, alloc, paths, output),
        Request::Copy(operands) => copy(host, alloc, operands, output),
        Request::Diff(paths) => diff(host, alloc, paths, output),
        Request::Explain(topic) => explain(alloc, topic, output),
        Request::Import(paths) => import(host, alloc, paths),
        Request::ImportKit(paths) => import_kit(host, alloc, paths, remarks),
        Request::Keep(paths) => keep(host, alloc, paths, output, remarks),
        Request::Live(paths) => live(host, alloc, paths, input, output, remarks, progress),
        Request::Map(paths) => map(host, alloc, paths, output),
        Request::Merge(operands) => merge(host, alloc, operands, output),
        Request::New(bank) => new(host, alloc, bank, output),
        Request::Pack(paths) => pack(host, alloc, paths, output, remarks),
        Request::Page(paths) => page(host, alloc, paths, output),
        Request::Play(paths) => play(host, alloc, paths, output, remarks, progress),
        Request::Replace(paths) => replace(host, alloc, paths),
        Request::Script(paths) => script(host, alloc, paths, output),
        Request::Show(paths) => show(host, alloc, paths, output),
        Request::Take(operands) => take(host, alloc, operands, output),
        Request::Tidy(operands) => tidy(host, alloc, operands, output),
        Request::Unpack(paths) => unpack(host, alloc, paths),
        Request::Wave(paths) => wave(host, alloc, paths, output),
        Request::WaveAll(paths) => wave_all(host, alloc, paths),
    }
}

// Writes help or the version to the standard output; other errors of clap mean that it rejects the arguments.
fn answer<'a, O: Write + KnowsError>(
    alloc: Global,
    error: clap::Error,
    output: &mut O,
) -> Result<(), Fault<'a>> {
    if error.kind() == ErrorKind::OutOfMemory {
        return Err(AllocError.into());
    }
    if error.use_stderr() {
        return Err(Fault::Words(error));
    }
    let text = format!(in alloc; "{error}")?;
    print(&text.as_str(), output)
}
