//! Outputs: files that are saved whole, and the standard output.
ghost use Rattle.std.specs.Prelude.{◌≡◌, Ok};
ghost use Rattle.sfbank.specs.PlanParts.{Content, put_at, standard_output};
ghost use Rattle.sfbank.specs.Prepared.{texts_of_bank};
ghost use Rattle.sfbank.specs.Ends.{EndsFor, IsContent, path_of};
ghost use Rattle.sfbank.specs.Outputs.{PrintsAt, SavesAt, SavesPairAt, write_fault};

use crate::edited_bank::EditedBank;
use base_texts::{Text, write_text};
use edit_script::EditLines;
use file_host::{Host, PairFault, Which, reason_of_output};
use program_hints::Remarks;
use program_reports::{Fault, KnowsError, RunFault, STANDARD_OUTPUT};
use sf_base::Failure;
use sf_writer::BankFile;
use std::io::{ErrorKind, Write};

/// Writes a text at a path: to the standard output, if the path leads to it (so that later writes of others follow in
/// order), else as a file.
pub(super) fn put<'a, H: Host, T: Text, O: Write + KnowsError>(
    host: &mut H,
    path: &'a str,
    text: &T,
    output: &mut O,
) -> Result<(), Fault<'a>>
    ensures { (content : Content) → IsContent content (T.bytes text.now) → EndsFor (λ w. Ok (put_at w path.entry.now content))
        (record { files = H.world host.old; printed = O.contents output.old })
        (record { files = H.world host.new; printed = O.contents output.new }) (H.written host.new) result }
{
    match host.is_output(path) {
        Ok(true) => print_at(path, text, output),
        Ok(false) => save(host, path, text),
        Err(_) => Err(Fault::Run(RunFault::Memory, path)),
    }
}

/// Writes a text to the standard output.
pub(super) fn print<'a, T: Text, O: Write + KnowsError>(
    text: &T,
    output: &mut O,
) -> Result<(), Fault<'a>>
    ensures { PrintsAt standard_output (T.bytes text.now) (O.contents output.old) (O.contents output.new) result }
{
    print_at(STANDARD_OUTPUT, text, output)
}

// Writes a text to the standard output, to which a path leads.
fn print_at<'a, T: Text, O: Write + KnowsError>(
    path: &'a str,
    text: &T,
    output: &mut O,
) -> Result<(), Fault<'a>>
    ensures { PrintsAt path.entry.now (T.bytes text.now) (O.contents output.old) (O.contents output.new) result }
{
    match write_text(text, output) {
        Ok(()) => Ok(()),
        Err(fault) => Err(write_fault(
            Which::Out,
            fault.written,
            path,
            is_broken_pipe(output.last_error()),
        )),
    }
}

/// Saves a text as a file.
pub(super) fn save<'a, H: Host, T: Text>(
    host: &mut H,
    path: &'a str,
    text: &T,
) -> Result<(), Fault<'a>>
    ensures { SavesAt path.entry.now (T.bytes text.now) (H.world host.old) (H.world host.new) (H.written host.new) result }
{
    match host.save(path, text) {
        Ok(()) => Ok(()),
        Err(Failure::OutOfMemory) => Err(Fault::Run(RunFault::Memory, path)),
        Err(Failure::Fault(fault)) => {
            let is_closed = is_broken_pipe(host.last_error());
            Err(write_fault(Which::Out, fault.written, path, is_closed))
        }
    }
}

/// Saves an edited bank and its undo script as files. Where both replace files, the undo script is put in place first:
/// the bank that was read, which OUT may replace, is never without it.
pub(super) fn save_both<'a, H: Host>(
    host: &mut H,
    out: &'a str,
    undo: &'a str,
    edited_bank: &EditedBank<'_>,
) -> Result<(), Fault<'a>>
    ensures { SavesPairAt out.entry.now undo.entry.now (texts_of_bank edited_bank.now) (H.world host.old) (H.world host.new) (H.written host.new) result }
{
    let lines = EditLines(edited_bank.undo.as_slice());
    match host.save_pair(undo, &lines, out, &BankFile(&edited_bank.bank)) {
        Ok(()) => Ok(()),
        Err(PairFault::OutOfMemory) => Err(Fault::Run(RunFault::Memory, out)),
        Err(PairFault::Write(which, written)) => {
            let path = path_of(which, out, undo);
            Err(write_fault(which, written, path, is_broken_pipe(host.last_error())))
        }
    }
}

// The path of a text.
fn path_of<'a>(which: Which, out: &'a str, undo: &'a str) -> &'a str
    ensures { result ≡ path_of which out.entry undo.entry }
{
    match which {
        Which::Out => out,
        Which::Undo => undo,
    }
}

/// The fault of a write, which is not reported where the reader of the output closed its pipe.
pub(super) fn write_fault(which: Which, written: u64, path: &str, is_pipe_closed: bool) -> Fault<'_>
    ensures { result ≡ write_fault which written path.entry is_pipe_closed }
{
    if is_pipe_closed {
        return Fault::PipeClosed;
    }
    Fault::Run(RunFault::Write(which, written), path)
}

/// Whether a write failed because nothing reads the other end of a pipe.
pub(super) fn is_broken_pipe(error: Option<ErrorKind>) -> bool {
    match error {
        Some(ErrorKind::BrokenPipe) => true,
        _ => false,
    }
}

/// Adds the system's reason why an output can't be written, if it is known.
pub(super) fn remark_on_error(error: Option<ErrorKind>, remarks: &mut Remarks) {
    if let Some(kind) = error {
        remarks.line(&[reason_of_output(kind).as_bytes()]);
    }
}

/// Adds the system's reason why a run failed to write an output, if it did and no reason is known yet.
pub(super) fn remark_on_output<H: Host, O: KnowsError>(
    end: &Result<(), Fault<'_>>,
    host: &H,
    output: &O,
    remarks: &mut Remarks,
) {
    match end {
        Err(Fault::Run(RunFault::Write(_, _), path)) if remarks.text().is_empty() => {
            remark_on_error(error_of(path, host, output), remarks);
        }
        _ => {}
    }
}

// The error of the output at a path: that of a file, or of the standard output, to which a path may lead.
fn error_of<H: Host, O: KnowsError>(path: &str, host: &H, output: &O) -> Option<ErrorKind> {
    match host.last_error() {
        Some(kind) if path != STANDARD_OUTPUT => Some(kind),
        _ => output.last_error(),
    }
}
