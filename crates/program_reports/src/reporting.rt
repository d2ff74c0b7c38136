//! Reports a fault on the standard error.
ghost use Rattle.std.specs.Prelude.{◌≡◌, ◌++◌};
ghost use Rattle.base_outputs.specs.Output.{Puts};
ghost use Rattle.program_reports.specs.Details.{details_text};
ghost use Rattle.program_reports.specs.Reporting.{AreShown, Reports, line_of, status_of};

use crate::details::{Details, details_of, put_details};
use crate::fault::Fault;
use crate::fault_lines::{
    exit_status, put_fault, put_file_fault, put_folder_there, put_has_findings, put_no_name,
    put_no_number, put_output_fault, put_row_file, put_row_recording,
};
use base_outputs::Output;
use base_texts::{Text, write_text};
use std::io::Write;

const NOT_TEXT: &[u8] = b"error: a word is not text\n";

/// The report of a fault: its line, and details after it.
#[derive(Clone, Copy)]
struct FaultReport<'t, 'a> {
    fault: &'t Fault<'a>,
    details: Details<'t>,
}

impl Text for FaultReport<'_, '_> {
    ghost bytes = { λ report. line_of report.fault.now ++ details_text report.details };

    fn put<W: Write>(&self, output: &mut Output<'_, W>) {
        put_line(self.fault, output);
        put_details(&self.details, output);
    }
}

// Puts the line of a fault: none for a pipe that its reader closed, and for rejected arguments, for which clap has the
// text.
fn put_line<W: Write>(fault: &Fault<'_>, output: &mut Output<'_, W>)
    ensures { Puts W.contents output.old output.new (line_of fault.now) }
{
    match fault {
        Fault::NotText => output.put(NOT_TEXT),
        Fault::NoNumber(number) => put_no_number(*number, output),
        Fault::NoName(name) => put_no_name(name, output),
        Fault::File(path, _) => put_file_fault(path, output),
        Fault::RowFile(row, _) => put_row_file(row, output),
        Fault::RowRecording(row, fault) => put_row_recording(row, *fault, output),
        Fault::Output(fault, path) => put_output_fault(path, *fault, output),
        Fault::FolderThere(path) => put_folder_there(path, output),
        Fault::HasFindings(path) => put_has_findings(path, output),
        Fault::Run(fault, path) => put_fault(fault, path, output),
        Fault::Words(_) => {}
        Fault::PipeClosed => {}
    }
}

/// Reports a fault, and returns its exit status, also if the fault could not be written. If `explains`, its line is
/// followed by indented lines: `remarks` on it, and what it means and what to do about it, or why an input can't be
/// read.
pub fn report<E: Write>(fault: &Fault<'_>, explains: bool, remarks: &[u8], errors: &mut E) -> u8
    ensures status { result ≡ status_of fault.now }
    ensures reported { Reports explains (E.contents errors.old) (E.contents errors.new) fault.now }
{
    match fault {
        Fault::Words(error) => {
            let _ = write!(errors, "{error}");
            1
        }
        _ => {
            let details = shown_details(fault, explains, remarks);
            let _ = write_text(&FaultReport { fault, details }, errors);
            status_of(fault)
        }
    }
}

fn shown_details<'r>(fault: &Fault<'_>, explains: bool, remarks: &'r [u8]) -> Details<'r>
    ensures { AreShown explains fault.now (details_text result) }
{
    if explains {
        details_of(fault, remarks)
    } else {
        Details::nothing()
    }
}

// The exit status of a fault.
fn status_of(fault: &Fault<'_>) -> u8
    ensures { result ≡ status_of fault.now }
{
    match fault {
        Fault::Words(_) | Fault::NotText | Fault::NoNumber(_) | Fault::NoName(_) => 1,
        Fault::RowRecording(_, _) => 2,
        Fault::File(_, _)
        | Fault::RowFile(_, _)
        | Fault::Output(_, _)
        | Fault::FolderThere(_)
        | Fault::PipeClosed => 5,
        Fault::HasFindings(_) => 7,
        Fault::Run(fault, _) => exit_status(fault),
    }
}
