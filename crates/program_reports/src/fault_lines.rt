//! The lines that report faults.
ghost use Rattle.std.specs.Prelude.{◌≡◌, IfOk, Some};
ghost use Rattle.base_outputs.specs.Output.{Puts};
ghost use Rattle.base_outputs.specs.Writing.{Writes};
ghost use Rattle.sample_view.specs.Pieces.{joined_bytes};
ghost use Rattle.program_reports.specs.FaultLines.{fault_line, status_of, read_line, first_read_line, second_read_line, from_read_line, read_text, script_line, notes_line, table_line, text_line, refused_line, refused_start, not_neutral_line, named_line, recording_line, in_recording_line, row_start, row_file_line, row_recording_line, recording_text, no_member_line, preset_line, preset_text, full_line, write_line, file_line, output_line, rejected_line, no_number_line, no_name_line, folder_there_line, has_findings_line, path_line};

use crate::fault::RowPath;
use crate::run_fault::RunFault;
use bank_format::ReadFault;
use bank_validity::Limit;
use base_outputs::{Output, OutputFault, WriteFault};
use base_texts::Text;
use edit_refusals::{Cause, Refusal};
use edit_script::RefusalText;
use itoa::Buffer;
use kit_tables::KitFault;
use plan_presets::{PresetFault, PresetNumbers};
use program_explanations::FaultCode;
use script_notes::NoteFault;
use script_tokens::ScriptFault;
use std::io::Write;
use wave_file::WaveFault;

/// Writes the line of a run's fault, with its line feed, and returns its exit status. The line of a write fault has
/// `path`.
pub fn fault_text<W: Write>(fault: &RunFault, path: &str, out: &mut W) -> Result<u8, WriteFault>
    ensures line { Writes (W.contents out.old) (W.contents out.new) (fault_line path.now fault.now) result }
    ensures status { IfOk result (λ status. status ≡ status_of fault.now) }
{
    let mut output = Output::to(out);
    put_fault(fault, path, &mut output);
    output.end()?;
    Ok(exit_status(fault))
}

/// The exit status of a run's fault: 2 for a fault of a bank file or a WAVE file, 3 of a script, notes or a table, 4 for
/// a refused edit, a preset, instrument or sample that does not exist or can't be copied, a bank that would be full or
/// banks of different versions, 5 for a write fault, 6 for a failed allocation, and 7 for a plan that failed.
pub fn exit_status(fault: &RunFault) -> u8
    ensures { result ≡ status_of fault.now }
{
    match fault {
        RunFault::Read(_)
        | RunFault::ReadFirst(_)
        | RunFault::ReadSecond(_)
        | RunFault::ReadFrom(_)
        | RunFault::Recording(_)
        | RunFault::InRecording(_, _) => 2,
        RunFault::Script(_) | RunFault::Notes(_) | RunFault::Table(_) => 3,
        RunFault::Refused(_, _)
        | RunFault::NotNeutral(_)
        | RunFault::OtherVersion
        | RunFault::NoMember(_)
        | RunFault::Presets(_)
        | RunFault::Full(_) => 4,
        RunFault::Write(_, _) => 5,
        RunFault::Memory => 6,
        RunFault::PlanFailed => 7,
    }
}

/// Puts the line of a run's fault. The line of a write fault has `path`.
#[tactic(auto, unfolding(crate::specs::FaultLines::fault_line))]
pub(crate) fn put_fault<W: Write>(fault: &RunFault, path: &str, output: &mut Output<'_, W>)
    ensures { Puts W.contents output.old output.new (fault_line path.now fault.now) }
{
    match fault {
        RunFault::Read(fault) => put_read_fault(*fault, output),
        RunFault::ReadFirst(fault) => put_first_read_fault(*fault, output),
        RunFault::ReadSecond(fault) => put_second_read_fault(*fault, output),
        RunFault::ReadFrom(fault) => put_from_read_fault(*fault, output),
        RunFault::Script(fault) => put_script_fault(*fault, output),
        RunFault::Notes(fault) => put_notes_fault(*fault, output),
        RunFault::Table(fault) => put_table_fault(*fault, output),
        RunFault::Refused(line, why) => put_refused(*line, *why, output),
        RunFault::NotNeutral(line) => put_not_neutral(*line, output),
        RunFault::OtherVersion => output.put(b"sfbank: refused 51 OtherVersion\n"),
        RunFault::Recording(fault) => put_recording_fault(*fault, output),
        RunFault::InRecording(number, fault) => put_in_recording(*number, *fault, output),
        RunFault::NoMember(cause) => put_no_member(*cause, output),
        RunFault::Presets(fault) => put_preset_fault(*fault, output),
        RunFault::Full(limit) => put_full(*limit, output),
        RunFault::PlanFailed => output.put(b"sfbank: plan fault 66 PlanFailed\n"),
        RunFault::Write(_, written) => put_write_fault(path, *written, output),
        RunFault::Memory => output.put(b"sfbank: out of memory\n"),
    }
}

fn put_read_fault<W: Write>(fault: ReadFault, output: &mut Output<'_, W>)
    ensures { Puts W.contents output.old output.new (read_line fault) }
{
    output.put(b"sfbank: ");
    put_read_text(fault, output);
}

// A fault of the first or the second of two files, which help calls A and B.
fn put_first_read_fault<W: Write>(fault: ReadFault, output: &mut Output<'_, W>)
    ensures { Puts W.contents output.old output.new (first_read_line fault) }
{
    output.put(b"sfbank: A: ");
    put_read_text(fault, output);
}

fn put_second_read_fault<W: Write>(fault: ReadFault, output: &mut Output<'_, W>)
    ensures { Puts W.contents output.old output.new (second_read_line fault) }
{
    output.put(b"sfbank: B: ");
    put_read_text(fault, output);
}

// A fault of the bank to copy from, which help calls FROM.
fn put_from_read_fault<W: Write>(fault: ReadFault, output: &mut Output<'_, W>)
    ensures { Puts W.contents output.old output.new (from_read_line fault) }
{
    output.put(b"sfbank: FROM: ");
    put_read_text(fault, output);
}

fn put_read_text<W: Write>(fault: ReadFault, output: &mut Output<'_, W>)
    ensures { Puts W.contents output.old output.new (read_text fault) }
{
    put_named("read fault ", fault.number(), fault.name(), output);
}

fn put_script_fault<W: Write>(fault: ScriptFault, output: &mut Output<'_, W>)
    ensures { Puts W.contents output.old output.new (script_line fault) }
{
    put_text_fault(fault.line(), fault.number(), fault.name(), output);
}

fn put_notes_fault<W: Write>(fault: NoteFault, output: &mut Output<'_, W>)
    ensures { Puts W.contents output.old output.new (notes_line fault) }
{
    put_text_fault(fault.line(), fault.number(), fault.name(), output);
}

fn put_table_fault<W: Write>(fault: KitFault, output: &mut Output<'_, W>)
    ensures { Puts W.contents output.old output.new (table_line fault) }
{
    put_text_fault(fault.line(), fault.number(), fault.name(), output);
}

// A fault in a line of a text, by its number and its name.
fn put_text_fault<W: Write>(line: u64, number: u8, name: &str, output: &mut Output<'_, W>)
    ensures { Puts W.contents output.old output.new (text_line line number name.now) }
{
    let mut line_digits = Buffer::new();
    let mut number_digits = Buffer::new();
    put_pieces(
        &[
            b"sfbank: line ",
            line_digits.format(line).as_bytes(),
            b": fault ",
            number_digits.format(number).as_bytes(),
            b" ",
            name.as_bytes(),
            b"\n",
        ],
        output,
    );
}

fn put_refused<W: Write>(line: u64, why: Refusal, output: &mut Output<'_, W>)
    ensures { Puts W.contents output.old output.new (refused_line line why) }
{
    put_refused_line(line, output);
    RefusalText(why).put(output);
    output.put(b"\n");
}

// The line that is refused.
fn put_refused_line<W: Write>(line: u64, output: &mut Output<'_, W>)
    ensures { Puts W.contents output.old output.new (refused_start line) }
{
    let mut digits = Buffer::new();
    put_pieces(
        &[
            b"sfbank: line ",
            digits.format(line).as_bytes(),
            b": refused",
        ],
        output,
    );
}

fn put_not_neutral<W: Write>(line: u64, output: &mut Output<'_, W>)
    ensures { Puts W.contents output.old output.new (not_neutral_line line) }
{
    let mut digits = Buffer::new();
    put_pieces(
        &[
            b"sfbank: line ",
            digits.format(line).as_bytes(),
            b": refused 50 NotNeutral\n",
        ],
        output,
    );
}

// A fault of a WAVE file.
fn put_recording_fault<W: Write>(fault: WaveFault, output: &mut Output<'_, W>)
    ensures { Puts W.contents output.old output.new (recording_line fault) }
{
    put_named("sfbank: wave fault ", fault.number(), fault.name(), output);
}

// A fault of one of several recordings, by its number.
fn put_in_recording<W: Write>(number: u64, fault: WaveFault, output: &mut Output<'_, W>)
    ensures { Puts W.contents output.old output.new (in_recording_line number fault) }
{
    let mut digits = Buffer::new();
    put_pieces(
        &[
            b"sfbank: recording ",
            digits.format(number).as_bytes(),
            b": ",
        ],
        output,
    );
    put_recording_text(fault, output);
}

fn put_recording_text<W: Write>(fault: WaveFault, output: &mut Output<'_, W>)
    ensures { Puts W.contents output.old output.new (recording_text fault) }
{
    put_named("wave fault ", fault.number(), fault.name(), output);
}

/// Puts the line of a recording that can't be read whole.
pub(crate) fn put_row_file<W: Write>(row: &RowPath, output: &mut Output<'_, W>)
    ensures { Puts W.contents output.old output.new (row_file_line row.now) }
{
    put_row_start(row.line, output);
    put_pieces(&[b"file fault ", row.path.as_bytes(), b"\n"], output);
}

/// Puts the line of a recording that can't be imported.
pub(crate) fn put_row_recording<W: Write>(
    row: &RowPath,
    fault: WaveFault,
    output: &mut Output<'_, W>,
)
    ensures { Puts W.contents output.old output.new (row_recording_line row.now fault) }
{
    put_row_start(row.line, output);
    put_pieces(&[row.path.as_bytes(), b": "], output);
    put_recording_text(fault, output);
}

// The line of the table that names a recording, if one does.
fn put_row_start<W: Write>(line: Option<u64>, output: &mut Output<'_, W>)
    ensures { Puts W.contents output.old output.new (row_start line) }
{
    match line {
        Some(line) => put_line_start(line, output),
        None => output.put(b"sfbank: "),
    }
}

fn put_line_start<W: Write>(line: u64, output: &mut Output<'_, W>)
    ensures { Puts W.contents output.old output.new (row_start (Some line)) }
{
    let mut digits = Buffer::new();
    put_pieces(
        &[b"sfbank: line ", digits.format(line).as_bytes(), b": "],
        output,
    );
}

// A preset, instrument or sample that does not exist, in a command without script lines.
fn put_no_member<W: Write>(cause: Cause, output: &mut Output<'_, W>)
    ensures { Puts W.contents output.old output.new (no_member_line cause) }
{
    put_named("sfbank: refused ", cause.number(), cause.name(), output);
}

// A preset that can't be kept or copied.
fn put_preset_fault<W: Write>(fault: PresetFault, output: &mut Output<'_, W>)
    ensures { Puts W.contents output.old output.new (preset_line fault) }
{
    put_preset_text(fault.number(), fault.name(), fault.numbers(), output);
}

fn put_preset_text<W: Write>(
    fault: u8,
    name: &str,
    numbers: PresetNumbers,
    output: &mut Output<'_, W>,
)
    ensures { Puts W.contents output.old output.new (preset_text fault name.now numbers) }
{
    let mut fault_digits = Buffer::new();
    let mut bank_digits = Buffer::new();
    let mut number_digits = Buffer::new();
    put_pieces(
        &[
            b"sfbank: refused ",
            fault_digits.format(fault).as_bytes(),
            b" ",
            name.as_bytes(),
            b" ",
            bank_digits.format(numbers.bank).as_bytes(),
            b":",
            number_digits.format(numbers.number).as_bytes(),
            b"\n",
        ],
        output,
    );
}

// The limit that a bank would exceed, in a command without script lines.
fn put_full<W: Write>(limit: Limit, output: &mut Output<'_, W>)
    ensures { Puts W.contents output.old output.new (full_line limit) }
{
    output.put(b"sfbank: refused");
    RefusalText(Refusal::Of(Cause::Full(limit))).put(output);
    output.put(b"\n");
}

// A line that ends with a number and a name.
fn put_named<'t, W: Write>(start: &'t str, number: u8, name: &'t str, output: &mut Output<'_, W>)
    ensures { Puts W.contents output.old output.new (named_line start.now number name.now) }
{
    let mut digits = Buffer::new();
    put_pieces(
        &[
            start.as_bytes(),
            digits.format(number).as_bytes(),
            b" ",
            name.as_bytes(),
            b"\n",
        ],
        output,
    );
}

fn put_write_fault<W: Write>(path: &str, written: u64, output: &mut Output<'_, W>)
    ensures { Puts W.contents output.old output.new (write_line path.now written) }
{
    let mut number = Buffer::new();
    put_pieces(
        &[
            b"sfbank: write fault ",
            path.as_bytes(),
            b" after ",
            number.format(written).as_bytes(),
            b" bytes\n",
        ],
        output,
    );
}

/// Puts the line of an input that can't be read whole.
pub(crate) fn put_file_fault<W: Write>(path: &str, output: &mut Output<'_, W>)
    ensures { Puts W.contents output.old output.new (file_line path.now) }
{
    put_pieces(&[b"sfbank: file fault ", path.as_bytes(), b"\n"], output);
}

/// Puts the line of an output that is rejected.
pub(crate) fn put_output_fault<W: Write>(path: &str, fault: OutputFault, output: &mut Output<'_, W>)
    ensures { Puts W.contents output.old output.new (output_line path.now fault) }
{
    put_rejected(fault.number(), fault.name(), path, output);
}

/// Puts the line of a folder that is there already.
pub(crate) fn put_folder_there<W: Write>(path: &str, output: &mut Output<'_, W>)
    ensures { Puts W.contents output.old output.new (folder_there_line path.now) }
{
    let explanation = FaultCode::FolderThere.explanation();
    put_rejected(explanation.number, explanation.name, path, output);
}

fn put_rejected<W: Write>(number: u8, name: &str, path: &str, output: &mut Output<'_, W>)
    ensures { Puts W.contents output.old output.new (rejected_line number name.now path.now) }
{
    put_path_line(b"sfbank: output fault ", number, name, path, output);
}

/// Puts the line of a bank that has findings.
pub(crate) fn put_has_findings<W: Write>(path: &str, output: &mut Output<'_, W>)
    ensures { Puts W.contents output.old output.new (has_findings_line path.now) }
{
    let explanation = FaultCode::HasFindings.explanation();
    put_path_line(
        b"sfbank: check fault ",
        explanation.number,
        explanation.name,
        path,
        output,
    );
}

fn put_path_line<'t, W: Write>(
    start: &'t [u8],
    number: u8,
    name: &'t str,
    path: &'t str,
    output: &mut Output<'_, W>,
)
    ensures { Puts W.contents output.old output.new (path_line start.now number name.now path.now) }
{
    let mut digits = Buffer::new();
    put_pieces(
        &[
            start,
            digits.format(number).as_bytes(),
            b" ",
            name.as_bytes(),
            b" ",
            path.as_bytes(),
            b"\n",
        ],
        output,
    );
}

/// Puts the line for a number that no fault and no refusal has.
pub(crate) fn put_no_number<W: Write>(number: u32, output: &mut Output<'_, W>)
    ensures { Puts W.contents output.old output.new (no_number_line number) }
{
    let mut digits = Buffer::new();
    put_pieces(
        &[
            b"error: no fault and no refusal has the number ",
            digits.format(number).as_bytes(),
            b"\n",
        ],
        output,
    );
}

/// Puts the line for a name that no fault and no refusal has.
pub(crate) fn put_no_name<W: Write>(name: &str, output: &mut Output<'_, W>)
    ensures { Puts W.contents output.old output.new (no_name_line name.now) }
{
    put_pieces(
        &[
            b"error: no fault and no refusal has the name ",
            name.as_bytes(),
            b"\n",
        ],
        output,
    );
}

/// Puts the pieces in order.
pub(crate) fn put_pieces<W: Write>(pieces: &[&[u8]], output: &mut Output<'_, W>)
    ensures { Puts W.contents output.old output.new (joined_bytes pieces.now) }
{
    for piece in pieces {
        output.put(piece);
    }
}
