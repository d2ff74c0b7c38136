//! What follows the line of a fault where it is explained.
ghost use Rattle.std.specs.Prelude.{◌≡◌, []};
ghost use Rattle.base_outputs.specs.Output.{Puts};
ghost use Rattle.program_reports.specs.declared.details.Advice as Advice;
ghost use Rattle.program_reports.specs.Details.{AreDetails, IsAdvice, IsExplained, code_of};
ghost use Rattle.program_reports.specs.Details.{advice_text, details_text, indented};

use crate::fault::Fault;
use crate::fault_lines::put_pieces;
use crate::run_fault::RunFault;
use base_outputs::Output;
use edit_refusals::{Cause, Refusal};
use program_explanations::{Explanation, FaultCode};
use std::io::Write;

/// What follows the line of a fault, in indented lines.
#[derive(Clone, Copy)]
pub(crate) struct Details<'r> {
    // what was found out about the fault
    remarks: &'r [u8],
    advice: Advice,
}

// What helps with a fault.
#[derive(Clone, Copy)]
enum Advice {
    Nothing,
    // one line
    Line(&'static str),
    // what the fault means, and what to do about it
    Explained(Explanation),
}

impl<'r> Details<'r> {
    /// No details.
    pub(crate) fn nothing() -> Details<'r>
        ensures { details_text result ≡ [] }
    {
        Details {
            remarks: &[],
            advice: Advice::Nothing,
        }
    }
}

/// The details of a fault, after remarks on it.
pub(crate) fn details_of<'r>(fault: &Fault<'_>, remarks: &'r [u8]) -> Details<'r>
    ensures { AreDetails fault.now (details_text result) }
{
    let advice = advice_on(fault);
    Details { remarks, advice }
}

// The reason why an input can't be read, or the explanation of another fault.
fn advice_on(fault: &Fault<'_>) -> Advice
    ensures { IsAdvice fault.now (advice_text result) }
{
    match fault {
        Fault::File(_, why) | Fault::RowFile(_, why) => Advice::Line(why.reason()),
        Fault::RowRecording(_, fault) => {
            Advice::Explained(FaultCode::Recording(*fault).explanation())
        }
        Fault::Output(fault, _) => Advice::Explained(FaultCode::Output(*fault).explanation()),
        Fault::FolderThere(_) => Advice::Explained(FaultCode::FolderThere.explanation()),
        Fault::HasFindings(_) => Advice::Explained(FaultCode::HasFindings.explanation()),
        Fault::Run(fault, _) => advice_on_run(fault),
        Fault::Words(_)
        | Fault::NotText
        | Fault::NoNumber(_)
        | Fault::NoName(_)
        | Fault::PipeClosed => Advice::Nothing,
    }
}

fn advice_on_run(fault: &RunFault) -> Advice
    ensures { IsExplained (code_of fault.now) (advice_text result) }
{
    match code_of(fault) {
        Some(code) => Advice::Explained(code.explanation()),
        None => Advice::Line(what_to_do(fault)),
    }
}

// The code of a run's fault, under which `explain` has it.
fn code_of(fault: &RunFault) -> Option<FaultCode>
    ensures { result ≡ code_of fault.now }
{
    Some(match fault {
        RunFault::Read(fault)
        | RunFault::ReadFirst(fault)
        | RunFault::ReadSecond(fault)
        | RunFault::ReadFrom(fault) => FaultCode::Reading(*fault),
        RunFault::Script(fault) => FaultCode::Script(*fault),
        RunFault::Refused(_, why) => FaultCode::Refused(*why),
        RunFault::NotNeutral(_) => FaultCode::NotNeutral,
        RunFault::OtherVersion => FaultCode::OtherVersion,
        RunFault::Notes(fault) => FaultCode::Notes(*fault),
        RunFault::Table(fault) => FaultCode::Table(*fault),
        RunFault::Recording(fault) | RunFault::InRecording(_, fault) => {
            FaultCode::Recording(*fault)
        }
        RunFault::NoMember(cause) => FaultCode::Refused(Refusal::Of(*cause)),
        RunFault::Presets(fault) => FaultCode::Presets(*fault),
        RunFault::Full(limit) => FaultCode::Refused(Refusal::Of(Cause::Full(*limit))),
        RunFault::PlanFailed => FaultCode::PlanFailed,
        RunFault::Write(_, _) | RunFault::Memory => return None,
    })
}

// What to do about a fault without a number.
fn what_to_do(fault: &RunFault) -> &'static str {
    match fault {
        RunFault::Memory => "Close other programs, or use a machine with more memory.",
        _ => "See that the folder exists and is writable, and that the disk is not full.",
    }
}

/// Puts the details into `output`.
pub(crate) fn put_details<W: Write>(details: &Details<'_>, output: &mut Output<'_, W>)
    ensures { Puts W.contents output.old output.new (details_text details.now) }
{
    output.put(details.remarks);
    put_advice(&details.advice, output);
}

fn put_advice<W: Write>(advice: &Advice, output: &mut Output<'_, W>)
    ensures { Puts W.contents output.old output.new (advice_text advice.now) }
{
    match advice {
        Advice::Nothing => {}
        Advice::Line(text) => put_indented(text, output),
        Advice::Explained(explanation) => put_explanation(explanation, output),
    }
}

fn put_explanation<W: Write>(explanation: &Explanation, output: &mut Output<'_, W>)
    ensures { Puts W.contents output.old output.new (advice_text (Advice.Explained explanation.now)) }
{
    put_indented(explanation.meaning, output);
    put_indented(explanation.what_to_do, output);
}

fn put_indented<W: Write>(text: &str, output: &mut Output<'_, W>)
    ensures { Puts W.contents output.old output.new (indented text.now) }
{
    put_pieces(&[b"  ", text.as_bytes(), b"\n"], output);
}
