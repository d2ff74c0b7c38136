//! Checks of output paths, before anything is read.
ghost use Rattle.std.specs.Prelude.{◌≡◌, ◌||◌, map};
ghost use Rattle.file_host.specs.Checks.{is_one_file};
ghost use Rattle.sfbank.specs.PlanParts.{apart, both_apart, no_bank, script_apart, undo_apart};
ghost use Rattle.sfbank.specs.Steps.{Passes, edit_part, undo_part, fault_of_check};

use base_outputs::OutputFault;
use file_host::{Host, check_apart, check_no_bank};
use program_commands::PlanPaths;
use program_reports::{Fault, RunFault};
use sf_base::Failure;

/// Rejects an output that is one file with one of the others.
pub(super) fn reject_same_file<'a, H: Host>(
    host: &mut H,
    output: &'a str,
    others: &[&str],
) -> Result<(), Fault<'a>>
    ensures { Passes (λ w rest. apart w output.entry.now (map (λ other. other.now) others.now) rest) (H.world host.old) (H.world host.new) result }
{
    match check_apart(host, output, others) {
        Ok(()) => Ok(()),
        Err(failure) => Err(rejected(failure, output)),
    }
}

/// Rejects an output that would replace a bank, except with `force`.
pub(super) fn reject_bank<'a, H: Host>(
    host: &mut H,
    output: &'a str,
    force: bool,
) -> Result<(), Fault<'a>>
    ensures { Passes (λ w rest. no_bank w output.entry.now force rest) (H.world host.old) (H.world host.new) result }
{
    match check_no_bank(host, output, force) {
        Ok(()) => Ok(()),
        Err(failure) => Err(rejected(failure, output)),
    }
}

/// Rejects an output that would replace a bank, except with `force` or where it is the input.
pub(super) fn reject_other_bank<'a, H: Host>(
    host: &mut H,
    output: &'a str,
    input: &str,
    force: bool,
) -> Result<(), Fault<'a>>
    ensures { Passes (λ w rest. no_bank w output.entry.now (force || is_one_file w output.entry.now input.now) rest) (H.world host.old) (H.world host.new) result }
{
    match host.is_one_file(output, input) {
        Ok(is_input) => reject_bank(host, output, is_either(force, is_input)),
        Err(_) => Err(Fault::Run(RunFault::Memory, output)),
    }
}

/// Whether one of two holds.
pub(super) fn is_either(one: bool, other: bool) -> bool
    ensures { result ≡ (one || other) }
{
    one || other
}

/// Rejects the outputs of an edit of a bank by another input: neither may be that input, and the undo script neither the
/// bank nor its output.
pub(super) fn reject_outputs<'a, H: Host>(
    host: &mut H,
    paths: EditPaths<'a>,
) -> Result<(), Fault<'a>>
    ensures { Passes (edit_part paths.entry) (H.world host.old) (H.world host.new) result }
{
    match reject_same_file(host, paths.out, &[paths.other]) {
        Ok(()) => reject_undo(host, paths),
        Err(fault) => Err(fault),
    }
}

fn reject_undo<'a, H: Host>(host: &mut H, paths: EditPaths<'a>) -> Result<(), Fault<'a>>
    ensures { Passes (undo_part paths.entry) (H.world host.old) (H.world host.new) result }
{
    let others = [paths.input, paths.other, paths.out];
    reject_output(host, paths.undo, &others, paths.force)
}

/// Rejects an output that is one file with one of the others, or that would replace a bank, except with `force`.
pub(super) fn reject_output<'a, H: Host>(
    host: &mut H,
    output: &'a str,
    others: &[&str],
    force: bool,
) -> Result<(), Fault<'a>>
    ensures { Passes (λ w rest. apart w output.entry.now (map (λ other. other.now) others.now) (no_bank w output.entry.now force rest)) (H.world host.old) (H.world host.new) result }
{
    match reject_same_file(host, output, others) {
        Ok(()) => reject_bank(host, output, force),
        Err(fault) => Err(fault),
    }
}

// Rejects the script of edits, if it has a path.
fn reject_optional<'a, H: Host>(
    host: &mut H,
    script: Option<&'a str>,
    others: &[&str],
    force: bool,
) -> Result<(), Fault<'a>>
    ensures { Passes (λ w rest. script_apart w script.entry (map (λ other. other.now) others.now) force rest) (H.world host.old) (H.world host.new) result }
{
    match script {
        Some(path) => reject_output(host, path, others, force),
        None => Ok(()),
    }
}

/// Rejects the scripts of a plan whose only input is the bank: neither may be the bank or its output.
pub(super) fn reject_undo_of_plan<'a, H: Host>(
    host: &mut H,
    paths: PlanPaths<'a>,
) -> Result<(), Fault<'a>>
    ensures { Passes (λ w rest. undo_apart w paths.entry rest) (H.world host.old) (H.world host.new) result }
{
    match reject_output(host, paths.undo, &[paths.input, paths.out], paths.force) {
        Ok(()) => {
            let others = [paths.input, paths.out, paths.undo];
            reject_optional(host, paths.script, &others, paths.force)
        }
        Err(fault) => Err(fault),
    }
}

/// Rejects the outputs of a plan with another input.
pub(super) fn reject_outputs_of_plan<'a, H: Host>(
    host: &mut H,
    paths: PlanPaths<'a>,
    other: &'a str,
) -> Result<(), Fault<'a>>
    ensures { Passes (λ w rest. both_apart w paths.entry other.entry.now rest) (H.world host.old) (H.world host.new) result }
{
    let outputs = EditPaths {
        input: paths.input,
        other,
        out: paths.out,
        undo: paths.undo,
        force: paths.force,
    };
    match reject_outputs(host, outputs) {
        Ok(()) => {
            let others = [paths.input, other, paths.out, paths.undo];
            reject_optional(host, paths.script, &others, paths.force)
        }
        Err(fault) => Err(fault),
    }
}

/// The paths of an edit of a bank by another input: a script, a WAVE file, a note list or a second bank.
#[derive(Clone, Copy)]
pub(super) struct EditPaths<'a> {
    pub(super) input: &'a str,
    pub(super) other: &'a str,
    pub(super) out: &'a str,
    pub(super) undo: &'a str,
    /// Whether the undo script may replace a bank.
    pub(super) force: bool,
}

/// The fault of a command whose output is rejected or can't be checked.
fn rejected(failure: Failure<OutputFault>, output: &str) -> Fault<'_>
    ensures { result ≡ fault_of_check failure output.entry }
{
    match failure {
        Failure::Fault(fault) => Fault::Output(fault, output),
        Failure::OutOfMemory => Fault::Run(RunFault::Memory, output),
    }
}
