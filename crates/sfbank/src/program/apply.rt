//! The command `apply`, with an undo script and without.
ghost use Rattle.std.specs.Prelude.{Option, List, ℕ};
ghost use Rattle.program_commands.specs.declared.words.Request.TheVariants.{Apply, ApplyOnly};
ghost use Rattle.sfbank.specs.EditRuns.{outcome_of};
ghost use Rattle.sfbank.specs.PlanParts.{with_both, with_text, without_undo};
ghost use Rattle.sfbank.specs.Ends.{EndsFor};
ghost use Rattle.sfbank.specs.Meanings.{Means};

use super::checks::{EditPaths, reject_outputs, reject_same_file};
use super::inputs::read_two;
use super::outputs::{put, save_both};
use crate::edited_bank::{apply_script, read_script};
use bank_core::Bank;
use base_progress::Progress;
use file_host::Host;
use program_commands::{ApplyOnlyPaths, ApplyPaths};
use program_hints::{Remarks, first_overridden};
use program_reports::{Fault, KnowsError, remark_on_run};
use sf_writer::BankFile;
use std::alloc::Global;
use std::io::Write;

/// Runs the script on the bank. Both files are read whole first, so OUT may be the bank's own file. Remarks on a
/// fault are added to `remarks`.
pub(crate) fn apply<'a, H: Host, P: Progress>(
    host: &mut H,
    alloc: Global,
    paths: ApplyPaths<'a>,
    remarks: &mut Remarks,
    progress: &mut P,
) -> Result<(), Fault<'a>>
    ensures { (printed : Option (List ℕ)) → Means (Apply paths.entry)
        (record { files = H.world host.old; printed = printed })
        (record { files = H.world host.new; printed = printed }) (H.written host.new) result }
{
    let outputs = EditPaths {
        input: paths.input,
        other: paths.script,
        out: paths.out,
        undo: paths.undo,
        force: paths.force,
    };
    match reject_outputs(host, outputs) {
        Ok(()) => match read_two(host, alloc, paths.input, paths.script) {
            Ok((file, script)) => save_edited(
                host,
                alloc,
                paths,
                file.as_slice(),
                script.as_slice(),
                remarks,
                progress,
            ),
            Err(fault) => Err(fault),
        },
        Err(fault) => Err(fault),
    }
}

fn save_edited<'a, H: Host, P: Progress>(
    host: &mut H,
    alloc: Global,
    paths: ApplyPaths<'a>,
    file: &[u8],
    script: &[u8],
    remarks: &mut Remarks,
    progress: &mut P,
) -> Result<(), Fault<'a>>
    ensures { (printed : Option (List ℕ)) → EndsFor (λ w. with_both paths.entry.out.now paths.entry.undo.now (outcome_of paths.entry.forms file.now script.now))
        (record { files = H.world host.old; printed = printed })
        (record { files = H.world host.new; printed = printed }) (H.written host.new) result }
{
    match read_script(alloc, file, script) {
        Ok((bank, pool)) => {
            match apply_script(
                alloc,
                bank,
                script,
                pool.as_slice(),
                paths.forms,
                remarks,
                progress,
            ) {
                Ok(edited_bank) => {
                    let saved = save_both(host, paths.out, paths.undo, &edited_bank);
                    report_overridden(&saved, &edited_bank.bank, script, progress);
                    saved
                }
                Err(fault) => {
                    remark_on_run(alloc, script, &fault, remarks);
                    Err(Fault::Run(fault, paths.out))
                }
            }
        }
        Err(fault) => {
            remark_on_run(alloc, script, &fault, remarks);
            Err(Fault::Run(fault, paths.out))
        }
    }
}

/// Runs the script on the bank, and writes no undo script. Both files are read whole first, so OUT may be the bank's
/// own file. Remarks on a fault are added to `remarks`.
pub(crate) fn apply_only<'a, H: Host, O: Write + KnowsError, P: Progress>(
    host: &mut H,
    alloc: Global,
    paths: ApplyOnlyPaths<'a>,
    output: &mut O,
    remarks: &mut Remarks,
    progress: &mut P,
) -> Result<(), Fault<'a>>
    ensures { Means (ApplyOnly paths.entry)
        (record { files = H.world host.old; printed = O.contents output.old })
        (record { files = H.world host.new; printed = O.contents output.new }) (H.written host.new) result }
{
    match reject_same_file(host, paths.out, &[paths.script]) {
        Ok(()) => match read_two(host, alloc, paths.input, paths.script) {
            Ok((file, script)) => put_edited(
                host,
                alloc,
                paths,
                file.as_slice(),
                script.as_slice(),
                output,
                remarks,
                progress,
            ),
            Err(fault) => Err(fault),
        },
        Err(fault) => Err(fault),
    }
}

fn put_edited<'a, H: Host, O: Write + KnowsError, P: Progress>(
    host: &mut H,
    alloc: Global,
    paths: ApplyOnlyPaths<'a>,
    file: &[u8],
    script: &[u8],
    output: &mut O,
    remarks: &mut Remarks,
    progress: &mut P,
) -> Result<(), Fault<'a>>
    ensures { EndsFor (λ w. with_text w paths.entry.out.now (without_undo (outcome_of paths.entry.forms file.now script.now)))
        (record { files = H.world host.old; printed = O.contents output.old })
        (record { files = H.world host.new; printed = O.contents output.new }) (H.written host.new) result }
{
    match read_script(alloc, file, script) {
        Ok((bank, pool)) => {
            match apply_script(
                alloc,
                bank,
                script,
                pool.as_slice(),
                paths.forms,
                remarks,
                progress,
            ) {
                Ok(edited_bank) => {
                    let ended = put(host, paths.out, &BankFile(&edited_bank.bank), output);
                    report_overridden(&ended, &edited_bank.bank, script, progress);
                    ended
                }
                Err(fault) => {
                    remark_on_run(alloc, script, &fault, remarks);
                    Err(Fault::Run(fault, paths.out))
                }
            }
        }
        Err(fault) => {
            remark_on_run(alloc, script, &fault, remarks);
            Err(Fault::Run(fault, paths.out))
        }
    }
}

// Reports the settings of a script that have no effect in the edited bank, if it is saved.
fn report_overridden<P: Progress>(
    saved: &Result<(), Fault<'_>>,
    bank: &Bank<'_>,
    script: &[u8],
    progress: &mut P,
) {
    if saved.is_ok() && progress.is_detailed() {
        if let Some(setting) = first_overridden(bank, script) {
            progress.found_overridden(setting);
        }
    }
}
