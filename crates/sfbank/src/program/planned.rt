//! Commands whose edits a plan finds.
ghost use Rattle.std.specs.Prelude.{Ok, List, Option, ℕ, not};
ghost use Rattle.bank_edits.specs.Runs.{AllAccepted};
ghost use Rattle.bank_format.specs.ReadChecks.{fault_of};
ghost use Rattle.sfbank.specs.Outcome.{after_reading, both_texts};
ghost use Rattle.sfbank.specs.Purposes.{Purpose, Serves, promise_of};
ghost use Rattle.sfbank.specs.PlanParts.{SavesAll, edits_at, with_edits};
ghost use Rattle.sfbank.specs.Ends.{EndsFor};
ghost use Rattle.sfbank.specs.EditTexts.{edits_text};
ghost use Rattle.sfbank.specs.Prepared.{edits_script_text};
ghost use Rattle.sfbank.specs.Outputs.{PrintsOrFails, SavesAt, SavesPairAt};
ghost use Rattle.sfbank.specs.Steps.{IsReadAs};

use super::outputs::{print, save, save_both};
use crate::edited_bank::{apply_accepted, of_plan};
use crate::edits_script::EditsScript;
use crate::reading::read_bank;
use bank_core::Bank;
use edit_forms::Edit;
use file_host::Host;
use plan_edits::Plan;
use program_commands::PlanPaths;
use program_reports::{Fault, KnowsError, RunFault};
use sf_base::OutOfMemory;
use std::alloc::Global;
use std::io::Write;

/// Reads a file as a bank, and does what `put_edits` does.
pub(super) fn put_planned<'a, 'b, H: Host, P: Plan<'b>, O: Write + KnowsError>(
    host: &mut H,
    alloc: Global,
    paths: PlanPaths<'a>,
    file: &'b [u8],
    plan: &P,
    output: &mut O,
) -> Result<(), Fault<'a>>
    ensures { (purpose : Purpose) → Serves (P.promise plan.now) purpose
        → EndsFor (λ w. with_edits paths.entry file.now (after_reading (fault_of file.now) (Ok purpose)))
        (record { files = H.world host.old; printed = O.contents output.old })
        (record { files = H.world host.new; printed = O.contents output.new }) (H.written host.new) result }
{
    match read_bank(alloc, file) {
        Ok((bank, _counts)) => put_edits(host, alloc, paths, bank, plan, output),
        Err(fault) => Err(Fault::Run(fault, paths.out)),
    }
}

/// Finds the edits of a plan for a bank. Prints their script, or saves the edited bank with its undo script, and before
/// them the script if it has a path.
pub(super) fn put_edits<'a, 'b, H: Host, P: Plan<'b>, O: Write + KnowsError>(
    host: &mut H,
    alloc: Global,
    paths: PlanPaths<'a>,
    bank: Bank<'b>,
    plan: &P,
    output: &mut O,
) -> Result<(), Fault<'a>>
    ensures { (purpose : Purpose) (file : List ℕ) → Serves (P.promise plan.now) purpose → IsReadAs file bank.entry
        → EndsFor (λ w. Ok (edits_at paths.entry purpose file))
        (record { files = H.world host.old; printed = O.contents output.old })
        (record { files = H.world host.new; printed = O.contents output.new }) (H.written host.new) result }
{
    match plan.edits(alloc, &bank) {
        Ok(edits) => put_found(host, alloc, paths, bank, edits, output),
        Err(fault) => Err(Fault::Run(of_plan(fault), paths.out)),
    }
}

// Prints the script of edits, or saves the edited bank with its undo script, and before them the script if it has a path.
fn put_found<'a, 'b, H: Host, O: Write + KnowsError>(
    host: &mut H,
    alloc: Global,
    paths: PlanPaths<'a>,
    bank: Bank<'b>,
    edits: Vec<Edit<'b>>,
    output: &mut O,
) -> Result<(), Fault<'a>>
    requires { AllAccepted bank edits.items }
    ensures { (purpose : Purpose) (file : List ℕ) → promise_of purpose bank.entry edits.entry.items → IsReadAs file bank.entry
        → EndsFor (λ w. Ok (edits_at paths.entry purpose file))
        (record { files = H.world host.old; printed = O.contents output.old })
        (record { files = H.world host.new; printed = O.contents output.new }) (H.written host.new) result }
{
    if paths.dry_run {
        return print_edits(alloc, paths, &bank, edits.as_slice(), output);
    }
    match paths.script {
        Some(script) => save_all(host, alloc, paths, script, bank, edits),
        None => save_edited(host, alloc, paths, bank, edits),
    }
}

// Prints the script of edits.
fn print_edits<'a, 'b, O: Write + KnowsError>(
    alloc: Global,
    paths: PlanPaths<'a>,
    bank: &Bank<'b>,
    edits: &[Edit<'b>],
    output: &mut O,
) -> Result<(), Fault<'a>>
    requires { AllAccepted bank.now edits.now }
    ensures { PrintsOrFails (edits_text (not paths.entry.no_comments) bank.now edits.now)
        (O.contents output.old) (O.contents output.new) result }
{
    match EditsScript::of(alloc, bank, edits, !paths.no_comments) {
        Ok(script) => print(&script, output),
        Err(OutOfMemory) => Err(Fault::Run(RunFault::Memory, paths.out)),
    }
}

// Saves the script of edits, and then the edited bank with its undo script.
fn save_all<'a, 'b, H: Host>(
    host: &mut H,
    alloc: Global,
    paths: PlanPaths<'a>,
    script: &'a str,
    bank: Bank<'b>,
    edits: Vec<Edit<'b>>,
) -> Result<(), Fault<'a>>
    requires { AllAccepted bank edits.items }
    ensures { (purpose : Purpose) (file : List ℕ) (printed : Option (List ℕ)) → promise_of purpose bank.entry edits.entry.items
        → IsReadAs file bank.entry
        → EndsFor (λ w. Ok (SavesAll script.entry.now paths.entry.out.now paths.entry.undo.now (not paths.entry.no_comments)
        purpose file))
        (record { files = H.world host.old; printed = printed }) (record { files = H.world host.new; printed = printed })
        (H.written host.new) result }
{
    let comments = !paths.no_comments;
    match save_script(host, alloc, script, &bank, edits.as_slice(), comments) {
        Ok(()) => save_edited(host, alloc, paths, bank, edits),
        Err(fault) => Err(fault),
    }
}

// Saves the script of edits.
fn save_script<'a, 'b, H: Host>(
    host: &mut H,
    alloc: Global,
    script: &'a str,
    bank: &Bank<'b>,
    edits: &[Edit<'b>],
    comments: bool,
) -> Result<(), Fault<'a>>
    requires { AllAccepted bank.now edits.now }
    ensures { SavesAt script.entry.now (edits_text comments bank.now edits.now)
        (H.world host.old) (H.world host.new) (H.written host.new) result }
{
    match EditsScript::of(alloc, bank, edits, comments) {
        Ok(text) => save_lines(host, script, text),
        Err(OutOfMemory) => Err(Fault::Run(RunFault::Memory, script)),
    }
}

// Saves the lines of edits.
fn save_lines<'a, H: Host>(
    host: &mut H,
    script: &'a str,
    text: EditsScript<'_, '_>,
) -> Result<(), Fault<'a>>
    ensures { SavesAt script.entry.now (edits_script_text text.entry)
        (H.world host.old) (H.world host.new) (H.written host.new) result }
{
    save(host, script, &text)
}

// Saves the edited bank with its undo script.
fn save_edited<'a, 'b, H: Host>(
    host: &mut H,
    alloc: Global,
    paths: PlanPaths<'a>,
    bank: Bank<'b>,
    edits: Vec<Edit<'b>>,
) -> Result<(), Fault<'a>>
    requires { AllAccepted bank edits.items }
    ensures { SavesPairAt paths.entry.out.now paths.entry.undo.now (both_texts bank.entry edits.entry.items)
        (H.world host.old) (H.world host.new) (H.written host.new) result }
{
    match apply_accepted(alloc, bank, edits) {
        Ok(edited_bank) => save_both(host, paths.out, paths.undo, &edited_bank),
        Err(OutOfMemory) => Err(Fault::Run(RunFault::Memory, paths.out)),
    }
}
