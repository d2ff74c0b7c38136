//! The edited bank and the undo list of a run, before anything is written.
ghost use Rattle.std.specs.Prelude.{◌≡◌, ◌∷◌, List, reverse, Ok, MatchResult, IfOk, IfErr};
ghost use Rattle.bank_edits.specs.EditChanges.{IsDone};
ghost use Rattle.bank_edits.specs.Runs.{AllAccepted};
ghost use Rattle.edit_script.specs.declared.parsing.Line.{Line};
ghost use Rattle.script_tokens.specs.Pool.{pool_bytes};
ghost use Rattle.edit_script.specs.Script.{script_of};
ghost use Rattle.sfbank.specs.Outcome.{both_texts, first_not_neutral, first_refused};
ghost use Rattle.sfbank.specs.Written.{Prepared};
ghost use Rattle.sfbank.specs.EditRuns.{AllApplied, AllOf, StopsAtLine, after_lines, first_other};
ghost use Rattle.sfbank.specs.PlannedEdits.{of_plan};
ghost use Rattle.sfbank.specs.Prepared.{texts_of_bank};
ghost use Rattle.sfbank.specs.Steps.{ReadsScript};

use crate::reading::read_bank;
use bank_core::Bank;
use bank_edits::apply;
use base_progress::{Progress, Work};
use edit_forms::Edit;
use edit_refusals::Refusal;
use edit_script::{Line, parse, pool_of};
use plan_edits::PlanFault;
use program_commands::Forms;
use program_hints::{Remarks, remark_on_refusal};
use program_reports::RunFault;
use sf_base::OutOfMemory;
use sound_neutral_edits::is_neutral;
use std::alloc::Global;

/// The edited bank, and the inverses of its edits, the last edit's first. They borrow from the bank's file and from
/// the script's pool.
pub(crate) struct EditedBank<'a> {
    pub(crate) bank: Bank<'a>,
    pub(crate) undo: Vec<Edit<'a>>,
}

// Not derived: a derived drop is inlined, and proved, wherever a value is dropped; this one is a call.
impl Drop for EditedBank<'_> {
    fn drop(self) {
        let EditedBank { bank: _, undo: _ } = self;
    }
}

/// Reads a file as a bank, and the literals of a script.
pub(crate) fn read_script<'a>(
    alloc: Global,
    file: &'a [u8],
    script: &[u8],
) -> Result<(Bank<'a>, Vec<u8>), RunFault>
    ensures { ReadsScript (λ both. (both.0, both.1.items)) file.now script.now result }
{
    match read_bank(alloc, file) {
        Ok((bank, _counts)) => {
            let pool = pool_of(alloc, script)?;
            Ok((bank, pool))
        }
        Err(fault) => Err(fault),
    }
}

/// Runs a script whose edits must be of these forms on a bank. `pool` holds the script's literals. Reports to
/// `base_progress`, adds remarks on a refused edit to `remarks`, and writes nothing.
pub(crate) fn apply_script<'a, P: Progress>(
    alloc: Global,
    mut bank: Bank<'a>,
    script: &[u8],
    pool: &'a [u8],
    forms: Forms,
    remarks: &mut Remarks,
    progress: &mut P,
) -> Result<EditedBank<'a>, RunFault>
    requires pool { pool_bytes script.now ≡ Ok pool.now }
    ensures prepared { Prepared texts_of_bank (after_lines forms bank.entry (script_of script.now)) result }
{
    let lines = parse(alloc, script, pool)?;
    all_of(forms, lines.as_slice())?;
    let undo = apply_all(alloc, &mut bank, lines, remarks, progress)?;
    Ok(EditedBank { bank, undo })
}

// Checks the forms: the first line of another form is a fault.
fn all_of(forms: Forms, lines: &[Line<'_>]) -> Result<(), RunFault>
    ensures { AllOf (first_other forms lines.now) result }
{
    match forms {
        Forms::Every => Ok(()),
        Forms::Neutral => all_neutral(lines),
    }
}

fn all_neutral(lines: &[Line<'_>]) -> Result<(), RunFault>
    ensures { AllOf (first_not_neutral lines.now) result }
{
    for line in lines {
        if !is_neutral(&line.edit) {
            return Err(RunFault::NotNeutral(line.number));
        }
    }
    Ok(())
}

/// Applies the edits in order, and returns their inverses, the last edit's first. Reports to `base_progress`.
pub(crate) fn apply_all<'a, P: Progress>(
    alloc: Global,
    bank: &mut Bank<'a>,
    lines: Vec<Line<'a>>,
    remarks: &mut Remarks,
    progress: &mut P,
) -> Result<Vec<Edit<'a>>, RunFault>
    ensures applied { MatchResult result (λ undo. AllApplied bank.old bank.new lines.entry.items undo.items)
        (λ fault. StopsAtLine fault (first_refused bank.old lines.entry.items)) }
{
    progress.begin(Work::Lines, lines.len() as u64);
    let applied = apply_each(alloc, bank, lines, remarks, progress);
    progress.end();
    let mut inverses = applied?;
    inverses.as_mut_slice().reverse();
    Ok(inverses)
}

// Applies the edits in order, and returns their inverses in the same order.
fn apply_each<'a, P: Progress>(
    alloc: Global,
    bank: &mut Bank<'a>,
    lines: Vec<Line<'a>>,
    remarks: &mut Remarks,
    progress: &mut P,
) -> Result<Vec<Edit<'a>>, RunFault>
    ensures applied { MatchResult result (λ inverses. AllApplied bank.old bank.new lines.entry.items (reverse inverses.items))
        (λ fault. StopsAtLine fault (first_refused bank.old lines.entry.items)) }
{
    let mut inverses = Vec::new(alloc);
    for line in lines {
        inverses.push(apply_line(alloc, bank, line, remarks)?)?;
        progress.advance(1);
    }
    Ok(inverses)
}

// Applies the edit of a line, and returns its inverse. A function of its own, so that the loop drops no edit.
fn apply_line<'a>(
    alloc: Global,
    bank: &mut Bank<'a>,
    line: Line<'a>,
    remarks: &mut Remarks,
) -> Result<Edit<'a>, RunFault>
    ensures done { IfOk result (λ back. IsDone bank.old bank.new line.entry.edit back) }
    ensures refused { (rest : List Line) → IfErr result (λ fault. StopsAtLine fault (first_refused bank.old (line.entry ∷ rest))) }
{
    let number = line.number;
    match apply(alloc, bank, line.into_edit()) {
        Ok(back) => Ok(back),
        Err((Refusal::OutOfMemory, _edit)) => Err(RunFault::Memory),
        Err((why, edit)) => {
            if remarks.is_wanted() {
                remark_on_refusal(bank, why, &edit, remarks);
            }
            Err(RunFault::Refused(number, why))
        }
    }
}

// ---- edits of a plan

/// Applies edits, each of which the bank accepts in its turn. Writes nothing.
pub(crate) fn apply_accepted<'a>(
    alloc: Global,
    mut bank: Bank<'a>,
    edits: Vec<Edit<'a>>,
) -> Result<EditedBank<'a>, OutOfMemory>
    requires { AllAccepted bank edits.items }
    ensures { IfOk result (λ edited. texts_of_bank edited ≡ both_texts bank.entry edits.entry.items) }
{
    let mut undo = Vec::new(alloc);
    for edit in edits {
        undo.push(apply_one(alloc, &mut bank, edit)?)?;
    }
    undo.as_mut_slice().reverse();
    Ok(EditedBank { bank, undo })
}

// Applies an edit that the bank accepts, and returns its inverse. A function of its own, so that the loop drops no
// edit.
fn apply_one<'a>(
    alloc: Global,
    bank: &mut Bank<'a>,
    edit: Edit<'a>,
) -> Result<Edit<'a>, OutOfMemory>
    ensures { IfOk result (λ back. IsDone bank.old bank.new edit.entry back) }
{
    match apply(alloc, bank, edit) {
        Ok(back) => Ok(back),
        Err((_why, edit)) => {
            drop(edit);
            Err(OutOfMemory)
        }
    }
}

/// The run's fault for a plan without edits.
pub(crate) fn of_plan(fault: PlanFault) -> RunFault
    ensures { result ≡ of_plan fault }
{
    match fault {
        PlanFault::Full(limit) => RunFault::Full(limit),
        PlanFault::Defect => RunFault::PlanFailed,
        PlanFault::OutOfMemory => RunFault::Memory,
    }
}
