//! Scripts of edits, from bytes to bytes.
ghost use Rattle.std.specs.Prelude.{◌≡◌};
ghost use Rattle.sfbank.specs.Outcome.{outcome, neutral_outcome, IsNeutrallyUndone, IsRunOfEdits, IsUndone, RestoredRendersSame, EditedRendersSame};
ghost use Rattle.sfbank.specs.EditRuns.{outcome_of};
ghost use Rattle.sfbank.specs.Written.{Runs};

use crate::edited_bank::{apply_script, read_script};
use crate::writing::write_edited;
use base_progress::{NoReports, Progress};
use program_commands::Forms;
use program_hints::Remarks;
use program_reports::RunFault;
use std::alloc::Global;
use std::io::Write;

/// Reads the file, runs the script on its bank, and writes the edited bank to `out` and the undo script to `undo`.
/// Both writers are flushed.
///
/// Where the file or the script has a fault, an edit is refused or an allocation fails, nothing is written. A fault of
/// a writer has the number of bytes written to it.
pub fn edit_run<W: Write, V: Write>(
    alloc: Global,
    file: &[u8],
    script: &[u8],
    out: &mut W,
    undo: &mut V,
) -> Result<(), RunFault>
    // The outcome is the fault of the file, else of the script, else the first refused line, else both texts.
    ensures runs { Runs (record { out = W.contents out.old; out_new = W.contents out.new; undo = V.contents undo.old; undo_new = V.contents undo.new })
        (outcome file.now script.now) result }
    // Run on the written file, the undo text restores the canonical file of the first bank.
    ensures restores { IsUndone file.now script.now }
    // Each note list renders identically on that restored file and on the first file.
    ensures renders { RestoredRendersSame file.now script.now }
{
    edit_run_with_progress(alloc, file, script, out, undo, &mut NoReports)
}

/// Does what `edit_run` does, and reports to `base_progress` as lines are done.
pub fn edit_run_with_progress<W: Write, V: Write, P: Progress>(
    alloc: Global,
    file: &[u8],
    script: &[u8],
    out: &mut W,
    undo: &mut V,
    progress: &mut P,
) -> Result<(), RunFault>
    // The outcome is the fault of the file, else of the script, else the first refused line, else both texts.
    ensures runs { Runs (record { out = W.contents out.old; out_new = W.contents out.new; undo = V.contents undo.old; undo_new = V.contents undo.new })
        (outcome file.now script.now) result }
    // Run on the written file, the undo text restores the canonical file of the first bank.
    ensures restores { IsUndone file.now script.now }
    // Each note list renders identically on that restored file and on the first file.
    ensures renders { RestoredRendersSame file.now script.now }
{
    run_script(alloc, file, script, Forms::Every, out, undo, progress)
}

/// Does what `edit_run` does, but accepts neutral edits only: those that never change a sound, whatever the bank.
/// Returns `NotNeutral` for the first line with another edit, before any edit is done or refused.
pub fn neutral_run<W: Write, V: Write, P: Progress>(
    alloc: Global,
    file: &[u8],
    script: &[u8],
    out: &mut W,
    undo: &mut V,
    progress: &mut P,
) -> Result<(), RunFault>
    // The outcome is the fault of the file, else of the script, else the first line that is not neutral, else the
    // first refused line, else both texts.
    ensures runs { Runs (record { out = W.contents out.old; out_new = W.contents out.new; undo = V.contents undo.old; undo_new = V.contents undo.new })
        (neutral_outcome file.now script.now) result }
    // If it succeeds, `edit_run` does the same.
    ensures edits { IsRunOfEdits file.now script.now }
    // The undo text is neutral too. Run on the written file, it restores the canonical file of the first bank.
    ensures restores { IsNeutrallyUndone file.now script.now }
    // Each note list renders identically on the written file and on the first file.
    ensures renders { EditedRendersSame file.now script.now }
{
    run_script(alloc, file, script, Forms::Neutral, out, undo, progress)
}

/// Runs a script whose edits must be of these forms.
pub(crate) fn run_script<W: Write, V: Write, P: Progress>(
    alloc: Global,
    file: &[u8],
    script: &[u8],
    forms: Forms,
    out: &mut W,
    undo: &mut V,
    progress: &mut P,
) -> Result<(), RunFault>
    ensures runs { Runs (record { out = W.contents out.old; out_new = W.contents out.new; undo = V.contents undo.old; undo_new = V.contents undo.new })
        (outcome_of forms file.now script.now) result }
{
    match read_script(alloc, file, script) {
        Ok((bank, pool)) => {
            let mut remarks = Remarks::new(false);
            match apply_script(
                alloc,
                bank,
                script,
                pool.as_slice(),
                forms,
                &mut remarks,
                progress,
            ) {
                Ok(edited_bank) => write_edited(&edited_bank, out, undo),
                Err(fault) => Err(fault),
            }
        }
        Err(fault) => Err(fault),
    }
}
