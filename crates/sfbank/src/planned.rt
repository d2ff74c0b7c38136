//! Runs whose edits a plan finds.
ghost use Rattle.std.specs.Prelude.{◌≡◌, List, ℕ, Result, Ok, IfOk};
ghost use Rattle.bank_format.specs.ReadChecks.{fault_of};
ghost use Rattle.plan_edits.specs.Keeping.{IsKeeping};
ghost use Rattle.plan_copy.specs.Copying.{IsCopying, copies};
ghost use Rattle.plan_take.specs.Merging.{IsMerging};
ghost use Rattle.plan_take.specs.Taking.{IsTaking};
ghost use Rattle.program_reports.specs.declared.run_fault.RunFault.{RunFault};
ghost use Rattle.sfbank.specs.Outcome.{after_reading, bank_in};
ghost use Rattle.sfbank.specs.Purposes.{Purpose, Serves, added_presets, copying, keeping, keeping_of, keeping_played};
ghost use Rattle.sfbank.specs.Purposes.{merging, promise_of, taking, tidying, tidying_with};
ghost use Rattle.sfbank.specs.PlannedEdits.{CopyRendersSame, HasTexts, KeptRendersSame, NotesAreUndone, NotesRenderSame};
ghost use Rattle.sfbank.specs.PlannedEdits.{OthersRenderSame, PlanIsUndone, RunsPlan, TakenRenderSame, TidiedRendersSame};
ghost use Rattle.sfbank.specs.Prepared.{texts_of_bank};
ghost use Rattle.sfbank.specs.Steps.{IsReadAs};

use crate::copied_members::read_to_copy;
use crate::edited_bank::{EditedBank, apply_accepted, of_plan};
use crate::other_banks::{read_to_merge, read_to_take};
use crate::played_notes::{presets_of, read_to_keep};
use crate::reading::read_bank;
use crate::writing::write_edited;
use bank_core::Bank;
use plan_copy::CopyMember;
use plan_edits::{Keep, KeepPlayed, Plan, PlanFault, PresetNumbers, Tidy};
use plan_presets::CopiedMember;
use plan_take::{Merge, RemoveDuplicates, Take, TakenPreset};
use program_commands::Zones;
use program_reports::RunFault;
use script_notes::Note;
use sf_base::Name20;
use std::alloc::Global;
use std::io::Write;

/// Reads the file, tidies its bank, and writes the tidied bank to `out` and the undo script to `undo`. Both writers are
/// flushed. It removes unused instruments and samples, repairs links of stereo samples that only one side has, and joins
/// zones that differ in nothing but neighbouring ranges; with `merge`, equal samples and equal instruments become one
/// first.
///
/// Where the file has a fault, the plan fails or an allocation fails, nothing is written. A fault of a writer has the
/// number of bytes written to it.
pub fn tidy_run<W: Write, V: Write>(
    alloc: Global,
    file: &[u8],
    merge: bool,
    out: &mut W,
    undo: &mut V,
) -> Result<(), RunFault>
    // The fault of the file, else the texts of edits after which no instrument or sample is unused. Without `merge` they
    // are neutral.
    ensures runs { RunsPlan (tidying file.now merge) (record { out = W.contents out.old; out_new = W.contents out.new; undo = V.contents undo.old; undo_new = V.contents undo.new })
        file.now result }
    // Run on the written file, the undo text restores the canonical file of the first bank.
    ensures restores { PlanIsUndone (promise_of (tidying_with merge)) file.now }
    // Each note list renders identically on the written file and on the first file.
    ensures renders { TidiedRendersSame merge file.now }
{
    if merge {
        run_plan(alloc, file, &RemoveDuplicates, out, undo)
    } else {
        run_plan(alloc, file, &Tidy, out, undo)
    }
}

/// Reads the file, copies a preset, an instrument or a sample of its bank to the end of its list, and writes the bank to
/// `out` and the undo script to `undo`. Both writers are flushed. The copy gets the name, or keeps that of the original.
/// The copy of a preset gets the numbers, or free ones: another number of bank 128 if the original is there, else its
/// number in another bank. The copy of a sample is mono.
///
/// Where the file has a fault, there is no such member, the numbers are in use or none are free, the bank would exceed a
/// limit, the plan fails or an allocation fails, nothing is written. A fault of a writer has the number of bytes written
/// to it.
pub fn copy_run<W: Write, V: Write>(
    alloc: Global,
    file: &[u8],
    member: CopiedMember,
    name: Option<Name20>,
    out: &mut W,
    undo: &mut V,
) -> Result<(), RunFault>
    // The fault of the file, else of the copy, else the texts of edits that lead to the bank with the copy.
    ensures runs { RunsPlan (copying file.now member name) (record { out = W.contents out.old; out_new = W.contents out.new; undo = V.contents undo.old; undo_new = V.contents undo.new })
        file.now result }
    // Run on the written file, the undo text restores the canonical file of the first bank.
    ensures restores { PlanIsUndone (IsCopying member name) file.now }
    // Notes on the copy of a preset render on the written file as they do, on the original, on the first file.
    ensures copy { CopyRendersSame member name file.now }
    // Notes on other presets render identically on the written file and on the first file.
    ensures others { OthersRenderSame (IsCopying member name) (copies (bank_in file.now) member) file.now }
{
    match read_to_copy(alloc, file, member) {
        Ok(bank) => run_edits(alloc, bank, &CopyMember { member, name }, out, undo),
        Err(fault) => Err(fault),
    }
}

/// Reads the file, keeps the presets with these numbers, and writes the bank to `out` and the undo script to `undo`. Both
/// writers are flushed. It removes all other presets, then unused instruments and samples, with the links to these.
///
/// Where the file has a fault, the plan fails or an allocation fails, nothing is written. A fault of a writer has the
/// number of bytes written to it.
pub fn keep_run<W: Write, V: Write>(
    alloc: Global,
    file: &[u8],
    presets: &[PresetNumbers],
    out: &mut W,
    undo: &mut V,
) -> Result<(), RunFault>
    // The fault of the file, else the texts of edits after which no other preset is left, and no instrument or sample is
    // unused.
    ensures runs { RunsPlan (keeping file.now presets.now) (record { out = W.contents out.old; out_new = W.contents out.new; undo = V.contents undo.old; undo_new = V.contents undo.new })
        file.now result }
    // Run on the written file, the undo text restores the canonical file of the first bank.
    ensures restores { PlanIsUndone (IsKeeping presets.now) file.now }
    // Each note list of these presets renders identically on the written file and on the first file.
    ensures renders { KeptRendersSame presets.now file.now }
{
    run_plan(alloc, file, &Keep { presets }, out, undo)
}

/// Reads the file and a list of notes, keeps the presets that the notes play, and writes the bank to `out` and the undo
/// script to `undo`. Both writers are flushed. It removes all other presets, with `Zones::Played` also the zones that no
/// note selects, then unused instruments and samples, with the links to these.
///
/// Where the file or the list has a fault, the plan fails or an allocation fails, nothing is written. A fault of a writer
/// has the number of bytes written to it.
pub fn keep_notes_run<W: Write, V: Write>(
    alloc: Global,
    file: &[u8],
    notes: &[u8],
    zones: Zones,
    out: &mut W,
    undo: &mut V,
) -> Result<(), RunFault>
    // The fault of the file, else of the notes, else the texts of edits after which no other preset is left, with
    // `Zones::Played` no zone that no note selects, and no instrument or sample is unused.
    ensures runs { RunsPlan (keeping_played zones file.now notes.now) (record { out = W.contents out.old; out_new = W.contents out.new; undo = V.contents undo.old; undo_new = V.contents undo.new })
        file.now result }
    // Run on the written file, the undo text restores the canonical file of the first bank.
    ensures restores { NotesAreUndone zones file.now notes.now }
    // The notes render identically on the written file and on the first file.
    ensures renders { NotesRenderSame zones file.now notes.now }
{
    match read_to_keep(alloc, file, notes) {
        Ok((bank, played)) => keep_notes(alloc, bank, played.as_slice(), zones, out, undo),
        Err(fault) => Err(fault),
    }
}

// Keeps what notes play of a bank.
fn keep_notes<W: Write, V: Write>(
    alloc: Global,
    bank: Bank<'_>,
    notes: &[Note],
    zones: Zones,
    out: &mut W,
    undo: &mut V,
) -> Result<(), RunFault>
    ensures { (wanted : Result Purpose RunFault) (file : List ℕ) → wanted ≡ Ok (keeping_of zones notes.now)
        → IsReadAs file bank.entry
        → RunsPlan wanted
        (record { out = W.contents out.old; out_new = W.contents out.new; undo = V.contents undo.old; undo_new = V.contents undo.new })
        file result }
{
    match zones {
        Zones::All => match presets_of(alloc, notes) {
            Ok(presets) => {
                let plan = Keep {
                    presets: presets.as_slice(),
                };
                run_edits(alloc, bank, &plan, out, undo)
            }
            Err(_) => Err(RunFault::Memory),
        },
        Zones::Played => run_edits(alloc, bank, &KeepPlayed { notes }, out, undo),
    }
}

/// Reads both files, copies presets of the second bank into the first, with the instruments and samples that they need,
/// and writes the bank to `out` and the undo script to `undo`. Both writers are flushed. An equal instrument or sample
/// that the bank has is used and not copied.
///
/// Where a file has a fault, a preset can't be taken, the bank would exceed a limit, the plan fails or an allocation
/// fails, nothing is written. A fault of a writer has the number of bytes written to it.
pub fn take_run<W: Write, V: Write>(
    alloc: Global,
    file: &[u8],
    other: &[u8],
    presets: &[TakenPreset],
    out: &mut W,
    undo: &mut V,
) -> Result<(), RunFault>
    // The fault of the first file, else of the second, else of the first preset that can't be taken, else the texts of
    // edits after which each note has on the taken presets the voices that it has in the other bank.
    ensures runs { RunsPlan (taking file.now other.now presets.now) (record { out = W.contents out.old; out_new = W.contents out.new; undo = V.contents undo.old; undo_new = V.contents undo.new })
        file.now result }
    // Run on the written file, the undo text restores the canonical file of the first bank.
    ensures restores { PlanIsUndone (IsTaking (bank_in other.now) presets.now) file.now }
    // Notes on a taken preset render on the written file as they do, on the original, on the second file.
    ensures taken { TakenRenderSame (IsTaking (bank_in other.now) presets.now) other.now presets.now file.now }
    // Notes on other presets render identically on the written file and on the first file.
    ensures others { OthersRenderSame (IsTaking (bank_in other.now) presets.now) presets.now file.now }
{
    match read_to_take(alloc, file, other, presets) {
        Ok((bank, from)) => {
            let plan = Take {
                from: &from,
                presets,
            };
            run_edits(alloc, bank, &plan, out, undo)
        }
        Err(fault) => Err(fault),
    }
}

/// Reads both files, adds all samples, instruments and presets of the second bank after those of the first, with their
/// bank numbers increased by `shift`, and writes the bank to `out` and the undo script to `undo`. Both writers are flushed.
///
/// Where a file has a fault, a preset can't be added, the bank would exceed a limit, the plan fails or an allocation
/// fails, nothing is written. A fault of a writer has the number of bytes written to it.
pub fn merge_run<W: Write, V: Write>(
    alloc: Global,
    file: &[u8],
    other: &[u8],
    shift: u16,
    out: &mut W,
    undo: &mut V,
) -> Result<(), RunFault>
    // The fault of the first file, else of the second, else of the first preset that can't be added, else the texts of
    // edits that lead to the merged bank.
    ensures runs { RunsPlan (merging file.now other.now shift) (record { out = W.contents out.old; out_new = W.contents out.new; undo = V.contents undo.old; undo_new = V.contents undo.new })
        file.now result }
    // Run on the written file, the undo text restores the canonical file of the first bank.
    ensures restores { PlanIsUndone (IsMerging (bank_in other.now) shift) file.now }
    // Notes on an added preset render on the written file as they do, on the original, on the second file.
    ensures added { TakenRenderSame (IsMerging (bank_in other.now) shift) other.now (added_presets other.now shift) file.now }
    // Notes on other presets render identically on the written file and on the first file.
    ensures others { OthersRenderSame (IsMerging (bank_in other.now) shift) (added_presets other.now shift) file.now }
{
    match read_to_merge(alloc, file, other, shift) {
        Ok((bank, from)) => {
            let plan = Merge { from: &from, shift };
            run_edits(alloc, bank, &plan, out, undo)
        }
        Err(fault) => Err(fault),
    }
}

// Reads the file, and does what `run_edits` does.
fn run_plan<'a, P: Plan<'a>, W: Write, V: Write>(
    alloc: Global,
    file: &'a [u8],
    plan: &P,
    out: &mut W,
    undo: &mut V,
) -> Result<(), RunFault>
    ensures { (purpose : Purpose) → Serves (P.promise plan.now) purpose
        → RunsPlan (after_reading (fault_of file.now) (Ok purpose))
        (record { out = W.contents out.old; out_new = W.contents out.new; undo = V.contents undo.old; undo_new = V.contents undo.new })
        file.now result }
{
    match read_bank(alloc, file) {
        Ok((bank, _counts)) => run_edits(alloc, bank, plan, out, undo),
        Err(fault) => Err(fault),
    }
}

// Applies the edits that a plan finds for a bank, and writes both texts.
fn run_edits<'a, P: Plan<'a>, W: Write, V: Write>(
    alloc: Global,
    bank: Bank<'a>,
    plan: &P,
    out: &mut W,
    undo: &mut V,
) -> Result<(), RunFault>
    ensures { (purpose : Purpose) (wanted : Result Purpose RunFault) (file : List ℕ) → Serves (P.promise plan.now) purpose
        → wanted ≡ Ok purpose → IsReadAs file bank.entry
        → RunsPlan wanted
        (record { out = W.contents out.old; out_new = W.contents out.new; undo = V.contents undo.old; undo_new = V.contents undo.new })
        file result }
{
    match apply_plan(alloc, bank, plan) {
        Ok(edited_bank) => write_edited(&edited_bank, out, undo),
        Err(fault) => Err(of_plan(fault)),
    }
}

fn apply_plan<'a, P: Plan<'a>>(
    alloc: Global,
    bank: Bank<'a>,
    plan: &P,
) -> Result<EditedBank<'a>, PlanFault>
    ensures { IfOk result (λ edited. HasTexts (P.promise plan.now) bank.entry (texts_of_bank edited)) }
{
    let edits = plan.edits(alloc, &bank)?;
    Ok(apply_accepted(alloc, bank, edits)?)
}
