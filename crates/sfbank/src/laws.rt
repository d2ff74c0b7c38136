//! Laws of whole runs.
ghost use Rattle.sfbank.specs.BankScripts.{RemadeRendersSame, ScriptsDistinguish};
ghost use Rattle.sfbank.specs.Folders.{FoldersPackBack};
ghost use Rattle.sfbank.specs.PackedFiles.{SavedFoldersPackBack};
ghost use Rattle.sfbank.specs.PlannedEdits.{PlayedRendersSame};
ghost use Rattle.sfbank.specs.SavedBanks.{SavedUndoRestores};
ghost use Rattle.sfbank.specs.SavedKits.{SavedKitsReadBack};
ghost use Rattle.sfbank.specs.ScriptFiles.{DifferencesLead, ScriptsLead};
ghost use Rattle.sfbank.specs.UndoneFiles.{UndoEndsSessions, UndoRemovesKits, UndoRemovesRecordings, UndoRestoresFiles, UndoRestoresPlans};

use live_sessions::saved_undo_leads_back;

/// Two readable files have the same script with all points if and only if they have the same canonical file.
pub fn scripts_distinguish_banks()
    ensures { ScriptsDistinguish }
{}

/// Each note list renders identically on a file and on the file that its script makes of the empty bank.
pub fn remade_banks_render_same()
    ensures { RemadeRendersSame }
{}

/// Where `keep` keeps the presets that a note list plays, the list renders identically on the written file and on the
/// first file.
pub fn kept_notes_render_same()
    ensures { PlayedRendersSame }
{}

/// The script of a file without points, as `script_run` writes it, and the WAVE file of each of its samples, as `wave_run`
/// writes it, make by `pack_run` the canonical file of its bank.
pub fn folders_pack_back()
    ensures runs { FoldersPackBack }
    // On files, a folder that `unpack` saved, with other files changed meanwhile, is what `pack` makes that file of.
    ensures files { SavedFoldersPackBack }
{}

/// On files, what `wave --all` saved, with other files changed meanwhile: the table reads as the zones of the instrument
/// that notes select, and the file that it names for each sample, from the folder on, gives the WAVE file of the sample.
#[tactic(auto, using(crate::proofs::SavedKits::saved_kits))]
pub fn kits_read_back()
    ensures { SavedKitsReadBack }
{}

/// On files, `apply` on a bank and an undo script that were saved, with other files changed meanwhile, restores the first
/// bank in its canonical file, on which all notes sound as on the first file.
pub fn undo_restores_files()
    // They were saved by `apply`, in the same mode: the last undo script has the edits of the first script.
    ensures apply { UndoRestoresFiles }
    // They were saved by `import` or `replace`: the last undo script has the edits of the recording.
    ensures import { UndoRemovesRecordings }
    // They were saved by `import` of several recordings.
    ensures kits { UndoRemovesKits }
    // They were saved by a command that found edits: the last undo script has these edits.
    ensures plans { UndoRestoresPlans }
    // They were saved by a live session, at any time.
    ensures live { UndoEndsSessions }
{
    saved_undo_restores();
}

/// On files, `apply` on a script that `diff` or `script` saved, with other files changed meanwhile, makes the canonical
/// file of the other bank.
pub fn saved_scripts_lead()
    // Run on the first of two files, their difference makes the bank of the second.
    ensures diff { DifferencesLead }
    // Run on the file of an empty bank of its minor version, the script of a file makes the bank of that file.
    ensures script { ScriptsLead }
{}

/// At any time in a live session, the undo script that `save` writes, run by `edit_run` on the bank file that it
/// writes, restores the canonical file of the bank with which the session began.
pub fn saved_undo_restores()
    ensures { SavedUndoRestores }
{
    saved_undo_leads_back();
}
