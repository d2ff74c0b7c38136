//! The runs of the program, from bytes to bytes, and the program itself, from arguments to an exit status.
//!
//! A run edits a bank by a script, writes a bank's canonical file, listing, script, map or page, lists what is probably a
//! mistake, compares two banks, renders notes as a WAVE file, moves a sample between a bank and a WAVE file, or makes the
//! bank of a folder. The program reads and writes the files that its arguments name.
#![tactic(auto)]

mod canon;
mod check;
mod copied_members;
mod diff;
mod edit;
mod edited_bank;
mod edits_script;
mod folders;
mod kit_fits;
mod kits;
mod laws;
mod map;
mod new;
mod other_banks;
mod planned;
mod play;
mod played_notes;
mod program;
mod reading;
mod recorded;
mod script;
mod short;
mod show;
mod wave;
mod writing;

pub use base_progress::{NoReports, Progress, Work};
pub use canon::canon_run;
pub use check::{check_run, page_run};
pub use diff::diff_run;
pub use edit::{edit_run, edit_run_with_progress, neutral_run};
pub use file_host::Which;
pub use folders::pack_run;
pub use kit_edits::{KitMembers, KitPreset};
pub use kit_tables::KitZone;
pub use kits::{KitWave, kit_run};
pub use laws::{
    folders_pack_back, kept_notes_render_same, kits_read_back, remade_banks_render_same,
    saved_scripts_lead, saved_undo_restores, scripts_distinguish_banks, undo_restores_files,
};
pub use map::map_run;
pub use new::new_run;
pub use plan_presets::{CopiedMember, PresetNumbers};
pub use plan_take::TakenPreset;
pub use planned::{copy_run, keep_notes_run, keep_run, merge_run, take_run, tidy_run};
pub use play::{play_run, play_run_with_progress};
pub use program::{run, run_with_arguments};
pub use program_commands::Zones;
pub use program_reports::{ProgressMeter, Prompted, RunFault, fault_text};
pub use recorded::{import_run, replace_run};
pub use script::{ScriptForm, script_run};
pub use script_of_bank::SamplePoints;
pub use show::{show_details_run, show_run};
pub use show_listing::Details;
pub use wave::{pair_run, wave_run};
pub use wave_file::ReadOptions;
