//! The plan that keeps what notes play.
ghost use Rattle.std.specs.Prelude.{◌≡◌, true, map, IfOk};
ghost use Rattle.plan_edits.specs.Keeping.{HaveSameNumbers};
ghost use Rattle.plan_edits.specs.Playing.{preset_of, HaveLikeNotes, HaveSameVoices, OnlyPlayedIsLeft, IsKeepingPlayed};

use crate::distinct_notes::distinct;
use crate::fault::PlanFault;
use crate::plan::Plan;
use crate::presets::{are_kept, remove_other_presets};
use crate::same_voices::{have_points_of, have_same_voices};
use crate::selected_zones::selected_zones;
use crate::unselected::{has_no_unselected, remove_unselected, used_by};
use crate::unused::remove_unused;
use crate::uses::has_no_unused;
use bank_core::Bank;
use edit_drafts::Draft;
use edit_forms::Edit;
use plan_presets::PresetNumbers;
use script_notes::Note;
use sf_base::OutOfMemory;
use std::alloc::Global;
use std::collections::BTreeSet;

/// Removes what a list of notes doesn't use: the presets that none of them plays, the zones of presets and instruments
/// that none of them selects, then the instruments and samples that no zone uses, with the links to these.
///
/// The notes render as before, also with other starts and lengths.
#[derive(Drop, Clone, Copy)]
pub struct KeepPlayed<'k> {
    pub notes: &'k [Note],
}

impl<'a> Plan<'a> for KeepPlayed<'_> {
    ghost promise = { λ keep. IsKeepingPlayed keep.notes.now };

    fn edits(&self, alloc: Global, bank: &Bank<'a>) -> Result<Vec<Edit<'a>>, PlanFault> {
        keep_played_edits(alloc, bank, self.notes)
    }
}

fn keep_played_edits<'a>(
    alloc: Global,
    bank: &Bank<'a>,
    notes: &[Note],
) -> Result<Vec<Edit<'a>>, PlanFault>
    ensures { IfOk result (λ edits. IsKeepingPlayed notes.now bank.now edits.items) }
{
    let presets = presets_of(alloc, notes)?;
    let played = distinct(alloc, notes)?;
    let selected = selected_zones(alloc, bank, played.as_slice())?;
    let samples = used_by(alloc, bank, &selected)?;
    let mut draft = Draft::new(alloc, bank)?;
    remove_unselected(alloc, &mut draft, &presets, &selected)?;
    remove_other_presets(alloc, &mut draft, &presets)?;
    remove_unused(alloc, &mut draft)?;
    let (played, samples) = (played.as_slice(), samples.as_slice());
    if !is_all_that_is_left(alloc, bank, draft.bank(), notes, played, &presets, samples)? {
        return Err(PlanFault::Defect);
    }
    Ok(draft.into_edits())
}

// The presets of notes.
fn presets_of(alloc: Global, notes: &[Note]) -> Result<BTreeSet<PresetNumbers>, OutOfMemory>
    ensures { IfOk result (λ set. HaveSameNumbers set.keys (map preset_of notes.now)) }
{
    let presets: BTreeSet<PresetNumbers> = notes.iter().map(|note| preset_of(note)).collect(alloc)?;
    Ok(presets)
}

fn preset_of(note: &Note) -> PresetNumbers
    ensures { result ≡ preset_of note.now }
{
    PresetNumbers {
        bank: note.bank(),
        number: note.number(),
    }
}

// Whether what the notes play is left in the second bank, and nothing else. `played` has each of the notes once.
fn is_all_that_is_left(
    alloc: Global,
    from: &Bank<'_>,
    to: &Bank<'_>,
    notes: &[Note],
    played: &[Note],
    presets: &BTreeSet<PresetNumbers>,
    samples: &[u32],
) -> Result<bool, OutOfMemory>
    requires presets { HaveSameNumbers presets.now.keys (map preset_of notes.now) }
    requires played { HaveLikeNotes played.now notes.now }
    ensures { IfOk result (λ is. is ≡ true → OnlyPlayedIsLeft notes.now from.now to.now) }
{
    if !are_kept(to, presets) || !is_played_alike(from, to, played, samples) {
        return Ok(false);
    }
    Ok(has_no_unselected(alloc, to, played)? && has_no_unused(alloc, to)?)
}

// Whether the notes have the same voices in both banks. `samples` has, for each sample of the second bank, its number
// in the first.
fn is_played_alike(from: &Bank<'_>, to: &Bank<'_>, notes: &[Note], samples: &[u32]) -> bool
    ensures { result ≡ true → HaveSameVoices notes.now from.now to.now }
{
    have_points_of(samples, from.samples(), to.samples())
        && have_same_voices(from, to, samples, notes)
}
