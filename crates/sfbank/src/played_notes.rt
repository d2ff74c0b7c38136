//! A bank, and the notes that are played on it.
ghost use Rattle.std.specs.Prelude.{◌≡◌, IfOk};
ghost use Rattle.script_notes.specs.Notes.{notes_of};
ghost use Rattle.sfbank.specs.Purposes.{notes_read, presets_of};
ghost use Rattle.sfbank.specs.Steps.{ReadsNotes};
ghost use Rattle.sfbank.specs.Written.{Prepared};

use crate::reading::read_bank;
use bank_core::Bank;
use plan_edits::PresetNumbers;
use program_reports::RunFault;
use script_notes::{Note, parse_notes};
use std::alloc::{AllocError, Global};

/// Reads a file as a bank, and a text as notes to be kept.
pub(crate) fn read_to_keep<'a>(
    alloc: Global,
    file: &'a [u8],
    text: &[u8],
) -> Result<(Bank<'a>, Vec<Note>), RunFault>
    ensures { ReadsNotes (λ both. both.0) (λ both. both.1.items) file.now text.now result }
{
    match read_bank(alloc, file) {
        Ok((bank, _counts)) => match read_notes(alloc, text) {
            Ok(notes) => Ok((bank, notes)),
            Err(fault) => Err(fault),
        },
        Err(fault) => Err(fault),
    }
}

fn read_notes(alloc: Global, text: &[u8]) -> Result<Vec<Note>, RunFault>
    ensures { Prepared (λ notes. notes.items) (notes_read (notes_of text.now)) result }
{
    let notes = parse_notes(alloc, text)?;
    Ok(notes)
}

/// The numbers of the presets that notes play, in the order of the notes.
pub(crate) fn presets_of(alloc: Global, notes: &[Note]) -> Result<Vec<PresetNumbers>, AllocError>
    ensures { IfOk result (λ presets. presets.items ≡ presets_of notes.now) }
{
    let mut presets = Vec::new(alloc);
    for note in notes {
        presets.push(numbers_of(note))?;
    }
    Ok(presets)
}

// The numbers of the preset that a note plays.
fn numbers_of(note: &Note) -> PresetNumbers
    ensures { result ≡ record { bank = note.now.bank; number = note.now.number } }
{
    PresetNumbers {
        bank: note.bank(),
        number: note.number(),
    }
}
