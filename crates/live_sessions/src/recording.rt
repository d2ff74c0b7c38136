//! Writes the notes of a session to a note list.
ghost use Rattle.std.specs.Prelude.{◌≡◌, Ok, OnOk, IfErr, map};
ghost use Rattle.std.specs.Option.{option_map};
ghost use Rattle.file_host.specs.Saving.{SaveFails, Counts};
ghost use Rattle.file_host.specs.World.{with_text};
ghost use Rattle.script_notes.specs.Notes.{notes_of};
ghost use Rattle.script_of_notes.specs.NoteTexts.{notes_text};
ghost use Rattle.live_sessions.specs.FileSaves.{NotesAreApart, FilesAfterRecord, recording_text};
ghost use Rattle.live_sessions.specs.PlayedNotes.{listed};
ghost use Rattle.live_sessions.specs.Performances.{recorded_now};
ghost use Rattle.live_sessions.specs.Steps.{RecordIs};

use crate::live::LiveState;
use crate::played::PlayedNote;
use crate::saving::SessionFiles;
use base_outputs::{Output, OutputFault, WriteFault};
use base_texts::Text;
use file_host::{Host, check_apart, check_no_bank};
use live_lines::{Answer, FilePath};
use script_of_notes::put_note;
use sf_base::Failure;
use std::io::Write;

// The lines of notes. Those that are held end at a frame.
#[derive(Clone, Copy)]
struct NoteLines<'t> {
    notes: &'t [PlayedNote],
    frame: u64,
}

impl Text for NoteLines<'_> {
    ghost bytes = { λ text. notes_text (map (listed text.frame) text.notes.now) };

    fn put<W: Write>(&self, output: &mut Output<'_, W>) {
        for played in self.notes {
            put_note(&played.listed(self.frame), output);
        }
    }
}

/// Writes the notes so far to a note list, unless its path is rejected. The answer has their number.
pub(crate) fn record<'t, H: Host>(
    live: &LiveState<'_>,
    files: SessionFiles<'_>,
    path: FilePath<'t>,
    host: &mut H,
) -> Answer<'t>
    ensures answer { RecordIs live.now path.entry result live.now }
    ensures recorded { FilesAfterRecord files.entry live.now path.entry result (H.world host.old) (H.world host.new) (H.written host.new) }
{
    match check_notes(files, &path, host) {
        Ok(()) => {}
        Err(Failure::Fault(fault)) => return Answer::Rejected { path, fault },
        Err(Failure::OutOfMemory) => return Answer::OutOfMemory,
    }
    match save_notes(live, &path, host) {
        Ok(()) => Answer::Counted(live.performance.played.as_slice().len()),
        Err(Failure::Fault(fault)) => Answer::WriteFault {
            path,
            written: fault.written,
        },
        Err(Failure::OutOfMemory) => Answer::OutOfMemory,
    }
}

// Rejects a note list that would replace the session's bank, the frames or another bank.
fn check_notes<H: Host>(
    files: SessionFiles<'_>,
    path: &FilePath<'_>,
    host: &mut H,
) -> Result<(), Failure<OutputFault>>
    ensures checked { NotesAreApart files.entry path.now (H.world host.old) result }
    ensures stays { H.world host.new ≡ H.world host.old }
{
    check_apart(host, path.text(), &[files.bank, files.pcm])?;
    check_no_bank(host, path.text(), files.force)
}

// Saves the notes so far.
fn save_notes<H: Host>(
    live: &LiveState<'_>,
    path: &FilePath<'_>,
    host: &mut H,
) -> Result<(), Failure<WriteFault>>
    ensures saved { OnOk result (H.world host.new ≡ option_map (with_text path.now (recording_text live.now.performance)) (H.world host.old)) }
    ensures failed { IfErr result (SaveFails (H.world host.old) (H.world host.new) path.now (recording_text live.now.performance)) }
    ensures counted { IfErr result (Counts (H.written host.new)) }
    ensures read { notes_of (recording_text live.now.performance) ≡ Ok (recorded_now live.now.performance) }
{
    let lines = NoteLines {
        notes: live.performance.played.as_slice(),
        frame: live.performance.given,
    };
    host.save(path.text(), &lines)
}
