//! Renders notes on a bank as a WAVE file.
ghost use Rattle.std.specs.Prelude.{IfOk};
ghost use Rattle.mixer.specs.Render.{IsRendered};
ghost use Rattle.wave_file.specs.Wave.{wave};
ghost use Rattle.sfbank.specs.Outcome.{play_outcome, CanonRendersSame};
ghost use Rattle.sfbank.specs.Written.{Prepared, RunsOneText};

use crate::reading::read_bank;
use crate::writing::write_one;
use base_progress::{NoReports, Progress};
use file_host::Which;
use mixer::render_with_progress;
use program_reports::RunFault;
use script_notes::parse_notes;
use std::alloc::Global;
use std::io::Write;
use wave_file::WaveFile;

/// Reads the file and the note list, renders the notes on the bank, writes the frames as a WAVE file to `out`, and
/// flushes `out`.
///
/// Where the file or the note list has a fault or an allocation fails, nothing is written. A fault of the writer
/// (`Which::Out`) has the number of bytes written.
pub fn play_run<W: Write>(
    alloc: Global,
    file: &[u8],
    notes: &[u8],
    out: &mut W,
) -> Result<(), RunFault>
    // The outcome is the fault of the file, else of the notes, else the WAVE file.
    ensures runs { RunsOneText (W.contents out.old) (W.contents out.new) (play_outcome file.now notes.now) result }
    // It is the same for the canonical file of the bank.
    ensures canon { CanonRendersSame file.now notes.now }
{
    play_run_with_progress(alloc, file, notes, out, &mut NoReports)
}

/// Does what `play_run` does, and reports to `base_progress` as frames are rendered.
pub fn play_run_with_progress<W: Write, P: Progress>(
    alloc: Global,
    file: &[u8],
    notes: &[u8],
    out: &mut W,
    progress: &mut P,
) -> Result<(), RunFault>
    // The outcome is the fault of the file, else of the notes, else the WAVE file.
    ensures runs { RunsOneText (W.contents out.old) (W.contents out.new) (play_outcome file.now notes.now) result }
    // It is the same for the canonical file of the bank.
    ensures canon { CanonRendersSame file.now notes.now }
{
    match render_notes(alloc, file, notes, progress) {
        Ok(frames) => write_one(Which::Out, &WaveFile::new(frames.as_slice()), out),
        Err(fault) => Err(fault),
    }
}

/// Reads a file as a bank, and renders notes on it: left and right samples in turn.
pub(crate) fn render_notes<P: Progress>(
    alloc: Global,
    file: &[u8],
    notes: &[u8],
    progress: &mut P,
) -> Result<Vec<i16>, RunFault>
    ensures outcome { Prepared (λ frames. wave frames.items) (play_outcome file.now notes.now) result }
    ensures fits { IfOk result (λ frames. IsRendered frames.items) }
{
    match read_bank(alloc, file) {
        Ok((bank, _counts)) => {
            let notes = parse_notes(alloc, notes)?;
            Ok(render_with_progress(alloc, &bank, notes.as_slice(), progress)?)
        }
        Err(fault) => Err(fault),
    }
}
