//! What is measured of the sound of notes, and how it is reported.

use crate::decibels::tenths_of_decibels;
use arrayvec::ArrayVec;
use base_progress::{MixedFrames, StartedNote};
use std::io;
use std::io::Write;

/// The most presets that are named.
const MOST_NAMED: usize = 8;

/// The notes for a preset that start no voice.
#[derive(Clone, Copy, Default)]
struct SilentNotes {
    bank: u16,
    number: u16,
    has_preset: bool,
    count: u64,
}

/// What is measured of the sound of notes.
#[derive(Drop)]
pub(crate) struct SoundReport {
    notes: u64,
    silent: ArrayVec<SilentNotes, MOST_NAMED>,
    // the silent notes of further presets
    others: u64,
    voices: usize,
    loudest: u32,
    clipped: u64,
}

impl SoundReport {
    /// Nothing is measured yet.
    pub(crate) fn new() -> SoundReport {
        SoundReport {
            notes: 0,
            silent: ArrayVec::new(),
            others: 0,
            voices: 0,
            loudest: 0,
            clipped: 0,
        }
    }

    /// Adds a note.
    pub(crate) fn add_note(&mut self, note: StartedNote) {
        self.notes = self.notes.saturating_add(1);
        if note.voices == 0 {
            self.add_silent(note);
        }
    }

    fn add_silent(&mut self, note: StartedNote) {
        for notes in self.silent.as_mut_slice().iter_mut() {
            if notes.bank == note.bank && notes.number == note.number {
                notes.count = notes.count.saturating_add(1);
                return;
            }
        }
        let notes = SilentNotes {
            bank: note.bank,
            number: note.number,
            has_preset: note.has_preset,
            count: 1,
        };
        if self.silent.try_push(notes).is_err() {
            self.others = self.others.saturating_add(1);
        }
    }

    /// Adds frames.
    pub(crate) fn add_frames(&mut self, frames: MixedFrames) {
        self.voices = self.voices.max(frames.voices);
        self.loudest = self.loudest.max(frames.loudest);
        self.clipped = self.clipped.saturating_add(u64::from(frames.clipped));
    }

    /// Writes the report, a line for each finding.
    pub(crate) fn write_to<O: Write>(&self, output: &mut O) -> io::Result<()> {
        self.write_peak(output)?;
        for notes in self.silent.as_slice() {
            write_silent(*notes, output)?;
        }
        if self.others > 0 {
            write!(output, "silent notes: {}, of other presets\n", self.others)?;
        }
        output.flush()
    }

    fn write_peak<O: Write>(&self, output: &mut O) -> io::Result<()> {
        let (notes, voices) = (self.notes, self.voices);
        write!(output, "notes: {notes}, voices at most: {voices}, ")?;
        let Some(peak) = tenths_of_decibels(self.loudest) else {
            return write!(output, "no sound\n");
        };
        let sign = if peak < 0 { "-" } else { "" };
        let tenths = peak.unsigned_abs();
        let clipped = self.clipped;
        write!(
            output,
            "peak: {sign}{}.{} dB, clipped frames: {clipped}\n",
            tenths / 10,
            tenths % 10
        )?;
        if clipped > 0 {
            let attenuation = tenths.saturating_add(1);
            write!(
                output,
                "To prevent clipping, add {attenuation} to generator 48 of each preset, "
            )?;
            write!(output, "as in: set-gen preset 0 global 48 {attenuation}\n")?;
        }
        Ok(())
    }
}

// Writes why notes for a preset are silent.
fn write_silent<O: Write>(notes: SilentNotes, output: &mut O) -> io::Result<()> {
    let SilentNotes {
        bank,
        number,
        has_preset,
        count,
    } = notes;
    let reason = if has_preset {
        "which has no zone for their keys and velocities"
    } else {
        "which the bank doesn't have"
    };
    write!(
        output,
        "silent notes: {count}, of preset {bank}:{number}, {reason}\n"
    )
}
