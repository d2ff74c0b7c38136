//! Counts the frames of all voices of a note list.

use bank_core::Bank;
use script_notes::{Note, parse_notes};
use sf_reader::read;
use std::alloc::Global;
use std::io;
use voices::Voice;
use zone_select::matches;

/// The number of frames of all voices of the notes on a file's bank, each counted to its end. Exclusive classes, which
/// may silence a voice earlier, are ignored.
pub(crate) fn voice_frames(alloc: Global, file: &[u8], notes: &[u8]) -> io::Result<u64> {
    let Ok((bank, _counts)) = read(alloc, file) else {
        return Err(io::Error::from(io::ErrorKind::InvalidData));
    };
    let Ok(notes) = parse_notes(alloc, notes) else {
        return Err(io::Error::from(io::ErrorKind::InvalidData));
    };
    let mut frames: u64 = 0;
    for note in notes.as_slice() {
        frames = frames.saturating_add(frames_of_note(alloc, &bank, note)?);
    }
    Ok(frames)
}

fn frames_of_note(alloc: Global, bank: &Bank<'_>, note: &Note) -> io::Result<u64> {
    let mut frames: u64 = 0;
    for pair in matches(bank, note) {
        let Ok(mut voice) = Voice::start(alloc, bank, note, pair) else {
            return Err(io::Error::from(io::ErrorKind::OutOfMemory));
        };
        frames = frames.saturating_add(frames_until_end(&mut voice));
    }
    Ok(frames)
}

fn frames_until_end(voice: &mut Voice) -> u64 {
    for frame in 0..u64::MAX {
        if voice.done() {
            return frame;
        }
        let _sides = voice.next_frame();
    }
    u64::MAX
}
