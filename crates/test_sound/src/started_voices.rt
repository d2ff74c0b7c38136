//! Tests of `Voice::start` and `params`, on banks made by scripts.

use crate::players::{Action, TEN, edits};
use script_notes::Note;
use sf_reader::read;
use sfbank::edit_run;
use std::alloc::Global;
use std::test::Fail;
use test_inputs::{empty, tone};
use voices::{Voice, VoiceFault};
use zone_select::params;

/// A sample of the points 1000, 2000 and -2000, looped from the second on; below, one of one point.
pub(crate) const THREE: &[u8] = b"add-sample 0 \"t\" 44100 60 0 mono loop 1 3 xe803d00730f8\n";

const ONE: &[u8] = b"add-sample 0 \"c\" 44100 60 0 mono loop 0 1 xe803\n";

/// An instrument of the sample of one point, with a release of 43 frames.
const RELEASED: &[u8] = b"add-inst 0 \"i\" { 0 g 17 500 g 34 -11999 g 38 -11999 g 54 1 }\n";

const PRESET: &[u8] = b"add-preset 0 \"p\" 0 0 0 0 0 { 0 }\n";

/// The frames of a voice.
type Frames<'a> = &'a [(i32, i32)];

/// The file of the bank that a script makes from the empty bank.
pub(crate) fn made(alloc: Global, script: &[u8]) -> Result<Vec<u8>, Fail> {
    let mut out = Vec::new(alloc);
    let mut undo = Vec::new(alloc);
    edit_run(alloc, empty().bytes(), script, &mut out, &mut undo)?;
    Ok(out)
}

/// The file of a bank with a sample, an instrument and preset 0 of bank 0.
pub(crate) fn file_of(alloc: Global, sample: &[u8], instrument: &[u8]) -> Result<Vec<u8>, Fail> {
    let mut script = Vec::from_slice(alloc, sample)?;
    script.extend_from_slice(instrument)?;
    script.extend_from_slice(PRESET)?;
    made(alloc, script.as_slice())
}

// The voice of the pair of the first zones. The bank is dropped after the start.
fn started<'a>(alloc: Global, file: &'a [u8], note: &Note) -> Result<Voice<'a>, Fail> {
    let (bank, _counts) = read(alloc, file)?;
    Ok(Voice::start(alloc, &bank, note, (0, 0))?)
}

// All frames of a voice, read one by one, at most 1000.
fn frames_of(alloc: Global, mut voice: Voice<'_>) -> Result<Vec<(i32, i32)>, Fail> {
    let mut frames = Vec::new(alloc);
    for _ in 0..1000 {
        if voice.done() {
            return Ok(frames);
        }
        frames.push(voice.next_frame())?;
    }
    Ok(frames)
}

/// Instruments of the sample of three points, length and key of a note, and its frames. A voice panned to one side has
/// its values before panning there.
const PLAYED: [(&[u8], (u32, u8), Frames<'static>); 7] = [
    (
        b"add-inst 0 \"i\" { 0 g 54 1 }\n",
        (8, 67),
        &[
            (500, 500),
            (3, 3),
            (993, 993),
            (-11, -11),
            (-987, -987),
            (16, 16),
            (979, 979),
            (-24, -24),
        ],
    ),
    (
        b"add-inst 0 \"i\" { 0 g 17 -500 g 54 1 }\n",
        (8, 67),
        &[
            (1000, 0),
            (6, 0),
            (1986, 0),
            (-21, 0),
            (-1973, 0),
            (33, 0),
            (1959, 0),
            (-48, 0),
        ],
    ),
    (
        b"add-inst 0 \"i\" { 0 g 17 500 g 54 1 }\n",
        (8, 67),
        &[
            (0, 1000),
            (0, 6),
            (0, 1986),
            (0, -21),
            (0, -1973),
            (0, 33),
            (0, 1959),
            (0, -48),
        ],
    ),
    (
        b"add-inst 0 \"i\" { 0 g 54 1 m 2 17 500 0 0 }\n",
        (8, 67),
        &[
            (4, 996),
            (0, 5),
            (7, 1978),
            (-1, -21),
            (-8, -1966),
            (0, 32),
            (7, 1951),
            (-1, -48),
        ],
    ),
    (
        b"add-inst 0 \"i\" { 0 g 54 1 m 3 52 128 0 0 }\n",
        (2, 60),
        &[(500, 500), (928, 928)],
    ),
    (
        b"add-inst 0 \"i\" { 0 g 54 3 g 38 -11999 }\n",
        (3, 60),
        &[
            (500, 500),
            (1000, 1000),
            (-1000, -1000),
            (1000, 1000),
            (-776, -776),
        ],
    ),
    (b"add-inst 0 \"i\" { 0 }\n", (0, 60), &[]),
];

#[test]
fn frames_of_started_voices(rt: HostRuntime) -> Result<(), Fail> {
    for (instrument, sound, frames) in PLAYED {
        let file = file_of(rt.alloc(), THREE, instrument)?;
        let note = Note::new(0, sound.0, 0, 0, sound.1, 127).expect(&rt, "a note");
        let voice = started(rt.alloc(), file.as_slice(), &note)?;
        let found = frames_of(rt.alloc(), voice)?;
        assert!(rt; found.as_slice() == frames);
    }
    Ok(())
}

/// Instruments of the sample of one point, panned to the right: length of a note, number of its frames if known,
/// the highest value on the right, and the right values of some frames.
const ON_THE_RIGHT: [(&[u8], u32, Option<usize>, i32, &[(usize, i32)]); 3] = [
    // An attack and a release.
    (
        RELEASED,
        50,
        Some(93),
        1000,
        &[
            (0, 0),
            (1, 23),
            (42, 976),
            (43, 1000),
            (50, 1000),
            (71, 4),
            (92, 0),
        ],
    ),
    // A note of length 0 plays its release.
    (RELEASED, 0, Some(43), 0, &[]),
    // A decay to a sustain.
    (
        b"add-inst 0 \"i\" { 0 g 17 500 g 34 -11999 g 36 -11999 g 37 60 g 38 -11999 g 54 1 }\n",
        50,
        None,
        1000,
        &[
            (43, 1000),
            (44, 775),
            (45, 601),
            (46, 500),
            (50, 500),
            (71, 2),
        ],
    ),
];

#[test]
fn envelopes_on_the_right(rt: HostRuntime) -> Result<(), Fail> {
    for (instrument, length, count, loudest, sides) in ON_THE_RIGHT {
        let file = file_of(rt.alloc(), ONE, instrument)?;
        let note = Note::new(0, length, 0, 0, 60, 127).expect(&rt, "a note");
        let frames = frames_of(rt.alloc(), started(rt.alloc(), file.as_slice(), &note)?)?;
        assert!(rt; count.is_none_or(|count| frames.len() == count));
        let within = |frame: &(i32, i32)| frame.0 == 0 && frame.1 >= 0 && frame.1 <= loudest;
        assert!(rt; frames.iter().all(within));
        for (frame, right) in sides {
            assert!(rt; frames.get(*frame) == Some(&(0, *right)), "frame {frame}");
        }
    }
    Ok(())
}

#[test]
fn the_later_modulator_and_the_class(rt: HostRuntime) -> Result<(), Fail> {
    let instrument = b"add-inst 0 \"i\" { 0 g 54 1 g 57 1 m 2 17 500 0 0 m 2 17 250 0 2 }\n";
    let file = file_of(rt.alloc(), THREE, instrument)?;
    let (bank, _counts) = read(rt.alloc(), file.as_slice())?;
    let note = Note::new(0, 8, 0, 0, 67, 127).expect(&rt, "a note");
    let played = params(&bank, &note, (0, 0));
    assert!(rt; played.map(|played| (played.sample, played.mode)) == Some((0, 1)));
    assert!(rt; played.map(|played| (played.voice.pan, played.voice.class)) == Some((248, 1)));
    Ok(())
}

// The second sample, which the zone targets, has three points; the mode is the low two bits of 7.
#[test]
fn the_sample_and_the_mode_of_a_pair(rt: HostRuntime) -> Result<(), Fail> {
    let mut samples = Vec::from_slice(rt.alloc(), THREE)?;
    samples.extend_from_slice(ONE)?;
    let instrument = b"add-inst 0 \"i\" { 1 g 54 7 }\n";
    let file = file_of(rt.alloc(), samples.as_slice(), instrument)?;
    let (bank, _counts) = read(rt.alloc(), file.as_slice())?;
    let note = Note::new(0, 8, 0, 0, 60, 127).expect(&rt, "a note");
    let played = params(&bank, &note, (0, 0));
    assert!(rt;
        played.map(|played| (played.sample, played.mode, played.voice.end)) == Some((1, 3, 3))
    );
    assert!(rt; params(&bank, &note, (0, 1)).is_none());
    Ok(())
}

// Whether starting a voice of `tone` is refused because the pair does not exist.
fn is_refused(alloc: Global, pair: (u32, u32)) -> Result<bool, Fail> {
    let file = tone();
    let (bank, _counts) = read(alloc, file.bytes())?;
    Ok(match Note::new(0, 8, 0, 0, 67, 127) {
        Some(note) => matches!(
            Voice::start(alloc, &bank, &note, pair),
            Err(VoiceFault::NoMatch)
        ),
        None => false,
    })
}

#[test]
fn no_such_pair(rt: HostRuntime) -> Result<(), Fail> {
    assert!(rt; is_refused(rt.alloc(), (0, 1))? && is_refused(rt.alloc(), (1, 0))?);
    assert!(rt; !is_refused(rt.alloc(), (0, 0))?);
    Ok(())
}

// The frames of a voice over a sample whose points are in three slices.
fn frames_over_three_slices(alloc: Global) -> Result<Vec<(i32, i32)>, Fail> {
    let file = file_of(alloc, TEN, b"add-inst 0 \"i\" { 0 }\n")?;
    let (mut bank, _counts) = read(alloc, file.as_slice())?;
    if !edits(alloc, &mut bank, Action::Extend)? {
        return Ok(Vec::new(alloc));
    }
    match Note::new(0, 12, 0, 0, 60, 127) {
        Some(note) => frames_of(alloc, Voice::start(alloc, &bank, &note, (0, 0))?),
        None => Ok(Vec::new(alloc)),
    }
}

#[test]
fn a_sample_over_three_slices(rt: HostRuntime) -> Result<(), Fail> {
    let left = [5, 0, 1, 1, 2, 2, 3, 3, 4, 4, 5, 6];
    let expected = left.map(|side| (side, side));
    assert!(rt; frames_over_three_slices(rt.alloc())?.as_slice() == expected.as_slice());
    Ok(())
}
