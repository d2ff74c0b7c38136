//! Tests of the frames of single voices, from parameters.
ghost use Rattle.std.specs.Prelude.{◌≡◌, ◌≤◌, ◌*◌, ◌%◌, length};
ghost use Rattle.voices.specs.Within.{AllWithin};

use sample_view::Points;
use std::alloc::Global;
use std::test::Fail;
use voices::{Voice, Workspace};
use zone_select::VoiceParameters;

/// The points 1000, 2000 and -2000.
const THREE: [u8; 6] = [0xe8, 0x03, 0xd0, 0x07, 0x30, 0xf8];

// A voice of `end` points at their own pitch, for `length` frames, without loop and envelope.
fn plain(end: u32, length: u32) -> VoiceParameters {
    VoiceParameters {
        start: 0,
        end,
        loop_start: 0,
        loop_end: 0,
        looped: false,
        until_release: false,
        phase_increment: 65536,
        delay: 0,
        attack: 0,
        hold: 0,
        decay: 0,
        release: 0,
        sustain: 0,
        attenuation: 0,
        pan: 0,
        length,
        class: 0,
    }
}

// A voice of the three points, looped from the second on, a fifth above their pitch.
fn looped() -> VoiceParameters {
    let mut parameters = plain(3, 8);
    parameters.loop_start = 1;
    parameters.loop_end = 3;
    parameters.looped = true;
    parameters.phase_increment = 98193;
    parameters
}

// The voice over these points; `None` if a parameter is out of its range.
fn voice_of<'a>(points: Points<'a>, parameters: VoiceParameters) -> Option<Voice<'a>> {
    let p = parameters;
    if p.end as usize > points.len()
        || p.phase_increment > 73_043_661
        || p.pan < -500
        || p.pan > 500
    {
        return None;
    }
    if p.looped && (p.loop_start >= p.loop_end || p.loop_end > p.end) {
        return None;
    }
    Some(Voice::of(points, parameters))
}

// The voice over the points in these bytes; `None` if a parameter is out of its range.
fn voice_over<'a>(
    alloc: Global,
    points: &'a [u8],
    parameters: VoiceParameters,
) -> Result<Option<Voice<'a>>, Fail> {
    Ok(voice_of(Points::of_slice(alloc, points)?, parameters))
}

// Whether these are the next frames.
fn plays(voice: &mut Voice, frames: &[(i32, i32)]) -> bool {
    for frame in frames {
        let (left, right) = voice.next_frame();
        if left != frame.0 || right != frame.1 {
            return false;
        }
    }
    true
}

// Whether the voice ends exactly after these frames and is silent from then on.
fn ends_after(voice: &mut Voice, frames: &[(i32, i32)]) -> bool {
    for frame in frames {
        if voice.done() {
            return false;
        }
        let (left, right) = voice.next_frame();
        if left != frame.0 || right != frame.1 {
            return false;
        }
    }
    voice.done() && plays(voice, &[(0, 0), (0, 0)]) && voice.done()
}

// Sums of silence.
fn silence<const N: usize>() -> [i32; N]
    ensures room { AllWithin 65534 result }
    ensures length { length result ≡ N }
{
    [0; N]
}

// Adds the next frames to the sums unless the voice has ended.
fn add(voice: &mut Voice, sums: &mut [i32])
    requires even { length sums.old % 2 ≡ 0 }
    requires short { length sums.old ≤ 65536 }
    requires room { AllWithin 65534 sums.old }
{
    if !voice.done() {
        voice.add_frames(&mut Workspace::new(), sums);
    }
}

// As `add`, but adds a voice panned to the middle once, to `middle`.
fn add_apart(voice: &mut Voice, sums: &mut [i32], middle: &mut [i32])
    requires sums { length sums.old ≡ 2 * length middle.old }
    requires short { length middle.old ≤ 1024 }
    requires room { AllWithin 65534 sums.old }
    requires middle { AllWithin 65534 middle.old }
{
    if !voice.done() {
        voice.add_frames_apart(&mut Workspace::new(), sums, middle);
    }
}

// The left and the right sum of a frame.
fn frame_of(sums: &[i32], frame: usize) -> Option<(i32, i32)> {
    if frame < sums.len() / 2 {
        Some((sums[2 * frame], sums[2 * frame + 1]))
    } else {
        None
    }
}

// Whether the sums are these frames, equal on both sides.
fn holds(sums: &[i32], frames: &[i32]) -> bool {
    if sums.len() / 2 != frames.len() {
        return false;
    }
    for frame in 0..frames.len() {
        let side = frames[frame];
        if sums[2 * frame] != side || sums[2 * frame + 1] != side {
            return false;
        }
    }
    true
}

#[test]
fn a_loop_goes_round(rt: HostRuntime) -> Result<(), Fail> {
    let mut voice = voice_over(rt.alloc(), &THREE, looped())?.expect(&rt, "a voice");
    let frames = [500, 3, 993, -11, -987, 16, 979, -24].map(|side| (side, side));
    assert!(rt; ends_after(&mut voice, &frames));
    Ok(())
}

#[test]
fn a_run_is_split_anywhere(rt: HostRuntime) -> Result<(), Fail> {
    let mut voice = voice_over(rt.alloc(), &THREE, looped())?.expect(&rt, "a voice");
    let mut front: [i32; 6] = silence();
    add(&mut voice, &mut front);
    assert!(rt; front == [500, 500, 3, 3, 993, 993]);
    let mut back: [i32; 12] = silence();
    add(&mut voice, &mut back);
    assert!(rt; back == [-11, -11, -987, -987, 16, 16, 979, 979, -24, -24, 0, 0]);
    assert!(rt; voice.done());
    Ok(())
}

#[test]
fn a_voice_in_the_middle_is_added_once(rt: HostRuntime) -> Result<(), Fail> {
    for pan in [0, 500] {
        let mut parameters = looped();
        parameters.pan = pan;
        let mut voice = voice_over(rt.alloc(), &THREE, parameters)?.expect(&rt, "a voice");
        let mut sums: [i32; 8] = silence();
        let mut middle: [i32; 4] = silence();
        add_apart(&mut voice, &mut sums, &mut middle);
        let once = sums == [0; 8] && middle == [500, 3, 993, -11];
        let apart = sums == [0, 1000, 0, 6, 0, 1986, 0, -21] && middle == [0; 4];
        assert!(rt; if pan == 0 { once } else { apart });
    }
    Ok(())
}

#[test]
fn an_attack_and_a_release_on_the_right(rt: HostRuntime) -> Result<(), Fail> {
    let mut parameters = plain(1, 50);
    parameters.loop_end = 1;
    parameters.looped = true;
    parameters.attack = 43;
    parameters.release = 43;
    parameters.pan = 500;
    let mut voice = voice_over(rt.alloc(), &THREE[..2], parameters)?.expect(&rt, "a voice");
    let mut sums: [i32; 186] = silence();
    add(&mut voice, &mut sums);
    assert!(rt; voice.done());
    let chosen_frames = [0, 1, 42, 43, 50, 71, 92].map(|frame| frame_of(&sums, frame));
    let right = [0, 23, 976, 1000, 1000, 4, 0];
    assert!(rt; chosen_frames == right.map(|side| Some((0, side))));
    Ok(())
}

#[test]
fn a_loop_until_release(rt: HostRuntime) -> Result<(), Fail> {
    let bytes = [0xe8, 0x03, 0xd0, 0x07, 0x30, 0xf8, 0xb8, 0x0b, 0x00, 0x80];
    let mut parameters = plain(5, 6);
    parameters.loop_start = 1;
    parameters.loop_end = 3;
    parameters.looped = true;
    parameters.until_release = true;
    parameters.phase_increment = 49152;
    parameters.release = 1000;
    parameters.attenuation = 60;
    parameters.pan = -250;
    let mut voice = voice_over(rt.alloc(), &bytes, parameters)?.expect(&rt, "a voice");
    let held = [
        (375, 125),
        (656, 218),
        (0, 0),
        (-375, -125),
        (750, 250),
        (-375, -125),
    ];
    assert!(rt; plays(&mut voice, &held));
    let rest = [(187, 62), (-2229, -743), (-12150, -4050), (-3003, -1001)];
    assert!(rt; ends_after(&mut voice, &rest));
    Ok(())
}

// A voice over seven points in three slices; `None` if they cannot be joined.
fn over_three_slices(alloc: Global) -> Result<Option<Voice<'static>>, Fail> {
    let mut points = Points::of_slice(alloc, &[0xb8, 0x0b, 0x60, 0xf0, 0x88, 0x13])?;
    let front = Points::of_slice(alloc, &[0xe8, 0x03, 0xd0, 0x07])?;
    let back = Points::of_slice(alloc, &[0x70, 0x17, 0xa8, 0xe4])?;
    if points.len() != 3
        || front.len() != 2
        || back.len() != 2
        || points.join(front, back).is_err()
    {
        return Ok(None);
    }
    let mut parameters = plain(7, 20);
    parameters.phase_increment = 40000;
    Ok(voice_of(points, parameters))
}

#[test]
fn a_voice_over_three_slices(rt: HostRuntime) -> Result<(), Fail> {
    let frames = [
        500, 805, 1110, 1415, -45, -1768, 979, 2636, 2941, -206, -3138, -1002,
    ];
    let mut voice = over_three_slices(rt.alloc())?.expect(&rt, "a voice");
    assert!(rt; ends_after(&mut voice, &frames.map(|side| (side, side))));
    let mut voice = over_three_slices(rt.alloc())?.expect(&rt, "a voice");
    let mut sums: [i32; 24] = silence();
    add(&mut voice, &mut sums);
    assert!(rt; voice.done() && holds(&sums, &frames));
    Ok(())
}

#[test]
fn each_phase_of_an_envelope(rt: HostRuntime) -> Result<(), Fail> {
    let mut parameters = plain(1, 16);
    parameters.loop_end = 1;
    parameters.looped = true;
    parameters.delay = 2;
    parameters.attack = 4;
    parameters.hold = 2;
    parameters.decay = 8;
    parameters.release = 8;
    parameters.sustain = 300;
    parameters.attenuation = 30;
    let frames = [
        0, 0, 0, 2651, 5303, 7954, 10606, 10606, 10606, 2651, 662, 331, 331, 331, 331, 331, 331,
        82, 20, 4, 1, 0, 0, 0,
    ];
    let mut voice = voice_over(rt.alloc(), &[0x30, 0x75], parameters)?.expect(&rt, "a voice");
    let mut sums: [i32; 48] = silence();
    add(&mut voice, &mut sums);
    assert!(rt; voice.done());
    assert!(rt; holds(&sums, &frames));
    Ok(())
}
