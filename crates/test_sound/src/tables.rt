//! Tests of values of the sound tables.

use sound_tables::{frames, gain, pitch, step, velatt};

#[test]
fn ratios_of_intervals(rt: HostRuntime) {
    let ends = [pitch(-5), pitch(0), pitch(1200), pitch(5000)];
    assert!(rt; ends == [65536, 65536, 131_072, 131_072]);
    let between = [pitch(50), pitch(699), pitch(700), pitch(1199)];
    assert!(rt; between == [67484, 98137, 98193, 130_998]);
}

#[test]
fn gains_of_attenuations(rt: HostRuntime) {
    let gains = [gain(0), gain(6), gain(60), gain(959), gain(960)];
    assert!(rt; gains == [65536, 61163, 32768, 1, 0]);
    let ends = [gain(i64::MIN), gain(-1), gain(961), gain(i64::MAX)];
    assert!(rt; ends == [65536, 65536, 0, 0]);
}

#[test]
fn frames_of_times(rt: HostRuntime) {
    let expected = [
        frames(-12000),
        frames(-11999),
        frames(-1200),
        frames(0),
        frames(8000),
    ];
    assert!(rt; expected == [0, 43, 22050, 44100, 4_480_284]);
    let ends = [frames(i64::MIN), frames(8001), frames(i64::MAX)];
    assert!(rt; ends == [0, 4_480_284, 4_480_284]);
}

#[test]
fn attenuations_of_velocities(rt: HostRuntime) {
    let expected = [velatt(127), velatt(64), velatt(0), velatt(255)];
    assert!(rt; expected == [0, 119, 960, 0]);
}

#[test]
fn steps_of_intervals(rt: HostRuntime) {
    let expected = [step(700, 44100), step(0, 44100), step(-14400, 400)];
    assert!(rt; expected == [98193, 65536, 0]);
    let octaves = [step(-1200, 44100), step(1200, 44100), step(0, 22050)];
    assert!(rt; octaves == [32768, 131_072, 32768]);
    let ends = [step(i64::MIN, 0), step(0, 0), step(i64::MAX, u32::MAX)];
    assert!(rt; ends == [0, 594, 73_043_661]);
}
