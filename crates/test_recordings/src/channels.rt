//! Tests of the points of channels.
ghost use Rattle.std.specs.Prelude.{◌<◌};

use pcm_points::{SampleEncoding, channel_points, dither_is_near, narrow_samples_stay};
use std::alloc::Global;

/// Two frames of three channels of 24 bits, and half a frame.
const FRAMES: [u8; 22] = [
    0, 1, 0, 0, 2, 0, 0, 3, 0, 0, 0xff, 0xff, 0x80, 0xfe, 0xff, 0, 0xfd, 0xff, 9, 9, 9, 9,
];

/// Eight frames of two channels of 24 bits.
const WIDE_FRAMES: [u8; 48] = [
    0x80, 0, 0, 0, 0, 0, 0x80, 0, 0, 0, 0, 0, 0x80, 0, 0, 0, 0, 0, 0x80, 0, 0, 0x80, 0xff, 0xff,
    0xff, 0xff, 0x7f, 0x80, 0xff, 0xff, 0xff, 0xff, 0x7f, 0x56, 0x34, 0x12, 0, 0, 0x80, 0xaa, 0xcb,
    0xed, 0, 0, 0x80, 0xff, 0xff, 0x7f,
];

/// Their points with the dither of the seed 2026, by a program of another language.
const DITHERED: [[i16; 8]; 2] = [
    [1, 1, 0, 0, 32767, 32767, -32768, -32768],
    [0, 1, 0, -1, 0, 4661, -4660, 32767],
];

/// Whether the points of this channel of three are these bytes.
fn are_points(
    alloc: Global,
    bytes: &[u8],
    encoding: SampleEncoding,
    channel: usize,
    expected: &[u8],
) -> bool
    requires { channel < 3 }
{
    match channel_points(alloc, bytes, encoding, 3, channel, None) {
        Ok(points) => points.as_slice() == expected,
        Err(_) => false,
    }
}

#[test]
fn each_channel(rt: HostRuntime) {
    let encoding = SampleEncoding::Signed24;
    assert!(rt; are_points(rt.alloc(), &FRAMES, encoding, 0, &[1, 0, 0xff, 0xff]));
    assert!(rt; are_points(rt.alloc(), &FRAMES, encoding, 1, &[2, 0, 0xfe, 0xff]));
    assert!(rt; are_points(rt.alloc(), &FRAMES, encoding, 2, &[3, 0, 0xfd, 0xff]));
}

#[test]
fn no_frame(rt: HostRuntime) {
    assert!(rt; are_points(rt.alloc(), &[1, 2], SampleEncoding::Unsigned8, 0, &[]));
    assert!(rt; are_points(rt.alloc(), &[], SampleEncoding::Float32, 2, &[]));
}

/// Whether the points of this channel of two, with the dither of the seed 2026, are these.
fn are_dithered(
    alloc: Global,
    bytes: &[u8],
    encoding: SampleEncoding,
    channel: usize,
    expected: [i16; 8],
) -> bool
    requires { channel < 2 }
{
    match channel_points(alloc, bytes, encoding, 2, channel, Some(2026)) {
        Ok(points) => {
            points.len() == 16
                && (0..8).all(|i| {
                    i16::from_le_bytes([points[2 * i], points[2 * i + 1]]) == expected[i]
                })
        }
        Err(_) => false,
    }
}

#[test]
fn dithered(rt: HostRuntime) {
    let encoding = SampleEncoding::Signed24;
    assert!(rt; are_dithered(rt.alloc(), &WIDE_FRAMES, encoding, 0, DITHERED[0]));
    assert!(rt; are_dithered(rt.alloc(), &WIDE_FRAMES, encoding, 1, DITHERED[1]));
    dither_is_near();
    narrow_samples_stay();
}
