//! Tests of the points of single samples of each encoding.

use pcm_points::{SampleEncoding, point, points_are_nearest, sixteen_bits_stay};

#[test]
fn eight_bits(rt: HostRuntime) {
    let encoding = SampleEncoding::Unsigned8;
    assert!(rt; encoding.size() == 1);
    let middle = [
        point(encoding, &[127]),
        point(encoding, &[128]),
        point(encoding, &[129]),
    ];
    assert!(rt; middle == [-256, 0, 256]);
    assert!(rt; point(encoding, &[0]) == -32768 && point(encoding, &[255]) == 32512);
}

#[test]
fn sixteen_bits(rt: HostRuntime) {
    let encoding = SampleEncoding::Signed16;
    assert!(rt; encoding.size() == 2);
    assert!(rt; point(encoding, &[0x34, 0x12]) == 0x1234 && point(encoding, &[0xff, 0xff]) == -1);
    assert!(rt; point(encoding, &[0, 0x80]) == -32768 && point(encoding, &[0xff, 0x7f]) == 32767);
    sixteen_bits_stay();
}

#[test]
fn twenty_four_bits(rt: HostRuntime) {
    let encoding = SampleEncoding::Signed24;
    assert!(rt; encoding.size() == 3);
    assert!(rt; point(encoding, &[0x7f, 0, 0]) == 0 && point(encoding, &[0x80, 0, 0]) == 1);
    assert!(rt;
        point(encoding, &[0x81, 0xff, 0xff]) == 0 && point(encoding, &[0x80, 0xff, 0xff]) == -1
    );
    assert!(rt; point(encoding, &[0x7f, 1, 0]) == 1 && point(encoding, &[0x80, 1, 0]) == 2);
    assert!(rt; point(encoding, &[0x80, 0xfe, 0xff]) == -2);
    assert!(rt; point(encoding, &[0xff, 0xff, 0x7f]) == 32767);
    assert!(rt; point(encoding, &[0, 0, 0x80]) == -32768);
    assert!(rt; point(encoding, &[0xaa, 0xcb, 0xed]) == -4660);
}

#[test]
fn thirty_two_bits(rt: HostRuntime) {
    let encoding = SampleEncoding::Signed32;
    assert!(rt; encoding.size() == 4);
    assert!(rt;
        point(encoding, &[0xff, 0x7f, 0, 0]) == 0 && point(encoding, &[0, 0x80, 0, 0]) == 1
    );
    assert!(rt;
        point(encoding, &[1, 0x80, 0xff, 0xff]) == 0
            && point(encoding, &[0, 0x80, 0xff, 0xff]) == -1
    );
    assert!(rt; point(encoding, &[0xff, 0xff, 0xff, 0x7f]) == 32767);
    assert!(rt; point(encoding, &[0, 0, 0, 0x80]) == -32768);
    points_are_nearest();
}

/// The point of a float with these bits.
fn float_point(bits: u32) -> i16 {
    point(SampleEncoding::Float32, &bits.to_le_bytes())
}

#[test]
fn floats(rt: HostRuntime) {
    assert!(rt; SampleEncoding::Float32.size() == 4);
    // 0.5, -0.5; half a point and less; one and a half; two and a half
    assert!(rt; float_point(0x3f00_0000) == 16384 && float_point(0xbf00_0000) == -16384);
    assert!(rt; float_point(0x3780_0000) == 1 && float_point(0xb780_0000) == -1);
    assert!(rt; float_point(0x36ff_ffff) == 0 && float_point(0x3840_0000) == 2);
    assert!(rt; float_point(0x38a0_0000) == 3);
    // the full scale and more, the greatest number below it
    assert!(rt; float_point(0x3f80_0000) == 32767 && float_point(0xbf80_0000) == -32768);
    assert!(rt; float_point(0x7149_f2ca) == 32767 && float_point(0xc000_0000) == -32768);
    assert!(rt; float_point(0x3f7f_ffff) == 32767 && float_point(0xbf7f_ffff) == -32768);
    // zeros, a subnormal number, infinities, NaN
    assert!(rt;
        float_point(0) == 0 && float_point(0x8000_0000) == 0 && float_point(0x0001_16c2) == 0
    );
    assert!(rt; float_point(0x7f80_0000) == 32767 && float_point(0xff80_0000) == -32768);
    assert!(rt; float_point(0x7fc0_0000) == 0 && float_point(0xff80_0001) == 0);
}
