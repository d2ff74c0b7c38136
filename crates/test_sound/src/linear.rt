//! Tests of `linear_value`.

use modulators::{DEFAULT_VELOCITY, Modulator, linear_value};

/// A linear modulator of amount 500 from a source to a generator.
fn from_to(source: u16, dest: u16) -> Modulator {
    Modulator {
        source,
        dest,
        amount: 500,
        amount_source: 0,
        transform: 0,
    }
}

/// A source, a key, a velocity, and the value of a modulator with that source.
const VALUES: [(u16, u8, u8, i16); 14] = [
    // Velocity and key, positive and unipolar.
    (0x0002, 60, 127, 127),
    (0x0002, 60, 0, 0),
    (0x0003, 60, 127, 60),
    // Negative.
    (0x0102, 60, 127, 0),
    (0x0102, 60, 100, 27),
    (0x0103, 60, 127, 67),
    // Bipolar.
    (0x0202, 60, 0, -128),
    (0x0202, 60, 127, 126),
    (0x0203, 64, 127, 0),
    // Negative and bipolar.
    (0x0302, 60, 127, -128),
    (0x0302, 60, 0, 126),
    // Keys and velocities above the range of notes.
    (0x0002, 60, 255, 255),
    (0x0103, 255, 0, -128),
    (0x0303, 255, 0, -384),
];

#[test]
fn values_of_linear_modulators(rt: HostRuntime) {
    for (source, key, velocity, value) in VALUES {
        for dest in [17, 34, 36, 37, 38, 48, 52] {
            let modulator = from_to(source, dest);
            assert!(rt;
                linear_value(&modulator, key, velocity) == Some(value),
                "source {source}"
            );
        }
    }
    let other = Modulator {
        amount: -1,
        transform: 2,
        ..from_to(0x0002, 17)
    };
    assert!(rt; linear_value(&other, 60, 127) == Some(127));
}

#[test]
fn modulators_that_are_not_linear(rt: HostRuntime) {
    assert!(rt; linear_value(&DEFAULT_VELOCITY, 60, 127) == None);
    // Other general controllers, MIDI controllers, a link, and curves that are not linear.
    for source in [
        0x0000, 0x0004, 0x000a, 0x0082, 0x0083, 0x007f, 0x0402, 0x8003, 0xfc02,
    ] {
        assert!(rt;
            linear_value(&from_to(source, 17), 60, 127) == None,
            "source {source}"
        );
    }
    for dest in [0, 8, 16, 18, 33, 35, 39, 43, 47, 49, 51, 53, 56, 0x8011] {
        assert!(rt;
            linear_value(&from_to(2, dest), 60, 127) == None,
            "dest {dest}"
        );
    }
    let scaled = Modulator {
        amount_source: 2,
        ..from_to(2, 17)
    };
    assert!(rt; linear_value(&scaled, 60, 127) == None);
}
