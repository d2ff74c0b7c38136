//! Tests of WAVE files of a left and a right sample.
ghost use Rattle.std.specs.Prelude.{◌≡◌};

use bank_parts::{Kind, Sample};
use base_texts::write_text;
use pair_waves::{PairWave, pairs_read_back};
use sample_view::Points;
use sf_base::{Blank, Name20};
use std::alloc::Global;
use std::test::Fail;

/// The points 1, 2, -3, 4 and -5, 6, 7, -8, with the pitch and the loop of the left sample.
const FILE: &[u8] =
    b"RIFF\x80\0\0\0WAVEfmt \x10\0\0\0\x01\0\x02\0\x22\x56\0\0\x88\x58\x01\0\x04\0\x10\0\
smpl\x44\0\0\0\0\0\0\0\0\0\0\0\x27\xb1\0\0\x3c\0\0\0\0\0\0\0\0\0\0\0\0\0\0\0\x01\0\0\0\x08\0\0\0\
\0\0\0\0\0\0\0\0\x01\0\0\0\x03\0\0\0\0\0\0\0\0\0\0\0sfbk\x3c\0\0\0\
data\x10\0\0\0\x01\0\xfb\xff\x02\0\x06\0\xfd\xff\x07\0\x04\0\xf8\xff";

/// A sample of these points.
fn sample<'a>(
    alloc: Global,
    points: Points<'a>,
    looped: Option<(u32, u32)>,
    rate: u32,
    key: u8,
) -> Sample<'a>
    ensures { result.points ≡ points.entry }
{
    Sample {
        name: Name20::blank(alloc),
        points,
        looped,
        rate,
        key,
        correction: 0,
        kind: Kind::Mono,
    }
}

#[test]
fn a_pair_of_slices(rt: HostRuntime) -> Result<(), Fail> {
    let mut points = Points::of_slice(rt.alloc(), &[1, 0])?;
    let back = Points::of_slice(rt.alloc(), &[2, 0, 0xfd, 0xff, 4, 0])?;
    let front = Points::empty(rt.alloc());
    assert!(rt; points.len() == 1 && back.len() == 3 && front.len() == 0);
    assert!(rt; points.join(front, back).is_ok());
    let left = sample(rt.alloc(), points, Some((1, 4)), 22050, 60);
    let points = Points::of_slice(rt.alloc(), &[0xfb, 0xff, 6, 0, 7, 0, 0xf8, 0xff])?;
    let right = sample(rt.alloc(), points, None, 44100, 61);
    assert!(rt; left.points.len() == 4 && right.points.len() == 4);
    let mut out = Vec::new(rt.alloc());
    assert!(rt; write_text(&PairWave::new(&left, &right), &mut out).is_ok());
    assert!(rt; out.as_slice() == FILE);
    pairs_read_back();
    Ok(())
}
