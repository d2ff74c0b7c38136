//! Tests of pictures, against texts made by hand.
use crate::{SamplePicture, column, columns_cover_points, extremes_between, height, put_wave};
use bank_core::{Bank, Kind, Owners, Parts, Sample, Texts};
use bank_linked_members::LinkedMembers;
use base_outputs::Output;
use base_texts::write_text;
use sample_view::Points;
use sf_base::{BorrowedBytes, Name20};
use std::alloc::Global;
use std::test::Fail;

fn texts<'a>() -> Texts<'a> {
    Texts {
        engine: BorrowedBytes::new(b"EMU8000"),
        name: BorrowedBytes::new(b""),
        date: BorrowedBytes::new(b""),
        engineers: BorrowedBytes::new(b""),
        product: BorrowedBytes::new(b""),
        copyright: BorrowedBytes::new(b""),
        comment: BorrowedBytes::new(b""),
        software: BorrowedBytes::new(b""),
    }
}

fn sample<'a>(
    name: Name20,
    points: Points<'a>,
    looped: Option<(u32, u32)>,
    rate: u32,
    key: u8,
    kind: Kind,
) -> Sample<'a> {
    Sample {
        name,
        points,
        looped,
        rate,
        key,
        correction: 0,
        kind,
    }
}

/// Whether the picture of sample `number` of a bank of these samples ends with this text.
fn ends_with<'a>(
    alloc: Global,
    samples: Vec<Sample<'a>>,
    number: u32,
    text: &[u8],
) -> Result<bool, Fail> {
    let parts = Parts {
        minor: 4,
        texts: texts(),
        presets: Owners::with_capacity(alloc, 0)?,
        instruments: Owners::with_capacity(alloc, 0)?,
        samples: LinkedMembers::from_vec(samples),
    };
    let Ok(bank) = Bank::from_parts(alloc, parts) else {
        return Ok(false);
    };
    let picture = SamplePicture {
        bank: &bank,
        sample: number,
    };
    let mut out = Vec::new(alloc);
    Ok(write_text(&picture, &mut out).is_ok() && out.as_slice().ends_with(text))
}

#[test]
fn an_empty_sample(rt: HostRuntime) -> Result<(), Fail> {
    let mut samples = Vec::new(rt.alloc());
    let points = Points::empty(rt.alloc());
    let name = Name20::from_bytes(b"<&\">'\xff")?;
    samples.push(sample(name, points, None, 0, 255, Kind::Mono))?;
    let text = b"</style>
<text class='owner' x='60' y='36'>sample 0: &lt;&amp;\"&gt;'&#65533;</text>
<text x='60' y='82'>no root key, rate 0 Hz, points 0, no loop</text>
</svg>
";
    assert!(rt; ends_with(rt.alloc(), samples, 0, text)?);
    Ok(())
}

#[test]
fn no_sample(rt: HostRuntime) -> Result<(), Fail> {
    let samples = Vec::new(rt.alloc());
    let text = b"<text class='owner' x='60' y='36'>sample 7: </text>\n</svg>\n";
    assert!(rt; ends_with(rt.alloc(), samples, 7, text)?);
    Ok(())
}

#[test]
fn one_point(rt: HostRuntime) -> Result<(), Fail> {
    let mut samples = Vec::new(rt.alloc());
    let points = Points::of_slice(rt.alloc(), &[0, 0x80])?;
    let name = Name20::from_bytes(b"")?;
    samples.push(sample(name, points, None, 1000, 0, Kind::Left(0)))?;
    let text = b"</style>
<text class='owner' x='60' y='36'>sample 0: </text>
<text x='60' y='82'>root key 0 (C-1), rate 1000 Hz, length 0.001 s, points 1, no loop</text>
<text class='end' x='52' y='90'>32767</text><text class='end' x='52' y='218'>0</text>\
<text class='end' x='52' y='346'>-32768</text>
<g transform='translate(60 90) scale(1 .25)'><path class='lines' d='M0 0H1280M0 512H1280M0 1024H1280'/>
<polyline points='0,1023 0,1023 '/></g>
</svg>
";
    assert!(rt; ends_with(rt.alloc(), samples, 0, text)?);
    Ok(())
}

/// The rows of a pair: three points in a loop of all of them, and two without a loop.
const PAIR: &[u8] = b"<text class='owner' x='60' y='36'>sample 0: r</text>
<text x='60' y='82'>left, sample 1: l, root key 60 (C4), rate 8000 Hz, length 0.000 s, points 3, loop 0 to 3</text>
<text class='end' x='52' y='90'>32767</text><text class='end' x='52' y='218'>0</text>\
<text class='end' x='52' y='346'>-32768</text>
<g transform='translate(60 90) scale(1 .25)'><path class='lines' d='M0 0H1280M0 512H1280M0 1024H1280'/>
<polyline points='0,0 0,0 426,511 426,511 853,1023 853,1023 '/>
<path class='loop' d='M0 0V1024M1280 0V1024'/></g>
<text x='60' y='682'>sample 1: the last and the first points of the loop, 3 of each</text>
<g transform='translate(60 690) scale(1 .25)'><path class='lines' d='M0 0H635M0 512H635M0 1024H635'/>
<path class='join' d='M317.5 0V1024'/>
<polyline class='seam' points='305,0 310,511 315,1023 320,0 325,511 330,1023 '/></g>
<text x='60' y='382'>right, sample 0: r, root key 127 (G9), rate 3 Hz, length 0.666 s, points 2, no loop</text>
<text class='end' x='52' y='390'>32767</text><text class='end' x='52' y='518'>0</text>\
<text class='end' x='52' y='646'>-32768</text>
<g transform='translate(60 390) scale(1 .25)'><path class='lines' d='M0 0H1280M0 512H1280M0 1024H1280'/>
<polyline points='0,511 0,511 640,512 640,512 '/></g>
</svg>
";

#[test]
fn a_pair(rt: HostRuntime) -> Result<(), Fail> {
    let mut samples = Vec::new(rt.alloc());
    let right = Points::of_slice(rt.alloc(), &[1, 0, 0xff, 0xff])?;
    let left = Points::of_slice(rt.alloc(), &[0xff, 0x7f, 0, 0, 0, 0x80])?;
    let right_name = Name20::from_bytes(b"r")?;
    let left_name = Name20::from_bytes(b"l")?;
    samples.push(sample(right_name, right, None, 3, 127, Kind::Right(1)))?;
    samples.push(sample(left_name, left, Some((0, 3)), 8000, 60, Kind::Left(0)))?;
    assert!(rt; ends_with(rt.alloc(), samples, 0, PAIR)?);
    Ok(())
}

#[test]
fn columns_of_slices(rt: HostRuntime) -> Result<(), Fail> {
    let mut points = Points::of_slice(rt.alloc(), &[64, 0, 0xc0, 0xff])?;
    let back = Points::of_slice(rt.alloc(), &[128, 0, 0, 0, 0x80, 0xff])?;
    let front = Points::empty(rt.alloc());
    assert!(rt; points.len() == 2 && back.len() == 3 && front.len() == 0);
    assert!(rt; points.join(front, back).is_ok());
    assert!(rt; points.len() == 5);
    let middle = extremes_between(&points, 1, 4);
    assert!(rt; middle.low == -64 && middle.high == 128);
    let first = column(&points, 2, 0);
    assert!(rt; first.low == -64 && first.high == 64);
    let second = column(&points, 2, 1);
    assert!(rt; second.low == -128 && second.high == 128);
    assert!(rt; height(64) == 510);
    let mut out = Vec::new(rt.alloc());
    let mut output = Output::to(&mut out);
    put_wave(&points, 2, &mut output);
    assert!(rt; output.deliver().is_ok());
    assert!(rt; out.as_slice() == b"0,510 0,512 1,509 1,513 ".as_slice());
    columns_cover_points();
    Ok(())
}
