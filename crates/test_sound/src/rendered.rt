//! A test of `render`, which reports no progress. The program calls the one that does.

use mixer::render;
use script_notes::parse_notes;
use sf_reader::read;
use std::alloc::Global;
use std::test::Fail;
use test_inputs::tone;

/// The frames of a note list rendered on `tone`, left and right in turn.
fn rendered(alloc: Global, notes: &[u8]) -> Result<Vec<i16>, Fail> {
    let file = tone();
    let (bank, _counts) = read(alloc, file.bytes())?;
    let notes = parse_notes(alloc, notes)?;
    Ok(render(alloc, &bank, notes.as_slice())?)
}

#[test]
fn two_notes(rt: HostRuntime) -> Result<(), Fail> {
    let sides = rendered(rt.alloc(), b"4 4 0 0 60 127\n0 8 0 0 67 127")?;
    let expected: [i16; 16] = [
        500, 500, 3, 3, 993, 993, -11, -11, -487, -487, 1016, 1016, -21, -21, 976, 976,
    ];
    assert!(rt; sides.as_slice() == expected.as_slice());
    Ok(())
}
