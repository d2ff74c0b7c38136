//! Tests of note lists, and of the limits of notes.

use script_notes::{Note, parse_notes};
use std::test::Fail;

#[test]
fn notes_of_a_text(rt: HostRuntime) -> Result<(), Fail> {
    let text = b"# two notes\n\n\t0 8 0 0 67 127 # the first\r\n99999999 1 128 65535 0 0";
    let notes = parse_notes(rt.alloc(), text)?;
    assert!(rt; notes.len() == 2);
    assert!(rt; Note::new(0, 8, 0, 0, 67, 127) == Some(notes[0]));
    assert!(rt; Note::new(99_999_999, 1, 128, 65_535, 0, 0) == Some(notes[1]));
    let note = notes[1];
    assert!(rt; (note.start(), note.length()) == (99_999_999, 1));
    assert!(rt; (note.bank(), note.number()) == (128, 65_535));
    assert!(rt; (notes[0].key(), notes[0].velocity()) == (67, 127));
    assert!(rt; parse_notes(rt.alloc(), b"")?.is_empty());
    Ok(())
}

/// Note lists whose note ends at the last possible frame.
const LAST: [&[u8]; 2] = [b"99999999 1 0 0 60 127", b"100000000 0 0 0 60 127"];

#[test]
fn notes_that_end_at_the_last_frame(rt: HostRuntime) -> Result<(), Fail> {
    for text in LAST {
        assert!(rt; parse_notes(rt.alloc(), text)?.len() == 1);
    }
    Ok(())
}

#[test]
fn notes_outside_the_limits(rt: HostRuntime) {
    assert!(rt; Note::new(99_999_999, 2, 0, 0, 60, 1).is_none());
    assert!(rt; Note::new(u32::MAX, u32::MAX, 0, 0, 60, 1).is_none());
    assert!(rt; Note::new(0, 0, 0, 0, 128, 1).is_none());
    assert!(rt; Note::new(0, 0, 0, 0, 1, 128).is_none());
    assert!(rt; Note::new(100_000_000, 0, 65_535, 65_535, 127, 127).is_some());
}
