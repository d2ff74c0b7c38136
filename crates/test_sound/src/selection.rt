//! Tests of the zones that notes select.

use crate::started_voices::made;
use script_notes::Note;
use sf_reader::read;
use std::alloc::Global;
use std::test::Fail;
use zone_select::matches;

/// Two presets of bank 0 and number 0, of which the second is never selected, and one of bank 1 and number 2
/// that uses the second instrument.
const LAYERS: &[u8] = b"\
    add-sample 0 \"s\" 44100 60 0 mono noloop x\n\
    add-inst 0 \"i\" { 0 g 43 60..127 } { 0 } { 0 g 44 0..63 }\n\
    add-inst 1 \"i\" { global g 43 0..59 } { 0 } { 0 g 43 60..61 }\n\
    add-preset 0 \"p\" 0 0 0 0 0 { global g 44 1..100 } { 1 } { 0 g 43 0..59 } { 0 g 44 0..127 }\n\
    add-preset 1 \"p\" 0 0 0 0 0 { 0 }\n\
    add-preset 2 \"p\" 2 1 0 0 0 { 1 }\n";

/// Bank and preset number, key and velocity of notes, with the pairs that they select.
const SELECTED: [((u16, u16), (u8, u8), &[(u32, u32)]); 8] = [
    ((0, 0), (60, 64), &[(0, 1), (2, 0), (2, 1)]),
    ((0, 0), (62, 63), &[(2, 0), (2, 1), (2, 2)]),
    ((0, 0), (59, 100), &[(0, 0), (1, 1), (2, 1)]),
    ((0, 0), (59, 101), &[(2, 1)]),
    ((0, 0), (0, 0), &[(2, 1), (2, 2)]),
    ((1, 2), (61, 0), &[(0, 1)]),
    ((1, 2), (62, 0), &[]),
    ((2, 1), (60, 64), &[]),
];

// The pairs that a note selects.
fn selected(alloc: Global, file: &[u8], note: &Note) -> Result<Vec<(u32, u32)>, Fail> {
    let (bank, _counts) = read(alloc, file)?;
    let mut found = Vec::new(alloc);
    for pair in matches(&bank, note) {
        found.push(pair)?;
    }
    Ok(found)
}

#[test]
fn pairs_of_notes(rt: HostRuntime) -> Result<(), Fail> {
    let file = made(rt.alloc(), LAYERS)?;
    for (numbers, sound, pairs) in SELECTED {
        let note = Note::new(0, 8, numbers.0, numbers.1, sound.0, sound.1).expect(&rt, "a note");
        let found = selected(rt.alloc(), file.as_slice(), &note)?;
        assert!(rt; found.as_slice() == pairs, "key {}", sound.0);
    }
    Ok(())
}
