//! Runs of plans, from bytes to bytes.

use plan_presets::{CopiedMember, PresetNumbers, TakenPreset};
use sf_base::Name20;
use sfbank::{
    RunFault, Zones, canon_run, copy_run, edit_run, keep_notes_run, keep_run, merge_run, take_run,
    tidy_run,
};
use std::alloc::Global;
use test_inputs::tone;

/// Two more samples, linked to each other, with an instrument for each, and a preset for the left one.
const SIDES: &[u8] = b"add-sample 1 \"l\" 44100 60 0 mono noloop x0100
add-sample 2 \"r\" 44100 60 0 right 1 noloop x0200
set-kind 1 left 2
add-inst 1 \"l\" { 1 }
add-inst 2 \"r\" { 2 }
add-preset 1 \"l\" 1 0 0 0 0 { 1 }
";

/// The file of the tone with two linked samples, an instrument for each, and a preset for the left one.
fn file_with_sides(alloc: Global) -> Result<Vec<u8>, RunFault> {
    let mut file = Vec::new(alloc);
    let mut undo = Vec::new(alloc);
    edit_run(alloc, tone().bytes(), SIDES, &mut file, &mut undo)?;
    Ok(file)
}

/// Whether the undo script of an edited file leads back to a file.
fn is_undone(alloc: Global, out: &[u8], undo: &[u8], file: &[u8]) -> Result<bool, RunFault> {
    let mut back = Vec::new(alloc);
    let mut redo = Vec::new(alloc);
    edit_run(alloc, out, undo, &mut back, &mut redo)?;
    Ok(back.as_slice() == file)
}

/// Whether the first preset is kept, which leaves the tone, and this is undone.
fn is_kept(alloc: Global) -> Result<bool, RunFault> {
    let file = file_with_sides(alloc)?;
    let mut out = Vec::new(alloc);
    let mut undo = Vec::new(alloc);
    let first = [PresetNumbers { bank: 0, number: 0 }];
    keep_run(alloc, file.as_slice(), &first, &mut out, &mut undo)?;
    let mut plain = Vec::new(alloc);
    canon_run(alloc, tone().bytes(), &mut plain)?;
    Ok(
        out.as_slice() == plain.as_slice()
            && is_undone(alloc, out.as_slice(), undo.as_slice(), file.as_slice())?,
    )
}

#[test]
fn a_file_keeps_one_preset(rt: HostRuntime) {
    assert!(rt; matches!(is_kept(rt.alloc()), Ok(true)));
}

/// Whether the presets of notes are kept, with or without the zones that no note selects, and this is undone.
fn is_played(alloc: Global, zones: Zones) -> Result<bool, RunFault> {
    let file = file_with_sides(alloc)?;
    let mut out = Vec::new(alloc);
    let mut undo = Vec::new(alloc);
    let notes = b"0 10 0 1 60 100\n";
    keep_notes_run(alloc, file.as_slice(), notes, zones, &mut out, &mut undo)?;
    Ok(
        out.len() < file.len()
            && is_undone(alloc, out.as_slice(), undo.as_slice(), file.as_slice())?,
    )
}

#[test]
fn a_file_keeps_what_notes_play(rt: HostRuntime) {
    for zones in [Zones::All, Zones::Played] {
        assert!(rt; matches!(is_played(rt.alloc(), zones), Ok(true)));
    }
}

/// Whether the file gets smaller, and this is undone.
fn is_tidied(alloc: Global, merge: bool) -> Result<bool, RunFault> {
    let file = file_with_sides(alloc)?;
    let mut out = Vec::new(alloc);
    let mut undo = Vec::new(alloc);
    tidy_run(alloc, file.as_slice(), merge, &mut out, &mut undo)?;
    Ok(
        out.len() < file.len()
            && is_undone(alloc, out.as_slice(), undo.as_slice(), file.as_slice())?,
    )
}

#[test]
fn a_file_is_tidied(rt: HostRuntime) {
    for merge in [false, true] {
        assert!(rt; matches!(is_tidied(rt.alloc(), merge), Ok(true)));
    }
}

/// Whether the file gets larger by a copy of a member, with another name or that of the original, and this is undone.
fn is_copied(alloc: Global, member: CopiedMember, name: Option<Name20>) -> Result<bool, RunFault> {
    let file = file_with_sides(alloc)?;
    let mut out = Vec::new(alloc);
    let mut undo = Vec::new(alloc);
    copy_run(alloc, file.as_slice(), member, name, &mut out, &mut undo)?;
    Ok(
        out.len() > file.len()
            && is_undone(alloc, out.as_slice(), undo.as_slice(), file.as_slice())?,
    )
}

#[test]
fn members_of_a_file_are_copied(rt: HostRuntime) {
    let numbers = PresetNumbers { bank: 1, number: 1 };
    let members = [
        CopiedMember::Preset(1, None),
        CopiedMember::Preset(0, Some(numbers)),
        CopiedMember::Inst(2),
        CopiedMember::Sample(1),
    ];
    for member in members {
        for name in [None, Name20::from_bytes(b"copy").ok()] {
            assert!(rt; matches!(is_copied(rt.alloc(), member, name), Ok(true)));
        }
    }
}

/// Whether the tone gets the preset of the left sample from another file, and this is undone.
fn is_taken(alloc: Global) -> Result<bool, RunFault> {
    let other = file_with_sides(alloc)?;
    let mut plain = Vec::new(alloc);
    canon_run(alloc, tone().bytes(), &mut plain)?;
    let mut out = Vec::new(alloc);
    let mut undo = Vec::new(alloc);
    let numbers = PresetNumbers { bank: 0, number: 1 };
    let presets = [TakenPreset {
        from: numbers,
        to: numbers,
    }];
    take_run(
        alloc,
        plain.as_slice(),
        other.as_slice(),
        &presets,
        &mut out,
        &mut undo,
    )?;
    Ok(
        out.len() > plain.len()
            && is_undone(alloc, out.as_slice(), undo.as_slice(), plain.as_slice())?,
    )
}

#[test]
fn a_file_gets_a_preset(rt: HostRuntime) {
    assert!(rt; matches!(is_taken(rt.alloc()), Ok(true)));
}

/// Whether a file gets all of itself again, in the next MIDI bank, and this is undone.
fn is_merged(alloc: Global) -> Result<bool, RunFault> {
    let file = file_with_sides(alloc)?;
    let mut out = Vec::new(alloc);
    let mut undo = Vec::new(alloc);
    merge_run(
        alloc,
        file.as_slice(),
        file.as_slice(),
        1,
        &mut out,
        &mut undo,
    )?;
    Ok(
        out.len() > file.len()
            && is_undone(alloc, out.as_slice(), undo.as_slice(), file.as_slice())?,
    )
}

#[test]
fn a_file_gets_all_of_a_file(rt: HostRuntime) {
    assert!(rt; matches!(is_merged(rt.alloc()), Ok(true)));
}
