//! Tests of runs with WAVE files. A zero byte in a file name, which no real file has, ends the name of a sample.

use sfbank::{ReadOptions, canon_run, edit_run, import_run, pair_run, replace_run};
use std::alloc::Global;
use test_inputs::{File, tone};

/// The sample of `tone` as a WAVE file of 126 bytes.
fn tone_wave() -> File {
    File::of(
        "'RIFF 76000000 'WAVE 'fmt 20 10000000 01000100 44ac0000 88580100 02001000
        'smpl 44000000 00000000 00000000 93580000 3c000000 00000000 00000000 00000000 01000000 08000000
        00000000 00000000 01000000 02000000 00000000 00000000 'sfbk 3c000000
        'data 06000000 e803d00730f8",
    )
}

/// Whether importing the WAVE file into `tone` has the result of `script`, with the undo script `back`.
fn imports(alloc: Global, wave: &File, name: &[u8], script: &[u8], back: &[u8]) -> bool {
    let tone = tone();
    let mut out = Vec::new(alloc);
    let mut undo = Vec::new(alloc);
    let mut edited = Vec::new(alloc);
    let mut edited_undo = Vec::new(alloc);
    let options = ReadOptions::as_stored();
    import_run(
        alloc,
        tone.bytes(),
        wave.bytes(),
        options,
        name,
        &mut out,
        &mut undo,
    )
    .is_ok()
        && edit_run(alloc, tone.bytes(), script, &mut edited, &mut edited_undo).is_ok()
        && out.as_slice() == edited.as_slice()
        && undo.as_slice() == back
}

#[test]
fn a_name_is_truncated(rt: HostRuntime) {
    let zero = b"add-sample 1 \"t\" 44100 60 0 mono loop 1 3 xe803d00730f8\n";
    assert!(rt;
        imports(
            rt.alloc(),
            &tone_wave(),
            b"t\0u",
            zero,
            b"remove-sample 1\n"
        )
    );
}

#[test]
fn a_sample_is_replaced_by_itself(rt: HostRuntime) {
    let tone = tone();
    let wave = tone_wave();
    let mut canonical = Vec::new(rt.alloc());
    let mut out = Vec::new(rt.alloc());
    let mut undo = Vec::new(rt.alloc());
    let options = ReadOptions::as_stored();
    let replaced = replace_run(
        rt.alloc(),
        tone.bytes(),
        wave.bytes(),
        options,
        0,
        &mut out,
        &mut undo,
    );
    assert!(rt; canon_run(rt.alloc(), tone.bytes(), &mut canonical).is_ok());
    assert!(rt; replaced.is_ok() && out.as_slice() == canonical.as_slice());
}

#[test]
fn a_pair_is_written(rt: HostRuntime) {
    let tone = tone();
    let script = b"add-sample 1 \"r\" 44100 60 0 right 0 noloop x010002000300\nset-kind 0 left 1\n";
    let mut paired = Vec::new(rt.alloc());
    let mut undo = Vec::new(rt.alloc());
    let mut wave = Vec::new(rt.alloc());
    assert!(rt; edit_run(rt.alloc(), tone.bytes(), script, &mut paired, &mut undo).is_ok());
    assert!(rt; pair_run(rt.alloc(), paired.as_slice(), 1, &mut wave).is_ok() && wave.len() == 132);
}
