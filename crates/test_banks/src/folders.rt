//! Tests of the bank of a folder.

use sfbank::{SamplePoints, ScriptForm, canon_run, pack_run, script_run, wave_run};
use test_inputs::tone;

#[test]
fn a_folder_is_packed(rt: HostRuntime) {
    let tone = tone();
    let mut text = Vec::new(rt.alloc());
    let mut wave = Vec::new(rt.alloc());
    let mut canonical = Vec::new(rt.alloc());
    let mut packed = Vec::new(rt.alloc());
    let form = ScriptForm {
        points: SamplePoints::LeftOut,
        comments: true,
    };
    assert!(rt; script_run(rt.alloc(), tone.bytes(), form, &mut text).is_ok());
    assert!(rt; wave_run(rt.alloc(), tone.bytes(), 0, &mut wave).is_ok());
    assert!(rt; canon_run(rt.alloc(), tone.bytes(), &mut canonical).is_ok());
    assert!(rt; pack_run(rt.alloc(), text.as_slice(), &[wave.as_slice()], &mut packed).is_ok());
    assert!(rt; packed.as_slice() == canonical.as_slice());
}
