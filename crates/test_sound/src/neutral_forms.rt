//! Tests of which forms of edit are neutral.

use edit_script::{parse, pool_of};
use sound_neutral_edits::is_neutral;
use std::alloc::Global;

/// Whether the first edit of a script is neutral; `None` if there is no edit.
fn first_is_neutral(alloc: Global, script: &[u8]) -> Option<bool> {
    let pool = pool_of(alloc, script).ok()?;
    let lines = parse(alloc, script, pool.as_slice()).ok()?;
    let line = lines.first()?;
    Some(is_neutral(&line.edit))
}

/// A line of each neutral form.
const NEUTRAL: [&[u8]; 13] = [
    b"add-inst 0 \"n\" { global g 57 1 } { 0 g 43 0..59 m 1282 48 0 0 0 }",
    b"remove-inst 0",
    b"move-inst 0 1",
    b"rename-inst 0 \"z\"",
    b"add-sample 0 \"n\" 0 0 0 mono noloop x",
    b"remove-sample 0",
    b"move-sample 1 0",
    b"rename-sample 0 \"z\"",
    b"move-zone preset 0 0 1",
    b"split-zone inst 0 0 key 60",
    b"join-zone inst 0 0 vel bare",
    b"set-kind 0 linked 0",
    b"set-info INAM \"x\"",
];

/// A line of each other form, and groups: without steps, of neutral steps alone, and of another step.
const OTHERS: [&[u8]; 20] = [
    b"add-preset 0 \"n\" 0 0 0 0 0",
    b"remove-preset 0",
    b"move-preset 0 0",
    b"set-head 0 \"p\" 0 0",
    b"trim 0 0 0",
    b"extend 0 x x",
    b"set-loop 0 noloop",
    b"set-tune 0 44100 60 0",
    b"add-zone inst 0 0 { 0 }",
    b"remove-zone inst 0 0",
    b"set-target inst 0 0 0",
    b"set-gen inst 0 0 43 0..127",
    b"clear-gen inst 0 global 17",
    b"add-mod inst 0 0 0 1282 48 960 0 0",
    b"remove-mod inst 0 0 0",
    b"set-mod inst 0 0 0 1282 48 960 0 0",
    b"group",
    b"group { rename-inst 0 \"z\" }",
    b"group { set-info INAM \"x\" } { move-sample 0 0 }",
    b"group { set-tune 0 44100 60 0 }",
];

#[test]
fn forms_that_are_neutral(rt: HostRuntime) {
    for (row, line) in NEUTRAL.iter().enumerate() {
        assert!(rt;
            first_is_neutral(rt.alloc(), line) == Some(true),
            "row {row}"
        );
    }
    for (row, line) in OTHERS.iter().enumerate() {
        assert!(rt;
            first_is_neutral(rt.alloc(), line) == Some(false),
            "row {row}"
        );
    }
}
