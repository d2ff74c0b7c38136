//! Tests of `apply_neutral` and of the inverses it returns.

use bank_core::Bank;
use edit_forms::Edit;
use edit_script::{Line, parse, pool_of, print};
use sf_reader::read;
use sf_writer::write;
use sfbank::edit_run;
use sound_neutral_edits::{apply_neutral, is_neutral};
use std::alloc::Global;
use test_inputs::{RENAME, RENAME_BACK, renamed_saw, saw, tone};

/// Applies an edit and prints its inverse to `back`. Returns whether it is neutral and was applied.
fn is_done<'a>(alloc: Global, bank: &mut Bank<'a>, edit: Edit<'a>, back: &mut Vec<u8>) -> bool {
    if !is_neutral(&edit) {
        return false;
    }
    match apply_neutral(alloc, bank, edit) {
        Ok(inverse) => print(&inverse, back).is_ok(),
        Err(_) => false,
    }
}

fn are_done<'a>(
    alloc: Global,
    bank: &mut Bank<'a>,
    lines: Vec<Line<'a>>,
    back: &mut Vec<u8>,
) -> bool {
    for line in lines {
        if !is_done(alloc, bank, line.into_edit(), back) {
            return false;
        }
    }
    true
}

fn is_written(alloc: Global, bank: &Bank<'_>, file: &[u8]) -> bool {
    let mut out = Vec::new(alloc);
    write(bank, &mut out).is_ok() && out.as_slice() == file
}

/// Whether the neutral edit `line` turns the bank of `file` into the bank of `edited`, and its inverse is
/// `back`.
fn edits(alloc: Global, file: &[u8], line: &[u8], edited: &[u8], back: &[u8]) -> bool {
    let Ok(pool) = pool_of(alloc, line) else {
        return false;
    };
    let Ok(lines) = parse(alloc, line, pool.as_slice()) else {
        return false;
    };
    let Ok((mut bank, _counts)) = read(alloc, file) else {
        return false;
    };
    let mut undo = Vec::new(alloc);
    are_done(alloc, &mut bank, lines, &mut undo)
        && is_written(alloc, &bank, edited)
        && undo.as_slice() == back
}

/// Whether `line` turns `file` into `edited`, and `back` turns `edited` into `file`; each is the other's inverse.
fn edits_both_ways(alloc: Global, file: &[u8], line: &[u8], edited: &[u8], back: &[u8]) -> bool {
    edits(alloc, file, line, edited, back) && edits(alloc, edited, back, file, line)
}

#[test]
fn a_renaming_and_its_inverse(rt: HostRuntime) {
    let (saw, renamed) = (saw(), renamed_saw());
    assert!(rt;
        edits_both_ways(
            rt.alloc(),
            saw.bytes(),
            RENAME,
            renamed.bytes(),
            RENAME_BACK
        )
    );
}

const SPLIT: &[u8] = b"split-zone inst 0 0 key 60\n";

/// An instrument of one zone, and the inverse of splitting it.
const ROWS: [(&[u8], &[u8]); 2] = [
    (
        b"add-inst 0 \"z\" { 0 g 17 0 }\n",
        b"join-zone inst 0 0 key bare\n",
    ),
    (
        b"add-inst 0 \"z\" { 0 g 43 0..127 g 17 0 }\n",
        b"join-zone inst 0 0 key keep\n",
    ),
];

/// The same instrument after the split.
const HALVES: &[u8] = b"add-inst 0 \"z\" { 0 g 43 0..59 g 17 0 } { 0 g 43 60..127 g 17 0 }\n";

/// The file of `tone` after a script; empty if the script is refused.
fn file_after(alloc: Global, script: &[u8]) -> Vec<u8> {
    let mut out = Vec::new(alloc);
    let mut undo = Vec::new(alloc);
    let _ = edit_run(alloc, tone().bytes(), script, &mut out, &mut undo);
    out
}

#[test]
fn splits_and_joins(rt: HostRuntime) {
    let halves = file_after(rt.alloc(), HALVES);
    for (row, (whole, join)) in ROWS.iter().enumerate() {
        let file = file_after(rt.alloc(), whole);
        assert!(rt;
            edits_both_ways(rt.alloc(), &file, SPLIT, &halves, join),
            "row {row}"
        );
    }
}
