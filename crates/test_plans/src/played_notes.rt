//! Tests of the edits that keep what notes play.

use crate::plans::{SIDES, is_planned};
use edit_script::pool_of;
use plan_edits::KeepPlayed;
use script_notes::Note;
use std::alloc::Global;
use std::test::Fail;
use test_inputs::tone;

/// Whether these edits keep what notes play, which are given by preset number, key and velocity.
fn is_kept(
    alloc: Global,
    script: &[u8],
    played: &[(u16, u8, u8)],
    wanted: &[u8],
) -> Result<bool, Fail> {
    let mut notes = Vec::new(alloc);
    for (number, key, velocity) in played {
        if let Some(note) = Note::new(7, 100, 0, *number, *key, *velocity) {
            notes.push(note)?;
        }
    }
    let (pool, file) = (pool_of(alloc, script)?, tone());
    let plan = KeepPlayed {
        notes: notes.as_slice(),
    };
    is_planned(alloc, file.bytes(), script, pool.as_slice(), &plan, wanted)
}

#[test]
fn only_what_is_played_is_left(rt: HostRuntime) -> Result<(), Fail> {
    let (low, high) = ((0, 59, 100), (0, 60, 100));
    let halves = b"split-zone inst 0 0 key 60\n".as_slice();
    let first = [(0, 60, 1)];
    let left = [(1, 60, 1), (1, 60, 1)];
    let lower = [low, low];
    let upper = [high];
    let both = [high, low];
    for (script, played, wanted) in [
        (
            SIDES,
            first.as_slice(),
            b"remove-preset 1\nremove-inst 2\nremove-inst 1\nset-kind 1 mono\nset-kind 2 mono\nremove-sample 2\nremove-sample 1\n".as_slice(),
        ),
        (
            SIDES,
            left.as_slice(),
            b"remove-preset 0\nremove-inst 2\nremove-inst 0\nset-kind 1 mono\nremove-sample 2\nremove-sample 0\n",
        ),
        (halves, lower.as_slice(), b"remove-zone inst 0 1\n"),
        (halves, upper.as_slice(), b"remove-zone inst 0 0\n"),
        (halves, both.as_slice(), b""),
        (
            b"add-zone preset 0 1 { 0 g 43 0..20 }\n",
            both.as_slice(),
            b"remove-zone preset 0 1\n",
        ),
        (
            b"add-preset 1 \"p\" 0 0 0 0 0 { 0 }\n",
            both.as_slice(),
            b"remove-zone preset 1 0\n",
        ),
    ] {
        assert!(rt; is_kept(rt.alloc(), script, played, wanted)?);
    }
    Ok(())
}
