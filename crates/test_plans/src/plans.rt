//! Tests of the edits that keep presets and that tidy a bank.
ghost use Rattle.std.specs.Prelude.{◌≡◌, Ok};
ghost use Rattle.script_tokens.specs.Pool.{pool_bytes};

use crate::edited_banks::{edited, print_edits};
use edit_script::pool_of;
use plan_edits::{Keep, Plan, Tidy};
use plan_presets::PresetNumbers;
use std::alloc::Global;
use std::test::Fail;
use test_inputs::tone;

/// The edits of a plan, for the bank of a file after a script, as a text. `pool` has the script's literals.
fn text_of_plan<'a, P: Plan<'a>>(
    alloc: Global,
    file: &'a [u8],
    script: &[u8],
    pool: &'a [u8],
    plan: &P,
) -> Result<Vec<u8>, Fail>
    requires { pool_bytes script.now ≡ Ok pool.now }
{
    let bank = edited(alloc, file, script, pool)?;
    match plan.edits(alloc, &bank) {
        Ok(edits) => Ok(print_edits(alloc, edits.as_slice())),
        Err(_) => Ok(Vec::new(alloc)),
    }
}

/// Whether the edits of a plan, for the bank of a file after a script, are these. `pool` has the script's literals.
pub(crate) fn is_planned<'a, P: Plan<'a>>(
    alloc: Global,
    file: &'a [u8],
    script: &[u8],
    pool: &'a [u8],
    plan: &P,
    wanted: &[u8],
) -> Result<bool, Fail>
    requires { pool_bytes script.now ≡ Ok pool.now }
{
    let text = text_of_plan(alloc, file, script, pool, plan)?;
    Ok(text.as_slice() == wanted)
}

fn is_kept(
    alloc: Global,
    script: &[u8],
    kept: &[PresetNumbers],
    wanted: &[u8],
) -> Result<bool, Fail> {
    let (pool, file) = (pool_of(alloc, script)?, tone());
    let plan = Keep { presets: kept };
    is_planned(alloc, file.bytes(), script, pool.as_slice(), &plan, wanted)
}

fn is_tidied(alloc: Global, script: &[u8], wanted: &[u8]) -> Result<bool, Fail> {
    let (pool, file) = (pool_of(alloc, script)?, tone());
    is_planned(alloc, file.bytes(), script, pool.as_slice(), &Tidy, wanted)
}

/// Two more samples, linked to each other, with an instrument for each, and a preset for the left one.
pub(crate) const SIDES: &[u8] = b"add-sample 1 \"l\" 44100 60 0 mono noloop x0100
add-sample 2 \"r\" 44100 60 0 right 1 noloop x0200
set-kind 1 left 2
add-inst 1 \"l\" { 1 }
add-inst 2 \"r\" { 2 }
add-preset 1 \"l\" 1 0 0 0 0 { 1 }
";

#[test]
fn a_preset_is_kept(rt: HostRuntime) -> Result<(), Fail> {
    let bank = 0;
    let first = [PresetNumbers { bank, number: 0 }];
    let left = [PresetNumbers { bank, number: 1 }];
    let other = [PresetNumbers { bank, number: 2 }];
    for (kept, wanted) in [
        (
            first.as_slice(),
            b"remove-preset 1\nremove-inst 2\nremove-inst 1\nset-kind 1 mono\nset-kind 2 mono\nremove-sample 2\nremove-sample 1\n".as_slice(),
        ),
        (
            left.as_slice(),
            b"remove-preset 0\nremove-inst 2\nremove-inst 0\nset-kind 1 mono\nremove-sample 2\nremove-sample 0\n",
        ),
        (
            other.as_slice(),
            b"remove-preset 1\nremove-preset 0\nremove-inst 2\nremove-inst 1\nremove-inst 0\nset-kind 1 mono\nset-kind 2 mono\nremove-sample 2\nremove-sample 1\nremove-sample 0\n",
        ),
    ] {
        assert!(rt; is_kept(rt.alloc(), SIDES, kept, wanted)?);
    }
    Ok(())
}

#[test]
fn a_bank_is_tidied(rt: HostRuntime) -> Result<(), Fail> {
    for (script, wanted) in [
        (b"".as_slice(), b"".as_slice()),
        (SIDES, b"remove-inst 2\nset-kind 1 mono\nremove-sample 2\n"),
        (
            b"split-zone inst 0 0 key 60\nsplit-zone inst 0 0 key 30\n",
            b"join-zone inst 0 1 key keep\njoin-zone inst 0 0 key bare\n",
        ),
        (
            b"split-zone inst 0 0 key 60\nsplit-zone inst 0 1 vel 64\nsplit-zone inst 0 0 vel 64\n",
            b"join-zone inst 0 2 vel bare\njoin-zone inst 0 0 vel bare\njoin-zone inst 0 0 key bare\n",
        ),
        (
            b"add-sample 1 \"r\" 44100 60 0 mono noloop x0200\nadd-zone inst 0 1 { 1 }\nset-kind 0 left 1\n",
            b"set-kind 1 right 0\n",
        ),
        (
            b"add-sample 1 \"r\" 44100 60 0 mono noloop x0200\nadd-zone inst 0 1 { 1 }\nset-kind 1 left 1\nset-kind 0 left 1\n",
            b"set-kind 0 mono\n",
        ),
    ] {
        assert!(rt; is_tidied(rt.alloc(), script, wanted)?);
    }
    Ok(())
}
