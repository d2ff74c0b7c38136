//! Tests of the edits that copy a member.

use crate::edited_banks::{edited, print_edits};
use bank_core::Bank;
use bank_validity::Limit;
use edit_forms::Cause;
use edit_script::pool_of;
use plan_copy::{CopiedMember, CopyFault, CopyMember, check_copy};
use plan_edits::{Plan, PlanFault};
use plan_presets::{PresetFault, PresetNumbers};
use sf_base::Name20;
use std::alloc::Global;
use std::test::Fail;
use test_inputs::tone;

fn text_of_copy<'a>(alloc: Global, bank: &Bank<'a>, copy: CopyMember) -> Result<Vec<u8>, Fail> {
    match copy.edits(alloc, bank) {
        Ok(edits) => Ok(print_edits(alloc, edits.as_slice())),
        Err(PlanFault::Full(Limit::Zones)) => Ok(Vec::from_slice(alloc, b"too many zones")?),
        Err(_) => Ok(Vec::from_slice(alloc, b"no edits")?),
    }
}

/// Whether the edits that copy a member of the bank after a script are these.
fn is_copied(
    alloc: Global,
    script: &[u8],
    member: CopiedMember,
    name: Option<&[u8]>,
    wanted: &[u8],
) -> Result<bool, Fail> {
    let (pool, file) = (pool_of(alloc, script)?, tone());
    let bank = edited(alloc, file.bytes(), script, pool.as_slice())?;
    let name = match name {
        Some(text) => Name20::from_bytes(text).ok(),
        None => None,
    };
    let text = text_of_copy(alloc, &bank, CopyMember { member, name })?;
    Ok(text.as_slice() == wanted)
}

/// Whether this is why a member of the bank after a script can't be copied, and there are no edits for it.
fn is_fault(
    alloc: Global,
    script: &[u8],
    member: CopiedMember,
    wanted: CopyFault,
) -> Result<bool, Fail> {
    let (pool, file) = (pool_of(alloc, script)?, tone());
    let bank = edited(alloc, file.bytes(), script, pool.as_slice())?;
    let text = text_of_copy(alloc, &bank, CopyMember { member, name: None })?;
    Ok(check_copy(&bank, member) == Err(wanted) && text.as_slice() == b"no edits".as_slice())
}

fn numbers(bank: u16, number: u16) -> PresetNumbers {
    PresetNumbers { bank, number }
}

/// A sample linked to the first, an instrument with a global zone and a modulator, and a preset with key ranges.
const RICH: &[u8] = b"add-sample 1 \"s\" 22050 61 -3 right 0 loop 0 2 x010002000300
add-inst 1 \"g\" { global g 54 1 m 1282 48 480 0 0 } { 1 g 43 0..59 g 17 -100 } { 0 g 43 60..127 }
add-preset 1 \"k\" 3 128 7 8 9 { global g 51 2 } { 1 g 44 0..99 } { 0 } { 1 }
";

#[test]
fn members_are_copied(rt: HostRuntime) -> Result<(), Fail> {
    for (script, member, name, wanted) in [
        (
            b"".as_slice(),
            CopiedMember::Preset(0, None),
            None,
            b"add-preset 1 \"p\" 0 1 0 0 0 { 0 }\n".as_slice(),
        ),
        (
            b"",
            CopiedMember::Preset(0, Some(numbers(5, 7))),
            Some(b"q".as_slice()),
            b"add-preset 1 \"q\" 7 5 0 0 0 { 0 }\n",
        ),
        (
            b"set-head 0 \"p\" 3 9\n",
            CopiedMember::Preset(0, None),
            None,
            b"add-preset 1 \"p\" 3 0 0 0 0 { 0 }\n",
        ),
        (
            RICH,
            CopiedMember::Preset(1, None),
            Some(b"kit"),
            b"add-preset 2 \"kit\" 0 128 7 8 9 { global g 51 2 } { 1 g 44 0..99 } { 0 } { 1 }\n",
        ),
        (
            RICH,
            CopiedMember::Inst(1),
            Some(b"v"),
            b"add-inst 2 \"v\" { global g 54 1 m 1282 48 480 0 0 } { 1 g 43 0..59 g 17 -100 } { 0 g 43 60..127 }\n",
        ),
        (
            RICH,
            CopiedMember::Inst(0),
            None,
            b"add-inst 2 \"i\" { 0 g 54 1 }\n",
        ),
        (
            RICH,
            CopiedMember::Sample(1),
            None,
            b"add-sample 2 \"s\" 22050 61 -3 mono loop 0 2 x010002000300\n",
        ),
    ] {
        assert!(rt; is_copied(rt.alloc(), script, member, name, wanted)?);
    }
    Ok(())
}

#[test]
fn a_member_that_can_not_be_copied_is_reported(rt: HostRuntime) -> Result<(), Fail> {
    let used = numbers(0, 0);
    for (member, fault) in [
        (
            CopiedMember::Preset(1, Some(used)),
            CopyFault::NoMember(Cause::NoSuchPreset),
        ),
        (
            CopiedMember::Inst(1),
            CopyFault::NoMember(Cause::NoSuchInstrument),
        ),
        (
            CopiedMember::Sample(u32::MAX),
            CopyFault::NoMember(Cause::NoSuchSample),
        ),
        (
            CopiedMember::Preset(0, Some(used)),
            CopyFault::Numbers(PresetFault::InUse(used)),
        ),
    ] {
        assert!(rt; is_fault(rt.alloc(), b"", member, fault)?);
    }
    Ok(())
}

/// A script that adds a preset with the number 0 in each bank from 1 to `last`.
fn presets_in_banks(alloc: Global, last: u16) -> Result<Vec<u8>, Fail> {
    let mut script = Vec::new(alloc);
    for bank in 1..=last {
        let line = format!(in alloc; "add-preset 1 \"p\" 0 {bank} 0 0 0 {{ 0 }}\n")?;
        script.extend_from_slice(line.as_bytes())?;
    }
    Ok(script)
}

#[test]
fn free_numbers_end(rt: HostRuntime) -> Result<(), Fail> {
    let member = CopiedMember::Preset(0, None);
    let script = presets_in_banks(rt.alloc(), 126)?;
    let wanted = b"add-preset 127 \"p\" 0 127 0 0 0 { 0 }\n";
    assert!(rt; is_copied(rt.alloc(), script.as_slice(), member, None, wanted)?);
    let script = presets_in_banks(rt.alloc(), 127)?;
    let fault = CopyFault::Numbers(PresetFault::NoneFree(numbers(0, 0)));
    assert!(rt; is_fault(rt.alloc(), script.as_slice(), member, fault)?);
    Ok(())
}

/// A script that adds an instrument with this many zones.
fn instrument_of_zones(alloc: Global, count: usize) -> Result<Vec<u8>, Fail> {
    let mut script = Vec::from_slice(alloc, b"add-inst 1 \"z\"")?;
    for _ in 0..count {
        script.extend_from_slice(b" { 0 }")?;
    }
    script.push(b'\n')?;
    Ok(script)
}

#[test]
fn a_full_bank_is_reported(rt: HostRuntime) -> Result<(), Fail> {
    let script = instrument_of_zones(rt.alloc(), 40_000)?;
    let member = CopiedMember::Inst(1);
    assert!(rt;
        is_copied(
            rt.alloc(),
            script.as_slice(),
            member,
            None,
            b"too many zones"
        )?
    );
    Ok(())
}
