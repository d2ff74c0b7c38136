//! Tests of the edits that merge two banks.

use crate::edited_banks::{edited, print_edits};
use bank_core::Bank;
use edit_script::pool_of;
use plan_edits::Plan;
use plan_presets::{PresetFault, PresetNumbers};
use plan_take::{Merge, check_merge};
use sf_reader::read;
use std::alloc::Global;
use std::test::Fail;
use test_inputs::tone;

fn text_of_merged<'a>(
    alloc: Global,
    bank: &Bank<'a>,
    from: &Bank<'a>,
    shift: u16,
) -> Result<Vec<u8>, Fail> {
    let merge = Merge { from, shift };
    match merge.edits(alloc, bank) {
        Ok(edits) => Ok(print_edits(alloc, edits.as_slice())),
        Err(_) => Ok(Vec::from_slice(alloc, b"no edits")?),
    }
}

/// Whether the edits that add the bank of a file after a script to the bank of the file are these.
fn is_merged(
    alloc: Global,
    file: &[u8],
    script: &[u8],
    shift: u16,
    wanted: &[u8],
) -> Result<bool, Fail> {
    let pool = pool_of(alloc, script)?;
    let from = edited(alloc, file, script, pool.as_slice())?;
    let (bank, _counts) = read(alloc, file)?;
    let text = text_of_merged(alloc, &bank, &from, shift)?;
    Ok(text.as_slice() == wanted)
}

/// Whether this is why the bank of a file after a script can't be added to the bank of the file.
fn is_fault(
    alloc: Global,
    file: &[u8],
    script: &[u8],
    shift: u16,
    wanted: Option<PresetFault>,
) -> Result<bool, Fail> {
    let pool = pool_of(alloc, script)?;
    let from = edited(alloc, file, script, pool.as_slice())?;
    let (bank, _counts) = read(alloc, file)?;
    let fault = check_merge(alloc, &bank, &from, shift)?;
    Ok(fault == wanted)
}

/// Two more samples, linked to each other, with an instrument for each, a preset for the left one and one for both.
const SIDES: &[u8] = b"add-sample 1 \"l\" 44100 60 0 mono noloop x0100
add-sample 2 \"r\" 44100 60 0 right 1 noloop x0200
set-kind 1 left 2
add-inst 1 \"l\" { 1 }
add-inst 2 \"b\" { 1 g 17 5 } { 2 }
add-preset 1 \"l\" 1 0 0 0 0 { 1 }
add-preset 2 \"b\" 2 7 1 2 3 { global g 51 2 } { 2 g 44 0..99 } { 0 }
";

const SIDES_ADDED: &[u8] = b"add-sample 1 \"t\" 44100 60 0 mono loop 1 3 xe803d00730f8
add-sample 2 \"l\" 44100 60 0 mono noloop x0100
add-sample 3 \"r\" 44100 60 0 right 2 noloop x0200
set-kind 2 left 3
add-inst 1 \"i\" { 1 g 54 1 }
add-inst 2 \"l\" { 2 }
add-inst 3 \"b\" { 2 g 17 5 } { 3 }
add-preset 1 \"p\" 0 128 0 0 0 { 1 }
add-preset 2 \"l\" 1 128 0 0 0 { 2 }
add-preset 3 \"b\" 2 135 1 2 3 { global g 51 2 } { 3 g 44 0..99 } { 1 }
";

const TWICE_ADDED: &[u8] = b"add-sample 1 \"t\" 44100 60 0 mono loop 1 3 xe803d00730f8
add-inst 1 \"i\" { 1 g 54 1 }
add-preset 1 \"p\" 0 1 0 0 0 { 1 }
add-preset 2 \"q\" 0 1 0 0 0 { 1 }
";

#[test]
fn banks_are_merged(rt: HostRuntime) -> Result<(), Fail> {
    for (script, shift, wanted) in [
        (SIDES, 128, SIDES_ADDED),
        (
            b"add-preset 1 \"q\" 0 0 0 0 0 { 0 }\n".as_slice(),
            1,
            TWICE_ADDED,
        ),
        (SIDES, 0, b"no edits".as_slice()),
    ] {
        assert!(rt; is_merged(rt.alloc(), tone().bytes(), script, shift, wanted)?);
    }
    Ok(())
}

#[test]
fn the_first_preset_in_the_way_is_reported(rt: HostRuntime) -> Result<(), Fail> {
    let high: &[u8] =
        b"add-preset 1 \"h\" 3 65535 0 0 0 { 0 }\nadd-preset 2 \"g\" 4 65535 0 0 0 { 0 }\n";
    let free: &[u8] = b"set-head 0 \"p\" 1 0\nadd-preset 1 \"o\" 0 0 0 0 0 { 0 }\n";
    let bank = 65535;
    for (script, shift, wanted) in [
        (b"".as_slice(), 1, None),
        (
            b"".as_slice(),
            0,
            Some(PresetFault::InUse(PresetNumbers { bank: 0, number: 0 })),
        ),
        (
            high,
            0,
            Some(PresetFault::InUse(PresetNumbers { bank: 0, number: 0 })),
        ),
        (
            high,
            1,
            Some(PresetFault::BankTooHigh(PresetNumbers { bank, number: 3 })),
        ),
        (
            free,
            0,
            Some(PresetFault::InUse(PresetNumbers { bank: 0, number: 0 })),
        ),
    ] {
        assert!(rt; is_fault(rt.alloc(), tone().bytes(), script, shift, wanted)?);
    }
    Ok(())
}
