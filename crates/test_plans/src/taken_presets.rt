//! Tests of the edits that take presets.

use crate::edited_banks::{edited, print_edits};
use bank_core::Bank;
use edit_script::pool_of;
use plan_edits::Plan;
use plan_presets::{PresetFault, PresetNumbers, TakenPreset};
use plan_take::{Take, check_presets};
use sf_reader::read;
use std::alloc::Global;
use std::test::Fail;
use test_inputs::tone;

fn text_of_fault(alloc: Global, fault: PresetFault) -> Result<Vec<u8>, Fail> {
    match fault {
        PresetFault::Missing(numbers) if numbers.number == 1 => {
            Ok(Vec::from_slice(alloc, b"1 is missing")?)
        }
        PresetFault::InUse(numbers) if numbers.number == 0 => {
            Ok(Vec::from_slice(alloc, b"0 is in use")?)
        }
        PresetFault::InUse(numbers) if numbers.number == 1 => {
            Ok(Vec::from_slice(alloc, b"1 is in use")?)
        }
        _ => Ok(Vec::from_slice(alloc, b"another fault")?),
    }
}

fn text_of_taken<'a>(
    alloc: Global,
    bank: &Bank<'a>,
    from: &Bank<'a>,
    presets: &[TakenPreset],
) -> Result<Vec<u8>, Fail> {
    if let Err(fault) = check_presets(bank, from, presets) {
        return text_of_fault(alloc, fault);
    }
    let take = Take { from, presets };
    match take.edits(alloc, bank) {
        Ok(edits) => Ok(print_edits(alloc, edits.as_slice())),
        Err(_) => Ok(Vec::from_slice(alloc, b"no edits")?),
    }
}

/// Which of two banks a script edits.
#[derive(Clone, Copy)]
enum Edited {
    /// The bank that gets the presets.
    Into,
    /// The bank that has the presets.
    From,
    /// One bank, which is both.
    Both,
}

/// Whether the edits that take presets of one file's bank into another are these.
fn is_taken(
    alloc: Global,
    file: &[u8],
    which: Edited,
    script: &[u8],
    presets: &[TakenPreset],
    wanted: &[u8],
) -> Result<bool, Fail> {
    let pool = pool_of(alloc, script)?;
    let changed = edited(alloc, file, script, pool.as_slice())?;
    let (plain, _counts) = read(alloc, file)?;
    let text = match which {
        Edited::Into => text_of_taken(alloc, &changed, &plain, presets)?,
        Edited::From => text_of_taken(alloc, &plain, &changed, presets)?,
        Edited::Both => text_of_taken(alloc, &changed, &changed, presets)?,
    };
    Ok(text.as_slice() == wanted)
}

fn preset(number: u16, new: u16) -> TakenPreset {
    TakenPreset {
        from: PresetNumbers { bank: 0, number },
        to: PresetNumbers {
            bank: 0,
            number: new,
        },
    }
}

/// Two more samples, linked to each other, with an instrument for each, a preset for the left one and one for both.
const SIDES: &[u8] = b"add-sample 1 \"l\" 44100 60 0 mono noloop x0100
add-sample 2 \"r\" 44100 60 0 right 1 noloop x0200
set-kind 1 left 2
add-inst 1 \"l\" { 1 }
add-inst 2 \"b\" { 1 g 17 5 } { 2 }
add-preset 1 \"l\" 1 0 0 0 0 { 1 }
add-preset 2 \"b\" 2 0 0 0 0 { 2 } { 0 }
";

/// A sample with a loop, an instrument with a global zone and a modulator, and a preset with key ranges.
const RICH: &[u8] = b"add-sample 1 \"s\" 22050 61 -3 mono loop 0 2 x010002000300
add-inst 1 \"g\" { global g 54 1 m 1282 48 480 0 0 } { 1 g 43 0..59 g 17 -100 } { 0 g 43 60..127 }
add-preset 1 \"k\" 3 0 7 8 9 { global g 51 2 } { 1 g 44 0..99 } { 0 } { 1 }
";

#[test]
fn presets_are_taken(rt: HostRuntime) -> Result<(), Fail> {
    for (which, script, presets, wanted) in [
        (
            Edited::Both,
            b"".as_slice(),
            [preset(0, 5)].as_slice(),
            b"add-preset 1 \"p\" 5 0 0 0 0 { 0 }\n".as_slice(),
        ),
        (Edited::Both, b"", &[preset(0, 0)], b"0 is in use"),
        (Edited::Both, b"", &[preset(1, 1)], b"1 is missing"),
        (
            Edited::Both,
            b"",
            &[preset(0, 1), preset(0, 1)],
            b"1 is in use",
        ),
        (
            Edited::From,
            SIDES,
            &[preset(1, 1)],
            b"add-sample 1 \"l\" 44100 60 0 mono noloop x0100\nadd-inst 1 \"l\" { 1 }\nadd-preset 1 \"l\" 1 0 0 0 0 { 1 }\n",
        ),
        (
            Edited::From,
            SIDES,
            &[preset(2, 9)],
            b"add-sample 1 \"l\" 44100 60 0 mono noloop x0100\nadd-sample 2 \"r\" 44100 60 0 right 1 noloop x0200\nset-kind 1 left 2\nadd-inst 1 \"b\" { 1 g 17 5 } { 2 }\nadd-preset 1 \"b\" 9 0 0 0 0 { 1 } { 0 }\n",
        ),
        (
            Edited::Both,
            SIDES,
            &[preset(2, 9), preset(1, 8)],
            b"add-preset 3 \"b\" 9 0 0 0 0 { 2 } { 0 }\nadd-preset 4 \"l\" 8 0 0 0 0 { 1 }\n",
        ),
        (
            Edited::Both,
            b"",
            &[preset(0, 1), preset(0, 2)],
            b"add-preset 1 \"p\" 1 0 0 0 0 { 0 }\nadd-preset 2 \"p\" 2 0 0 0 0 { 0 }\n",
        ),
        (
            Edited::From,
            RICH,
            &[preset(3, 4)],
            b"add-sample 1 \"s\" 22050 61 -3 mono loop 0 2 x010002000300\nadd-inst 1 \"g\" { global g 54 1 m 1282 48 480 0 0 } { 1 g 43 0..59 g 17 -100 } { 0 g 43 60..127 }\nadd-preset 1 \"k\" 4 0 7 8 9 { global g 51 2 } { 1 g 44 0..99 } { 0 } { 1 }\n",
        ),
        (
            Edited::Both,
            RICH,
            &[preset(3, 4)],
            b"add-preset 2 \"k\" 4 0 7 8 9 { global g 51 2 } { 1 g 44 0..99 } { 0 } { 1 }\n",
        ),
        (
            Edited::Into,
            b"set-gen inst 0 0 17 5\n",
            &[preset(0, 4)],
            b"add-inst 1 \"i\" { 0 g 54 1 }\nadd-preset 1 \"p\" 4 0 0 0 0 { 1 }\n",
        ),
        (
            Edited::Into,
            b"set-loop 0 noloop\n",
            &[preset(0, 4)],
            b"add-sample 1 \"t\" 44100 60 0 mono loop 1 3 xe803d00730f8\nadd-inst 1 \"i\" { 1 g 54 1 }\nadd-preset 1 \"p\" 4 0 0 0 0 { 1 }\n",
        ),
    ] {
        assert!(rt; is_taken(rt.alloc(), tone().bytes(), which, script, presets, wanted)?);
    }
    Ok(())
}
