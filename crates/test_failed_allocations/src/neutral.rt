//! Neutral edits, and runs of neutral scripts, that may be out of memory.
use crate::banks::{BANK, FixedWriter, bank_of, edited, file_of, fixed_writer};
use crate::outcome::Outcome;
use bank_core::{Bank, Owner};
use edit_forms::{Axis, Edit, SampleStep, Step, ZoneStep};
use edit_refusals::Refusal;
use edit_script::print;
use sf_base::Name20;
use sfbank::{NoReports, RunFault, neutral_run};
use sound_neutral_edits::{apply_neutral, is_neutral};
use std::alloc::Global;

// Makes a bank of two instruments with one zone each. The second instrument's zone has a key range of its own.
static SCRIPT: &[u8] = b"\
    remove-preset 0\n\
    remove-inst 0\n\
    add-inst 0 \"a\" { 0 g 17 0 }\n\
    add-inst 1 \"b\" { 0 g 43 0..127 g 17 0 }\n";

#[derive(Clone, Copy)]
enum Call {
    Rename,
    // Splits the zone of the instrument with this number.
    Split(u32),
}

// Calls, each with the script that does the same and with its undo script.
static CALLS: [(Call, &[u8], &[u8]); 3] = [
    (
        Call::Rename,
        b"rename-sample 0 \"ABCDEFGHIJKLMNOPQRST\"\n",
        b"rename-sample 0 \"saw\"\n",
    ),
    (
        Call::Split(0),
        b"split-zone inst 0 0 key 60\n",
        b"join-zone inst 0 0 key bare\n",
    ),
    (
        Call::Split(1),
        b"split-zone inst 1 0 key 60\n",
        b"join-zone inst 1 0 key keep\n",
    ),
];

/// Does and undoes neutral edits. An edit that is out of memory leaves the bank and the edit as they were and is made
/// again.
pub(crate) fn neutral_calls(alloc: Global) -> Outcome {
    let mut file = fixed_writer();
    let mut undo = fixed_writer();
    let mut outcome = edited(alloc, BANK, SCRIPT, &mut file, &mut undo);
    for (call, line, back) in CALLS {
        outcome = outcome.and(try_call(alloc, file.text(), call, line, back));
    }
    outcome
}

// Does an edit of a file's bank as a script, as a value, and as a neutral run.
fn try_call(alloc: Global, file: &[u8], call: Call, line: &[u8], back: &[u8]) -> Outcome {
    let mut out = fixed_writer();
    let mut undo = fixed_writer();
    let made = edited(alloc, file, line, &mut out, &mut undo);
    let there = match (bank_of(alloc, file), edit_of(call)) {
        (Some((mut bank, read)), Some(edit)) => {
            read.and(apply_and_undo(alloc, &mut bank, edit, out.text(), back))
        }
        _ => Outcome::Wrong,
    };
    let right = Outcome::done(undo.has(back));
    made.and(right)
        .and(there)
        .and(run(alloc, file, line, out.text(), back))
}

// Applies an edit to a bank, compares it with the file `edited`, and undoes the edit.
fn apply_and_undo<'a>(
    alloc: Global,
    bank: &mut Bank<'a>,
    edit: Edit<'a>,
    edited: &[u8],
    back: &[u8],
) -> Outcome {
    let (file, line) = (file_of(bank), line_of(&edit));
    let Some((inverse, there)) = done(alloc, bank, edit) else {
        return Outcome::Wrong;
    };
    let right = file_of(bank).has(edited) && line_of(&inverse).has(back);
    let Some((again, returned)) = done(alloc, bank, inverse) else {
        return Outcome::Wrong;
    };
    let restored = file_of(bank).has(file.text()) && line_of(&again).has(line.text());
    there.and(returned).and(Outcome::done(right && restored))
}

// Applies a neutral edit, and again if it was out of memory. Returns its inverse; `None` if the edit is not neutral or
// is refused.
fn done<'a>(alloc: Global, bank: &mut Bank<'a>, edit: Edit<'a>) -> Option<(Edit<'a>, Outcome)> {
    if !is_neutral(&edit) {
        return None;
    }
    let (file, line) = (file_of(bank), line_of(&edit));
    match apply_neutral(alloc, bank, edit) {
        Ok(inverse) => Some((inverse, Outcome::Done)),
        Err((Refusal::OutOfMemory, edit)) => {
            let unchanged = file_of(bank).has(file.text()) && line_of(&edit).has(line.text());
            done_again(alloc, bank, edit, unchanged)
        }
        Err(_) => None,
    }
}

fn done_again<'a>(
    alloc: Global,
    bank: &mut Bank<'a>,
    edit: Edit<'a>,
    unchanged: bool,
) -> Option<(Edit<'a>, Outcome)> {
    if !is_neutral(&edit) {
        return None;
    }
    match apply_neutral(alloc, bank, edit) {
        Ok(inverse) => Some((inverse, Outcome::refused(unchanged))),
        Err(_) => None,
    }
}

fn line_of(edit: &Edit<'_>) -> FixedWriter {
    let mut out = fixed_writer();
    let _ = print(edit, &mut out);
    out
}

fn edit_of<'a>(call: Call) -> Option<Edit<'a>> {
    match call {
        Call::Rename => match Name20::from_bytes(b"ABCDEFGHIJKLMNOPQRST") {
            Ok(name) => Some(Edit::One(Step::Sample(SampleStep::RenameSample { sample: 0, name }))),
            Err(_) => None,
        },
        Call::Split(number) => Some(Edit::One(Step::Zone(
            Owner::Inst(number),
            ZoneStep::SplitZone {
                zone: 0,
                axis: Axis::Key,
                at: 60,
            },
        ))),
    }
}

// Runs a neutral script and compares the file and the undo script. A run that is out of memory writes nothing and is
// made again.
fn run(alloc: Global, file: &[u8], script: &[u8], edited: &[u8], back: &[u8]) -> Outcome {
    let mut out = fixed_writer();
    let mut undo = fixed_writer();
    let ran = match neutral_run(alloc, file, script, &mut out, &mut undo, &mut NoReports) {
        Ok(()) => Outcome::Done,
        Err(RunFault::Memory) if out.has(b"") && undo.has(b"") => {
            Outcome::refused(neutral_run(
                alloc,
                file,
                script,
                &mut out,
                &mut undo,
                &mut NoReports,
            ).is_ok())
        }
        Err(_) => Outcome::Wrong,
    };
    ran.and(Outcome::done(out.has(edited) && undo.has(back)))
}
