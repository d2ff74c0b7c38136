//! Calls of `Session` that may return out of memory.
use crate::banks::{BANK, FixedWriter, bank_of, file_of, fixed_writer};
use crate::outcome::Outcome;
use bank_core::{InfoId, Owner};
use base_numbered_lists::NumberedList;
use edit_forms::{Edit, PresetStep, SampleStep, Step, TextStep, ZoneStep};
use edit_refusals::Refusal;
use edit_script::print;
use inverse_edits::Session;
use sf_base::{BorrowedBytes, Name20, OutOfMemory};
use std::alloc::Global;
use test_inputs::tone;

#[derive(Clone, Copy)]
enum Change {
    Rename,
    Title,
    Remove,
    Empty,
}

#[derive(Clone, Copy)]
enum Call {
    Edit(Change),
    Undo,
    Redo,
}

// A call, its refusal if it is refused, and the length of the undo list after it.
type ExpectedCall = (Call, Option<Refusal>, usize);

// Calls on `tone`.
static TONE_CALLS: [ExpectedCall; 8] = [
    (Call::Undo, Some(Refusal::NothingToUndo), 0),
    (Call::Edit(Change::Rename), None, 1),
    (Call::Redo, Some(Refusal::NothingToRedo), 1),
    (Call::Undo, None, 0),
    (Call::Redo, None, 1),
    (Call::Undo, None, 0),
    (Call::Edit(Change::Title), None, 1),
    (Call::Redo, Some(Refusal::NothingToRedo), 1),
];

// Calls on `BANK`, which restore it.
static CALLS: [ExpectedCall; 20] = [
    (Call::Undo, Some(Refusal::NothingToUndo), 0),
    (Call::Edit(Change::Rename), None, 1),
    (Call::Edit(Change::Remove), None, 2),
    (Call::Redo, Some(Refusal::NothingToRedo), 2),
    (Call::Undo, None, 1),
    (Call::Redo, None, 2),
    (Call::Undo, None, 1),
    (Call::Undo, None, 0),
    (Call::Edit(Change::Remove), None, 1),
    (Call::Undo, None, 0),
    (Call::Edit(Change::Title), None, 1),
    (Call::Redo, Some(Refusal::NothingToRedo), 1),
    (Call::Edit(Change::Rename), None, 2),
    (Call::Undo, None, 1),
    (Call::Edit(Change::Empty), None, 2),
    (Call::Undo, None, 1),
    (Call::Redo, None, 2),
    (Call::Undo, None, 1),
    (Call::Undo, None, 0),
    (Call::Undo, Some(Refusal::NothingToUndo), 0),
];

/// Makes twenty calls of a session and of a second, equal one. They restore the first bank. A call that is out of
/// memory leaves the session as it was and is made again.
pub(crate) fn session_calls(alloc: Global) -> Outcome {
    run_calls(alloc, BANK, &CALLS, BANK, b"")
}

/// Makes eight calls of a session on `tone` in the same way. They leave a bank name set, and one edit to undo.
pub(crate) fn tone_session_calls(alloc: Global) -> Outcome {
    let titled = tone().patched(&[(60, b'x')]);
    let back = b"set-info INAM \"\"\n";
    run_calls(alloc, tone().bytes(), &TONE_CALLS, titled.bytes(), back)
}

// Makes calls of a session on a file's bank, and of a second, equal session. In the end the bank is that of `last` and
// the undo list has the text `back`.
fn run_calls(
    alloc: Global,
    file: &[u8],
    calls: &[ExpectedCall],
    last: &[u8],
    back: &[u8],
) -> Outcome {
    let Some((bank, read)) = bank_of(alloc, file) else {
        return Outcome::Wrong;
    };
    let Some((same_bank, read_again)) = bank_of(alloc, file) else {
        return Outcome::Wrong;
    };
    let mut session = Session::new(alloc, bank);
    let mut twin = Session::new(alloc, same_bank);
    let mut outcome = read.and(read_again);
    for (call, refusal, undos) in calls {
        outcome = outcome.and(try_call(alloc, &mut session, &mut twin, *call, *refusal));
        outcome = outcome.and(Outcome::done(session.undo_list().len() == *undos));
    }
    let right = file_of(session.bank()).has(last) && back_of(&session).has(back);
    outcome.and(Outcome::done(right))
}

// Makes a call of the session, and again if it was out of memory, after comparing the session with its twin. Then makes
// the same call of the twin.
fn try_call(
    alloc: Global,
    session: &mut Session<'_>,
    twin: &mut Session<'_>,
    call: Call,
    refusal: Option<Refusal>,
) -> Outcome {
    let outcome = match made(alloc, session, call) {
        Ok(was) => Outcome::done(was == refusal),
        Err(OutOfMemory) => {
            let unchanged = are_equal(alloc, session, twin);
            Outcome::refused(unchanged && made(alloc, session, call) == Ok(refusal))
        }
    };
    outcome.and(followed(alloc, twin, call, refusal))
}

// Makes a call of the twin, and again if it was out of memory.
fn followed(
    alloc: Global,
    twin: &mut Session<'_>,
    call: Call,
    refusal: Option<Refusal>,
) -> Outcome {
    match made(alloc, twin, call) {
        Ok(was) => Outcome::done(was == refusal),
        Err(OutOfMemory) => Outcome::refused(made(alloc, twin, call) == Ok(refusal)),
    }
}

// Whether two sessions are equal, with their redo lists: compares them while all edits are redone and undone again.
fn are_equal(alloc: Global, one: &mut Session<'_>, other: &mut Session<'_>) -> bool {
    let undos = one.undo_list().len();
    let alike = have_equal_state(one, other);
    let forth = redo_all(alloc, one, other);
    let back = undo_until(alloc, one, other, undos);
    alike && forth && back
}

// Redoes all edits of both sessions. Returns whether they were equal after each; there are no more edits than calls in
// `CALLS`.
fn redo_all(alloc: Global, one: &mut Session<'_>, other: &mut Session<'_>) -> bool {
    let mut alike = true;
    for _ in CALLS {
        let (went, followed) = (one.redo(alloc), other.redo(alloc));
        alike = alike && went == followed && have_equal_state(one, other);
    }
    alike
}

// Undoes edits of both sessions until `undos` edits remain to undo. Returns whether they were equal after each.
fn undo_until(alloc: Global, one: &mut Session<'_>, other: &mut Session<'_>, undos: usize) -> bool {
    let mut alike = true;
    for _ in CALLS {
        if one.undo_list().len() > undos {
            let (went, followed) = (one.undo(alloc), other.undo(alloc));
            alike = alike && went == followed && have_equal_state(one, other);
        }
    }
    alike
}

// Whether two sessions have the same bank and the same undo list.
fn have_equal_state(one: &Session<'_>, other: &Session<'_>) -> bool {
    file_of(one.bank()).has(file_of(other.bank()).text()) && back_of(one).has(back_of(other).text())
}

// The text of its undo list.
fn back_of(session: &Session<'_>) -> FixedWriter {
    let mut out = fixed_writer();
    for edit in session.undo_list() {
        let _ = print(edit, &mut out);
    }
    out
}

// Makes a call and returns its refusal, if it is refused.
fn made(
    alloc: Global,
    session: &mut Session<'_>,
    call: Call,
) -> Result<Option<Refusal>, OutOfMemory> {
    match call {
        Call::Edit(change) => tried(alloc, session, edit_of(alloc, change)?),
        Call::Undo => moved(session.undo(alloc)),
        Call::Redo => moved(session.redo(alloc)),
    }
}

fn tried<'a>(
    alloc: Global,
    session: &mut Session<'a>,
    edit: Edit<'a>,
) -> Result<Option<Refusal>, OutOfMemory> {
    edited(session.edit(alloc, edit))
}

fn edit_of<'a>(alloc: Global, change: Change) -> Result<Edit<'a>, OutOfMemory> {
    match change {
        Change::Rename => rename(),
        Change::Title => Ok(Edit::One(Step::Text(TextStep::SetInfo {
            id: InfoId::Name,
            text: BorrowedBytes::new(b"x"),
        }))),
        Change::Remove => Ok(Edit::One(Step::Preset(PresetStep::RemovePreset { preset: 0 }))),
        Change::Empty => emptying(alloc),
    }
}

fn rename<'a>() -> Result<Edit<'a>, OutOfMemory> {
    match Name20::from_bytes(b"u") {
        Ok(name) => Ok(Edit::One(Step::Sample(SampleStep::RenameSample { sample: 0, name }))),
        Err(_) => Err(OutOfMemory),
    }
}

// A group that removes the zone of the instrument, then the sample it uses.
fn emptying<'a>(alloc: Global) -> Result<Edit<'a>, OutOfMemory> {
    let mut steps = Vec::new(alloc);
    steps.push(Step::Zone(Owner::Inst(0), ZoneStep::RemoveZone { zone: 0 }))?;
    steps.push(Step::Sample(SampleStep::RemoveSample { sample: 0 }))?;
    Ok(Edit::Group(NumberedList::from_vec(steps)))
}

fn edited(answer: Result<(), (Refusal, Edit<'_>)>) -> Result<Option<Refusal>, OutOfMemory> {
    match answer {
        Ok(()) => Ok(None),
        Err((why, _)) => refused(why),
    }
}

fn moved(answer: Result<(), Refusal>) -> Result<Option<Refusal>, OutOfMemory> {
    match answer {
        Ok(()) => Ok(None),
        Err(why) => refused(why),
    }
}

// The refusal of a call, or `OutOfMemory`.
fn refused(why: Refusal) -> Result<Option<Refusal>, OutOfMemory> {
    match why {
        Refusal::OutOfMemory => Err(OutOfMemory),
        _ => Ok(Some(why)),
    }
}
