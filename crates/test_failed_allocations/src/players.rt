//! Calls of `Player` that may return out of memory, with edits of the bank between them.
use crate::banks::{BANK, bank_of, edited, file_of, fixed_writer};
use crate::outcome::Outcome;
use bank_core::{Bank, Owner, Place};
use bank_edits::apply;
use edit_forms::{Edit, PointStep, SettingStep, Step, ZoneStep};
use edit_refusals::Refusal;
use mixer::Player;
use sample_view::Points;
use script_notes::Note;
use std::alloc::Global;
use test_inputs::tone;

// Makes a bank whose instrument has two zones that play the point 1000 in a loop, up to key 100: one with an exclusive
// class, in the middle, and one on the right.
static SCRIPT: &[u8] = b"\
    remove-preset 0\n\
    remove-inst 0\n\
    remove-sample 0\n\
    add-sample 0 \"c\" 44100 60 0 mono loop 0 1 xe803\n\
    add-inst 0 \"i\" { 0 g 54 1 g 57 1 } { 0 g 17 500 g 54 1 }\n\
    add-preset 0 \"p\" 0 0 0 0 0 { 0 g 43 0..100 }\n";

// The sample's point.
static POINT: [u8; 2] = [0xe8, 0x03];

/// The frames of the note on `tone`, left and right in turn.
pub(crate) static TONE_SIDES: [i16; 16] = [
    500, 500, 3, 3, 993, 993, -11, -11, -987, -987, 16, 16, 979, 979, -24, -24,
];

#[derive(Clone, Copy)]
enum Call {
    Start,
    // Starts a note whose key is in no zone's range.
    Outside,
    // Starts a note whose preset does not exist.
    Absent,
    // Pans the first zone to the left.
    Left,
    // Adds the sample's point twice more, each in a slice of its own.
    Longer,
    // Trims the sample from five points to one.
    Shorter,
    // Removes the first zone.
    Fewer,
}

// Calls, each with the left and the right sample of all frames after it. A start silences the first zone of the note
// before it, if the new note plays that zone itself; a note without zones changes nothing.
static CALLS: [(Call, i16, i16); 12] = [
    (Call::Start, 500, 1500),
    (Call::Left, 500, 1500),
    (Call::Start, 1000, 2000),
    (Call::Longer, 1000, 2000),
    (Call::Start, 1000, 3000),
    (Call::Longer, 1000, 3000),
    (Call::Shorter, 1000, 3000),
    (Call::Outside, 1000, 3000),
    (Call::Fewer, 1000, 3000),
    (Call::Start, 1000, 4000),
    (Call::Outside, 1000, 4000),
    (Call::Absent, 1000, 4000),
];

/// Starts notes and edits their bank in turn, and compares a block after each. A call that is out of memory leaves the
/// player and the bank as they were and is made again.
pub(crate) fn player_calls(alloc: Global) -> Outcome {
    let mut file = fixed_writer();
    let mut undo = fixed_writer();
    let made = edited(alloc, BANK, SCRIPT, &mut file, &mut undo);
    let Some((mut bank, read)) = bank_of(alloc, file.text()) else {
        return Outcome::Wrong;
    };
    let mut outcome = made.and(read);
    let mut player = Player::new(alloc);
    let mut expected = (0, 0);
    for (call, left, right) in CALLS {
        outcome = outcome.and(try_call(alloc, &mut player, &mut bank, call, expected));
        expected = (left, right);
        outcome = outcome.and(Outcome::done(gives(&mut player, expected)));
    }
    outcome
}

/// Starts a note on `tone` and edits the bank while it plays; the note started again is silent. A call that is out of
/// memory leaves the player and the bank as they were and is made again.
pub(crate) fn tone_player_calls(alloc: Global) -> Outcome {
    let file = tone();
    let Some(note) = Note::new(0, 8, 0, 0, 67, 127) else {
        return Outcome::Wrong;
    };
    let Some((mut bank, read)) = bank_of(alloc, file.bytes()) else {
        return Outcome::Wrong;
    };
    let mut player = Player::new(alloc);
    let first = begun(alloc, &mut player, &bank, &note);
    let front = Outcome::done(plays(&mut player, &TONE_SIDES[..6]));
    let trim = Step::Points(0, PointStep::Trim { front: 1, back: 0 });
    let trimmed = edited_once(alloc, &mut bank, trim);
    let remove = Step::Zone(Owner::Inst(0), ZoneStep::RemoveZone { zone: 0 });
    let removed = edited_once(alloc, &mut bank, remove);
    let rest = Outcome::done(plays(&mut player, &TONE_SIDES[6..]));
    let again = begun(alloc, &mut player, &bank, &note);
    let silence = Outcome::done(plays(&mut player, &[0; 16]));
    let expected = front.and(rest).and(silence);
    read.and(first)
        .and(trimmed)
        .and(removed)
        .and(again)
        .and(expected)
}

// Starts a note, and again if it was out of memory. A voice started by the failed call would show in the next block.
fn begun<'a>(alloc: Global, player: &mut Player<'a>, bank: &Bank<'a>, note: &Note) -> Outcome {
    match player.start(alloc, bank, note) {
        Ok(()) => Outcome::Done,
        Err(_) => Outcome::refused(player.start(alloc, bank, note).is_ok()),
    }
}

// Applies an edit, and again if it was out of memory, after comparing the bank with what it was.
fn edited_once<'a>(alloc: Global, bank: &mut Bank<'a>, step: Step<'a>) -> Outcome {
    let file = file_of(bank);
    match apply(alloc, bank, Edit::One(step)) {
        Ok(_) => Outcome::Done,
        Err((Refusal::OutOfMemory, edit)) => {
            let unchanged = file_of(bank).has(file.text());
            Outcome::refused(unchanged && apply(alloc, bank, edit).is_ok())
        }
        Err(_) => Outcome::Wrong,
    }
}

// Whether the next block has these samples, at most 16.
fn plays(player: &mut Player<'_>, sides: &[i16]) -> bool {
    let mut out = [0; 16];
    if sides.len() > out.len() || sides.len() % 2 != 0 {
        return false;
    }
    let block = &mut out[..sides.len()];
    player.block(block);
    &*block == sides
}

// Makes a call, and again if it was out of memory, after comparing the player's frames with those before.
fn try_call<'a>(
    alloc: Global,
    player: &mut Player<'a>,
    bank: &mut Bank<'a>,
    call: Call,
    expected: (i16, i16),
) -> Outcome {
    if let Some(note) = note_of(call) {
        return started(alloc, player, bank, &note, expected);
    }
    match step_of(alloc, call) {
        Some(step) => applied(alloc, player, bank, step, expected),
        None => Outcome::Wrong,
    }
}

fn started<'a>(
    alloc: Global,
    player: &mut Player<'a>,
    bank: &Bank<'a>,
    note: &Note,
    expected: (i16, i16),
) -> Outcome {
    match player.start(alloc, bank, note) {
        Ok(()) => Outcome::Done,
        Err(_) => {
            let unchanged = gives(player, expected);
            Outcome::refused(unchanged && player.start(alloc, bank, note).is_ok())
        }
    }
}

fn applied<'a>(
    alloc: Global,
    player: &mut Player<'a>,
    bank: &mut Bank<'a>,
    step: Step<'a>,
    expected: (i16, i16),
) -> Outcome {
    let file = file_of(bank);
    match apply(alloc, bank, Edit::One(step)) {
        Ok(_) => Outcome::Done,
        Err((Refusal::OutOfMemory, edit)) => {
            let unchanged = gives(player, expected) && file_of(bank).has(file.text());
            Outcome::refused(unchanged && apply(alloc, bank, edit).is_ok())
        }
        Err(_) => Outcome::Wrong,
    }
}

// Whether the next four frames are all this frame.
fn gives(player: &mut Player<'_>, expected: (i16, i16)) -> bool {
    let (left, right) = expected;
    let mut out = [0; 8];
    player.block(&mut out);
    out == [left, right, left, right, left, right, left, right]
}

// The note that a call starts; `None` for an edit.
fn note_of(call: Call) -> Option<Note> {
    let (number, key) = match call {
        Call::Start => (0, 60),
        Call::Outside => (0, 101),
        Call::Absent => (1, 60),
        Call::Left | Call::Longer | Call::Shorter | Call::Fewer => return None,
    };
    Note::new(0, 1000, 0, number, key, 127)
}

// The edit of a call; `None` for a start.
fn step_of<'a>(alloc: Global, call: Call) -> Option<Step<'a>> {
    let owner = Owner::Inst(0);
    match call {
        Call::Start | Call::Outside | Call::Absent => None,
        Call::Left => Some(Step::Setting(
            owner,
            Place::Zone(0),
            SettingStep::SetGen {
                operator: 17,
                amount: (-500i16).cast_unsigned(),
            },
        )),
        Call::Longer => Some(Step::Points(
            0,
            PointStep::Extend {
                front: Points::of_slice(alloc, &POINT).ok()?,
                back: Points::of_slice(alloc, &POINT).ok()?,
            },
        )),
        Call::Shorter => Some(Step::Points(0, PointStep::Trim { front: 2, back: 2 })),
        Call::Fewer => Some(Step::Zone(owner, ZoneStep::RemoveZone { zone: 0 })),
    }
}
