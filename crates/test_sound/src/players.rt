//! Tests of `Player`: blocks of any length, and banks edited while notes play.

use crate::started_voices::{THREE, file_of};
use bank_core::{Bank, Owner, Place};
use bank_edits::{Edit, PointStep, SettingStep, Step, ZoneStep, apply};
use mixer::Player;
use sample_view::Points;
use script_notes::Note;
use sf_reader::read;
use std::alloc::Global;
use std::test::Fail;
use test_inputs::tone;

/// One action on a bank or a player.
#[derive(Clone, Copy)]
pub(crate) enum Action {
    /// Starts a note of this length in frames and this key, on preset 0 of bank 0.
    Start(u32, u8),
    /// Plays a block and expects these samples, left and right of each frame in turn.
    Block(&'static [i16]),
    /// Removes the first point of the sample.
    Trim,
    /// Adds the point 11 before the sample's points and 12 after them.
    Extend,
    /// Removes the only zone of the instrument.
    RemoveZone,
    /// Removes the exclusive class from the only zone of the instrument.
    ClearClass,
}

// The step of an action that edits the bank; `None` for the others.
fn step_of<'a>(alloc: Global, action: Action) -> Result<Option<Step<'a>>, Fail> {
    let owner = Owner::Inst(0);
    Ok(match action {
        Action::Start(_, _) | Action::Block(_) => None,
        Action::Trim => Some(Step::Points(0, PointStep::Trim { front: 1, back: 0 })),
        Action::Extend => Some(extension(alloc)?),
        Action::RemoveZone => Some(Step::Zone(owner, ZoneStep::RemoveZone { zone: 0 })),
        Action::ClearClass => Some(Step::Setting(
            owner,
            Place::Zone(0),
            SettingStep::ClearGen { operator: 57 },
        )),
    })
}

fn extension<'a>(alloc: Global) -> Result<Step<'a>, Fail> {
    let front = Points::of_slice(alloc, &[11, 0])?;
    let back = Points::of_slice(alloc, &[12, 0])?;
    Ok(Step::Points(0, PointStep::Extend { front, back }))
}

/// Applies the edit of an action. Returns false if it is refused, and true if the action has no edit.
pub(crate) fn edits<'a>(alloc: Global, bank: &mut Bank<'a>, action: Action) -> Result<bool, Fail> {
    Ok(match step_of(alloc, action)? {
        Some(step) => apply(alloc, bank, Edit::One(step)).is_ok(),
        None => true,
    })
}

// Whether the next block has these samples, at most 24.
fn next_block_is(player: &mut Player<'_>, sides: &[i16]) -> bool {
    let mut out = [0; 24];
    if sides.len() > out.len() || sides.len() % 2 != 0 {
        return false;
    }
    let block = &mut out[..sides.len()];
    player.block(block);
    &*block == sides
}

// Whether all actions succeed, and their blocks have the expected samples, starting from the bank of a file.
fn plays_as_expected(alloc: Global, file: &[u8], actions: &[Action]) -> Result<bool, Fail> {
    let (mut bank, _counts) = read(alloc, file)?;
    let mut player = Player::new(alloc);
    for action in actions {
        let is_right = match *action {
            Action::Block(sides) => next_block_is(&mut player, sides),
            Action::Start(length, key) => match Note::new(0, length, 0, 0, key, 127) {
                Some(note) => player.start(alloc, &bank, &note).is_ok(),
                None => false,
            },
            edit => edits(alloc, &mut bank, edit)?,
        };
        if !is_right {
            return Ok(false);
        }
    }
    Ok(true)
}

// A player that has started a note of 8 frames a fifth above the sample's pitch. The bank is dropped.
fn playing<'a>(alloc: Global, file: &'a [u8]) -> Result<Player<'a>, Fail> {
    let (bank, _counts) = read(alloc, file)?;
    let mut player = Player::new(alloc);
    if let Some(note) = Note::new(0, 8, 0, 0, 67, 127) {
        player.start(alloc, &bank, &note)?;
    }
    Ok(player)
}

/// The same frames in blocks of one frame and none, of three and none, and of four.
const BLOCKS: [&[&[i16]]; 3] = [
    &[
        &[],
        &[500, 500],
        &[3, 3],
        &[993, 993],
        &[-11, -11],
        &[-987, -987],
        &[16, 16],
        &[979, 979],
        &[-24, -24],
        &[],
        &[0, 0],
        &[0, 0],
    ],
    &[
        &[500, 500, 3, 3, 993, 993],
        &[],
        &[-11, -11, -987, -987, 16, 16],
        &[979, 979, -24, -24, 0, 0],
    ],
    &[
        &[500, 500, 3, 3, 993, 993, -11, -11],
        &[-987, -987, 16, 16, 979, 979, -24, -24],
    ],
];

#[test]
fn blocks_of_any_length_from_a_bank_that_is_dropped(rt: HostRuntime) -> Result<(), Fail> {
    for (row, blocks) in BLOCKS.iter().enumerate() {
        let file = tone();
        let mut player = playing(rt.alloc(), file.bytes())?;
        for block in *blocks {
            assert!(rt; next_block_is(&mut player, block), "row {row}");
        }
    }
    Ok(())
}

#[test]
fn a_note_plays_on_while_its_bank_is_edited(rt: HostRuntime) -> Result<(), Fail> {
    let actions = [
        Action::Start(8, 67),
        Action::Block(&[500, 500, 3, 3, 993, 993]),
        Action::Trim,
        Action::RemoveZone,
        Action::Block(&[-11, -11, -987, -987, 16, 16, 979, 979, -24, -24]),
        Action::Start(8, 67),
        Action::Block(&[0; 16]),
    ];
    assert!(rt; plays_as_expected(rt.alloc(), tone().bytes(), &actions)?);
    Ok(())
}

/// A sample of the points 1 to 10 with a loop.
pub(crate) const TEN: &[u8] =
    b"add-sample 0 \"n\" 44100 60 0 mono loop 4 6 x0100020003000400050006000700080009000a00\n";

const OF_CLASS_1: &[u8] = b"add-inst 0 \"i\" { 0 g 54 1 g 57 1 }\n";

/// Samples, instruments that play them, and actions on the bank and its player.
const PLAYED: [(&[u8], &[u8], &[Action]); 3] = [
    // A block crosses from one slice of the sample's points to the next.
    (
        TEN,
        b"add-inst 0 \"i\" { 0 }\n",
        &[
            Action::Extend,
            Action::Start(12, 60),
            Action::Block(&[
                5, 5, 0, 0, 1, 1, 1, 1, 2, 2, 2, 2, 3, 3, 3, 3, 4, 4, 4, 4, 5, 5, 6, 6,
            ]),
        ],
    ),
    // A started note silences the voice of the same exclusive class.
    (
        THREE,
        OF_CLASS_1,
        &[
            Action::Start(8, 67),
            Action::Block(&[500, 500, 3, 3, 993, 993, -11, -11]),
            Action::Start(4, 60),
            Action::Block(&[500, 500, 1000, 1000, -1000, -1000, 1000, 1000]),
        ],
    ),
    // A voice keeps its exclusive class of the time when its note started.
    (
        THREE,
        OF_CLASS_1,
        &[
            Action::Start(8, 67),
            Action::Block(&[500, 500, 3, 3, 993, 993, -11, -11]),
            Action::ClearClass,
            Action::Start(4, 60),
            Action::Block(&[-487, -487, 1016, 1016, -21, -21, 976, 976]),
        ],
    ),
];

#[test]
fn slices_and_classes(rt: HostRuntime) -> Result<(), Fail> {
    for (row, (sample, instrument, actions)) in PLAYED.into_iter().enumerate() {
        let file = file_of(rt.alloc(), sample, instrument)?;
        assert!(rt;
            plays_as_expected(rt.alloc(), file.as_slice(), actions)?,
            "row {row}"
        );
    }
    Ok(())
}
