//! Tests of a note that plays while neutral edits are applied to its bank, and of the same note started after them.
ghost use Rattle.std.specs.Prelude.{◌≡◌, ◌%◌};

use bank_core::{Bank, Owner};
use edit_forms::{Axis, Edit, Step, ZoneStep};
use mixer::Player;
use script_notes::Note;
use sf_reader::read;
use sound_neutral_edits::{apply_neutral, is_neutral};
use std::alloc::Global;
use std::test::Fail;
use test_inputs::tone;

// Whether the next block has these samples, left and right in turn.
fn next_block_is<const N: usize>(player: &mut Player<'_>, sides: [i16; N]) -> bool
    requires { N % 2 ≡ 0 }
{
    let mut out = [0; N];
    player.block(&mut out);
    out == sides
}

// Whether an edit is neutral and was applied.
fn is_done<'a>(alloc: Global, bank: &mut Bank<'a>, step: Step<'a>) -> bool {
    let edit = Edit::One(step);
    if !is_neutral(&edit) {
        return false;
    }
    apply_neutral(alloc, bank, edit).is_ok()
}

// Splits the only zone of the instrument and exchanges its halves.
fn splits_and_exchanges_halves(alloc: Global, bank: &mut Bank<'_>) -> bool {
    let owner = Owner::Inst(0);
    let split = Step::Zone(
        owner,
        ZoneStep::SplitZone {
            zone: 0,
            axis: Axis::Key,
            at: 60,
        },
    );
    let turn = Step::Zone(owner, ZoneStep::MoveZone { from: 0, to: 1 });
    is_done(alloc, bank, split) && is_done(alloc, bank, turn)
}

#[test]
fn a_note_while_its_zone_is_split(rt: HostRuntime) -> Result<(), Fail> {
    let file = tone();
    let (mut bank, _counts) = read(rt.alloc(), file.bytes())?;
    let note = Note::new(0, 8, 0, 0, 67, 127).expect(&rt, "a note");
    let mut player = Player::new(rt.alloc());
    player.start(rt.alloc(), &bank, &note)?;
    assert!(rt; next_block_is(&mut player, [500, 500, 3, 3, 993, 993]));
    assert!(rt; splits_and_exchanges_halves(rt.alloc(), &mut bank));
    assert!(rt;
        next_block_is(
            &mut player,
            [-11, -11, -987, -987, 16, 16, 979, 979, -24, -24]
        )
    );
    player.start(rt.alloc(), &bank, &note)?;
    assert!(rt;
        next_block_is(
            &mut player,
            [
                500, 500, 3, 3, 993, 993, -11, -11, -987, -987, 16, 16, 979, 979, -24, -24
            ]
        )
    );
    Ok(())
}
