//! Frames as floats, left and right apart.
ghost use Rattle.std.specs.Prelude.{◌≡◌, ◌≤◌, ◌*◌, pos, length, map};
ghost use Rattle.mixer.specs.Events.{block};
ghost use Rattle.sfbank_c.specs.PlayerSlots.{player_in, open_status};
ghost use Rattle.sfbank_c.specs.Players.{float_status, frames_of, later};
ghost use Rattle.sfbank_c.specs.Floats.{scaled, AreSides, ScaledIsExact};

use crate::open_player::OpenPlayer;
use crate::player_handle::PlayerHandle;
use crate::player_slots::{put_player, take_player};
use crate::status::{BAD_LENGTH, OK};
use std::alloc::Global;

/// The value of a step between 16-bit values.
const STEP: f32 = 1.0 / 32768.0;

/// The frames that are played at a time.
const PART: usize = 128;

/// Their values, left and right in turn.
const PART_SIDES: usize = 2 * PART;

/// Plays the next frames like `sfbank_abi_block`, as floats, left and right apart. Allocates nothing.
#[tactic(auto, using(crate::proofs::FloatLaws::scaled_is_exact))]
#[unsafe(no_mangle)]
pub extern "C" fn sfbank_abi_block_float(
    alloc: Global,
    players: &mut [PlayerHandle],
    left: &mut [f32],
    right: &mut [f32],
) -> i32
    ensures status { result ≡ open_status players.old (float_status (length left.old) (length right.old)) }
    ensures heard { result ≡ pos 0 → AreSides (frames_of (player_in players.old) (length left.old)) left.new right.new }
    ensures exact { ScaledIsExact }
    ensures played { result ≡ pos 0 → player_in players.new ≡ map (later (length left.old)) (player_in players.old) }
    ensures unchanged { (result ≡ pos 0 → ⊥) → (left.new ≡ left.old) × (right.new ≡ right.old) }
    ensures refused { (result ≡ pos 0 → ⊥) → player_in players.new ≡ player_in players.old }
{
    match take_player(alloc, players) {
        Ok(mut player) => {
            let status = write_sides(&mut player, left, right);
            put_player(players, player);
            status
        }
        Err(why) => why,
    }
}

// Plays the next frames, unless there are more on one side.
fn write_sides(player: &mut OpenPlayer, left: &mut [f32], right: &mut [f32]) -> i32
    ensures status { result ≡ float_status (length left.old) (length right.old) }
    ensures heard { result ≡ pos 0 → AreSides (block player.old.player (length left.old)) left.new right.new }
    ensures played { result ≡ pos 0 → player.new ≡ later (length left.old) player.old }
    ensures unchanged { (result ≡ pos 0 → ⊥) → (left.new ≡ left.old) × (right.new ≡ right.old) }
    ensures refused { (result ≡ pos 0 → ⊥) → player.new ≡ player.old }
{
    if left.len() != right.len() {
        return BAD_LENGTH;
    }
    write_parts(player, left, right);
    OK
}

// Plays the next frames in parts.
fn write_parts(player: &mut OpenPlayer, left: &mut [f32], right: &mut [f32])
    requires { length right.old ≡ length left.old }
    ensures heard { AreSides (block player.old.player (length left.old)) left.new right.new }
    ensures played { player.new ≡ later (length left.old) player.old }
{
    // Only for its contract: a block without frames changes nothing.
    player.player.block(&mut []);
    let mut at = 0;
    while at < left.len() {
        let end = left.len().min(at + PART);
        write_part(player, &mut left[at..end], &mut right[at..end]);
        at = end;
    }
}

// Plays at most 128 frames.
fn write_part(player: &mut OpenPlayer, left: &mut [f32], right: &mut [f32])
    requires equal { length right.old ≡ length left.old }
    requires few { length left.old ≤ PART }
    ensures heard { AreSides (block player.old.player (length left.old)) left.new right.new }
    ensures played { player.new ≡ later (length left.old) player.old }
{
    let mut values = [0; PART_SIDES];
    let values = &mut values[..2 * left.len()];
    player.player.block(values);
    split_sides(values, left, right);
}

// Writes the left and the right values to their sides.
fn split_sides(values: &[i16], left: &mut [f32], right: &mut [f32])
    requires whole { length values.now ≡ 2 * length left.old }
    requires equal { length right.old ≡ length left.old }
    ensures { AreSides values.now left.new right.new }
{
    for k in 0..left.len() {
        left[k] = scaled(values[2 * k]);
        right[k] = scaled(values[2 * k + 1]);
    }
}

// A value divided by 32,768.
#[tactic(auto, unfolding(crate::specs::Floats::scaled))]
fn scaled(value: i16) -> f32
    ensures { result ≡ scaled value }
{
    STEP * f32::from(value)
}
