//! The calls of players.
ghost use Rattle.std.specs.Prelude.{◌≡◌, ◌/◌, ◌∷◌, [], pos, map, length, None, Some};
ghost use Rattle.script_notes.specs.declared.limits.TheConstants.{LAST_FRAME};
ghost use Rattle.mixer.specs.declared.playing.Release.TheVariants.{One, All};
ghost use Rattle.sfbank_c.specs.BankSlots.{bank_in};
ghost use Rattle.sfbank_c.specs.PlayerSlots.{player_in, open_status, closed_status};
ghost use Rattle.sfbank_c.specs.Players.{silent, block_status, frames_of, later};
ghost use Rattle.sfbank_c.specs.Players.{released, voice_count};
ghost use Rattle.sfbank_c.specs.Starts.{note_from, start_status, started};
ghost use Rattle.mixer.specs.Events.{block};

use crate::bank_handle::BankHandle;
use crate::notes::start_on;
use crate::open_player::OpenPlayer;
use crate::player_handle::PlayerHandle;
use crate::player_slots::{check_no_player, put_player, take_player};
use crate::status::{BAD_LENGTH, OK, OUT_OF_MEMORY};
use mixer::{Player, Release};
use script_notes::{LAST_FRAME, Note};
use std::alloc::Global;

/// Makes a player without voices.
#[unsafe(no_mangle)]
pub extern "C" fn sfbank_abi_player(alloc: Global, players: &mut [PlayerHandle]) -> i32
    ensures status { (result ≡ OUT_OF_MEMORY → ⊥) → result ≡ closed_status players.old (pos 0) }
    ensures memory { result ≡ OUT_OF_MEMORY → closed_status players.old (pos 0) ≡ pos 0 }
    ensures opened { result ≡ pos 0 → player_in players.new ≡ silent ∷ [] }
    ensures refused { (result ≡ pos 0 → ⊥) → player_in players.new ≡ player_in players.old }
{
    match check_no_player(players) {
        Ok(()) => {}
        Err(why) => return why,
    }
    let player = Player::new(alloc);
    match Box::new(alloc, OpenPlayer { player }) {
        Ok(player) => {
            put_player(players, player);
            OK
        }
        Err(_) => OUT_OF_MEMORY,
    }
}

/// Starts a note that lasts until the release of its id, but at most 100,000,000 frames.
#[unsafe(no_mangle)]
pub extern "C" fn sfbank_abi_press(
    alloc: Global,
    players: &mut [PlayerHandle],
    banks: &mut [BankHandle],
    preset_bank: u16,
    preset: u16,
    key: u8,
    velocity: u8,
    id: u64,
) -> i32
    ensures status { (result ≡ OUT_OF_MEMORY → ⊥) → result ≡ start_status players.old banks.old (note_from LAST_FRAME preset_bank preset key velocity) }
    ensures memory { result ≡ OUT_OF_MEMORY → start_status players.old banks.old (note_from LAST_FRAME preset_bank preset key velocity) ≡ pos 0 }
    ensures pressed { result ≡ pos 0 → player_in players.new ≡ map (started banks.old (Some id) (note_from LAST_FRAME preset_bank preset key velocity)) (player_in players.old) }
    ensures refused { (result ≡ pos 0 → ⊥) → player_in players.new ≡ player_in players.old }
    ensures bank { bank_in banks.new ≡ bank_in banks.old }
{
    match take_player(alloc, players) {
        Ok(mut player) => {
            let note = Note::new(0, LAST_FRAME as u32, preset_bank, preset, key, velocity);
            let status = start_on(alloc, &mut player, banks, note, Some(id));
            put_player(players, player);
            status
        }
        Err(why) => why,
    }
}

/// Starts a note of a length in frames.
#[unsafe(no_mangle)]
pub extern "C" fn sfbank_abi_start(
    alloc: Global,
    players: &mut [PlayerHandle],
    banks: &mut [BankHandle],
    preset_bank: u16,
    preset: u16,
    key: u8,
    velocity: u8,
    length: u32,
) -> i32
    ensures status { (result ≡ OUT_OF_MEMORY → ⊥) → result ≡ start_status players.old banks.old (note_from length preset_bank preset key velocity) }
    ensures memory { result ≡ OUT_OF_MEMORY → start_status players.old banks.old (note_from length preset_bank preset key velocity) ≡ pos 0 }
    ensures started { result ≡ pos 0 → player_in players.new ≡ map (started banks.old None (note_from length preset_bank preset key velocity)) (player_in players.old) }
    ensures refused { (result ≡ pos 0 → ⊥) → player_in players.new ≡ player_in players.old }
    ensures bank { bank_in banks.new ≡ bank_in banks.old }
{
    match take_player(alloc, players) {
        Ok(mut player) => {
            let note = Note::new(0, length, preset_bank, preset, key, velocity);
            let status = start_on(alloc, &mut player, banks, note, None);
            put_player(players, player);
            status
        }
        Err(why) => why,
    }
}

/// Releases the pressed notes with an id. Allocates nothing.
#[unsafe(no_mangle)]
pub extern "C" fn sfbank_abi_release(alloc: Global, players: &mut [PlayerHandle], id: u64) -> i32
    ensures status { result ≡ open_status players.old (pos 0) }
    ensures released { player_in players.new ≡ map (released (One id)) (player_in players.old) }
{
    match take_player(alloc, players) {
        Ok(mut player) => {
            player.player.release(Release::One(id));
            put_player(players, player);
            OK
        }
        Err(why) => why,
    }
}

/// Releases all pressed notes. Allocates nothing.
#[unsafe(no_mangle)]
pub extern "C" fn sfbank_abi_release_all(alloc: Global, players: &mut [PlayerHandle]) -> i32
    ensures status { result ≡ open_status players.old (pos 0) }
    ensures released { player_in players.new ≡ map (released All) (player_in players.old) }
{
    match take_player(alloc, players) {
        Ok(mut player) => {
            player.player.release(Release::All);
            put_player(players, player);
            OK
        }
        Err(why) => why,
    }
}

/// Ends all voices at once. Allocates nothing.
#[unsafe(no_mangle)]
pub extern "C" fn sfbank_abi_stop(alloc: Global, players: &mut [PlayerHandle]) -> i32
    ensures status { result ≡ open_status players.old (pos 0) }
    ensures stopped { result ≡ pos 0 → player_in players.new ≡ silent ∷ [] }
    ensures refused { (result ≡ pos 0 → ⊥) → player_in players.new ≡ player_in players.old }
{
    match take_player(alloc, players) {
        Ok(mut player) => {
            player.player.stop();
            put_player(players, player);
            OK
        }
        Err(why) => why,
    }
}

/// Counts the voices that sound at the next frame. Allocates nothing.
#[unsafe(no_mangle)]
pub extern "C" fn sfbank_abi_voices(
    alloc: Global,
    players: &mut [PlayerHandle],
    count: &mut usize,
) -> i32
    ensures status { result ≡ open_status players.old (pos 0) }
    ensures counted { result ≡ pos 0 → count.new ≡ voice_count (player_in players.old) }
    ensures unchanged { (result ≡ pos 0 → ⊥) → count.new ≡ count.old }
    ensures player { player_in players.new ≡ player_in players.old }
{
    match take_player(alloc, players) {
        Ok(mut player) => {
            *count = player.player.count();
            put_player(players, player);
            OK
        }
        Err(why) => why,
    }
}

/// Plays the next frames, left and right interleaved. Allocates nothing.
#[unsafe(no_mangle)]
pub extern "C" fn sfbank_abi_block(
    alloc: Global,
    players: &mut [PlayerHandle],
    out: &mut [i16],
) -> i32
    ensures status { result ≡ open_status players.old (block_status (length out.old)) }
    ensures heard { result ≡ pos 0 → out.new ≡ frames_of (player_in players.old) (length out.old / 2) }
    ensures played { result ≡ pos 0 → player_in players.new ≡ map (later (length out.old / 2)) (player_in players.old) }
    ensures unchanged { (result ≡ pos 0 → ⊥) → out.new ≡ out.old }
    ensures refused { (result ≡ pos 0 → ⊥) → player_in players.new ≡ player_in players.old }
{
    match take_player(alloc, players) {
        Ok(mut player) => {
            let status = write_block(&mut player, out);
            put_player(players, player);
            status
        }
        Err(why) => why,
    }
}

// Plays the next frames, unless the values are no whole frames.
fn write_block(player: &mut OpenPlayer, out: &mut [i16]) -> i32
    ensures status { result ≡ block_status (length out.old) }
    ensures heard { result ≡ pos 0 → out.new ≡ block player.old.player (length out.old / 2) }
    ensures played { result ≡ pos 0 → player.new ≡ later (length out.old / 2) player.old }
    ensures unchanged { (result ≡ pos 0 → ⊥) → out.new ≡ out.old }
    ensures refused { (result ≡ pos 0 → ⊥) → player.new ≡ player.old }
{
    if out.len() % 2 != 0 {
        return BAD_LENGTH;
    }
    player.player.block(out);
    OK
}

/// Closes the handle of a player, if it is open.
#[unsafe(no_mangle)]
pub extern "C" fn sfbank_abi_close_player(alloc: Global, players: &mut [PlayerHandle]) -> i32
    ensures status { result ≡ open_status players.old (pos 0) }
    ensures closed { player_in players.new ≡ [] }
{
    match take_player(alloc, players) {
        Ok(player) => {
            drop(player);
            OK
        }
        Err(why) => why,
    }
}
