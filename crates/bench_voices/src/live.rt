//! Plays notes as in a live session: all held together, block by block.
ghost use Rattle.std.specs.Prelude.{◌≤◌};

use crate::blocks::MAX_BLOCK;
use base_progress::NoReports;
use mixer::Player;
use script_notes::parse_notes;
use sf_reader::read;
use std::alloc::Global;
use std::io;

/// A player that holds all notes of a note list on a file's bank.
pub(crate) fn player_of<'a>(alloc: Global, file: &'a [u8], notes: &[u8]) -> io::Result<Player<'a>> {
    let Ok((bank, _counts)) = read(alloc, file) else {
        return Err(io::Error::from(io::ErrorKind::InvalidData));
    };
    let Ok(notes) = parse_notes(alloc, notes) else {
        return Err(io::Error::from(io::ErrorKind::InvalidData));
    };
    let mut player = Player::new(alloc);
    let mut handle: u64 = 0;
    for note in notes.as_slice() {
        let pressed = player.press(alloc, &bank, note, handle, &mut NoReports);
        handle = handle.wrapping_add(1);
        if pressed.is_err() {
            return Err(io::Error::from(io::ErrorKind::OutOfMemory));
        }
    }
    Ok(player)
}

/// Plays `blocks` blocks, and returns a checksum of the first sample of each.
pub(crate) fn play_blocks(player: &mut Player, block: usize, blocks: u64) -> u64
    requires { block ≤ MAX_BLOCK }
{
    let mut out = [0i16; 2 * MAX_BLOCK];
    let mut sum: u64 = 0;
    for _ in 0..blocks {
        player.block(&mut out[..2 * block]);
        sum = sum
            .wrapping_mul(31)
            .wrapping_add(i64::from(out[0]).cast_unsigned());
    }
    sum
}
