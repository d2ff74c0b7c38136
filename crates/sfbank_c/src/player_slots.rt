//! What C passes as the handle of a player: null, closed or open.
ghost use Rattle.std.specs.Prelude.{◌≡◌, ◌<◌, ◌∷◌, ℤ, [], pos, length, IfOk, IfErr, OnOk, OnErr};
ghost use Rattle.sfbank_c.specs.PlayerSlots.{player_in, open_status, closed_status};

use crate::open_player::OpenPlayer;
use crate::player_handle::PlayerHandle;
use crate::status::{IN_USE, NOT_OPEN, NULL};
use std::alloc::Global;

/// Takes the player out of an open handle, and leaves it closed. The error is the number for C.
pub(crate) fn take_player(
    alloc: Global,
    handles: &mut [PlayerHandle],
) -> Result<Box<OpenPlayer>, i32>
    ensures taken { IfOk result (λ player. player_in handles.old ≡ player.value ∷ []) }
    ensures closed { player_in handles.new ≡ [] }
    ensures there { OnOk result (0 < length handles.old) }
    ensures absent { OnErr result (player_in handles.old ≡ []) }
    ensures open { OnOk result ((status : ℤ) → open_status handles.old status ≡ status) }
    ensures number { IfErr result (λ why. (status : ℤ) → open_status handles.old status ≡ why) }
    ensures error { IfErr result (λ why. why ≡ pos 0 → ⊥) }
{
    if handles.is_empty() {
        return Err(NULL);
    }
    match handles[0].take(alloc) {
        Some(player) => Ok(player),
        None => Err(NOT_OPEN),
    }
}

/// Puts a player into a closed handle.
pub(crate) fn put_player(handles: &mut [PlayerHandle], player: Box<OpenPlayer>)
    requires there { 0 < length handles.old }
    requires closed { player_in handles.old ≡ [] }
    ensures { player_in handles.new ≡ player.value ∷ [] }
{
    handles[0].put(player);
}

/// Whether the handle is closed. The error is the number for C.
pub(crate) fn check_no_player(handles: &mut [PlayerHandle]) -> Result<(), i32>
    ensures same { player_in handles.new ≡ player_in handles.old }
    ensures there { OnOk result (0 < length handles.old) }
    ensures closed { OnOk result (player_in handles.old ≡ []) }
    ensures free { OnOk result ((status : ℤ) → closed_status handles.old status ≡ status) }
    ensures number { IfErr result (λ why. (status : ℤ) → closed_status handles.old status ≡ why) }
    ensures error { IfErr result (λ why. why ≡ pos 0 → ⊥) }
{
    if handles.is_empty() {
        return Err(NULL);
    }
    if handles[0].is_open {
        return Err(IN_USE);
    }
    Ok(())
}
