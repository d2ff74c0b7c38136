//! The handle of a player, which C stores.
ghost use Rattle.std.specs.Prelude.{◌≡◌, ◌∷◌, [], cond, length, MatchOption};

use crate::open_player::OpenPlayer;
use crate::sealed_player::SealedPlayer;
use c_loans::Parts;
use std::alloc::Global;
use std::mem;

/// A handle: closed, as C makes it of zeros, or open, when it owns a player.
#[repr(C)]
pub struct PlayerHandle {
    pub is_open: bool,
    pub sealed: SealedPlayer,
    pub ghost agrees: { length sealed.held ≡ cond is_open 1 0 },
}

impl Drop for PlayerHandle {
    fn drop(self) {
        drop(self.into_box());
    }
}

impl PlayerHandle {
    /// A closed handle.
    pub fn closed(alloc: Global) -> PlayerHandle
        ensures { result.sealed.held ≡ [] }
    {
        PlayerHandle {
            is_open: false,
            sealed: SealedPlayer::empty(alloc),
        }
    }

    /// An open handle.
    pub fn of_box(player: Box<OpenPlayer>) -> PlayerHandle
        ensures { result.sealed.held ≡ player.value ∷ [] }
    {
        PlayerHandle {
            is_open: true,
            sealed: SealedPlayer::of_parts(Parts::of(player)),
        }
    }

    /// Takes the player out, if the handle is open, and leaves it closed.
    pub fn take(&mut self, alloc: Global) -> Option<Box<OpenPlayer>>
        ensures taken { MatchOption result (self.old.sealed.held ≡ []) (λ player. self.old.sealed.held ≡ player.value ∷ []) }
        ensures closed { self.new.sealed.held ≡ [] }
    {
        mem::replace(self, PlayerHandle::closed(alloc)).into_box()
    }

    /// Puts a player into a closed handle. Nothing is freed.
    pub fn put(&mut self, player: Box<OpenPlayer>)
        requires { self.old.sealed.held ≡ [] }
        ensures { self.new.sealed.held ≡ player.value ∷ [] }
    {
        mem::forget(mem::replace(self, PlayerHandle::of_box(player)));
    }

    /// The player, if the handle is open.
    pub fn into_box(self) -> Option<Box<OpenPlayer>>
        ensures { MatchOption result (self.sealed.held ≡ []) (λ player. self.sealed.held ≡ player.value ∷ []) }
    {
        let PlayerHandle { is_open, sealed } = self;
        if is_open {
            Some(sealed.into_parts().into_box())
        } else {
            None
        }
    }
}

fn crosses<T: Send>(_value: &T) {}

/// Compiles where C may pass a handle to another thread.
pub fn player_handle_crosses(handle: &PlayerHandle) {
    crosses(handle);
}
