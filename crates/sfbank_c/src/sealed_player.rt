//! A pointer that owns an open player, or nothing.
ghost use Rattle.std.specs.Prelude.{◌≡◌, ◌∷◌, [], List, length};
ghost use Rattle.sfbank_c.specs.declared.open_player.OpenPlayer.{OpenPlayer};
ghost use Rattle.sfbank_c.specs.Owned.{player_coded, player_owned};

use crate::open_player::OpenPlayer;
use c_loans::Parts;
use std::alloc::Global;
use std::marker::Model;
use std::ptr;

/// A pointer to an open player on the heap, which it owns, or a pointer that owns nothing. C sees the pointer alone.
// The derived drop is for one that owns nothing: it frees no player.
#[repr(C)]
#[derive(Drop)]
pub struct SealedPlayer {
    at: *mut u8,
    alloc: Global,
    pub ghost held: { List OpenPlayer } by { player_coded },
}

impl Model for SealedPlayer {
    ghost also_owns = { λ s. player_owned s.alloc s.at s.held };
}

impl SealedPlayer {
    /// Owns nothing.
    pub fn empty(alloc: Global) -> SealedPlayer
        ensures { result.held ≡ [] }
    {
        SealedPlayer {
            at: ptr::null_mut(),
            alloc,
        }
    }

    /// Owns what the parts of a box own.
    pub fn of_parts(parts: Parts<OpenPlayer, Global>) -> SealedPlayer
        ensures { result.held ≡ parts.value ∷ [] }
    {
        let Parts { ptr, alloc } = parts;
        SealedPlayer {
            at: ptr.cast::<u8>(),
            alloc,
        }
    }

    /// The parts of the box.
    pub fn into_parts(self) -> Parts<OpenPlayer, Global>
        requires { length self.held ≡ 1 }
        ensures { self.held ≡ result.value ∷ [] }
    {
        let SealedPlayer { at, alloc } = self;
        Parts {
            ptr: at.cast::<OpenPlayer>(),
            alloc,
        }
    }
}

unsafe impl Send for SealedPlayer {}
