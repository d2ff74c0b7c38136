//! What a player's handle owns.

use mixer::Player;

/// A player whose voices borrow from files and pools.
#[derive(Drop)]
pub struct OpenPlayer {
    pub player: Player<'static>,
}
