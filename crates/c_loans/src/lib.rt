//! Banks and players for C that own shares of the lifetimes of the bytes that they borrow: a player's voices borrow for
//! the meet of the lifetimes of its banks.
#![tactic(auto)]

mod pair;
mod parts;

pub use pair::{BankPtr, Call, Pair, PlayerPtr, play, start};
pub use parts::Parts;
