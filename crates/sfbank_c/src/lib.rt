//! The library for C: banks with undo and redo, and players, behind handles that C stores.
//!
//! `c/sfbank.h` declares the calls. Each restates the contract of the call that it makes, over what the handles own; a
//! handle that is null, closed or open at the wrong time is an error number.
#![tactic(auto)]

ghost use Rattle.std.specs.Prelude.{◌≡◌};

mod bank_handle;
mod bank_slots;
mod banks;
mod edits;
mod files;
mod floats;
mod notes;
mod open_bank;
mod open_player;
mod player_handle;
mod player_slots;
mod players;
mod scripts;
mod sealed_bank;
mod sealed_player;
mod status;
mod texts;

pub use bank_handle::{BankHandle, bank_handle_crosses};
pub use banks::{
    sfbank_abi_close, sfbank_abi_count, sfbank_abi_name, sfbank_abi_open, sfbank_abi_preset,
};
pub use edits::{sfbank_abi_apply, sfbank_abi_redo, sfbank_abi_undo};
pub use files::{
    sfbank_abi_file, sfbank_abi_file_size, sfbank_abi_pool, sfbank_abi_pool_size,
    sfbank_abi_undo_script, sfbank_abi_undo_size,
};
pub use floats::sfbank_abi_block_float;
pub use open_bank::OpenBank;
pub use open_player::OpenPlayer;
pub use player_handle::{PlayerHandle, player_handle_crosses};
pub use players::{
    sfbank_abi_block, sfbank_abi_close_player, sfbank_abi_player, sfbank_abi_press,
    sfbank_abi_release, sfbank_abi_release_all, sfbank_abi_start, sfbank_abi_stop,
    sfbank_abi_voices,
};
pub use scripts::{RefusedLine, ScriptStop};
pub use sealed_bank::SealedBank;
pub use sealed_player::SealedPlayer;

/// The version of the interface.
pub const ABI: u32 = 1;

/// Returns the version of the interface.
#[unsafe(no_mangle)]
pub extern "C" fn sfbank_abi_version() -> u32
    ensures { result ≡ ABI }
{
    ABI
}
