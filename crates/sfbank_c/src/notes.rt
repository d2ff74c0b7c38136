//! Notes that start on a player.
ghost use Rattle.std.specs.Prelude.{◌≡◌, pos};
ghost use Rattle.sfbank_c.specs.BankSlots as banks_of;
ghost use Rattle.sfbank_c.specs.BankSlots.{bank_in};
ghost use Rattle.sfbank_c.specs.Starts.{joined, new_voices, note_status, started};

use crate::bank_handle::BankHandle;
use crate::bank_slots::{put_bank, take_bank};
use crate::open_player::OpenPlayer;
use crate::status::{BAD_NOTE, OK, OUT_OF_MEMORY};
use bank_core::Bank;
use base_progress::NoReports;
use script_notes::Note;
use std::alloc::Global;

/// Starts a note on the bank of a handle, and returns the status. A note with an id is pressed.
pub(crate) fn start_on(
    alloc: Global,
    player: &mut OpenPlayer,
    banks: &mut [BankHandle],
    note: Option<Note>,
    id: Option<u64>,
) -> i32
    ensures status { (result ≡ OUT_OF_MEMORY → ⊥) → result ≡ banks_of.open_status banks.old (note_status note) }
    ensures memory { result ≡ OUT_OF_MEMORY → banks_of.open_status banks.old (note_status note) ≡ pos 0 }
    ensures started { result ≡ pos 0 → player.new ≡ started banks.old id note player.old }
    ensures refused { (result ≡ pos 0 → ⊥) → player.new ≡ player.old }
    ensures bank { bank_in banks.new ≡ bank_in banks.old }
{
    match take_bank(alloc, banks) {
        Ok(bank) => {
            let status = start_note(alloc, player, bank.session.bank(), note, id);
            put_bank(banks, bank);
            status
        }
        Err(why) => why,
    }
}

// Starts a note on a bank, and returns the status.
fn start_note(
    alloc: Global,
    player: &mut OpenPlayer,
    bank: &Bank<'static>,
    note: Option<Note>,
    id: Option<u64>,
) -> i32
    ensures status { (result ≡ OUT_OF_MEMORY → ⊥) → result ≡ note_status note }
    ensures memory { result ≡ OUT_OF_MEMORY → note_status note ≡ pos 0 }
    ensures started { result ≡ pos 0 → player.new ≡ joined (new_voices id note bank.now) player.old }
    ensures refused { (result ≡ pos 0 → ⊥) → player.new ≡ player.old }
{
    let Some(note) = note else {
        return BAD_NOTE;
    };
    let started = match id {
        Some(id) => player.player.press(alloc, bank, &note, id, &mut NoReports),
        None => player.player.start(alloc, bank, &note),
    };
    match started {
        Ok(()) => OK,
        Err(_) => OUT_OF_MEMORY,
    }
}
