//! The calls that edit banks.
ghost use Rattle.std.specs.Prelude.{◌≡◌, [], pos, length};
ghost use Rattle.sfbank_c.specs.BankSlots.{bank_in, open_status};
ghost use Rattle.sfbank_c.specs.Banks.{OnBank};
ghost use Rattle.sfbank_c.specs.Scripts.{AnswersScript};
ghost use Rattle.sfbank_c.specs.Sessions.{AnswersUndo, AnswersRedo, session_status};

use crate::bank_handle::BankHandle;
use crate::bank_slots::{put_bank, take_bank};
use crate::scripts::run_script;
use crate::status::OK;
use edit_refusals::Refusal;
use inverse_edits::Session;
use std::alloc::Global;

/// Runs a script, up to the first edit that is refused. The pool has the bytes of the script's literals; they stay
/// where they are, unchanged, while a bank or player borrows from them.
#[unsafe(no_mangle)]
pub extern "C" fn sfbank_abi_apply(
    alloc: Global,
    banks: &mut [BankHandle],
    script: &[u8],
    pool: &'static [u8],
    line: &mut u64,
) -> i32
    ensures applied { OnBank (λ old new. AnswersScript old new script.now pool.now result line.new) (bank_in banks.old) (bank_in banks.new) }
    ensures absent { bank_in banks.old ≡ [] → (result ≡ open_status banks.old (pos 0)) × (line.new ≡ 0) }
{
    match take_bank(alloc, banks) {
        Ok(mut bank) => {
            let status = apply(alloc, &mut bank.session, script, pool, line);
            put_bank(banks, bank);
            status
        }
        Err(why) => {
            *line = 0;
            why
        }
    }
}

/// Undoes the last edit.
#[unsafe(no_mangle)]
pub extern "C" fn sfbank_abi_undo(alloc: Global, banks: &mut [BankHandle]) -> i32
    ensures undone { OnBank (λ old new. AnswersUndo old new result) (bank_in banks.old) (bank_in banks.new) }
    ensures absent { bank_in banks.old ≡ [] → result ≡ open_status banks.old (pos 0) }
{
    match take_bank(alloc, banks) {
        Ok(mut bank) => {
            let status = status_of(bank.session.undo(alloc));
            put_bank(banks, bank);
            status
        }
        Err(why) => why,
    }
}

/// Redoes the edit that was undone last.
#[unsafe(no_mangle)]
pub extern "C" fn sfbank_abi_redo(alloc: Global, banks: &mut [BankHandle]) -> i32
    ensures redone { OnBank (λ old new. AnswersRedo old new result) (bank_in banks.old) (bank_in banks.new) }
    ensures absent { bank_in banks.old ≡ [] → result ≡ open_status banks.old (pos 0) }
{
    match take_bank(alloc, banks) {
        Ok(mut bank) => {
            let status = status_of(bank.session.redo(alloc));
            put_bank(banks, bank);
            status
        }
        Err(why) => why,
    }
}

// Runs a script on a session, and returns the status.
fn apply<'a>(
    alloc: Global,
    session: &mut Session<'a>,
    script: &[u8],
    pool: &'a [u8],
    line: &mut u64,
) -> i32
    ensures { AnswersScript session.old session.new script.now pool.now result line.new }
{
    match run_script(alloc, session, script, pool) {
        Ok(()) => {
            *line = 0;
            OK
        }
        Err(stop) => {
            *line = stop.line();
            stop.number()
        }
    }
}

fn status_of(moved: Result<(), Refusal>) -> i32
    ensures { result ≡ session_status moved }
{
    match moved {
        Ok(()) => OK,
        Err(why) => i32::from(why.number()),
    }
}
