//! The calls that write texts: the canonical file, the undo script and the pool of a script.
ghost use Rattle.std.specs.Prelude.{◌≡◌, [], pos, length};
ghost use Rattle.bank_format.specs.Canon.{canon};
ghost use Rattle.sfbank_c.specs.BankSlots.{bank_in, open_status};
ghost use Rattle.sfbank_c.specs.Banks.{of_bank};
ghost use Rattle.script_tokens.specs.Pool.{pool_bytes};
ghost use Rattle.sfbank_c.specs.Texts.{fill_status, undo_script, pool_status, pool_fill_status, pool_in, pool_line};

use crate::bank_handle::BankHandle;
use crate::bank_slots::{put_bank, take_bank};
use crate::status::{BAD_LENGTH, OK, OUT_OF_MEMORY};
use crate::texts::{bytes_of, fill};
use live_sessions::UndoLines;
use script_tokens::pool_of;
use sf_base::Failure;
use sf_writer::{BankFile, encoded_len};
use std::alloc::Global;

/// Returns the length of the canonical file. Allocates nothing.
#[unsafe(no_mangle)]
pub extern "C" fn sfbank_abi_file_size(
    alloc: Global,
    banks: &mut [BankHandle],
    size: &mut u64,
) -> i32
    ensures status { result ≡ open_status banks.old (pos 0) }
    ensures size { result ≡ pos 0 → size.new ≡ of_bank 0 (λ b. length (canon b)) (bank_in banks.old) }
    ensures unchanged { (result ≡ pos 0 → ⊥) → size.new ≡ size.old }
    ensures bank { bank_in banks.new ≡ bank_in banks.old }
{
    match take_bank(alloc, banks) {
        Ok(bank) => {
            *size = encoded_len(bank.session.bank());
            put_bank(banks, bank);
            OK
        }
        Err(why) => why,
    }
}

/// Writes the canonical file to a buffer of its length.
#[unsafe(no_mangle)]
pub extern "C" fn sfbank_abi_file(alloc: Global, banks: &mut [BankHandle], out: &mut [u8]) -> i32
    ensures status { (result ≡ OUT_OF_MEMORY → ⊥) → result ≡ open_status banks.old (of_bank (pos 0) (λ b. fill_status (length out.old) (canon b)) (bank_in banks.old)) }
    ensures memory { result ≡ OUT_OF_MEMORY → open_status banks.old (pos 0) ≡ pos 0 }
    ensures written { result ≡ pos 0 → out.new ≡ of_bank [] canon (bank_in banks.old) }
    ensures unchanged { (result ≡ pos 0 → ⊥) → out.new ≡ out.old }
    ensures bank { bank_in banks.new ≡ bank_in banks.old }
{
    match take_bank(alloc, banks) {
        Ok(bank) => {
            let status = fill(alloc, &BankFile(bank.session.bank()), out);
            put_bank(banks, bank);
            status
        }
        Err(why) => why,
    }
}

/// Returns the length of the undo script.
#[unsafe(no_mangle)]
pub extern "C" fn sfbank_abi_undo_size(
    alloc: Global,
    banks: &mut [BankHandle],
    size: &mut usize,
) -> i32
    ensures status { (result ≡ OUT_OF_MEMORY → ⊥) → result ≡ open_status banks.old (pos 0) }
    ensures memory { result ≡ OUT_OF_MEMORY → open_status banks.old (pos 0) ≡ pos 0 }
    ensures size { result ≡ pos 0 → size.new ≡ length (undo_script (bank_in banks.old)) }
    ensures unchanged { (result ≡ pos 0 → ⊥) → size.new ≡ size.old }
    ensures bank { bank_in banks.new ≡ bank_in banks.old }
{
    match take_bank(alloc, banks) {
        Ok(bank) => {
            let bytes = bytes_of(alloc, &UndoLines(bank.session.undo_list()));
            put_bank(banks, bank);
            match bytes {
                Ok(bytes) => {
                    *size = bytes.len();
                    OK
                }
                Err(_) => OUT_OF_MEMORY,
            }
        }
        Err(why) => why,
    }
}

/// Writes the undo script to a buffer of its length: the inverses of all edits, the last edit's first.
#[unsafe(no_mangle)]
pub extern "C" fn sfbank_abi_undo_script(
    alloc: Global,
    banks: &mut [BankHandle],
    out: &mut [u8],
) -> i32
    ensures status { (result ≡ OUT_OF_MEMORY → ⊥) → result ≡ open_status banks.old (fill_status (length out.old) (undo_script (bank_in banks.old))) }
    ensures memory { result ≡ OUT_OF_MEMORY → open_status banks.old (pos 0) ≡ pos 0 }
    ensures written { result ≡ pos 0 → out.new ≡ undo_script (bank_in banks.old) }
    ensures unchanged { (result ≡ pos 0 → ⊥) → out.new ≡ out.old }
    ensures bank { bank_in banks.new ≡ bank_in banks.old }
{
    match take_bank(alloc, banks) {
        Ok(bank) => {
            let status = fill(alloc, &UndoLines(bank.session.undo_list()), out);
            put_bank(banks, bank);
            status
        }
        Err(why) => why,
    }
}

/// Returns the length of the pool of a script: the bytes of its literals. The line is that of a fault, or 0.
#[unsafe(no_mangle)]
pub extern "C" fn sfbank_abi_pool_size(
    alloc: Global,
    script: &[u8],
    size: &mut usize,
    line: &mut u64,
) -> i32
    ensures status { (result ≡ OUT_OF_MEMORY → ⊥) → result ≡ pool_status (pool_bytes script.now) }
    ensures size { result ≡ pos 0 → size.new ≡ length (pool_in (pool_bytes script.now)) }
    ensures line { (result ≡ OUT_OF_MEMORY → ⊥) → line.new ≡ pool_line (pool_bytes script.now) }
    ensures none { result ≡ OUT_OF_MEMORY → line.new ≡ 0 }
    ensures unchanged { (result ≡ pos 0 → ⊥) → size.new ≡ size.old }
{
    *line = 0;
    match pool_of(alloc, script) {
        Ok(pool) => {
            *size = pool.len();
            OK
        }
        Err(Failure::Fault(fault)) => {
            *line = fault.line();
            i32::from(fault.number())
        }
        Err(Failure::OutOfMemory) => OUT_OF_MEMORY,
    }
}

/// Writes the pool of a script to a buffer of its length. The line is that of a fault, or 0.
#[unsafe(no_mangle)]
pub extern "C" fn sfbank_abi_pool(
    alloc: Global,
    script: &[u8],
    out: &mut [u8],
    line: &mut u64,
) -> i32
    ensures status { (result ≡ OUT_OF_MEMORY → ⊥) → result ≡ pool_fill_status (length out.old) (pool_bytes script.now) }
    ensures written { result ≡ pos 0 → out.new ≡ pool_in (pool_bytes script.now) }
    ensures line { (result ≡ OUT_OF_MEMORY → ⊥) → line.new ≡ pool_line (pool_bytes script.now) }
    ensures none { result ≡ OUT_OF_MEMORY → line.new ≡ 0 }
    ensures unchanged { (result ≡ pos 0 → ⊥) → out.new ≡ out.old }
{
    *line = 0;
    match pool_of(alloc, script) {
        Ok(pool) => {
            if pool.len() != out.len() {
                return BAD_LENGTH;
            }
            out.copy_from_slice(pool.as_slice());
            OK
        }
        Err(Failure::Fault(fault)) => {
            *line = fault.line();
            i32::from(fault.number())
        }
        Err(Failure::OutOfMemory) => OUT_OF_MEMORY,
    }
}
