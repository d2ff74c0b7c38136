//! The calls of banks.
ghost use Rattle.std.specs.Prelude.{◌≡◌, ◌∷◌, [], pos, length};
ghost use Rattle.bank_format.specs.ReadChecks.{fault_of};
ghost use Rattle.sfbank_c.specs.BankSlots.{bank_in, open_status, closed_status};
ghost use Rattle.bank_changes.specs.Members.{head_of};
ghost use Rattle.sfbank_c.specs.Banks.{opened, read_status, of_bank, list_of, list_status, count_in, member_name, name_status};
ghost use Rattle.sfbank_c.specs.Banks.{text_of_name, head_status, numbers_of};

use crate::bank_handle::BankHandle;
use crate::bank_slots::{check_no_bank, put_bank, take_bank};
use crate::open_bank::open_bank;
use crate::status::{BAD_LENGTH, BAD_LIST, NO_MEMBER, OK, OUT_OF_MEMORY};
use bank_core::{Bank, List};
use sf_base::Name20;
use sf_base::limits::NAME_LENGTH;
use std::alloc::Global;

/// The bytes of a name, and a zero byte.
const NAME_SIZE: usize = NAME_LENGTH + 1;

/// Opens the bank in a file. The bytes stay where they are, unchanged, while a bank or player borrows from them.
#[unsafe(no_mangle)]
pub extern "C" fn sfbank_abi_open(
    alloc: Global,
    file: &'static [u8],
    banks: &mut [BankHandle],
) -> i32
    ensures status { (result ≡ OUT_OF_MEMORY → ⊥) → result ≡ closed_status banks.old (read_status (fault_of file.now)) }
    ensures memory { result ≡ OUT_OF_MEMORY → closed_status banks.old (pos 0) ≡ pos 0 }
    ensures opened { result ≡ pos 0 → bank_in banks.new ≡ opened file.now ∷ [] }
    ensures refused { (result ≡ pos 0 → ⊥) → bank_in banks.new ≡ bank_in banks.old }
{
    match check_no_bank(banks) {
        Ok(()) => {}
        Err(why) => return why,
    }
    match open_bank(alloc, file) {
        Ok(bank) => {
            put_bank(banks, bank);
            OK
        }
        Err(fault) => fault,
    }
}

/// Closes the handle of a bank, if it is open.
#[unsafe(no_mangle)]
pub extern "C" fn sfbank_abi_close(alloc: Global, banks: &mut [BankHandle]) -> i32
    ensures status { result ≡ open_status banks.old (pos 0) }
    ensures closed { bank_in banks.new ≡ [] }
{
    match take_bank(alloc, banks) {
        Ok(bank) => {
            drop(bank);
            OK
        }
        Err(why) => why,
    }
}

/// Counts the members of a list: 0 for presets, 1 for instruments, 2 for samples.
#[unsafe(no_mangle)]
pub extern "C" fn sfbank_abi_count(
    alloc: Global,
    banks: &mut [BankHandle],
    list: u32,
    count: &mut usize,
) -> i32
    ensures status { result ≡ open_status banks.old (list_status (list_of list)) }
    ensures counted { result ≡ pos 0 → count.new ≡ of_bank 0 (count_in (list_of list)) (bank_in banks.old) }
    ensures unchanged { (result ≡ pos 0 → ⊥) → count.new ≡ count.old }
    ensures bank { bank_in banks.new ≡ bank_in banks.old }
{
    match take_bank(alloc, banks) {
        Ok(bank) => {
            let status = write_count(bank.session.bank(), list, count);
            put_bank(banks, bank);
            status
        }
        Err(why) => why,
    }
}

/// Writes the name of a member of a list, with zero bytes after it: 21 bytes.
#[unsafe(no_mangle)]
pub extern "C" fn sfbank_abi_name(
    alloc: Global,
    banks: &mut [BankHandle],
    list: u32,
    number: u32,
    name: &mut [u8],
) -> i32
    ensures status { result ≡ open_status banks.old (of_bank (pos 0) (λ b. name_status (length name.old) (member_name (list_of list) number b)) (bank_in banks.old)) }
    ensures named { result ≡ pos 0 → name.new ≡ of_bank [] (λ b. text_of_name (member_name (list_of list) number b)) (bank_in banks.old) }
    ensures unchanged { (result ≡ pos 0 → ⊥) → name.new ≡ name.old }
    ensures bank { bank_in banks.new ≡ bank_in banks.old }
{
    match take_bank(alloc, banks) {
        Ok(bank) => {
            let status = write_name(bank.session.bank(), list, number, name);
            put_bank(banks, bank);
            status
        }
        Err(why) => why,
    }
}

/// Returns the numbers by which notes select a preset.
#[unsafe(no_mangle)]
pub extern "C" fn sfbank_abi_preset(
    alloc: Global,
    banks: &mut [BankHandle],
    number: u32,
    preset_bank: &mut u16,
    preset: &mut u16,
) -> i32
    ensures status { result ≡ open_status banks.old (of_bank (pos 0) (λ b. head_status (head_of b number)) (bank_in banks.old)) }
    ensures numbers { result ≡ pos 0 → (preset_bank.new, preset.new) ≡ of_bank (0, 0) (λ b. numbers_of (head_of b number)) (bank_in banks.old) }
    ensures unchanged { (result ≡ pos 0 → ⊥) → (preset_bank.new ≡ preset_bank.old) × (preset.new ≡ preset.old) }
    ensures bank { bank_in banks.new ≡ bank_in banks.old }
{
    match take_bank(alloc, banks) {
        Ok(bank) => {
            let head = bank.session.bank().head(number);
            put_bank(banks, bank);
            let Some(head) = head else {
                return NO_MEMBER;
            };
            *preset_bank = head.bank;
            *preset = head.number;
            OK
        }
        Err(why) => why,
    }
}

// The list with this number.
fn list_of(list: u32) -> Option<List>
    ensures { result ≡ list_of list }
{
    match list {
        0 => Some(List::Presets),
        1 => Some(List::Instruments),
        2 => Some(List::Samples),
        _ => None,
    }
}

fn write_count(bank: &Bank<'_>, list: u32, count: &mut usize) -> i32
    ensures status { result ≡ list_status (list_of list) }
    ensures counted { result ≡ pos 0 → count.new ≡ count_in (list_of list) bank.now }
    ensures unchanged { (result ≡ pos 0 → ⊥) → count.new ≡ count.old }
{
    match list_of(list) {
        Some(list) => {
            *count = bank.count(list);
            OK
        }
        None => BAD_LIST,
    }
}

fn write_name(bank: &Bank<'_>, list: u32, number: u32, out: &mut [u8]) -> i32
    ensures status { result ≡ name_status (length out.old) (member_name (list_of list) number bank.now) }
    ensures named { result ≡ pos 0 → out.new ≡ text_of_name (member_name (list_of list) number bank.now) }
    ensures unchanged { (result ≡ pos 0 → ⊥) → out.new ≡ out.old }
{
    match name_in(bank, list_of(list), number) {
        Ok(name) => {
            if out.len() != NAME_SIZE {
                return BAD_LENGTH;
            }
            out[..NAME_LENGTH].copy_from_slice(&name.filled());
            out[NAME_LENGTH] = 0;
            OK
        }
        Err(why) => why,
    }
}

// The name of a member, or the error.
fn name_in(bank: &Bank<'_>, list: Option<List>, number: u32) -> Result<Name20, i32>
    ensures { result ≡ member_name list number bank.now }
{
    let name = match list {
        Some(List::Presets) => bank.head(number).map(|head| head.name),
        Some(List::Instruments) => bank.inst_name(number),
        Some(List::Samples) => bank.sample(number).map(|sample| sample.name),
        None => return Err(BAD_LIST),
    };
    name.ok_or(NO_MEMBER)
}
