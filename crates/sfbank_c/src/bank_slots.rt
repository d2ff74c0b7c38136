//! What C passes as the handle of a bank: null, closed or open.
ghost use Rattle.std.specs.Prelude.{◌≡◌, ◌<◌, ◌∷◌, ℤ, [], pos, length, IfOk, IfErr, OnOk, OnErr};
ghost use Rattle.sfbank_c.specs.BankSlots.{bank_in, open_status, closed_status};

use crate::bank_handle::BankHandle;
use crate::open_bank::OpenBank;
use crate::status::{IN_USE, NOT_OPEN, NULL};
use std::alloc::Global;

/// Takes the bank out of an open handle, and leaves it closed. The error is the number for C.
pub(crate) fn take_bank(alloc: Global, handles: &mut [BankHandle]) -> Result<Box<OpenBank>, i32>
    ensures taken { IfOk result (λ bank. bank_in handles.old ≡ bank.value ∷ []) }
    ensures closed { bank_in handles.new ≡ [] }
    ensures there { OnOk result (0 < length handles.old) }
    ensures absent { OnErr result (bank_in handles.old ≡ []) }
    ensures open { OnOk result ((status : ℤ) → open_status handles.old status ≡ status) }
    ensures number { IfErr result (λ why. (status : ℤ) → open_status handles.old status ≡ why) }
    ensures error { IfErr result (λ why. why ≡ pos 0 → ⊥) }
{
    if handles.is_empty() {
        return Err(NULL);
    }
    match handles[0].take(alloc) {
        Some(bank) => Ok(bank),
        None => Err(NOT_OPEN),
    }
}

/// Puts a bank into a closed handle.
pub(crate) fn put_bank(handles: &mut [BankHandle], bank: Box<OpenBank>)
    requires there { 0 < length handles.old }
    requires closed { bank_in handles.old ≡ [] }
    ensures { bank_in handles.new ≡ bank.value ∷ [] }
{
    handles[0].put(bank);
}

/// Whether the handle is closed. The error is the number for C.
pub(crate) fn check_no_bank(handles: &mut [BankHandle]) -> Result<(), i32>
    ensures same { bank_in handles.new ≡ bank_in handles.old }
    ensures there { OnOk result (0 < length handles.old) }
    ensures closed { OnOk result (bank_in handles.old ≡ []) }
    ensures free { OnOk result ((status : ℤ) → closed_status handles.old status ≡ status) }
    ensures number { IfErr result (λ why. (status : ℤ) → closed_status handles.old status ≡ why) }
    ensures error { IfErr result (λ why. why ≡ pos 0 → ⊥) }
{
    if handles.is_empty() {
        return Err(NULL);
    }
    if handles[0].is_open {
        return Err(IN_USE);
    }
    Ok(())
}
