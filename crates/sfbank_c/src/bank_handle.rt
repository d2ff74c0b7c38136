//! The handle of a bank, which C stores.
ghost use Rattle.std.specs.Prelude.{◌≡◌, ◌∷◌, [], cond, length, MatchOption};

use crate::open_bank::OpenBank;
use crate::sealed_bank::SealedBank;
use c_loans::Parts;
use std::alloc::Global;
use std::mem;

/// A handle: closed, as C makes it of zeros, or open, when it owns a bank.
#[repr(C)]
pub struct BankHandle {
    pub is_open: bool,
    pub sealed: SealedBank,
    pub ghost agrees: { length sealed.held ≡ cond is_open 1 0 },
}

impl Drop for BankHandle {
    fn drop(self) {
        drop(self.into_box());
    }
}

impl BankHandle {
    /// A closed handle.
    pub fn closed(alloc: Global) -> BankHandle
        ensures { result.sealed.held ≡ [] }
    {
        BankHandle {
            is_open: false,
            sealed: SealedBank::empty(alloc),
        }
    }

    /// An open handle.
    pub fn of_box(bank: Box<OpenBank>) -> BankHandle
        ensures { result.sealed.held ≡ bank.value ∷ [] }
    {
        BankHandle {
            is_open: true,
            sealed: SealedBank::of_parts(Parts::of(bank)),
        }
    }

    /// Takes the bank out, if the handle is open, and leaves it closed.
    pub fn take(&mut self, alloc: Global) -> Option<Box<OpenBank>>
        ensures taken { MatchOption result (self.old.sealed.held ≡ []) (λ bank. self.old.sealed.held ≡ bank.value ∷ []) }
        ensures closed { self.new.sealed.held ≡ [] }
    {
        mem::replace(self, BankHandle::closed(alloc)).into_box()
    }

    /// Puts a bank into a closed handle. Nothing is freed.
    pub fn put(&mut self, bank: Box<OpenBank>)
        requires { self.old.sealed.held ≡ [] }
        ensures { self.new.sealed.held ≡ bank.value ∷ [] }
    {
        mem::forget(mem::replace(self, BankHandle::of_box(bank)));
    }

    /// The bank, if the handle is open.
    pub fn into_box(self) -> Option<Box<OpenBank>>
        ensures { MatchOption result (self.sealed.held ≡ []) (λ bank. self.sealed.held ≡ bank.value ∷ []) }
    {
        let BankHandle { is_open, sealed } = self;
        if is_open {
            Some(sealed.into_parts().into_box())
        } else {
            None
        }
    }
}

fn crosses<T: Send>(_value: &T) {}

/// Compiles where C may pass a handle to another thread.
pub fn bank_handle_crosses(handle: &BankHandle) {
    crosses(handle);
}
