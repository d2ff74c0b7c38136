//! What a bank's handle owns.
ghost use Rattle.std.specs.Prelude.{◌≡◌, ◌⊎◌, pos, None, IfOk, IfErr, OnOk};
ghost use Rattle.bank_format.specs.ReadChecks.{fault_of};
ghost use Rattle.sfbank_c.specs.Banks.{opened, read_status};

use crate::status::OUT_OF_MEMORY;
use inverse_edits::Session;
use sf_base::Failure;
use sf_reader::read;
use std::alloc::Global;

/// A bank with its undo and redo lists, which borrows from its file and from pools.
#[derive(Drop)]
pub struct OpenBank {
    pub session: Session<'static>,
}

/// Reads the bank of a file. The error is the number of its fault, or out of memory.
pub(crate) fn open_bank(alloc: Global, file: &'static [u8]) -> Result<Box<OpenBank>, i32>
    ensures opened { IfOk result (λ bank. bank.value ≡ opened file.now) }
    ensures passes { OnOk result (read_status (fault_of file.now) ≡ pos 0) }
    ensures fails { IfErr result (λ why. (why ≡ OUT_OF_MEMORY → ⊥) → why ≡ read_status (fault_of file.now)) }
    ensures error { IfErr result (λ why. why ≡ pos 0 → ⊥) }
{
    match read(alloc, file) {
        Ok((bank, _counts)) => {
            let session = Session::new(alloc, bank);
            match Box::new(alloc, OpenBank { session }) {
                Ok(opened) => Ok(opened),
                Err(_) => Err(OUT_OF_MEMORY),
            }
        }
        Err(Failure::Fault(fault)) => Err(i32::from(fault.number())),
        Err(Failure::OutOfMemory) => Err(OUT_OF_MEMORY),
    }
}
