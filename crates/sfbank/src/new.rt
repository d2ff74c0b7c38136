//! An empty bank.
ghost use Rattle.std.specs.Prelude.{◌≡◌, IfOk};
ghost use Rattle.script_of_bank.specs.BankEdits.{empty, empty_texts};
ghost use Rattle.sfbank.specs.NewBanks.{IsNew, new_outcome};
ghost use Rattle.sfbank.specs.Written.{RunsOneText};

use crate::writing::write_one;
use bank_core::{Bank, Owners, Parts, Texts};
use bank_linked_members::LinkedMembers;
use file_host::Which;
use program_reports::RunFault;
use sf_base::{BorrowedBytes, OutOfMemory};
use sf_writer::BankFile;
use std::alloc::Global;
use std::io::Write;

/// Writes the canonical file of the empty bank of version 2.`minor`, 308 bytes, to `out`, and flushes `out`.
///
/// If an allocation fails, nothing is written. A fault of the writer (`Which::Out`) has the number of bytes written.
pub fn new_run<W: Write>(alloc: Global, minor: u16, out: &mut W) -> Result<(), RunFault>
    // The canonical file of the empty bank is written.
    ensures runs { RunsOneText (W.contents out.old) (W.contents out.new) (new_outcome minor) result }
    // It is its own canonical file, and reads as the empty bank.
    ensures fixed { IsNew minor }
{
    let bank = empty_bank(alloc, minor)?;
    write_one(Which::Out, &BankFile(&bank), out)
}

/// An empty bank.
pub(crate) fn empty_bank<'a>(alloc: Global, minor: u16) -> Result<Bank<'a>, OutOfMemory>
    ensures { IfOk result (λ bank. bank ≡ empty minor) }
{
    let parts = Parts {
        minor,
        texts: empty_texts(),
        presets: Owners::with_capacity(alloc, 0)?,
        instruments: Owners::with_capacity(alloc, 0)?,
        samples: LinkedMembers::new(alloc),
    };
    Ok(Bank::from_sound_parts(parts))
}

fn empty_texts<'a>() -> Texts<'a>
    ensures { result ≡ empty_texts }
{
    Texts {
        engine: BorrowedBytes::new(b"EMU8000"),
        name: BorrowedBytes::new(b""),
        date: BorrowedBytes::new(b""),
        engineers: BorrowedBytes::new(b""),
        product: BorrowedBytes::new(b""),
        copyright: BorrowedBytes::new(b""),
        comment: BorrowedBytes::new(b""),
        software: BorrowedBytes::new(b""),
    }
}
