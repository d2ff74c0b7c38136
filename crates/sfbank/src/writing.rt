//! Writes the texts of a run.
ghost use Rattle.sfbank.specs.Prepared.{texts_of_bank};
ghost use Rattle.sfbank.specs.Written.{Delivers, IsWritten};

use crate::edited_bank::EditedBank;
use base_texts::{Text, write_text};
use edit_script::EditLines;
use file_host::Which;
use program_reports::RunFault;
use sf_writer::BankFile;
use std::io::Write;

/// Writes a text of a run whole, and flushes. Allocates nothing.
pub(crate) fn write_one<T: Text, W: Write>(
    which: Which,
    text: &T,
    out: &mut W,
) -> Result<(), RunFault>
    ensures { IsWritten which (W.contents out.old) (W.contents out.new) (T.bytes text.now) result }
{
    match write_text(text, out) {
        Ok(()) => Ok(()),
        Err(fault) => Err(RunFault::Write(which, fault.written)),
    }
}

/// Writes an edited bank's file to `out`, then its undo script to `undo`. Allocates nothing.
pub(crate) fn write_edited<W: Write, V: Write>(
    edited_bank: &EditedBank<'_>,
    out: &mut W,
    undo: &mut V,
) -> Result<(), RunFault>
    ensures { Delivers (record { out = W.contents out.old; out_new = W.contents out.new; undo = V.contents undo.old; undo_new = V.contents undo.new })
        (texts_of_bank edited_bank.now) result }
{
    write_one(Which::Out, &BankFile(&edited_bank.bank), out)?;
    write_one(Which::Undo, &EditLines(edited_bank.undo.as_slice()), undo)
}
