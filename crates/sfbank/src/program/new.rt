//! The command `new`.
ghost use Rattle.program_commands.specs.declared.words.Request.TheVariants.{New};
ghost use Rattle.sfbank.specs.NewBanks.{new_outcome};
ghost use Rattle.sfbank.specs.PlanParts.{with_text};
ghost use Rattle.sfbank.specs.Ends.{EndsFor};
ghost use Rattle.sfbank.specs.Meanings.{Means};

use super::checks::reject_bank;
use super::outputs::put;
use crate::new::empty_bank;
use file_host::Host;
use program_commands::NewBank;
use program_reports::{Fault, KnowsError, RunFault};
use sf_writer::BankFile;
use std::alloc::Global;
use std::io::Write;

/// Writes an empty bank.
pub(crate) fn new<'a, H: Host, O: Write + KnowsError>(
    host: &mut H,
    alloc: Global,
    bank: NewBank<'a>,
    output: &mut O,
) -> Result<(), Fault<'a>>
    ensures { Means (New bank.entry)
        (record { files = H.world host.old; printed = O.contents output.old })
        (record { files = H.world host.new; printed = O.contents output.new }) (H.written host.new) result }
{
    match reject_bank(host, bank.out, bank.force) {
        Ok(()) => put_empty(host, alloc, bank, output),
        Err(fault) => Err(fault),
    }
}

fn put_empty<'a, H: Host, O: Write + KnowsError>(
    host: &mut H,
    alloc: Global,
    bank: NewBank<'a>,
    output: &mut O,
) -> Result<(), Fault<'a>>
    ensures { EndsFor (λ w. with_text w bank.entry.out.now (new_outcome bank.entry.minor))
        (record { files = H.world host.old; printed = O.contents output.old })
        (record { files = H.world host.new; printed = O.contents output.new }) (H.written host.new) result }
{
    match empty_bank(alloc, bank.minor) {
        Ok(empty) => put(host, bank.out, &BankFile(&empty), output),
        Err(_) => Err(Fault::Run(RunFault::Memory, bank.out)),
    }
}
