//! Reads banks.
ghost use Rattle.sfbank.specs.Steps.{ReadsBank};

use bank_core::Bank;
use bank_format::Counts;
use program_reports::RunFault;
use sf_base::Failure;
use std::alloc::Global;

/// Reads a file as a bank, with the counts of what was dropped or repaired.
pub(crate) fn read_bank(alloc: Global, file: &[u8]) -> Result<(Bank<'_>, Counts), RunFault>
    ensures { ReadsBank (λ both. both) file.now result }
{
    match sf_reader::read(alloc, file) {
        Ok(both) => Ok(both),
        Err(Failure::Fault(fault)) => Err(RunFault::Read(fault)),
        Err(Failure::OutOfMemory) => Err(RunFault::Memory),
    }
}
