//! Banks of which a member is to be copied.
ghost use Rattle.std.specs.Prelude.{◌≡◌, List, ℕ, Option};
ghost use Rattle.sfbank.specs.Purposes.{Copying, copying, of_copy};
ghost use Rattle.sfbank.specs.Steps.{Wants};

use crate::reading::read_bank;
use bank_core::Bank;
use plan_copy::{CopyFault, check_copy};
use plan_presets::CopiedMember;
use program_reports::RunFault;
use std::alloc::Global;

/// Reads a file as a bank, and checks that this member of it can be copied.
pub(crate) fn read_to_copy(
    alloc: Global,
    file: &[u8],
    member: CopiedMember,
) -> Result<Bank<'_>, RunFault>
    ensures { (name : Option (List ℕ)) → Wants (λ bank. bank) (λ _. Copying member name) file.now (copying file.now member name) result }
{
    match read_bank(alloc, file) {
        Ok((bank, _counts)) => match check_copy(&bank, member) {
            Ok(()) => Ok(bank),
            Err(fault) => Err(of_copy(fault)),
        },
        Err(fault) => Err(fault),
    }
}

// The run's fault for a member that can't be copied.
fn of_copy(fault: CopyFault) -> RunFault
    ensures { result ≡ of_copy fault }
{
    match fault {
        CopyFault::NoMember(cause) => RunFault::NoMember(cause),
        CopyFault::Numbers(fault) => RunFault::Presets(fault),
    }
}
