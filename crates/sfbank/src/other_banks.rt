//! Pairs of banks of which the second is to be copied from.
ghost use Rattle.sfbank.specs.Purposes.{Merging, Taking, merging, taking};
ghost use Rattle.sfbank.specs.Steps.{ReadsBoth, Wants};

use crate::reading::read_bank;
use bank_core::Bank;
use plan_take::{TakenPreset, check_merge, check_presets};
use program_reports::RunFault;
use sf_base::OutOfMemory;
use std::alloc::Global;

/// Reads both files as banks, and checks that these presets of the second bank can be taken into the first.
pub(crate) fn read_to_take<'a>(
    alloc: Global,
    file: &'a [u8],
    other: &'a [u8],
    presets: &[TakenPreset],
) -> Result<(Bank<'a>, Bank<'a>), RunFault>
    ensures { Wants (λ both. both.0) (λ both. Taking both.1 presets.now) file.now (taking file.now other.now presets.now) result }
{
    match read_both(alloc, file, other) {
        Ok((bank, from)) => match check_presets(&bank, &from, presets) {
            Ok(()) => Ok((bank, from)),
            Err(fault) => Err(RunFault::Presets(fault)),
        },
        Err(fault) => Err(fault),
    }
}

/// Reads both files as banks, and checks that all presets of the second bank can be added to the first, with their bank
/// numbers increased by `shift`.
pub(crate) fn read_to_merge<'a>(
    alloc: Global,
    file: &'a [u8],
    other: &'a [u8],
    shift: u16,
) -> Result<(Bank<'a>, Bank<'a>), RunFault>
    ensures { Wants (λ both. both.0) (λ both. Merging both.1 shift) file.now (merging file.now other.now shift) result }
{
    match read_both(alloc, file, other) {
        Ok((bank, from)) => match check_merge(alloc, &bank, &from, shift) {
            Ok(None) => Ok((bank, from)),
            Ok(Some(fault)) => Err(RunFault::Presets(fault)),
            Err(OutOfMemory) => Err(RunFault::Memory),
        },
        Err(fault) => Err(fault),
    }
}

// Reads both files as banks.
fn read_both<'a>(
    alloc: Global,
    file: &'a [u8],
    other: &'a [u8],
) -> Result<(Bank<'a>, Bank<'a>), RunFault>
    ensures { ReadsBoth (λ both. both) file.now other.now result }
{
    match read_bank(alloc, file) {
        Ok((bank, _counts)) => match sf_reader::read(alloc, other) {
            Ok((from, _other_counts)) => Ok((bank, from)),
            Err(failure) => Err(RunFault::of_from(failure)),
        },
        Err(fault) => Err(fault),
    }
}
