//! Inputs, which are read whole before anything is done.
ghost use Rattle.sfbank.specs.Steps.{ReadsInput, ReadsTwo};

use file_host::Host;
use program_hints::{Remarks, remark_on_path};
use program_reports::{Fault, RunFault};
use sf_base::Failure;
use std::alloc::Global;

/// Reads an input.
pub(super) fn read_input<'a, H: Host>(
    host: &mut H,
    alloc: Global,
    path: &'a str,
) -> Result<Vec<u8>, Fault<'a>>
    ensures { ReadsInput (λ bytes. bytes.items) (H.world host.old) (H.world host.new) path.entry.now result }
{
    match host.read(alloc, path) {
        Ok(bytes) => Ok(bytes),
        Err(Failure::Fault(fault)) => Err(Fault::File(path, fault)),
        Err(Failure::OutOfMemory) => Err(Fault::Run(RunFault::Memory, path)),
    }
}

/// Reads two inputs.
pub(super) fn read_two<'a, H: Host>(
    host: &mut H,
    alloc: Global,
    first: &'a str,
    second: &'a str,
) -> Result<(Vec<u8>, Vec<u8>), Fault<'a>>
    ensures { ReadsTwo (λ bytes. bytes.items) (λ bytes. bytes.items) (H.world host.old) (H.world host.new) first.entry.now second.entry.now result }
{
    match read_input(host, alloc, first) {
        Ok(first) => match read_input(host, alloc, second) {
            Ok(second) => Ok((first, second)),
            Err(fault) => Err(fault),
        },
        Err(fault) => Err(fault),
    }
}

/// Adds what helps where an input can't be read.
pub(super) fn remark_on_input(end: &Result<(), Fault<'_>>, remarks: &mut Remarks) {
    match end {
        Err(Fault::File(path, _)) => remark_on_path(path.as_bytes(), remarks),
        Err(Fault::RowFile(row, _)) => remark_on_path(row.path.as_bytes(), remarks),
        _ => {}
    }
}
