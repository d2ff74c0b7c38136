//! Rejects outputs that would destroy a file, before anything is read.
ghost use Rattle.std.specs.Prelude.{◌≡◌, map};
ghost use Rattle.file_host.specs.Checks.{IsApart, IsNoBank, begins_as_bank};

use crate::host::Host;
use base_outputs::OutputFault;
use sf_base::Failure;

/// Rejects an output that is one file with one of the others.
pub fn check_apart<H: Host>(
    host: &mut H,
    output: &str,
    others: &[&str],
) -> Result<(), Failure<OutputFault>>
    ensures checked { IsApart (H.world host.old) output.now (map (λ other. other.now) others.now) result }
    ensures stays { H.world host.new ≡ H.world host.old }
{
    for other in others {
        if host.is_one_file(output, other)? {
            return Err(Failure::Fault(OutputFault::SameFile));
        }
    }
    Ok(())
}

/// Rejects an output that would replace a bank, except with `force`.
pub fn check_no_bank<H: Host>(
    host: &mut H,
    output: &str,
    force: bool,
) -> Result<(), Failure<OutputFault>>
    ensures checked { IsNoBank (H.world host.old) output.now force result }
    ensures stays { H.world host.new ≡ H.world host.old }
{
    if force {
        return Ok(());
    }
    if host.has_bank(output)? {
        return Err(Failure::Fault(OutputFault::HoldsBank));
    }
    Ok(())
}

/// Whether bytes begin as a bank does: `RIFF`, a length of four bytes, `sfbk`.
pub fn begins_as_bank(bytes: &[u8]) -> bool
    ensures { result ≡ begins_as_bank bytes.now }
{
    bytes.starts_with(b"RIFF") && bytes.len() >= 12 && &bytes[8..12] == b"sfbk".as_slice()
}
