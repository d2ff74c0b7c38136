//! Why an output is rejected.
ghost use Rattle.std.specs.Prelude.{◌≡◌};
ghost use Rattle.base_outputs.specs.OutputFaults.{number_of, name_of};

use thiserror::Error;

/// Why an output is rejected, before any file is read or written.
#[derive(Debug, Drop, Clone, Copy, PartialEq, Eq, Error)]
pub enum OutputFault {
    /// The output is the same file as an input or another output.
    #[error("the output is one file with an input or another output")]
    SameFile,
    /// There is a bank at the output's path, and something else would replace it.
    #[error("there is a bank at the output's path")]
    HoldsBank,
}

impl OutputFault {
    /// The number of the fault: 64 or 65.
    pub fn number(self) -> u8
        ensures { result ≡ number_of self }
    {
        match self {
            OutputFault::SameFile => 64,
            OutputFault::HoldsBank => 65,
        }
    }

    /// The name of the fault, as in `docs/FAULTS.md`.
    pub fn name(self) -> &'static str
        ensures { result.now ≡ name_of self }
    {
        match self {
            OutputFault::SameFile => "SameFile",
            OutputFault::HoldsBank => "HoldsBank",
        }
    }
}
