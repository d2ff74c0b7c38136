//! Why a run fails.
ghost use Rattle.std.specs.Prelude.{◌≡◌};
ghost use Rattle.program_reports.specs.declared.run_fault.RunFault.TheVariants.{Read, ReadFirst, ReadFrom, ReadSecond, Script, Notes, Table, Recording, Memory};
ghost use Rattle.program_reports.specs.RunFaults.{in_run};

use bank_format::ReadFault;
use bank_validity::Limit;
use edit_refusals::{Cause, Refusal};
use file_host::Which;
use kit_tables::KitFault;
use plan_presets::PresetFault;
use script_notes::NoteFault;
use script_tokens::ScriptFault;
use sf_base::{Failure, OutOfMemory};
use std::alloc::AllocFailed;
use thiserror::Error;
use wave_file::WaveFault;

/// Why a run fails.
#[derive(Drop, Clone, Copy, Debug, PartialEq, Eq, Error)]
pub enum RunFault {
    /// The first failed check of reading the file.
    #[error("{0}")]
    Read(ReadFault),
    /// The same for the first of two files.
    #[error("A: {0}")]
    ReadFirst(ReadFault),
    /// The same for the second of two files.
    #[error("B: {0}")]
    ReadSecond(ReadFault),
    /// The same for the bank that presets, instruments and samples are copied from.
    #[error("FROM: {0}")]
    ReadFrom(ReadFault),
    /// The first fault of the script.
    #[error("{0}")]
    Script(ScriptFault),
    /// The first refused line, and why. A failed allocation in an edit is `Memory` instead.
    #[error("line {0}: {1}")]
    Refused(u64, Refusal),
    /// The first line with an edit that is not neutral, in a run that accepts neutral edits only.
    #[error("line {0}: this edit may change the sound of notes")]
    NotNeutral(u64),
    /// The minor versions of two banks differ.
    #[error("the banks are of different versions")]
    OtherVersion,
    /// The first fault of the notes.
    #[error("{0}")]
    Notes(NoteFault),
    /// The first fault of the table of a kit.
    #[error("{0}")]
    Table(KitFault),
    /// The first failed check of reading the WAVE file.
    #[error("{0}")]
    Recording(WaveFault),
    /// The same for one of several recordings, by its number, counted from 1.
    #[error("recording {0}: {1}")]
    InRecording(u64, WaveFault),
    /// The bank has no preset, instrument or sample of this number.
    #[error("{0}")]
    NoMember(Cause),
    /// A preset can't be kept or copied.
    #[error("{0}")]
    Presets(PresetFault),
    /// With the edits that were found the bank would exceed this limit.
    #[error("the bank would exceed a limit")]
    Full(Limit),
    /// A plan's edits are refused, or don't lead to what the plan promises: a defect of the program.
    #[error("the plan failed")]
    PlanFailed,
    /// A writer accepted exactly this many bytes of its text, or all of them but failed to flush.
    #[error("write fault after {1} bytes")]
    Write(Which, u64),
    /// An allocation failed.
    #[error("out of memory")]
    Memory,
}

impl RunFault {
    /// The run's fault for the first of two banks that can't be read.
    pub fn of_first(failure: Failure<ReadFault>) -> RunFault
        ensures { result ≡ in_run ReadFirst failure }
    {
        match failure {
            Failure::Fault(fault) => RunFault::ReadFirst(fault),
            Failure::OutOfMemory => RunFault::Memory,
        }
    }

    /// The run's fault for the second of two banks that can't be read.
    pub fn of_second(failure: Failure<ReadFault>) -> RunFault
        ensures { result ≡ in_run ReadSecond failure }
    {
        match failure {
            Failure::Fault(fault) => RunFault::ReadSecond(fault),
            Failure::OutOfMemory => RunFault::Memory,
        }
    }

    /// The run's fault for a bank to copy from that can't be read.
    pub fn of_from(failure: Failure<ReadFault>) -> RunFault
        ensures { result ≡ in_run ReadFrom failure }
    {
        match failure {
            Failure::Fault(fault) => RunFault::ReadFrom(fault),
            Failure::OutOfMemory => RunFault::Memory,
        }
    }
}

impl From<Failure<ReadFault>> for RunFault {
    ghost from_gives = { λ failure fault. fault ≡ in_run Read failure };

    fn from(failure: Failure<ReadFault>) -> RunFault {
        match failure {
            Failure::Fault(fault) => RunFault::Read(fault),
            Failure::OutOfMemory => RunFault::Memory,
        }
    }
}

impl From<Failure<ScriptFault>> for RunFault {
    ghost from_gives = { λ failure fault. fault ≡ in_run Script failure };

    fn from(failure: Failure<ScriptFault>) -> RunFault {
        match failure {
            Failure::Fault(fault) => RunFault::Script(fault),
            Failure::OutOfMemory => RunFault::Memory,
        }
    }
}

impl From<Failure<NoteFault>> for RunFault {
    ghost from_gives = { λ failure fault. fault ≡ in_run Notes failure };

    fn from(failure: Failure<NoteFault>) -> RunFault {
        match failure {
            Failure::Fault(fault) => RunFault::Notes(fault),
            Failure::OutOfMemory => RunFault::Memory,
        }
    }
}

impl From<Failure<KitFault>> for RunFault {
    ghost from_gives = { λ failure fault. fault ≡ in_run Table failure };

    fn from(failure: Failure<KitFault>) -> RunFault {
        match failure {
            Failure::Fault(fault) => RunFault::Table(fault),
            Failure::OutOfMemory => RunFault::Memory,
        }
    }
}

impl From<WaveFault> for RunFault {
    ghost from_gives = { λ fault reported. reported ≡ Recording fault };

    fn from(fault: WaveFault) -> RunFault {
        RunFault::Recording(fault)
    }
}

impl From<OutOfMemory> for RunFault {
    ghost from_gives = { λ _ fault. fault ≡ Memory };

    fn from(_error: OutOfMemory) -> RunFault {
        RunFault::Memory
    }
}

impl<T: Drop> From<AllocFailed<T>> for RunFault {
    ghost from_gives = { λ _ fault. fault ≡ Memory };

    fn from(_error: AllocFailed<T>) -> RunFault {
        RunFault::Memory
    }
}
