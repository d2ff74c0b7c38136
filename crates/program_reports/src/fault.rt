//! Why a command fails.

use crate::run_fault::RunFault;
use base_outputs::OutputFault;
use file_host::InputFault;
use std::alloc::AllocError;
use wave_file::WaveFault;

/// The path reported for the standard output in a fault.
pub const STANDARD_OUTPUT: &str = "-";

/// The file of a recording, and the line of the table that names it, if one does.
#[derive(Drop)]
pub struct RowPath {
    /// The number of the line, counted from 1.
    pub line: Option<u64>,
    pub path: String,
}

/// Why a command fails.
#[derive(Drop)]
pub enum Fault<'a> {
    /// clap rejects the arguments, with this text.
    Words(clap::Error),
    /// An argument is not valid UTF-8.
    NotText,
    /// No fault and no refusal has this number.
    NoNumber(u32),
    /// No fault and no refusal has this name.
    NoName(&'a str),
    /// The input at this path can't be read whole.
    File(&'a str, InputFault),
    /// The recording at this path can't be read whole.
    RowFile(RowPath, InputFault),
    /// The recording at this path can't be imported.
    RowRecording(RowPath, WaveFault),
    /// The output at this path is rejected.
    Output(OutputFault, &'a str),
    /// The folder at this path is there already.
    FolderThere(&'a str),
    /// The bank at this path has findings, which are printed.
    HasFindings(&'a str),
    /// The run failed. A write fault is about this path.
    Run(RunFault, &'a str),
    /// The reader of an output closed its pipe early, which is not reported.
    PipeClosed,
}

impl From<AllocError> for Fault<'_> {
    fn from(_error: AllocError) -> Self {
        Fault::Run(RunFault::Memory, STANDARD_OUTPUT)
    }
}
