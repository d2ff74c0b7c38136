//! Why an input can't be read whole.
ghost use Rattle.std.specs.Prelude.{◌≡◌, ◌≢◌};
ghost use Rattle.sf_base.specs.declared.memory.Failure.TheVariants.{Fault as FaultOf};
ghost use Rattle.file_host.specs.declared.input_fault.InputFault.TheVariants.{TooLong};
ghost use Rattle.file_host.specs.InputFaults.{reason_of};

use sf_base::Failure;
use std::io::ErrorKind;

/// Why an input can't be read whole.
#[derive(Clone, Copy, Debug, PartialEq, Eq)]
pub enum InputFault {
    /// There is no file at the path.
    NotFound,
    /// No permission to read it, or to search a folder of its path.
    Denied,
    /// The path names a folder.
    IsFolder,
    /// A part of the path is not a folder.
    NotFolder,
    /// The path, or a name in it, is too long.
    LongName,
    /// The path has too many symbolic links.
    LinkLoop,
    /// It can't be opened or read for another reason.
    Unreadable,
    /// It is longer than the longest file, 4,294,967,303 bytes.
    TooLong,
}

impl InputFault {
    /// The fault of an error of this kind in opening or reading an input.
    pub fn of(kind: ErrorKind) -> InputFault
        ensures { result ≢ TooLong }
    {
        match kind {
            ErrorKind::NotFound => InputFault::NotFound,
            ErrorKind::PermissionDenied => InputFault::Denied,
            ErrorKind::IsADirectory => InputFault::IsFolder,
            ErrorKind::NotADirectory => InputFault::NotFolder,
            ErrorKind::InvalidFilename => InputFault::LongName,
            ErrorKind::FilesystemLoop => InputFault::LinkLoop,
            _ => InputFault::Unreadable,
        }
    }

    /// The reason, in the system's words where it is the system's.
    pub fn reason(self) -> &'static str
        ensures { result.now ≡ reason_of self }
    {
        match self {
            InputFault::NotFound => "No such file or directory",
            InputFault::Denied => "Permission denied",
            InputFault::IsFolder => "Is a directory",
            InputFault::NotFolder => "Not a directory",
            InputFault::LongName => "File name too long",
            InputFault::LinkLoop => "Too many levels of symbolic links",
            InputFault::Unreadable => "Can't be read",
            InputFault::TooLong => "Longer than 4294967303 bytes",
        }
    }
}

impl From<InputFault> for Failure<InputFault> {
    ghost from_gives = { λ fault failure. failure ≡ FaultOf fault };

    fn from(fault: InputFault) -> Failure<InputFault> {
        Failure::Fault(fault)
    }
}
