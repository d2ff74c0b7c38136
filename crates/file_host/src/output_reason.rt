//! Why an output can't be written.
ghost use Rattle.std.specs.Prelude.{◌≡◌};
ghost use Rattle.file_host.specs.OutputReasons.{reason_of_output};

use std::io::ErrorKind;

/// The reason for an error of this kind in writing an output, in the system's words where it is one that a system gives
/// for outputs.
pub fn reason_of_output(kind: ErrorKind) -> &'static str
    ensures { result.now ≡ reason_of_output kind }
{
    match kind {
        ErrorKind::NotFound => "No such file or directory",
        ErrorKind::PermissionDenied => "Permission denied",
        ErrorKind::IsADirectory => "Is a directory",
        ErrorKind::NotADirectory => "Not a directory",
        ErrorKind::InvalidFilename => "File name too long",
        ErrorKind::FilesystemLoop => "Too many levels of symbolic links",
        ErrorKind::StorageFull => "No space left on device",
        ErrorKind::QuotaExceeded => "Disk quota exceeded",
        ErrorKind::FileTooLarge => "File too large",
        ErrorKind::ReadOnlyFilesystem => "Read-only file system",
        ErrorKind::BrokenPipe => "Broken pipe",
        ErrorKind::ResourceBusy => "Device or resource busy",
        ErrorKind::ExecutableFileBusy => "Text file busy",
        ErrorKind::AlreadyExists => "File exists",
        ErrorKind::CrossesDevices => "Invalid cross-device link",
        ErrorKind::TooManyLinks => "Too many links",
        _ => "Can't be written",
    }
}
