//! The device of a real system.
ghost use Rattle.std.specs.Prelude.{◌≡◌, None, false};
ghost use Rattle.file_disk.specs.Crashes.{none_left};

use crate::descriptor::Descriptor;
use crate::device::Device;
use crate::identity::is_one_file;
use crate::names::folder_of;
use crate::resolving::{Resolved, is_standard_output, is_temporary, resolve};
use crate::stream::SystemStream;
use crate::target::{StoredFile, Target};
use file_host::InputFault;
use sf_base::Failure;
use std::alloc::AllocError;
use std::fs::{File, OpenFile, OpenOptions};
use std::io::{ErrorKind, Read, Write};
use std::os::unix::fs::{MetadataExt, OpenOptionsExt, chown};
use std::rt::Files;
use std::{fs, io};

/// The permissions of a new file that others can't read, and of one that they can, as far as the process allows.
const PRIVATE: u32 = 0o600;

const SHARED: u32 = 0o666;

/// The files of a runtime. Nothing is known of its world, since no clause of std says what a file holds. That these
/// calls do what `Device` says is the trust that is left: of each method here, of the system, and that no other process
/// changes the files or the folders of a run, nor a link that leads to them.
#[derive(Drop)]
pub struct System<'a, R: Files> {
    rt: &'a R,
    output: Option<R::File>,
    input: Option<R::File>,
    // The first error since a file was last checked, opened for writing or linked, or a folder was made: none of these
    // calls cleans up after an error that makes a save fail.
    last_error: Option<ErrorKind>,
}

impl<'a, R: Files> System<'a, R> {
    /// The files of a runtime.
    pub fn new(rt: &'a R) -> System<'a, R> {
        System {
            rt,
            output: None,
            input: None,
            last_error: None,
        }
    }
}

impl<R: Files> System<'_, R> {
    // Notes the error of a call, unless an earlier one is noted, after which the call cleans up.
    fn noted<T>(&mut self, answer: io::Result<T>) -> io::Result<T>
        ensures { result ≡ answer }
    {
        if self.last_error.is_none() {
            if let Err(error) = &answer {
                self.last_error = Some(error.kind());
            }
        }
        answer
    }
}

impl<'a, R: Files + AllocGlobal> Device for System<'a, R> {
    type Stream = SystemStream<'a, R>;

    ghost world = { λ system. None };

    ghost output = { λ system. None };

    ghost is_dirty = { λ system. false };

    ghost unread = { λ system. None };

    ghost durable = { λ system. None };

    ghost past = { λ system left. ⊥ };

    ghost counts_now = { λ system left e. none_left left e };

    ghost agrees = { λ system. tt };

    fn resolve(&mut self, path: &str) -> Result<Target, AllocError> {
        match resolve(self.rt, path)? {
            Resolved::Regular(path) if !is_temporary(path.as_str()) => {
                Ok(Target::Stores(StoredFile {
                    path,
                    is_there: true,
                }))
            }
            Resolved::Nothing(path) if !is_temporary(path.as_str()) => {
                Ok(Target::Stores(StoredFile {
                    path,
                    is_there: false,
                }))
            }
            _ => Ok(Target::InPlace),
        }
    }

    fn check_writable(&mut self, path: &str) -> io::Result<()> {
        self.last_error = None;
        let opened = OpenOptions::new().write(true).open(self.rt, path);
        let _file = self.noted(opened)?;
        Ok(())
    }

    fn create_new(&mut self, path: &str, is_private: bool) -> io::Result<()> {
        self.last_error = None;
        let mode = if is_private { PRIVATE } else { SHARED };
        let opened = OpenOptions::new()
            .write(true)
            .create_new(true)
            .mode(mode)
            .open(self.rt, path);
        self.output = Some(self.noted(opened)?);
        Ok(())
    }

    fn open_in_place(&mut self, path: &str) -> io::Result<()> {
        self.last_error = None;
        let opened = open_in_place(self.rt, path);
        self.output = Some(self.noted(opened)?);
        Ok(())
    }

    fn append(&mut self, bytes: &[u8]) -> io::Result<usize> {
        let Some(file) = &mut self.output else {
            return Err(io::Error::from(ErrorKind::NotFound));
        };
        let answer = file.write(bytes);
        self.noted(answer)
    }

    fn sync(&mut self) -> io::Result<()> {
        let Some(file) = &self.output else {
            return Ok(());
        };
        match file.sync_all() {
            // A pipe or a device has nothing to sync.
            Err(error) if error.kind() != ErrorKind::InvalidInput => self.noted(Err(error)),
            _ => Ok(()),
        }
    }

    fn keep_access(&mut self, path: &str, new_path: &str) -> bool {
        let (Some(file), Ok(found)) = (&self.output, fs::metadata(self.rt, path)) else {
            return false;
        };
        let _ = chown(self.rt, new_path, None, Some(found.gid()));
        let _ = chown(self.rt, new_path, Some(found.uid()), None);
        let _ = file.set_permissions(found.permissions());
        match file.metadata() {
            Ok(made) => made.uid() == found.uid(),
            Err(_) => false,
        }
    }

    fn rename(&mut self, from: &str, to: &str) -> io::Result<()> {
        self.output = None;
        let answer = fs::rename(self.rt, from, to);
        self.noted(answer)
    }

    fn rename_new(&mut self, from: &str, to: &str) -> io::Result<()> {
        match fs::symlink_metadata(self.rt, to) {
            Err(error) if error.kind() == ErrorKind::NotFound => self.rename(from, to),
            Err(error) => self.noted(Err(error)),
            Ok(_) => self.noted(Err(io::Error::from(ErrorKind::AlreadyExists))),
        }
    }

    fn link(&mut self, from: &str, to: &str) -> io::Result<()> {
        self.last_error = None;
        let answer = fs::hard_link(self.rt, from, to);
        self.noted(answer)
    }

    fn remove(&mut self, path: &str) -> io::Result<()> {
        let answer = fs::remove_file(self.rt, path);
        // A file that is still open is removed because it couldn't be written whole.
        if self.output.is_some() {
            return answer;
        }
        self.noted(answer)
    }

    fn make_folder(&mut self, path: &str) -> io::Result<bool> {
        self.last_error = None;
        match fs::create_dir(self.rt, path) {
            Ok(()) => Ok(true),
            Err(error) if is_there(self.rt, path, &error) => Ok(false),
            Err(error) => self.noted(Err(error)),
        }
    }

    fn sync_folder(&mut self, path: &str) {
        if let Ok(folder) = File::open(self.rt, folder_of(path)) {
            let _ = folder.sync_all();
        }
    }

    fn open_input(&mut self, path: &str) -> Result<u64, Failure<InputFault>> {
        let file = match File::open(self.rt, path) {
            Ok(file) => file,
            Err(error) => return Err(failure_of(&error)),
        };
        let expected = match file.metadata() {
            Ok(metadata) => metadata.len(),
            Err(_) => 0,
        };
        self.input = Some(file);
        Ok(expected)
    }

    fn read_input(&mut self, buffer: &mut [u8]) -> Result<usize, Failure<InputFault>> {
        let Some(file) = &mut self.input else {
            return Err(Failure::Fault(InputFault::Unreadable));
        };
        match file.read(buffer) {
            Ok(count) => Ok(count),
            Err(error) => Err(failure_of(&error)),
        }
    }

    fn read_head(&mut self, path: &str, head: &mut [u8]) -> bool {
        match File::open(self.rt, path) {
            Ok(mut file) => file.read_exact(head).is_ok(),
            Err(_) => false,
        }
    }

    fn is_one_file(&mut self, one: &str, other: &str) -> Result<bool, AllocError> {
        is_one_file(self.rt, one, other)
    }

    fn is_output(&mut self, path: &str) -> Result<bool, AllocError> {
        is_standard_output(self.rt, path)
    }

    fn open_stream(&mut self, path: &str) -> Result<SystemStream<'a, R>, AllocError> {
        SystemStream::new(self.rt, path)
    }

    fn last_error(&self) -> Option<ErrorKind> {
        self.last_error
    }
}

/// Whether no folder could be made because something is at its path. The error is the same at a link that leads to
/// nothing.
fn is_there<R: Files>(rt: &R, path: &str, error: &io::Error) -> bool {
    if error.kind() != ErrorKind::AlreadyExists {
        return false;
    }
    match fs::metadata(rt, path) {
        Ok(_) => true,
        Err(error) => !matches!(error.kind(), ErrorKind::NotFound | ErrorKind::OutOfMemory),
    }
}

/// Opens a descriptor of the program, a device or a pipe.
fn open_in_place<R: Files + AllocGlobal>(rt: &R, path: &str) -> io::Result<R::File> {
    match resolve(rt, path)? {
        Resolved::Descriptor(number) => Descriptor::new(rt, number)?.open(rt, path),
        _ => open_existing(rt, path),
    }
}

/// Opens a device or a pipe. Fails for a regular file, which is replaced as a whole instead.
fn open_existing<R: Files>(rt: &R, path: &str) -> io::Result<R::File> {
    let file = OpenOptions::new().write(true).open(rt, path)?;
    if file.metadata()?.is_file() {
        return Err(io::Error::from(ErrorKind::Unsupported));
    }
    Ok(file)
}

/// The fault of an error in opening or reading a file.
fn failure_of(error: &io::Error) -> Failure<InputFault> {
    match error.kind() {
        ErrorKind::OutOfMemory => Failure::OutOfMemory,
        kind => Failure::Fault(InputFault::of(kind)),
    }
}
