//! A device in memory, for tests, which fails at a call that the test picks.
ghost use Rattle.std.specs.Prelude.{◌≡◌, None, false};
ghost use Rattle.std.specs.Io.{WritesAtMost};
ghost use Rattle.file_disk.specs.Crashes.{none_left};

use file_disk::{Device, StoredFile, Target};
use file_host::InputFault;
use sf_base::Failure;
use std::alloc::{AllocError, Global};
use std::io;
use std::io::{ErrorKind, Write};

/// The most bytes that one call writes or reads, so that texts are written and read in pieces.
const PIECE: usize = 3;

/// How a device in memory behaves.
#[derive(Clone, Copy)]
pub(crate) struct Behaviour {
    /// The number of calls before one fails.
    pub(crate) calls: u64,
    /// Whether all calls after that one fail too.
    pub(crate) is_broken: bool,
    /// Whether files can be linked.
    pub(crate) has_links: bool,
}

/// A device in memory. Each path is a file of its own, but a path that begins with `pipe` is written in place. Its clauses
/// are empty: it tests what the contracts of `Disk` leave open, such as that no temporary file is left.
#[derive(Drop)]
pub(crate) struct MemoryDevice {
    alloc: Global,
    behaviour: Behaviour,
    files: Vec<MemoryFile>,
    folders: Vec<String>,
    output: String,
    input: String,
    read: usize,
    // The kind of the next call's error, if it fails: of the first one that fails `StorageFull`, of later ones another.
    next_error: ErrorKind,
    // As of `System`.
    last_error: Option<ErrorKind>,
}

/// A file in memory.
#[derive(Drop)]
struct MemoryFile {
    path: String,
    bytes: Vec<u8>,
}

impl MemoryDevice {
    /// A device without files.
    pub(crate) fn new(alloc: Global, behaviour: Behaviour) -> MemoryDevice {
        MemoryDevice {
            alloc,
            behaviour,
            files: Vec::new(alloc),
            folders: Vec::new(alloc),
            output: String::new(alloc),
            input: String::new(alloc),
            read: 0,
            next_error: ErrorKind::StorageFull,
            last_error: None,
        }
    }

    /// Puts a file at a path where nothing is.
    pub(crate) fn put(&mut self, path: &str, bytes: &[u8]) -> Result<(), AllocError> {
        let path = String::from_str(self.alloc, path)?;
        let bytes = Vec::from_slice(self.alloc, bytes)?;
        self.files.push(MemoryFile { path, bytes })?;
        Ok(())
    }

    /// Returns the bytes of the file at a path.
    pub(crate) fn file(&self, path: &str) -> Option<&[u8]> {
        let file = self.files.get(self.find(path)?)?;
        Some(file.bytes.as_slice())
    }

    /// Returns how many files there are.
    pub(crate) fn count(&self) -> usize {
        self.files.len()
    }

    /// Whether a folder was made at a path.
    pub(crate) fn has_folder(&self, path: &str) -> bool {
        for folder in &self.folders {
            if folder.as_str() == path {
                return true;
            }
        }
        false
    }

    fn find(&self, path: &str) -> Option<usize> {
        for (at, file) in self.files.iter().enumerate() {
            if file.path.as_str() == path {
                return Some(at);
            }
        }
        None
    }

    fn take_out(&mut self, path: &str) -> io::Result<MemoryFile> {
        match self.find(path) {
            Some(at) if at < self.files.len() => Ok(self.files.swap_remove(at)),
            _ => Err(io::Error::from(ErrorKind::NotFound)),
        }
    }

    fn move_file(&mut self, from: &str, to: &str) -> io::Result<()> {
        let path = String::from_str(self.alloc, to)?;
        let file = self.take_out(from)?;
        let _old = self.take_out(to);
        self.files.push(MemoryFile {
            path,
            bytes: file.bytes,
        })?;
        Ok(())
    }

    // Counts a call, and fails if it is one that fails.
    fn call(&mut self) -> io::Result<()> {
        if self.behaviour.calls == 0 {
            if !self.behaviour.is_broken {
                self.behaviour.calls = u64::MAX;
            }
            let error = io::Error::from(self.next_error);
            self.next_error = ErrorKind::PermissionDenied;
            return Err(error);
        }
        self.behaviour.calls -= 1;
        Ok(())
    }

    // Notes the error of a call, unless an earlier one is noted, after which the call cleans up.
    fn noted<T>(&mut self, answer: io::Result<T>) -> io::Result<T>
        ensures { result ≡ answer }
    {
        if self.last_error.is_none() {
            if let Err(error) = &answer {
                self.last_error = Some(error.kind());
            }
        }
        answer
    }

    fn check_free(&self, path: &str) -> io::Result<()> {
        if self.find(path).is_some() || self.has_folder(path) {
            return Err(io::Error::from(ErrorKind::AlreadyExists));
        }
        Ok(())
    }

    fn create(&mut self, path: &str) -> io::Result<()> {
        self.call()?;
        self.check_free(path)?;
        self.put(path, b"")?;
        self.output = String::from_str(self.alloc, path)?;
        Ok(())
    }

    fn open(&mut self, path: &str) -> io::Result<()> {
        self.call()?;
        if self.find(path).is_none() {
            self.put(path, b"")?;
        }
        self.output = String::from_str(self.alloc, path)?;
        Ok(())
    }

    fn append_piece(&mut self, bytes: &[u8]) -> io::Result<usize>
        ensures { WritesAtMost result bytes.now }
    {
        self.call()?;
        let count = bytes.len().min(PIECE);
        let Some(at) = self.find(self.output.as_str()) else {
            return Err(io::Error::from(ErrorKind::NotFound));
        };
        match self.files.get_mut(at) {
            Some(file) => file.bytes.extend_from_slice(&bytes[..count])?,
            None => return Err(io::Error::from(ErrorKind::NotFound)),
        }
        Ok(count)
    }

    fn replace(&mut self, from: &str, to: &str) -> io::Result<()> {
        self.call()?;
        self.move_file(from, to)
    }

    fn move_new(&mut self, from: &str, to: &str) -> io::Result<()> {
        self.call()?;
        self.check_free(to)?;
        self.move_file(from, to)
    }

    fn add_link(&mut self, from: &str, to: &str) -> io::Result<()> {
        self.call()?;
        if !self.behaviour.has_links {
            return Err(io::Error::from(ErrorKind::Unsupported));
        }
        self.check_free(to)?;
        let Some(bytes) = self.file(from) else {
            return Err(io::Error::from(ErrorKind::NotFound));
        };
        let bytes = Vec::from_slice(self.alloc, bytes)?;
        self.put(to, bytes.as_slice())?;
        Ok(())
    }

    fn add_folder(&mut self, path: &str) -> io::Result<bool> {
        self.call()?;
        if self.check_free(path).is_err() {
            return Ok(false);
        }
        self.folders.push(String::from_str(self.alloc, path)?)?;
        Ok(true)
    }

    fn delete(&mut self, path: &str) -> io::Result<()> {
        self.call()?;
        let _file = self.take_out(path)?;
        Ok(())
    }
}

/// A stream of a device in memory, which keeps what is written.
#[derive(Drop)]
pub(crate) struct MemoryStream {
    bytes: Vec<u8>,
}

impl MemoryStream {
    /// Returns what was written.
    pub(crate) fn bytes(&self) -> &[u8] {
        self.bytes.as_slice()
    }
}

impl Write for MemoryStream {
    fn write(&mut self, bytes: &[u8]) -> io::Result<usize> {
        let count = bytes.len().min(PIECE);
        self.bytes.extend_from_slice(&bytes[..count])?;
        Ok(count)
    }

    fn flush(&mut self) -> io::Result<()> {
        Ok(())
    }
}

impl Device for MemoryDevice {
    type Stream = MemoryStream;

    ghost world = { λ device. None };

    ghost output = { λ device. None };

    ghost is_dirty = { λ device. false };

    ghost unread = { λ device. None };

    ghost durable = { λ device. None };

    ghost past = { λ device left. ⊥ };

    ghost counts_now = { λ device left e. none_left left e };

    ghost agrees = { λ device. tt };

    fn resolve(&mut self, path: &str) -> Result<Target, AllocError> {
        if self.call().is_err() {
            return Err(AllocError);
        }
        if path.starts_with("pipe") {
            return Ok(Target::InPlace);
        }
        Ok(Target::Stores(StoredFile {
            path: String::from_str(self.alloc, path)?,
            is_there: self.find(path).is_some(),
        }))
    }

    fn check_writable(&mut self, _path: &str) -> io::Result<()> {
        self.last_error = None;
        let answer = self.call();
        self.noted(answer)
    }

    fn create_new(&mut self, path: &str, _is_private: bool) -> io::Result<()> {
        self.last_error = None;
        let answer = self.create(path);
        self.noted(answer)
    }

    fn open_in_place(&mut self, path: &str) -> io::Result<()> {
        self.last_error = None;
        let answer = self.open(path);
        self.noted(answer)
    }

    fn append(&mut self, bytes: &[u8]) -> io::Result<usize> {
        let answer = self.append_piece(bytes);
        self.noted(answer)
    }

    fn sync(&mut self) -> io::Result<()> {
        let answer = self.call();
        self.noted(answer)
    }

    fn keep_access(&mut self, _path: &str, _new_path: &str) -> bool {
        self.call().is_ok()
    }

    fn rename(&mut self, from: &str, to: &str) -> io::Result<()> {
        let answer = self.replace(from, to);
        self.noted(answer)
    }

    fn rename_new(&mut self, from: &str, to: &str) -> io::Result<()> {
        let answer = self.move_new(from, to);
        self.noted(answer)
    }

    fn link(&mut self, from: &str, to: &str) -> io::Result<()> {
        self.last_error = None;
        let answer = self.add_link(from, to);
        self.noted(answer)
    }

    fn remove(&mut self, path: &str) -> io::Result<()> {
        let answer = self.delete(path);
        self.noted(answer)
    }

    fn make_folder(&mut self, path: &str) -> io::Result<bool> {
        self.last_error = None;
        let answer = self.add_folder(path);
        self.noted(answer)
    }

    fn sync_folder(&mut self, _path: &str) {
        let _ = self.call();
    }

    fn open_input(&mut self, path: &str) -> Result<u64, Failure<InputFault>> {
        if self.call().is_err() {
            return Err(Failure::OutOfMemory);
        }
        let Some(bytes) = self.file(path) else {
            return Err(Failure::Fault(InputFault::NotFound));
        };
        let length = bytes.len() as u64;
        self.input = String::from_str(self.alloc, path)?;
        self.read = 0;
        Ok(length)
    }

    fn read_input(&mut self, buffer: &mut [u8]) -> Result<usize, Failure<InputFault>> {
        if self.call().is_err() {
            return Err(Failure::OutOfMemory);
        }
        let Some(at) = self.find(self.input.as_str()) else {
            return Err(Failure::Fault(InputFault::NotFound));
        };
        let Some(file) = self.files.get(at) else {
            return Err(Failure::Fault(InputFault::NotFound));
        };
        let rest = file.bytes.len().saturating_sub(self.read);
        let count = rest.min(PIECE).min(buffer.len());
        for index in 0..count {
            buffer[index] = file.bytes.get(self.read + index).copied().unwrap_or(0);
        }
        self.read += count;
        Ok(count)
    }

    fn read_head(&mut self, path: &str, head: &mut [u8]) -> bool {
        let is_called = self.call().is_ok();
        match self.file(path) {
            Some(bytes) if is_called && bytes.len() >= head.len() => {
                head.copy_from_slice(&bytes[..head.len()]);
                true
            }
            _ => false,
        }
    }

    fn is_one_file(&mut self, one: &str, other: &str) -> Result<bool, AllocError> {
        match self.call() {
            Ok(()) => Ok(one == other),
            Err(_) => Err(AllocError),
        }
    }

    fn is_output(&mut self, path: &str) -> Result<bool, AllocError> {
        match self.call() {
            Ok(()) => Ok(path == "pipe-output"),
            Err(_) => Err(AllocError),
        }
    }

    fn open_stream(&mut self, _path: &str) -> Result<MemoryStream, AllocError> {
        match self.call() {
            Ok(()) => Ok(MemoryStream {
                bytes: Vec::new(self.alloc),
            }),
            Err(_) => Err(AllocError),
        }
    }

    fn last_error(&self) -> Option<ErrorKind> {
        self.last_error
    }
}
