//! A host in memory, for tests.
ghost use Rattle.std.specs.Prelude.{◌≡◌, ℕ, [], Ok, Some, true, not, OnOk, OnErr, IfOk, IfErr};
ghost use Rattle.std.specs.Option.{option_map};
ghost use Rattle.file_host.specs.Saving.{Counts, CountsPair};
ghost use Rattle.file_host.specs.Journal.{IsFile, Pushes, can_store, no_files, held_after, held_in, found_or_not, world_of};

use crate::checks::begins_as_bank;
use crate::faults::{PairFault, Which};
use crate::host::Host;
use crate::input_fault::InputFault;
use crate::saved::{Content, Entry};
use base_outputs::WriteFault;
use base_texts::{Text, write_text};
use sf_base::Failure;
use sf_base::limits::FILE_LENGTH;
use std::alloc::{AllocError, Global};
use std::io;
use std::io::{ErrorKind, Write};

/// A host whose files are in memory, each path a file of its own.
#[derive(Drop)]
pub struct MemoryHost {
    alloc: Global,
    // What was saved or made, the newest last.
    entries: Vec<Entry>,
    // How many more bytes can be saved.
    room: usize,
    // How many bytes of its text the last save wrote that failed.
    written: u64,
}

impl MemoryHost {
    /// A host without files or folders, which fails to write more than `room` bytes in all.
    pub fn new(alloc: Global, room: usize) -> MemoryHost
        ensures { result.entries.items ≡ [] }
    {
        MemoryHost {
            alloc,
            entries: Vec::new(alloc),
            room,
            written: 0,
        }
    }

    /// Returns the bytes of the file at a path.
    pub fn file(&self, path: &str) -> Option<&[u8]>
        ensures { IsFile (held_after no_files self.now.entries.items path.now) (option_map (λ bytes. bytes.now) result) }
    {
        match newest(self.entries.as_slice(), path) {
            Some(Content::File(bytes)) => Some(bytes.as_slice()),
            _ => None,
        }
    }

    // Whether there is a folder at a path.
    fn has_folder(&self, path: &str) -> bool
        ensures { result ≡ not (can_store (held_after no_files self.now.entries.items path.now)) }
    {
        matches!(newest(self.entries.as_slice(), path), Some(Content::Folder))
    }

    // Saves a text as the file at a path, which fails at a folder. If it fails, nothing is changed.
    fn push<T: Text>(&mut self, path: &str, text: &T) -> Result<(), Failure<WriteFault>>
        ensures pushed { OnOk result (Pushes self.old.entries.items self.new.entries.items path.now (Ok (T.bytes text.now))) }
        ensures stores { OnOk result (can_store (held_after no_files self.old.entries.items path.now) ≡ true) }
        ensures failed { OnErr result (self.new.entries.items ≡ self.old.entries.items) }
        ensures counted { IfErr result (Counts self.new.written) }
    {
        if self.has_folder(path) {
            self.written = 0;
            return Err(Failure::Fault(WriteFault { written: 0 }));
        }
        let Ok(bytes) = written(self.alloc, text) else {
            return Err(Failure::OutOfMemory);
        };
        let length = bytes.len();
        if length > self.room {
            let written = self.room as u64;
            self.written = written;
            return Err(Failure::Fault(WriteFault { written }));
        }
        self.keep(path, Content::File(bytes))?;
        self.room -= length;
        Ok(())
    }

    // Keeps a file or a folder.
    fn keep(&mut self, path: &str, content: Content) -> Result<(), AllocError>
        ensures kept { OnOk result (Pushes self.old.entries.items self.new.entries.items path.now (held_in content)) }
        ensures room { self.new.room ≡ self.old.room }
        ensures failed { OnErr result (self.new.entries.items ≡ self.old.entries.items) }
    {
        let path = String::from_str(self.alloc, path)?;
        self.entries.push(Entry { path, content })?;
        Ok(())
    }
}

// What was saved or made last at a path.
fn newest<'a>(entries: &'a [Entry], path: &str) -> Option<&'a Content>
    ensures { found_or_not (option_map (λ content. content.now) result) ≡ held_after no_files entries.now path.now }
{
    let mut found = None;
    for entry in entries {
        if path == entry.path.as_str() {
            found = Some(&entry.content);
        }
    }
    found
}

/// A stream of a host in memory, which has none: opening one is out of memory.
#[derive(Drop)]
pub struct MemoryStream;

impl Write for MemoryStream {
    fn write(&mut self, bytes: &[u8]) -> io::Result<usize> {
        Ok(bytes.len())
    }

    fn flush(&mut self) -> io::Result<()> {
        Ok(())
    }
}

impl Host for MemoryHost {
    ghost world = { λ host. Some (world_of host.entries.items) };

    ghost written = { λ host. host.written };

    type Stream = MemoryStream;

    fn read(&mut self, alloc: Global, path: &str) -> Result<Vec<u8>, Failure<InputFault>> {
        let bytes = match newest(self.entries.as_slice(), path) {
            Some(Content::File(bytes)) => bytes.as_slice(),
            Some(Content::Folder) => return Err(Failure::Fault(InputFault::IsFolder)),
            None => return Err(Failure::Fault(InputFault::NotFound)),
        };
        if bytes.len() as u64 > FILE_LENGTH {
            return Err(Failure::Fault(InputFault::TooLong));
        }
        match Vec::from_slice(alloc, bytes) {
            Ok(bytes) => Ok(bytes),
            Err(_) => Err(Failure::OutOfMemory),
        }
    }

    fn save<T: Text>(&mut self, path: &str, text: &T) -> Result<(), Failure<WriteFault>> {
        self.push(path, text)
    }

    fn save_pair<U: Text, T: Text>(
        &mut self,
        undo_path: &str,
        undo: &U,
        path: &str,
        text: &T,
    ) -> Result<(), PairFault> {
        match self.push(undo_path, undo) {
            Ok(()) => {}
            Err(failure) => return Err(pair_fault(Which::Undo, failure)),
        }
        match self.push(path, text) {
            Ok(()) => Ok(()),
            Err(failure) => {
                let _undo = self.entries.pop();
                Err(pair_fault(Which::Out, failure))
            }
        }
    }

    fn make_folder(&mut self, path: &str) -> Result<bool, Failure<WriteFault>> {
        if newest(self.entries.as_slice(), path).is_some() {
            return Ok(false);
        }
        self.keep(path, Content::Folder)?;
        Ok(true)
    }

    fn is_one_file(&mut self, one: &str, other: &str) -> Result<bool, AllocError> {
        Ok(one == other)
    }

    fn has_bank(&mut self, path: &str) -> Result<bool, AllocError> {
        match self.file(path) {
            Some(bytes) => Ok(begins_as_bank(bytes)),
            None => Ok(false),
        }
    }

    fn is_output(&mut self, path: &str) -> Result<bool, AllocError> {
        let _ = path;
        Ok(false)
    }

    fn open_stream(&mut self, path: &str) -> Result<MemoryStream, AllocError> {
        let _ = path;
        Err(AllocError)
    }

    fn last_error(&self) -> Option<ErrorKind> {
        None
    }
}

// The fault of a pair, of which this text can't be saved.
fn pair_fault(which: Which, failure: Failure<WriteFault>) -> PairFault
    ensures { (n : ℕ) → Counts n failure → CountsPair n result }
{
    match failure {
        Failure::OutOfMemory => PairFault::OutOfMemory,
        Failure::Fault(fault) => PairFault::Write(which, fault.written),
    }
}

// The bytes of a text.
fn written<T: Text>(alloc: Global, text: &T) -> Result<Vec<u8>, WriteFault>
    ensures { IfOk result (λ bytes. bytes.items ≡ T.bytes text.now) }
{
    let mut bytes = Vec::new(alloc);
    write_text(text, &mut bytes)?;
    Ok(bytes)
}
