//! What a system does to files, one call at a time.

use crate::target::Target;
use file_host::InputFault;
use sf_base::Failure;
use std::alloc::AllocError;
use std::io;
use std::io::{ErrorKind, Write};

/// What a system does to files: each method is one call of it. One file at a time is open for writing, and one for
/// reading.
pub trait Device {
    ghost use Rattle.std.specs.Prelude.{◌≡◌, ◌<◌, ◌≤◌, List, ℕ, [], Option, Some, None, Bool, false, Ok, take, length, IfOk, IfErr, OnOk, OnErr};
    ghost use Rattle.std.specs.Option.{option_map};
    ghost use Rattle.std.specs.Io.{WritesAtMost};
    ghost use Rattle.file_host.specs.World.{World, IsMade, with_file, without_file, with_folder_there, with_stream};
    ghost use Rattle.file_host.specs.Saving.{ReadFails};
    ghost use Rattle.file_host.specs.Checks.{IsOneFile, IsOutput};
    ghost use Rattle.file_disk.specs.Devices.{Leads, IsNew, IsDirect, IsOpen, dirty_after, grown, moved, linked};
    ghost use Rattle.file_disk.specs.Inputs.{Unread, Opens, ReadsOn, IsAllRead, StopsReading};
    ghost use Rattle.file_disk.specs.Heads.{ReadsHead};
    ghost use Rattle.file_disk.specs.Frames.{IfKnown};
    ghost use Rattle.file_disk.specs.Crashes.{ChangesIfOk, HasSameFiles, MayChange, Passes, synced, unsynced};

    /// A file that is written as a stream.
    type Stream: Write + Drop;

    // The world, or None where nothing is known of it.
    ghost world: { Self → Option World };

    // The path of the new file that is open for writing, or None for a file that doesn't store.
    ghost output: { Self → Option (List ℕ) };

    // Whether bytes were written to that file since it was synced last.
    ghost is_dirty: { Self → Bool };

    // What is still to be read of the file that is open for reading, or None where that isn't known.
    ghost unread: { Self → Option Unread };

    // What a crash at this moment leaves, or None where nothing is known of it. Bytes that aren't synced may be lost, but
    // files are created, moved, linked and removed in order.
    ghost durable: { Self → Option World };

    // What a crash at some moment so far might have left.
    ghost past: { Self → World → Type 0 };

    // A crash at this moment is one of those so far.
    ghost counts_now: { (device : Self) (left : World) → durable device ≡ Some left → past device left };

    // A crash leaves the same files, whatever they hold.
    ghost agrees: { (device : Self) → IfKnown HasSameFiles (world device) (durable device) };

    /// Follows the links of a path.
    fn resolve(&mut self, path: &str) -> Result<Target, AllocError>
        ensures target { IfOk result (Leads (world self.old) path.now) }
        ensures stays { world self.new ≡ world self.old }
        ensures left { durable self.new ≡ durable self.old }
        ensures crash { Passes (past self.old) (past self.new) (durable self.old) (durable self.new) };

    /// Fails if there is no permission to write the file at a path.
    fn check_writable(&mut self, path: &str) -> io::Result<()>
        ensures stays { world self.new ≡ world self.old }
        ensures left { durable self.new ≡ durable self.old }
        ensures crash { Passes (past self.old) (past self.new) (durable self.old) (durable self.new) };

    /// Creates an empty file at a path where nothing is, and opens it for writing. Others can't read it if it is private.
    fn create_new(&mut self, path: &str, is_private: bool) -> io::Result<()>
        ensures free { OnOk result (IsNew (world self.old) path.now) }
        ensures open { OnOk result (IsOpen (world self.new) (output self.new) (Some path.now)) }
        ensures made { OnOk result (world self.new ≡ option_map (with_file path.now (Ok [])) (world self.old)) }
        ensures stays { OnErr result (world self.new ≡ world self.old) }
        ensures clean { OnOk result (is_dirty self.new ≡ false) }
        ensures kept { OnErr result (is_dirty self.new ≡ is_dirty self.old) }
        ensures left { ChangesIfOk result (with_file path.now (Ok [])) (durable self.old) (durable self.new) }
        ensures crash { Passes (past self.old) (past self.new) (durable self.old) (durable self.new) };

    /// Opens a pipe, a device or a descriptor for writing. Fails for a file that stores.
    fn open_in_place(&mut self, path: &str) -> io::Result<()>
        ensures open { OnOk result (output self.new ≡ None) }
        ensures stays { world self.new ≡ world self.old }
        ensures clean { OnOk result (is_dirty self.new ≡ false) }
        ensures left { durable self.new ≡ durable self.old }
        ensures crash { Passes (past self.old) (past self.new) (durable self.old) (durable self.new) };

    /// Appends bytes, or the first of them, to the open file, and returns how many.
    fn append(&mut self, bytes: &[u8]) -> io::Result<usize>
        ensures bound { WritesAtMost result bytes.now }
        ensures grown { IfOk result (λ n. world self.new ≡ option_map (grown (output self.old) (take n bytes.now)) (world self.old)) }
        ensures stays { OnErr result (world self.new ≡ world self.old) }
        ensures open { output self.new ≡ output self.old }
        ensures dirty { is_dirty self.new ≡ dirty_after (output self.old) (is_dirty self.old) }
        ensures left { MayChange (unsynced (output self.old)) (durable self.old) (durable self.new) }
        ensures crash { Passes (past self.old) (past self.new) (durable self.old) (durable self.new) };

    /// Syncs the open file.
    fn sync(&mut self) -> io::Result<()>
        ensures stays { world self.new ≡ world self.old }
        ensures clean { OnOk result (is_dirty self.new ≡ false) }
        ensures left { ChangesIfOk result (synced (output self.old) (world self.old)) (durable self.old) (durable self.new) }
        ensures crash { Passes (past self.old) (past self.new) (durable self.old) (durable self.new) };

    /// Gives the open file, which is at `new_path`, the group, owner and permissions of another file, as far as the
    /// system allows. Returns whether both have one owner.
    fn keep_access(&mut self, path: &str, new_path: &str) -> bool
        ensures stays { world self.new ≡ world self.old }
        ensures open { output self.new ≡ output self.old }
        ensures left { durable self.new ≡ durable self.old }
        ensures crash { Passes (past self.old) (past self.new) (durable self.old) (durable self.new) };

    /// Moves a file to another path, in place of the file that is there. The open file must be synced: after a crash, a
    /// file that was moved before it was synced may hold anything.
    fn rename(&mut self, from: &str, to: &str) -> io::Result<()>
        requires from { IsDirect (world self.old) from.now }
        requires to { IsDirect (world self.old) to.now }
        requires clean { is_dirty self.old ≡ false }
        ensures moved { OnOk result (world self.new ≡ option_map (moved from.now to.now) (world self.old)) }
        ensures stays { OnErr result (world self.new ≡ world self.old) }
        ensures kept { is_dirty self.new ≡ is_dirty self.old }
        ensures left { ChangesIfOk result (moved from.now to.now) (durable self.old) (durable self.new) }
        ensures crash { Passes (past self.old) (past self.new) (durable self.old) (durable self.new) };

    /// Moves a file to a path where nothing is. The open file need not be synced: after a crash, the file that was moved
    /// may hold anything, but no other one is lost.
    fn rename_new(&mut self, from: &str, to: &str) -> io::Result<()>
        requires { IsDirect (world self.old) from.now }
        ensures free { OnOk result (IsNew (world self.old) to.now) }
        ensures moved { OnOk result (world self.new ≡ option_map (moved from.now to.now) (world self.old)) }
        ensures stays { OnErr result (world self.new ≡ world self.old) }
        ensures kept { is_dirty self.new ≡ is_dirty self.old }
        ensures left { ChangesIfOk result (moved from.now to.now) (durable self.old) (durable self.new) }
        ensures crash { Passes (past self.old) (past self.new) (durable self.old) (durable self.new) };

    /// Links a file to a further path, where nothing is.
    fn link(&mut self, from: &str, to: &str) -> io::Result<()>
        requires { IsDirect (world self.old) from.now }
        ensures free { OnOk result (IsNew (world self.old) to.now) }
        ensures linked { OnOk result (world self.new ≡ option_map (linked from.now to.now) (world self.old)) }
        ensures stays { OnErr result (world self.new ≡ world self.old) }
        ensures kept { is_dirty self.new ≡ is_dirty self.old }
        ensures left { ChangesIfOk result (linked from.now to.now) (durable self.old) (durable self.new) }
        ensures crash { Passes (past self.old) (past self.new) (durable self.old) (durable self.new) };

    /// Removes a file.
    fn remove(&mut self, path: &str) -> io::Result<()>
        requires { IsDirect (world self.old) path.now }
        ensures removed { OnOk result (world self.new ≡ option_map (without_file path.now) (world self.old)) }
        ensures stays { OnErr result (world self.new ≡ world self.old) }
        ensures kept { is_dirty self.new ≡ is_dirty self.old }
        ensures left { ChangesIfOk result (without_file path.now) (durable self.old) (durable self.new) }
        ensures crash { Passes (past self.old) (past self.new) (durable self.old) (durable self.new) };

    /// Makes a folder at a path where nothing is, and returns true; or returns false where something is already.
    fn make_folder(&mut self, path: &str) -> io::Result<bool>
        ensures made { OnOk result (world self.new ≡ option_map (with_folder_there path.now) (world self.old)) }
        ensures is_new { IfOk result (IsMade (world self.old) path.now) }
        ensures stays { OnErr result (world self.new ≡ world self.old) }
        ensures left { ChangesIfOk result (with_folder_there path.now) (durable self.old) (durable self.new) }
        ensures crash { Passes (past self.old) (past self.new) (durable self.old) (durable self.new) };

    /// Syncs the folder of a file, if it can be opened.
    fn sync_folder(&mut self, path: &str)
        ensures stays { world self.new ≡ world self.old }
        ensures kept { is_dirty self.new ≡ is_dirty self.old }
        ensures left { durable self.new ≡ durable self.old }
        ensures crash { Passes (past self.old) (past self.new) (durable self.old) (durable self.new) };

    /// Opens a file for reading, and returns its expected length.
    fn open_input(&mut self, path: &str) -> Result<u64, Failure<InputFault>>
        ensures opened { OnOk result (Opens (world self.old) path.now (unread self.new)) }
        ensures failed { IfErr result (ReadFails (world self.old) path.now) }
        ensures stays { world self.new ≡ world self.old }
        ensures left { durable self.new ≡ durable self.old }
        ensures crash { Passes (past self.old) (past self.new) (durable self.old) (durable self.new) };

    /// Reads the next bytes of the file that is open for reading, and returns how many. No bytes mean its end.
    fn read_input(&mut self, buffer: &mut [u8]) -> Result<usize, Failure<InputFault>>
        requires { 0 < length buffer.old }
        ensures length { length buffer.new ≡ length buffer.old }
        ensures bound { IfOk result (λ n. n ≤ length buffer.new) }
        ensures reads { IfOk result (λ n. ReadsOn (unread self.old) (unread self.new) (take n buffer.new)) }
        ensures end { IfOk result (λ n. n ≡ 0 → IsAllRead (unread self.old)) }
        ensures failed { IfErr result (StopsReading (unread self.old)) }
        ensures stays { world self.new ≡ world self.old }
        ensures left { durable self.new ≡ durable self.old }
        ensures crash { Passes (past self.old) (past self.new) (durable self.old) (durable self.new) };

    /// Reads the first bytes of a file. Returns whether it has as many as `head`.
    fn read_head(&mut self, path: &str, head: &mut [u8]) -> bool
        ensures length { length head.new ≡ length head.old }
        ensures reads { ReadsHead (world self.old) path.now head.new result }
        ensures stays { world self.new ≡ world self.old }
        ensures left { durable self.new ≡ durable self.old }
        ensures crash { Passes (past self.old) (past self.new) (durable self.old) (durable self.new) };

    /// Whether two paths lead to one file: by links, by hard links, or as a new file in one folder. Never for a
    /// character device, such as /dev/null.
    fn is_one_file(&mut self, one: &str, other: &str) -> Result<bool, AllocError>
        ensures found { IfOk result (IsOneFile (world self.old) one.now other.now) }
        ensures stays { world self.new ≡ world self.old }
        ensures left { durable self.new ≡ durable self.old }
        ensures crash { Passes (past self.old) (past self.new) (durable self.old) (durable self.new) };

    /// Whether a path leads to the standard output of the program.
    fn is_output(&mut self, path: &str) -> Result<bool, AllocError>
        ensures found { IfOk result (IsOutput (world self.old) path.now) }
        ensures stays { world self.new ≡ world self.old }
        ensures left { durable self.new ≡ durable self.old }
        ensures crash { Passes (past self.old) (past self.new) (durable self.old) (durable self.new) };

    /// Opens a file that is written as a stream, from its first write or flush on. A failed allocation is the only
    /// error.
    fn open_stream(&mut self, path: &str) -> Result<Self::Stream, AllocError>
        ensures opened { OnOk result (world self.new ≡ option_map (with_stream path.now) (world self.old)) }
        ensures stays { OnErr result (world self.new ≡ world self.old) }
        ensures left { ChangesIfOk result (with_stream path.now) (durable self.old) (durable self.new) }
        ensures crash { Passes (past self.old) (past self.new) (durable self.old) (durable self.new) };

    /// The kind of the error of the last write fault, of a save or of making a folder, if the system reported one.
    /// `BrokenPipe` where nothing reads the other end of a pipe.
    fn last_error(&self) -> Option<ErrorKind>;
}
