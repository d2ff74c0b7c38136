//! The world of files.

use crate::faults::PairFault;
use crate::input_fault::InputFault;
use base_outputs::WriteFault;
use base_texts::Text;
use sf_base::Failure;
use std::alloc::{AllocError, Global};
use std::io::{ErrorKind, Write};

/// The world of files, each known by its path.
pub trait Host {
    ghost use Rattle.std.specs.Prelude.{◌≡◌, ℕ, Option, Ok, IfOk, IfErr, OnOk, OnErr};
    ghost use Rattle.std.specs.Option.{option_map};
    ghost use Rattle.file_host.specs.World.{World, Gives, IsMade, with_text, with_pair, with_folder_there, with_stream};
    ghost use Rattle.file_host.specs.Saving.{ReadFails, SaveFails, PairFails, Counts, CountsPair};
    ghost use Rattle.file_host.specs.Checks.{IsOneFile, IsOutput, HasBank};

    /// A file that is written as a stream.
    type Stream: Write + Drop;

    // The world, or None where nothing is known of it.
    ghost world: { Self → Option World };

    // How many bytes of its text the last save wrote that failed by a write fault; none if that was making a folder.
    ghost written: { Self → ℕ };

    /// Reads a whole file.
    fn read(&mut self, alloc: Global, path: &str) -> Result<Vec<u8>, Failure<InputFault>>
        ensures bytes { IfOk result (λ bytes. Gives (world self.old) path.now (Ok bytes.items)) }
        ensures fault { IfErr result (ReadFails (world self.old) path.now) }
        ensures stays { world self.new ≡ world self.old };

    /// Saves a text at a path, in place of the file that is there. If that fails, the file is as it was, or holds the
    /// whole text.
    fn save<T: Text>(&mut self, path: &str, text: &T) -> Result<(), Failure<WriteFault>>
        ensures saved { OnOk result (world self.new ≡ option_map (with_text path.now (T.bytes text.now)) (world self.old)) }
        ensures failed { IfErr result (SaveFails (world self.old) (world self.new) path.now (T.bytes text.now)) }
        ensures counted { IfErr result (Counts (written self.new)) };

    /// Saves an undo script, and then the text that it undoes, each in place of the file that is there. If that fails,
    /// each file is as it was, or holds its whole text, and the new text is never without its undo script; an old undo
    /// script may be left moved aside. If both paths lead to one place, a fault states nothing of that place.
    fn save_pair<U: Text, T: Text>(
        &mut self,
        undo_path: &str,
        undo: &U,
        path: &str,
        text: &T,
    ) -> Result<(), PairFault>
        ensures saved { OnOk result (world self.new ≡ option_map (with_pair undo_path.now (U.bytes undo.now) path.now (T.bytes text.now)) (world self.old)) }
        ensures failed { IfErr result (PairFails (world self.old) (world self.new) undo_path.now (U.bytes undo.now) path.now (T.bytes text.now)) }
        ensures counted { IfErr result (CountsPair (written self.new)) };

    /// Makes a folder at a path where nothing is, and returns true; or returns false where something is already.
    fn make_folder(&mut self, path: &str) -> Result<bool, Failure<WriteFault>>
        ensures made { OnOk result (world self.new ≡ option_map (with_folder_there path.now) (world self.old)) }
        ensures is_new { IfOk result (IsMade (world self.old) path.now) }
        ensures stays { OnErr result (world self.new ≡ world self.old) }
        ensures counted { IfErr result (Counts (written self.new)) };

    /// Whether two paths lead to one file: by links, by hard links, or as a new file in one folder. Never for a
    /// character device, such as /dev/null.
    fn is_one_file(&mut self, one: &str, other: &str) -> Result<bool, AllocError>
        ensures found { IfOk result (IsOneFile (world self.old) one.now other.now) }
        ensures stays { world self.new ≡ world self.old };

    /// Whether there is a regular file at a path that begins as a bank does.
    fn has_bank(&mut self, path: &str) -> Result<bool, AllocError>
        ensures found { IfOk result (HasBank (world self.old) path.now) }
        ensures stays { world self.new ≡ world self.old };

    /// Whether a path leads to the standard output of the program.
    fn is_output(&mut self, path: &str) -> Result<bool, AllocError>
        ensures found { IfOk result (IsOutput (world self.old) path.now) }
        ensures stays { world self.new ≡ world self.old };

    /// Opens a file that is written as a stream, from its first write or flush on. A failed allocation is the only
    /// error.
    fn open_stream(&mut self, path: &str) -> Result<Self::Stream, AllocError>
        ensures opened { OnOk result (world self.new ≡ option_map (with_stream path.now) (world self.old)) }
        ensures stays { OnErr result (world self.new ≡ world self.old) };

    /// The kind of the error of the last write fault, of a save or of making a folder, if the system reported one.
    /// `BrokenPipe` where nothing reads the other end of a pipe.
    fn last_error(&self) -> Option<ErrorKind>;
}
