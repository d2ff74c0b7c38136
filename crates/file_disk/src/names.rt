//! Temporary files, by their numbered names in the folder of the file that is written.
ghost use Rattle.std.specs.Prelude.{◌≡◌, ◌++◌, [], Ok, Some, false, OnOk, OnErr, string_bytes};
ghost use Rattle.std.specs.Option.{option_map};
ghost use Rattle.file_host.specs.World.{with_file};
ghost use Rattle.file_disk.specs.Devices.{IsNew, IsOpen, IsTemporary};
ghost use Rattle.file_disk.specs.Names.{IsNumbered};
ghost use Rattle.file_disk.specs.Crashes.{ChangesIfOk, Passes};

use crate::device::Device;
use itoa::Buffer;
use std::alloc::{AllocError, Global};
use std::io;
use std::io::ErrorKind;

/// How many names a temporary file may have. A run that is killed leaves its files behind.
pub(crate) const NUMBERS: u16 = 10_000;

/// The most bytes of the name of a temporary file, without its folder.
const NAME_ROOM: usize = 32;

/// Reserves the memory for the name of a temporary file in the folder of a file with a path of this length.
pub(crate) fn room_for_name(alloc: Global, length: usize) -> Result<String, AllocError> {
    String::with_capacity(alloc, length.saturating_add(NAME_ROOM))
}

/// Sets the path of a numbered file in the folder of another file, within its capacity.
pub(crate) fn set_name(
    name: &mut String,
    path: &str,
    start: &str,
    number: u16,
) -> Result<(), AllocError>
    ensures { OnOk result (IsNumbered (string_bytes name.new) start.now number) }
{
    let mut digits = Buffer::new();
    name.clear();
    name.push_str(folder_of(path))?;
    name.push_str(start)?;
    name.push_str(digits.format(number))
}

/// The folder of a file: `/`, or the path up to its last slash.
pub(crate) fn folder_of(path: &str) -> &str {
    match path.rsplit_once('/') {
        Some(("", _)) => "/",
        Some((folder, _)) => folder,
        None => ".",
    }
}

/// Creates a new file in the folder of another file, opens it, and sets its name.
pub(crate) fn create_beside<D: Device>(
    device: &mut D,
    name: &mut String,
    path: &str,
    is_private: bool,
) -> io::Result<()>
    ensures named { OnOk result (IsTemporary (string_bytes name.new)) }
    ensures free { OnOk result (IsNew (D.world device.old) (string_bytes name.new)) }
    ensures open { OnOk result (IsOpen (D.world device.new) (D.output device.new) (Some (string_bytes name.new))) }
    ensures made { OnOk result (D.world device.new ≡ option_map (with_file (string_bytes name.new) (Ok [])) (D.world device.old)) }
    ensures stays { OnErr result (D.world device.new ≡ D.world device.old) }
    ensures clean { OnOk result (D.is_dirty device.new ≡ false) }
    ensures left { ChangesIfOk result (with_file (string_bytes name.new) (Ok [])) (D.durable device.old) (D.durable device.new) }
    ensures crash { Passes (D.past device.old) (D.past device.new) (D.durable device.old) (D.durable device.new) }
{
    for number in 1..=NUMBERS {
        set_name(name, path, "/sfbank-new-", number)?;
        match device.create_new(name.as_str(), is_private) {
            Err(error) if error.kind() == ErrorKind::AlreadyExists => {}
            answer => return answer,
        }
    }
    Err(io::Error::from(ErrorKind::AlreadyExists))
}
