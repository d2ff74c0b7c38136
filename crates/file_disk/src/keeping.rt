//! An old file that is kept at another path while a new one takes its place.
ghost use Rattle.std.specs.Prelude.{◌≡◌, true, false, OnOk, OnErr, IfOk, IfErr, string_bytes};
ghost use Rattle.std.specs.Option.{option_map};
ghost use Rattle.file_disk.specs.Devices.{IsDirect, IsNew, IsTarget, IsTemporary, kept_as, kept_moved, linked, moved};
ghost use Rattle.file_disk.specs.Frames.{IfKnown, Litters};
ghost use Rattle.file_disk.specs.Pairs.{IsThere, KeepFails, UndoFails};
ghost use Rattle.file_disk.specs.Crashes.{HasMoved, KeepsFilesBut, Leaves};

use crate::device::Device;
use crate::names::{NUMBERS, set_name};
use crate::saving::{put_in_place, remove};
use crate::target::StoredFile;
use std::io;
use std::io::ErrorKind;

/// Why an old file can't be kept under a name.
#[derive(Clone, Copy, Drop)]
pub(crate) enum KeepFault {
    NameTaken,
    Failed,
}

/// Puts a new file in the place of another, whose old file is kept where one is there. If that fails, the old file is
/// put back. The new file must be synced where it replaces a file.
pub(crate) fn put_and_keep<D: Device>(
    device: &mut D,
    file: &StoredFile,
    new_path: &str,
    old_path: &mut String,
    is_owned: bool,
    is_synced: bool,
) -> io::Result<()>
    requires synced { file.now.is_there ≡ true → is_synced ≡ true }
    requires clean { is_synced ≡ true → D.is_dirty device.old ≡ false }
    requires target { IsTarget (D.world device.old) file.now }
    requires direct { IsDirect (D.world device.old) new_path.now }
    requires named { IsTemporary new_path.now }
    requires there { IsThere (D.world device.old) new_path.now }
    ensures put { OnOk result (D.world device.new ≡ option_map (kept_moved file.now.is_there new_path.now (string_bytes file.now.path) (string_bytes old_path.new)) (D.world device.old)) }
    ensures named { OnOk result (file.now.is_there ≡ true → IsTemporary (string_bytes old_path.new)) }
    ensures free { OnOk result (file.now.is_there ≡ true → IsNew (D.world device.old) (string_bytes old_path.new)) }
    ensures failed { OnErr result (IfKnown (UndoFails (string_bytes file.now.path)) (D.world device.old) (D.world device.new)) }
    ensures clean { is_synced ≡ true → D.is_dirty device.new ≡ false }
    ensures crash { Leaves (KeepsFilesBut (string_bytes file.now.path) new_path.now) (D.past device.old) (D.past device.new) (D.durable device.old) (D.durable device.new) }
    ensures moved { OnOk result (IfKnown (HasMoved new_path.now (string_bytes file.now.path)) (D.durable device.old) (D.durable device.new)) }
{
    if !file.is_there {
        return put_in_place(device, new_path, file, is_synced);
    }
    let is_linked = keep_old(device, file, old_path, is_owned)?;
    match put_in_place(device, new_path, file, is_synced) {
        Ok(()) => Ok(()),
        Err(error) => {
            if is_linked {
                remove(device, old_path.as_str());
            } else {
                let _ = put_in_place(device, old_path.as_str(), file, is_synced);
            }
            Err(error)
        }
    }
}

// Keeps an old file under a numbered name, and returns whether by a link.
fn keep_old<D: Device>(
    device: &mut D,
    file: &StoredFile,
    old_path: &mut String,
    is_owned: bool,
) -> io::Result<bool>
    requires clean { D.is_dirty device.old ≡ false }
    requires target { IsTarget (D.world device.old) file.now }
    requires there { file.now.is_there ≡ true }
    ensures kept { IfOk result (λ is_linked. D.world device.new ≡ option_map (kept_as is_linked (string_bytes file.now.path) (string_bytes old_path.new)) (D.world device.old)) }
    ensures named { OnOk result (IsTemporary (string_bytes old_path.new)) }
    ensures free { OnOk result (IsNew (D.world device.old) (string_bytes old_path.new)) }
    ensures failed { OnErr result (IfKnown Litters (D.world device.old) (D.world device.new)) }
    ensures clean { D.is_dirty device.new ≡ false }
    ensures crash { Leaves (KeepsFilesBut (string_bytes file.now.path) (string_bytes file.now.path)) (D.past device.old) (D.past device.new) (D.durable device.old) (D.durable device.new) }
{
    for number in 1..=NUMBERS {
        set_name(old_path, file.path.as_str(), "/sfbank-old-", number)?;
        match keep_as(device, file, old_path.as_str(), is_owned) {
            Ok(is_linked) => return Ok(is_linked),
            Err(KeepFault::NameTaken) => {}
            Err(KeepFault::Failed) => return Err(io::Error::from(ErrorKind::Other)),
        }
    }
    Err(io::Error::from(ErrorKind::AlreadyExists))
}

// Keeps an old file at a path where nothing is, and returns whether by a link. It is moved where it can't be linked: a
// link to a file of another user can't always be removed again, and some file systems have no links.
fn keep_as<D: Device>(
    device: &mut D,
    file: &StoredFile,
    old_path: &str,
    is_owned: bool,
) -> Result<bool, KeepFault>
    requires clean { D.is_dirty device.old ≡ false }
    requires target { IsTarget (D.world device.old) file.now }
    requires there { file.now.is_there ≡ true }
    requires named { IsTemporary old_path.now }
    ensures kept { IfOk result (λ is_linked. D.world device.new ≡ option_map (kept_as is_linked (string_bytes file.now.path) old_path.now) (D.world device.old)) }
    ensures free { OnOk result (IsNew (D.world device.old) old_path.now) }
    ensures failed { IfErr result (KeepFails (D.world device.old) (D.world device.new)) }
    ensures clean { D.is_dirty device.new ≡ false }
    ensures crash { Leaves (KeepsFilesBut (string_bytes file.now.path) (string_bytes file.now.path)) (D.past device.old) (D.past device.new) (D.durable device.old) (D.durable device.new) }
{
    if is_owned {
        match device.link(file.path.as_str(), old_path) {
            Ok(()) => return Ok(true),
            Err(error) if error.kind() == ErrorKind::AlreadyExists => {
                return Err(KeepFault::NameTaken);
            }
            Err(_) => {}
        }
    }
    move_to(device, file, old_path)?;
    Ok(false)
}

// Moves an old file to a path where nothing is.
fn move_to<D: Device>(device: &mut D, file: &StoredFile, old_path: &str) -> Result<(), KeepFault>
    requires clean { D.is_dirty device.old ≡ false }
    requires target { IsTarget (D.world device.old) file.now }
    requires there { file.now.is_there ≡ true }
    requires named { IsTemporary old_path.now }
    ensures moved { OnOk result (D.world device.new ≡ option_map (moved (string_bytes file.now.path) old_path.now) (D.world device.old)) }
    ensures free { OnOk result (IsNew (D.world device.old) old_path.now) }
    ensures failed { IfErr result (KeepFails (D.world device.old) (D.world device.new)) }
    ensures clean { D.is_dirty device.new ≡ false }
    ensures crash { Leaves (KeepsFilesBut (string_bytes file.now.path) (string_bytes file.now.path)) (D.past device.old) (D.past device.new) (D.durable device.old) (D.durable device.new) }
{
    match device.create_new(old_path, true) {
        Ok(()) => {}
        Err(error) if error.kind() == ErrorKind::AlreadyExists => return Err(KeepFault::NameTaken),
        Err(_) => return Err(KeepFault::Failed),
    }
    match device.rename(file.path.as_str(), old_path) {
        Ok(()) => Ok(()),
        Err(_) => {
            remove(device, old_path);
            Err(KeepFault::Failed)
        }
    }
}
