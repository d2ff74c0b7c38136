//! A text that is saved by way of a new file, or written in place.
ghost use Rattle.std.specs.Prelude.{◌≡◌, [], Ok, Some, true, false, OnOk, OnErr, IfErr, string_bytes};
ghost use Rattle.std.specs.Option.{option_map};
ghost use Rattle.file_host.specs.World.{with_file, with_text};
ghost use Rattle.file_host.specs.Saving.{SaveFails};
ghost use Rattle.file_disk.specs.Devices.{IsDirect, IsNew, IsOpen, IsTarget, IsTemporary, moved};
ghost use Rattle.file_disk.specs.Frames.{IfFault, IfKnown, Litters, Makes, MayLose};
ghost use Rattle.file_disk.specs.Crashes.{ChangesIfOk, FromKnown, HoldsText, KeepsFiles, Leaves, LeavesText, Passes, Since, synced_if};

use crate::device::Device;
use crate::names::{create_beside, room_for_name};
use crate::new_file::{write_in_place, write_new};
use crate::target::{StoredFile, Target};
use base_outputs::WriteFault;
use base_texts::Text;
use sf_base::Failure;
use std::alloc::Global;
use std::io;
use std::marker::Brand;

/// A text that is written to a new file.
#[derive(Clone, Copy)]
pub(crate) struct Written {
    /// The number of its bytes.
    pub(crate) length: u64,
    /// Whether the new file has the owner of the old one, who may remove every hard link to it.
    pub(crate) is_owned: bool,
}

/// Saves a text at a path.
pub(crate) fn save_text<D: Device, T: Text>(
    alloc: Global,
    mut device: D,
    path: &str,
    text: &T,
) -> (D, Result<(), Failure<WriteFault>>)
    ensures saved { OnOk result.1 (D.world result.0 ≡ option_map (with_text path.now (T.bytes text.now)) (D.world device)) }
    ensures failed { IfErr result.1 (SaveFails (D.world device) (D.world result.0) path.now (T.bytes text.now)) }
    ensures crash { Since (D.past device) (D.past result.0) (FromKnown (LeavesText path.now (T.bytes text.now)) (D.durable device)) }
{
    match device.resolve(path) {
        Ok(Target::Stores(file)) => match room_for_name(alloc, file.path.len()) {
            Ok(mut new_path) => replace(device, &file, &mut new_path, text),
            Err(_) => (device, Err(Failure::OutOfMemory)),
        },
        Ok(Target::InPlace) => {
            let (device, answer) = send(device, path, text);
            match answer {
                Ok(_) => (device, Ok(())),
                Err(fault) => (device, Err(Failure::Fault(fault))),
            }
        }
        Err(_) => (device, Err(Failure::OutOfMemory)),
    }
}

// Puts a text in the place of a file, by way of a new file.
fn replace<D: Device, T: Text>(
    device: D,
    file: &StoredFile,
    new_path: &mut String,
    text: &T,
) -> (D, Result<(), Failure<WriteFault>>)
    requires { IsTarget (D.world device) file.now }
    ensures saved { OnOk result.1 (D.world result.0 ≡ option_map (with_file (string_bytes file.now.path) (Ok (T.bytes text.now))) (D.world device)) }
    ensures failed { IfErr result.1 (IfFault (IfKnown Litters (D.world device) (D.world result.0))) }
    ensures crash { Since (D.past device) (D.past result.0) (FromKnown (LeavesText (string_bytes file.now.path) (T.bytes text.now)) (D.durable device)) }
{
    let is_synced = file.is_there;
    let (mut device, answer) = prepare(device, file, new_path, text, is_synced);
    match answer {
        Ok(written) => match put_in_place(&mut device, new_path.as_str(), file, is_synced) {
            Ok(()) => (device, Ok(())),
            Err(_) => {
                remove(&mut device, new_path.as_str());
                let written = written.length;
                (device, Err(Failure::Fault(WriteFault { written })))
            }
        },
        Err(fault) => (device, Err(Failure::Fault(fault))),
    }
}

/// Writes a text to a new file beside the path that it is for, and syncs it if asked. If that fails, the new file is
/// removed again.
pub(crate) fn prepare<D: Device, T: Text>(
    mut device: D,
    file: &StoredFile,
    new_path: &mut String,
    text: &T,
    is_synced: bool,
) -> (D, Result<Written, WriteFault>)
    ensures made { OnOk result.1 (Makes (D.world device) (D.world result.0) (string_bytes new_path.new) (T.bytes text.now)) }
    ensures failed { OnErr result.1 (IfKnown Litters (D.world device) (D.world result.0)) }
    ensures clean { OnOk result.1 (is_synced ≡ true → D.is_dirty result.0 ≡ false) }
    ensures synced { OnOk result.1 (is_synced ≡ true → HoldsText (D.durable result.0) (string_bytes new_path.new) (T.bytes text.now)) }
    ensures crash { Leaves KeepsFiles (D.past device) (D.past result.0) (D.durable device) (D.durable result.0) }
{
    let Ok(()) = open_new(&mut device, file, new_path) else {
        return (device, Err(WriteFault { written: 0 }));
    };
    let (mut device, answer) = write_new::<D, T, Brand>(device, new_path, text);
    match answer {
        Ok(length) => match settle(&mut device, file, new_path.as_str(), is_synced) {
            Ok(is_owned) => (device, Ok(Written { length, is_owned })),
            Err(_) => {
                remove(&mut device, new_path.as_str());
                (device, Err(WriteFault { written: length }))
            }
        },
        Err(fault) => {
            remove(&mut device, new_path.as_str());
            (device, Err(fault))
        }
    }
}

// Opens a new file beside the path that it is for. Fails if there is no permission to write a file that is there.
fn open_new<D: Device>(device: &mut D, file: &StoredFile, new_path: &mut String) -> io::Result<()>
    ensures named { OnOk result (IsTemporary (string_bytes new_path.new)) }
    ensures free { OnOk result (IsNew (D.world device.old) (string_bytes new_path.new)) }
    ensures open { OnOk result (IsOpen (D.world device.new) (D.output device.new) (Some (string_bytes new_path.new))) }
    ensures made { OnOk result (D.world device.new ≡ option_map (with_file (string_bytes new_path.new) (Ok [])) (D.world device.old)) }
    ensures stays { OnErr result (D.world device.new ≡ D.world device.old) }
    ensures clean { OnOk result (D.is_dirty device.new ≡ false) }
    ensures left { ChangesIfOk result (with_file (string_bytes new_path.new) (Ok [])) (D.durable device.old) (D.durable device.new) }
    ensures crash { Passes (D.past device.old) (D.past device.new) (D.durable device.old) (D.durable device.new) }
{
    if file.is_there {
        device.check_writable(file.path.as_str())?;
    }
    create_beside(device, new_path, file.path.as_str(), file.is_there)
}

// Gives the new file, which is written, the access of the old one, where one is there, and syncs it if asked. Returns
// whether both have one owner.
fn settle<D: Device>(
    device: &mut D,
    file: &StoredFile,
    new_path: &str,
    is_synced: bool,
) -> io::Result<bool>
    ensures stays { D.world device.new ≡ D.world device.old }
    ensures clean { OnOk result (is_synced ≡ true → D.is_dirty device.new ≡ false) }
    ensures left { ChangesIfOk result (synced_if is_synced (D.output device.old) (D.world device.old)) (D.durable device.old) (D.durable device.new) }
    ensures crash { Passes (D.past device.old) (D.past device.new) (D.durable device.old) (D.durable device.new) }
{
    let is_owned = file.is_there && device.keep_access(file.path.as_str(), new_path);
    if is_synced {
        device.sync()?;
    }
    Ok(is_owned)
}

/// Moves a file in the place of another, or to a path where nothing is. It must be synced where it replaces a file.
pub(crate) fn put_in_place<D: Device>(
    device: &mut D,
    new_path: &str,
    file: &StoredFile,
    is_synced: bool,
) -> io::Result<()>
    requires from { IsDirect (D.world device.old) new_path.now }
    requires to { IsDirect (D.world device.old) (string_bytes file.now.path) }
    requires synced { file.now.is_there ≡ true → is_synced ≡ true }
    requires clean { is_synced ≡ true → D.is_dirty device.old ≡ false }
    ensures moved { OnOk result (D.world device.new ≡ option_map (moved new_path.now (string_bytes file.now.path)) (D.world device.old)) }
    ensures stays { OnErr result (D.world device.new ≡ D.world device.old) }
    ensures kept { D.is_dirty device.new ≡ D.is_dirty device.old }
    ensures left { ChangesIfOk result (moved new_path.now (string_bytes file.now.path)) (D.durable device.old) (D.durable device.new) }
    ensures crash { Passes (D.past device.old) (D.past device.new) (D.durable device.old) (D.durable device.new) }
{
    move_to_path(device, new_path, file)?;
    if is_synced {
        device.sync_folder(file.path.as_str());
    }
    Ok(())
}

// Moves a file in the place of another, which must be synced, or to a path where nothing is.
fn move_to_path<D: Device>(device: &mut D, new_path: &str, file: &StoredFile) -> io::Result<()>
    requires from { IsDirect (D.world device.old) new_path.now }
    requires to { IsDirect (D.world device.old) (string_bytes file.now.path) }
    requires clean { file.now.is_there ≡ true → D.is_dirty device.old ≡ false }
    ensures moved { OnOk result (D.world device.new ≡ option_map (moved new_path.now (string_bytes file.now.path)) (D.world device.old)) }
    ensures stays { OnErr result (D.world device.new ≡ D.world device.old) }
    ensures kept { D.is_dirty device.new ≡ D.is_dirty device.old }
    ensures left { ChangesIfOk result (moved new_path.now (string_bytes file.now.path)) (D.durable device.old) (D.durable device.new) }
    ensures crash { Passes (D.past device.old) (D.past device.new) (D.durable device.old) (D.durable device.new) }
{
    let path = file.path.as_str();
    if file.is_there {
        device.rename(new_path, path)
    } else {
        device.rename_new(new_path, path)
    }
}

/// Removes a file, if it can be.
pub(crate) fn remove<D: Device>(device: &mut D, path: &str)
    requires { IsDirect (D.world device.old) path.now }
    ensures lost { MayLose (D.world device.old) (D.world device.new) path.now }
    ensures kept { D.is_dirty device.new ≡ D.is_dirty device.old }
    ensures left { MayLose (D.durable device.old) (D.durable device.new) path.now }
    ensures crash { Passes (D.past device.old) (D.past device.new) (D.durable device.old) (D.durable device.new) }
{
    let _ = device.remove(path);
}

/// Writes a text to a pipe, a device or a descriptor, and returns the number of its bytes.
pub(crate) fn send<D: Device, T: Text>(
    mut device: D,
    path: &str,
    text: &T,
) -> (D, Result<u64, WriteFault>)
    ensures stays { D.world result.0 ≡ D.world device }
    ensures clean { OnOk result.1 (D.is_dirty result.0 ≡ false) }
{
    match device.open_in_place(path) {
        Ok(()) => write_in_place::<D, T, Brand>(device, text),
        Err(_) => (device, Err(WriteFault { written: 0 })),
    }
}
