//! An undo script and the text that it undoes, saved together.
ghost use Rattle.std.specs.Prelude.{◌≡◌, true, false, Ok, OnOk, OnErr, IfErr, string_bytes};
ghost use Rattle.std.specs.Option.{option_map};
ghost use Rattle.file_host.specs.World.{with_file, with_text, with_pair};
ghost use Rattle.file_host.specs.Saving.{PairFails, SpoilsPair};
ghost use Rattle.file_disk.specs.declared.target.Target.TheVariants.{Stores};
ghost use Rattle.file_disk.specs.Devices.{IsDirect, IsLasting, IsTarget, IsTemporary, Leads, dropped};
ghost use Rattle.file_disk.specs.Frames.{IfKnown, Litters};
ghost use Rattle.file_disk.specs.Pairs.{AfterUndo, AreApart, BothFail, IsThere, MayPutBack, OnlyLitters, TextFails, both_saved, puts_both, text_put};
ghost use Rattle.file_disk.specs.Crashes.{ChangesIfOk, FromKnown, LeavesBoth, LeavesPair, Passes, Since};

use crate::device::Device;
use crate::keeping::put_and_keep;
use crate::names::room_for_name;
use crate::saving::{Written, prepare, put_in_place, remove, save_text, send};
use crate::target::{StoredFile, Target};
use base_outputs::WriteFault;
use base_texts::Text;
use file_host::{PairFault, Which};
use sf_base::Failure;
use std::alloc::{AllocError, Global};

/// The paths of the temporary files of a pair.
#[derive(Drop)]
pub(crate) struct Names {
    new_undo: String,
    old_undo: String,
    new_text: String,
}

/// The text that could not be written or put in place, and how many of its bytes were written.
#[derive(Clone, Copy, Drop)]
struct TextFault {
    which: Which,
    written: u64,
}

/// Saves an undo script at one path, and then the text that it undoes at another.
pub(crate) fn save_both<D: Device, U: Text, T: Text>(
    alloc: Global,
    mut device: D,
    undo_path: &str,
    undo: &U,
    path: &str,
    text: &T,
) -> (D, Result<(), PairFault>)
    ensures saved { OnOk result.1 (D.world result.0 ≡ option_map (with_pair undo_path.now (U.bytes undo.now) path.now (T.bytes text.now)) (D.world device)) }
    ensures failed { IfErr result.1 (PairFails (D.world device) (D.world result.0) undo_path.now (U.bytes undo.now) path.now (T.bytes text.now)) }
    ensures crash { Since (D.past device) (D.past result.0) (FromKnown (LeavesPair undo_path.now (U.bytes undo.now) path.now (T.bytes text.now)) (D.durable device)) }
{
    match device.resolve(undo_path) {
        Ok(Target::Stores(undo_file)) => {
            save_beside(alloc, device, undo_path, &undo_file, undo, path, text)
        }
        Ok(Target::InPlace) => save_after(alloc, device, undo_path, undo, path, text),
        Err(_) => (device, Err(PairFault::OutOfMemory)),
    }
}

// Saves both where the undo script is written to a pipe or a device.
fn save_after<D: Device, U: Text, T: Text>(
    alloc: Global,
    device: D,
    undo_path: &str,
    undo: &U,
    path: &str,
    text: &T,
) -> (D, Result<(), PairFault>)
    ensures saved { OnOk result.1 (D.world result.0 ≡ option_map (with_text path.now (T.bytes text.now)) (D.world device)) }
    ensures failed { IfErr result.1 (AfterUndo (D.world device) (D.world result.0) path.now (T.bytes text.now)) }
{
    let (device, answer) = send_whole(device, undo_path, undo);
    if let Err(fault) = answer {
        return (device, Err(PairFault::Write(Which::Undo, fault.written)));
    }
    let (device, answer) = save_text(alloc, device, path, text);
    match answer {
        Ok(()) => (device, Ok(())),
        Err(Failure::OutOfMemory) => (device, Err(PairFault::OutOfMemory)),
        Err(Failure::Fault(fault)) => { (device, Err(PairFault::Write(Which::Out, fault.written))) }
    }
}

// Writes a text to a pipe or a device, and syncs it, as far as that has anything to sync.
fn send_whole<D: Device, T: Text>(device: D, path: &str, text: &T) -> (D, Result<(), WriteFault>)
    ensures { D.world result.0 ≡ D.world device }
{
    let (mut device, answer) = send(device, path, text);
    match answer {
        Ok(written) => match device.sync() {
            Ok(()) => (device, Ok(())),
            Err(_) => (device, Err(WriteFault { written })),
        },
        Err(fault) => (device, Err(fault)),
    }
}

// Saves both where the undo script is a file.
fn save_beside<D: Device, U: Text, T: Text>(
    alloc: Global,
    mut device: D,
    undo_path: &str,
    undo_file: &StoredFile,
    undo: &U,
    path: &str,
    text: &T,
) -> (D, Result<(), PairFault>)
    requires { Leads (D.world device) undo_path.now (Stores undo_file.now) }
    ensures saved { OnOk result.1 (D.world result.0 ≡ option_map (with_pair undo_path.now (U.bytes undo.now) path.now (T.bytes text.now)) (D.world device)) }
    ensures failed { IfErr result.1 (PairFails (D.world device) (D.world result.0) undo_path.now (U.bytes undo.now) path.now (T.bytes text.now)) }
    ensures crash { Since (D.past device) (D.past result.0) (FromKnown (LeavesPair undo_path.now (U.bytes undo.now) path.now (T.bytes text.now)) (D.durable device)) }
{
    match device.resolve(path) {
        Ok(Target::Stores(file)) => save_files(alloc, device, undo_file, &file, undo, text),
        Ok(Target::InPlace) => save_before(alloc, device, undo_file, undo, path, text),
        Err(_) => (device, Err(PairFault::OutOfMemory)),
    }
}

// Saves both where both are files.
fn save_files<D: Device, U: Text, T: Text>(
    alloc: Global,
    device: D,
    undo_file: &StoredFile,
    file: &StoredFile,
    undo: &U,
    text: &T,
) -> (D, Result<(), PairFault>)
    requires undo { IsTarget (D.world device) undo_file.now }
    requires text { IsTarget (D.world device) file.now }
    ensures saved { OnOk result.1 (D.world result.0 ≡ option_map (both_saved (string_bytes undo_file.now.path) (U.bytes undo.now) (string_bytes file.now.path) (T.bytes text.now)) (D.world device)) }
    ensures failed { IfErr result.1 (PairFails (D.world device) (D.world result.0) (string_bytes undo_file.now.path) (U.bytes undo.now) (string_bytes file.now.path) (T.bytes text.now)) }
    ensures crash { Since (D.past device) (D.past result.0) (FromKnown (LeavesPair (string_bytes undo_file.now.path) (U.bytes undo.now) (string_bytes file.now.path) (T.bytes text.now)) (D.durable device)) }
{
    let Ok(mut names) = Names::with_room(alloc, undo_file.path.len(), file.path.len()) else {
        return (device, Err(PairFault::OutOfMemory));
    };
    let (device, answer) = replace_both(device, undo_file, file, &mut names, undo, text);
    match answer {
        Ok(()) => (device, Ok(())),
        Err(fault) => (device, Err(PairFault::Write(fault.which, fault.written))),
    }
}

// Saves both where the text is written to a pipe or a device.
fn save_before<D: Device, U: Text, T: Text>(
    alloc: Global,
    device: D,
    undo_file: &StoredFile,
    undo: &U,
    path: &str,
    text: &T,
) -> (D, Result<(), PairFault>)
    requires { IsDirect (D.world device) (string_bytes undo_file.now.path) }
    ensures saved { OnOk result.1 (D.world result.0 ≡ option_map (with_file (string_bytes undo_file.now.path) (Ok (U.bytes undo.now))) (D.world device)) }
    ensures failed { IfErr result.1 (OnlyLitters (D.world device) (D.world result.0)) }
{
    let Ok(mut new_undo) = room_for_name(alloc, undo_file.path.len()) else {
        return (device, Err(PairFault::OutOfMemory));
    };
    let (device, answer) = replace_and_send(device, undo_file, &mut new_undo, undo, path, text);
    match answer {
        Ok(()) => (device, Ok(())),
        Err(fault) => (device, Err(PairFault::Write(fault.which, fault.written))),
    }
}

impl Names {
    // Reserves the memory for names in the folders of files with paths of these lengths.
    fn with_room(alloc: Global, undo: usize, text: usize) -> Result<Names, AllocError> {
        Ok(Names {
            new_undo: room_for_name(alloc, undo)?,
            old_undo: room_for_name(alloc, undo)?,
            new_text: room_for_name(alloc, text)?,
        })
    }
}

// Puts the undo script in the place of a file, once the text is written to a pipe or a device.
fn replace_and_send<D: Device, U: Text, T: Text>(
    device: D,
    undo_file: &StoredFile,
    new_undo: &mut String,
    undo: &U,
    path: &str,
    text: &T,
) -> (D, Result<(), TextFault>)
    requires { IsDirect (D.world device) (string_bytes undo_file.now.path) }
    ensures saved { OnOk result.1 (D.world result.0 ≡ option_map (with_file (string_bytes undo_file.now.path) (Ok (U.bytes undo.now))) (D.world device)) }
    ensures failed { OnErr result.1 (IfKnown Litters (D.world device) (D.world result.0)) }
{
    let is_synced = undo_file.is_there;
    let (device, answer) = prepare(device, undo_file, new_undo, undo, is_synced);
    let undo_length = match answer {
        Ok(written) => written.length,
        Err(fault) => return (device, Err(TextFault::new(Which::Undo, fault.written))),
    };
    let (mut device, answer) = send(device, path, text);
    if let Err(fault) = answer {
        remove(&mut device, new_undo.as_str());
        return (device, Err(TextFault::new(Which::Out, fault.written)));
    }
    match put_in_place(&mut device, new_undo.as_str(), undo_file, is_synced) {
        Ok(()) => (device, Ok(())),
        Err(_) => {
            remove(&mut device, new_undo.as_str());
            (device, Err(TextFault::new(Which::Undo, undo_length)))
        }
    }
}

impl TextFault {
    fn new(which: Which, written: u64) -> TextFault {
        TextFault { which, written }
    }
}

// Puts both texts in the place of files, by way of new files, of which each is written before one is put in place, and
// synced if one replaces a file.
fn replace_both<D: Device, U: Text, T: Text>(
    device: D,
    undo_file: &StoredFile,
    file: &StoredFile,
    names: &mut Names,
    undo: &U,
    text: &T,
) -> (D, Result<(), TextFault>)
    requires undo { IsTarget (D.world device) undo_file.now }
    requires text { IsTarget (D.world device) file.now }
    ensures saved { OnOk result.1 (D.world result.0 ≡ option_map (both_saved (string_bytes undo_file.now.path) (U.bytes undo.now) (string_bytes file.now.path) (T.bytes text.now)) (D.world device)) }
    ensures failed { OnErr result.1 (SpoilsPair (D.world device) (D.world result.0) (string_bytes undo_file.now.path) (U.bytes undo.now) (string_bytes file.now.path) (T.bytes text.now)) }
    ensures crash { Since (D.past device) (D.past result.0) (FromKnown (LeavesPair (string_bytes undo_file.now.path) (U.bytes undo.now) (string_bytes file.now.path) (T.bytes text.now)) (D.durable device)) }
{
    let is_synced = is_replacing(undo_file, file);
    let (device, answer) = prepare(device, undo_file, &mut names.new_undo, undo, is_synced);
    let undo_written = match answer {
        Ok(written) => written,
        Err(fault) => return (device, Err(TextFault::new(Which::Undo, fault.written))),
    };
    let (mut device, answer) = prepare(device, file, &mut names.new_text, text, is_synced);
    let written = match answer {
        Ok(written) => written,
        Err(fault) => {
            remove(&mut device, names.new_undo.as_str());
            return (device, Err(TextFault::new(Which::Out, fault.written)));
        }
    };
    let is_owned = undo_written.is_owned;
    match put_both(&mut device, undo_file, file, names, is_owned, is_synced) {
        Ok(()) => (device, Ok(())),
        Err(Which::Undo) => (
            device,
            Err(TextFault::new(Which::Undo, undo_written.length)),
        ),
        Err(Which::Out) => (device, Err(TextFault::new(Which::Out, written.length))),
    }
}

// Whether one of two files is replaced.
fn is_replacing(undo_file: &StoredFile, file: &StoredFile) -> bool
    ensures undo { undo_file.now.is_there ≡ true → result ≡ true }
    ensures text { file.now.is_there ≡ true → result ≡ true }
{
    undo_file.is_there || file.is_there
}

// Puts both new files in place, which are written: the undo script first. If that fails, the old undo script is put back.
fn put_both<D: Device>(
    device: &mut D,
    undo_file: &StoredFile,
    file: &StoredFile,
    names: &mut Names,
    is_owned: bool,
    is_synced: bool,
) -> Result<(), Which>
    requires synced_undo { undo_file.now.is_there ≡ true → is_synced ≡ true }
    requires synced_text { file.now.is_there ≡ true → is_synced ≡ true }
    requires clean { is_synced ≡ true → D.is_dirty device.old ≡ false }
    requires undo { IsTarget (D.world device.old) undo_file.now }
    requires text { IsTarget (D.world device.old) file.now }
    requires new_undo { IsTemporary (string_bytes names.old.new_undo) }
    requires new_text { IsTemporary (string_bytes names.old.new_text) }
    requires direct_undo { IsDirect (D.world device.old) (string_bytes names.old.new_undo) }
    requires direct_text { IsDirect (D.world device.old) (string_bytes names.old.new_text) }
    requires there_undo { IsThere (D.world device.old) (string_bytes names.old.new_undo) }
    requires there_text { IsThere (D.world device.old) (string_bytes names.old.new_text) }
    requires apart { AreApart (D.world device.old) (string_bytes names.old.new_undo) (string_bytes names.old.new_text) }
    ensures put { OnOk result (D.world device.new ≡ option_map (puts_both (string_bytes undo_file.now.path) (string_bytes names.old.new_undo) (string_bytes file.now.path) (string_bytes names.old.new_text)) (D.world device.old)) }
    ensures failed { OnErr result (IfKnown (BothFail (string_bytes undo_file.now.path) (string_bytes names.old.new_undo) (string_bytes file.now.path) (string_bytes names.old.new_text)) (D.world device.old) (D.world device.new)) }
    ensures crash { Since (D.past device.old) (D.past device.new) (FromKnown (LeavesBoth (string_bytes undo_file.now.path) (string_bytes names.old.new_undo) (string_bytes file.now.path) (string_bytes names.old.new_text)) (D.durable device.old)) }
{
    let put = put_and_keep(
        device,
        undo_file,
        names.new_undo.as_str(),
        &mut names.old_undo,
        is_owned,
        is_synced,
    );
    match put {
        Ok(()) => put_text(device, undo_file, file, names, is_synced),
        Err(_) => {
            remove(device, names.new_undo.as_str());
            remove(device, names.new_text.as_str());
            Err(Which::Undo)
        }
    }
}

// Puts the new text in place, whose undo script is in place, and removes the old undo script, which was kept where one
// was.
fn put_text<D: Device>(
    device: &mut D,
    undo_file: &StoredFile,
    file: &StoredFile,
    names: &Names,
    is_synced: bool,
) -> Result<(), Which>
    requires synced_undo { undo_file.now.is_there ≡ true → is_synced ≡ true }
    requires synced_text { file.now.is_there ≡ true → is_synced ≡ true }
    requires clean { is_synced ≡ true → D.is_dirty device.old ≡ false }
    requires undo { IsDirect (D.world device.old) (string_bytes undo_file.now.path) }
    requires text { IsDirect (D.world device.old) (string_bytes file.now.path) }
    requires new { IsDirect (D.world device.old) (string_bytes names.now.new_text) }
    requires kept { undo_file.now.is_there ≡ true → IsDirect (D.world device.old) (string_bytes names.now.old_undo) }
    requires apart { AreApart (D.world device.old) (string_bytes names.now.new_text) (string_bytes undo_file.now.path) }
    requires lasting_undo { IsLasting (D.world device.old) (string_bytes undo_file.now.path) }
    requires lasting_text { IsLasting (D.world device.old) (string_bytes file.now.path) }
    requires named_new { IsTemporary (string_bytes names.now.new_text) }
    requires named_old { undo_file.now.is_there ≡ true → IsTemporary (string_bytes names.now.old_undo) }
    ensures put { OnOk result (D.world device.new ≡ option_map (text_put undo_file.now.is_there (string_bytes names.now.old_undo) (string_bytes file.now.path) (string_bytes names.now.new_text)) (D.world device.old)) }
    ensures failed { OnErr result (IfKnown (TextFails undo_file.now.is_there (string_bytes undo_file.now.path) (string_bytes names.now.old_undo) (string_bytes file.now.path) (string_bytes names.now.new_text)) (D.world device.old) (D.world device.new)) }
    ensures crash { Since (D.past device.old) (D.past device.new) (FromKnown (LeavesBoth (string_bytes undo_file.now.path) (string_bytes undo_file.now.path) (string_bytes file.now.path) (string_bytes names.now.new_text)) (D.durable device.old)) }
{
    match put_in_place(device, names.new_text.as_str(), file, is_synced) {
        Ok(()) => drop_old(device, undo_file, names.old_undo.as_str()),
        Err(_) => {
            put_back(device, undo_file, names.old_undo.as_str(), is_synced);
            remove(device, names.new_text.as_str());
            Err(Which::Out)
        }
    }
}

// Removes an old file that was kept, where one was.
fn drop_old<D: Device>(device: &mut D, file: &StoredFile, old_path: &str) -> Result<(), Which>
    requires { file.now.is_there ≡ true → IsDirect (D.world device.old) old_path.now }
    ensures dropped { OnOk result (D.world device.new ≡ option_map (dropped file.now.is_there old_path.now) (D.world device.old)) }
    ensures stays { OnErr result (D.world device.new ≡ D.world device.old) }
    ensures left { ChangesIfOk result (dropped file.now.is_there old_path.now) (D.durable device.old) (D.durable device.new) }
    ensures crash { Passes (D.past device.old) (D.past device.new) (D.durable device.old) (D.durable device.new) }
{
    if file.is_there && device.remove(old_path).is_err() {
        return Err(Which::Undo);
    }
    Ok(())
}

// Puts an old file back that was kept, or removes the new one where none was.
fn put_back<D: Device>(device: &mut D, file: &StoredFile, old_path: &str, is_synced: bool)
    requires synced { file.now.is_there ≡ true → is_synced ≡ true }
    requires clean { is_synced ≡ true → D.is_dirty device.old ≡ false }
    requires direct { IsDirect (D.world device.old) (string_bytes file.now.path) }
    requires kept { file.now.is_there ≡ true → IsDirect (D.world device.old) old_path.now }
    ensures back { MayPutBack file.now.is_there (string_bytes file.now.path) old_path.now (D.world device.old) (D.world device.new) }
    ensures left { MayPutBack file.now.is_there (string_bytes file.now.path) old_path.now (D.durable device.old) (D.durable device.new) }
    ensures crash { Passes (D.past device.old) (D.past device.new) (D.durable device.old) (D.durable device.new) }
{
    if file.is_there {
        let _ = put_in_place(device, old_path, file, is_synced);
    } else {
        remove(device, file.path.as_str());
    }
}
