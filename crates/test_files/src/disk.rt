//! Saves and reads on a device in memory that fails at each call in turn.

use crate::memory_device::{Behaviour, MemoryDevice};
use crate::texts::Bytes;
use base_outputs::WriteFault;
use file_disk::Disk;
use file_host::{Host, InputFault, PairFault};
use sf_base::Failure;
use std::alloc::Global;
use std::io::ErrorKind;

/// More calls than any run below makes.
const MOST_CALLS: u64 = 200;

const OLD: &[u8] = b"the old bank";

const OLD_UNDO: &[u8] = b"old undo";

const OTHER: &[u8] = b"other";

const NEW: &[u8] = b"the new bank";

const NEW_UNDO: &[u8] = b"new undo";

/// The file at a path is this one.
fn holds(device: &MemoryDevice, path: &str, bytes: &[u8]) -> bool {
    device.file(path) == Some(bytes)
}

/// The file at a path is this one, or there is none.
fn holds_or_not(device: &MemoryDevice, path: &str, bytes: &[u8], is_there: bool) -> bool {
    if is_there {
        holds(device, path, bytes)
    } else {
        device.file(path).is_none()
    }
}

/// A device with an old bank and an old undo script, if they are there, and another file.
fn device_with(
    alloc: Global,
    behaviour: Behaviour,
    has_bank: bool,
    has_undo: bool,
) -> Option<MemoryDevice> {
    let mut device = MemoryDevice::new(alloc, behaviour);
    if has_bank {
        device.put("bank", OLD).ok()?;
    }
    if has_undo {
        device.put("undo", OLD_UNDO).ok()?;
    }
    device.put("sfbank-new-1", OTHER).ok()?;
    Some(device)
}

/// After a failed run, the bank is the old one, or the new one with its undo script; the undo script is the old or the
/// new one, or, where files can't be linked and later calls fail too, was moved away; the other file stays.
fn is_safe(device: &MemoryDevice, behaviour: Behaviour, has_bank: bool, has_undo: bool) -> bool {
    let is_old = holds_or_not(device, "bank", OLD, has_bank);
    let is_new = holds(device, "bank", NEW) && holds(device, "undo", NEW_UNDO);
    let is_undo = holds_or_not(device, "undo", OLD_UNDO, has_undo)
        || holds(device, "undo", NEW_UNDO);
    let is_moved = behaviour.is_broken && holds(device, "./sfbank-old-1", OLD_UNDO);
    (is_old || is_new) && (is_undo || is_moved) && holds(device, "sfbank-new-1", OTHER)
}

/// A failed run that could clean up left no temporary file, but an old undo script that could not be removed after both
/// were in place.
fn is_clean(device: &MemoryDevice, behaviour: Behaviour, has_undo: bool) -> bool {
    let is_left = device.count() > 3;
    behaviour.is_broken || !is_left || (has_undo && holds(device, "bank", NEW))
}

/// After a run without a fault, both are new, and nothing else is left.
fn is_done(device: &MemoryDevice) -> bool {
    let is_new = holds(device, "bank", NEW) && holds(device, "undo", NEW_UNDO);
    is_new && holds(device, "sfbank-new-1", OTHER) && device.count() == 3
}

/// Saves a pair with one call that fails. Returns whether it was saved, or `None` if what it left is wrong.
fn save_pair_once(
    alloc: Global,
    behaviour: Behaviour,
    has_bank: bool,
    has_undo: bool,
) -> Option<bool> {
    let device = device_with(alloc, behaviour, has_bank, has_undo)?;
    let mut disk = Disk::new(alloc, device);
    let answer = disk.save_pair("undo", &Bytes(NEW_UNDO), "bank", &Bytes(NEW));
    let device = disk.device()?;
    if answer.is_ok() {
        return if is_done(device) { Some(true) } else { None };
    }
    let is_right = is_safe(device, behaviour, has_bank, has_undo)
        && is_clean(device, behaviour, has_undo);
    if is_right { Some(false) } else { None }
}

/// Saves a pair, with each call failing in turn, until a run has no fault. Returns how many runs failed.
fn failed_pairs(
    alloc: Global,
    is_broken: bool,
    has_links: bool,
    has_bank: bool,
    has_undo: bool,
) -> Option<u64> {
    for calls in 0..MOST_CALLS {
        let behaviour = Behaviour {
            calls,
            is_broken,
            has_links,
        };
        if save_pair_once(alloc, behaviour, has_bank, has_undo)? && is_broken {
            return Some(calls);
        }
    }
    if is_broken { None } else { Some(MOST_CALLS) }
}

#[test]
fn a_failing_pair_leaves_old_files(rt: HostRuntime) {
    let alloc = rt.alloc();
    for (is_broken, has_links) in [(false, false), (false, true), (true, false), (true, true)] {
        for (has_bank, has_undo) in [(false, false), (false, true), (true, false), (true, true)] {
            let failed = failed_pairs(alloc, is_broken, has_links, has_bank, has_undo);
            assert!(rt; failed.is_some_and(|failed| failed > 12));
        }
    }
}

/// After a pair is saved, no error is noted; after a write fault, that of the first call that failed.
fn is_right_error(disk: &Disk<MemoryDevice>, answer: Result<(), PairFault>) -> bool {
    match answer {
        Ok(()) => disk.last_error().is_none(),
        Err(PairFault::Write(..)) => disk.last_error() == Some(ErrorKind::StorageFull),
        Err(PairFault::OutOfMemory) => true,
    }
}

/// Saves a pair, and once more where later calls don't fail. Returns whether the error is right each time, and one of
/// two runs is done.
fn has_right_errors(
    alloc: Global,
    behaviour: Behaviour,
    has_bank: bool,
    has_undo: bool,
) -> Option<bool> {
    let device = device_with(alloc, behaviour, has_bank, has_undo)?;
    let mut disk = Disk::new(alloc, device);
    let first = disk.save_pair("undo", &Bytes(NEW_UNDO), "bank", &Bytes(NEW));
    if !is_right_error(&disk, first) || behaviour.is_broken {
        return Some(is_right_error(&disk, first));
    }
    let second = disk.save_pair("undo", &Bytes(NEW_UNDO), "bank", &Bytes(NEW));
    Some(is_right_error(&disk, second) && (first.is_ok() || second.is_ok()))
}

/// Whether the errors are right with each call failing in turn.
fn have_right_errors(
    alloc: Global,
    is_broken: bool,
    has_links: bool,
    has_bank: bool,
    has_undo: bool,
) -> bool {
    for calls in 0..MOST_CALLS {
        let behaviour = Behaviour {
            calls,
            is_broken,
            has_links,
        };
        if has_right_errors(alloc, behaviour, has_bank, has_undo) != Some(true) {
            return false;
        }
    }
    true
}

#[test]
fn a_failing_pair_has_its_own_error(rt: HostRuntime) {
    let alloc = rt.alloc();
    assert!(rt; have_right_errors(alloc, true, false, false, false));
    for has_links in [false, true] {
        for (has_bank, has_undo) in [(false, false), (false, true), (true, false), (true, true)] {
            assert!(rt; have_right_errors(alloc, false, has_links, has_bank, has_undo));
        }
    }
}

/// Saves a text with one call that fails. Returns whether it was saved, or `None` if what it left is wrong.
fn save_once(alloc: Global, behaviour: Behaviour, has_bank: bool) -> Option<bool> {
    let device = device_with(alloc, behaviour, has_bank, true)?;
    let mut disk = Disk::new(alloc, device);
    let answer = disk.save("bank", &Bytes(NEW));
    let device = disk.device()?;
    let is_kept = holds(device, "undo", OLD_UNDO) && holds(device, "sfbank-new-1", OTHER);
    let is_saved = answer.is_ok();
    let is_right = if is_saved {
        holds(device, "bank", NEW) && device.count() == 3
    } else {
        let is_clean = behaviour.is_broken || device.count() <= 3;
        holds_or_not(device, "bank", OLD, has_bank) && is_clean
    };
    if is_kept && is_right {
        Some(is_saved)
    } else {
        None
    }
}

/// Saves a text, with each call failing in turn. Returns the number of the last call whose failure made the run fail.
fn failed_saves(alloc: Global, is_broken: bool, has_bank: bool) -> Option<u64> {
    let mut failed: u64 = 0;
    for calls in 0..MOST_CALLS {
        let behaviour = Behaviour {
            calls,
            is_broken,
            has_links: true,
        };
        if !save_once(alloc, behaviour, has_bank)? {
            failed = calls + 1;
        }
    }
    Some(failed)
}

#[test]
fn a_failing_save_leaves_old_files(rt: HostRuntime) {
    let alloc = rt.alloc();
    for (is_broken, has_bank) in [(false, false), (false, true), (true, false), (true, true)] {
        let failed = failed_saves(alloc, is_broken, has_bank);
        assert!(rt; failed.is_some_and(|failed| failed >= 7 && failed < 20));
    }
}

/// Reads the old bank, with one call that fails. Returns whether it was read, or `None` if what was read is wrong.
fn read_once(alloc: Global, calls: u64) -> Option<bool> {
    let behaviour = Behaviour {
        calls,
        is_broken: false,
        has_links: true,
    };
    let device = device_with(alloc, behaviour, true, true)?;
    let mut disk = Disk::new(alloc, device);
    match disk.read(alloc, "bank") {
        Ok(bytes) if bytes.as_slice() == OLD => Some(true),
        Ok(_) => None,
        Err(Failure::OutOfMemory) => Some(false),
        Err(Failure::Fault(_)) => None,
    }
}

#[test]
fn a_read_is_whole_or_fails(rt: HostRuntime) {
    let alloc = rt.alloc();
    for calls in 0..6 {
        assert!(rt; read_once(alloc, calls) == Some(false));
    }
    for calls in 6..10 {
        assert!(rt; read_once(alloc, calls) == Some(true));
    }
}

#[test]
fn a_missing_file_is_not_found(rt: HostRuntime) {
    let alloc = rt.alloc();
    let behaviour = Behaviour {
        calls: MOST_CALLS,
        is_broken: false,
        has_links: true,
    };
    let mut disk = Disk::new(alloc, MemoryDevice::new(alloc, behaviour));
    assert!(rt; disk.read(alloc, "bank") == Err(Failure::Fault(InputFault::NotFound)));
}

/// Saves a pair of which one text is written in place, with one call that fails. Returns whether it was saved, or `None`
/// if what it left is wrong.
fn save_piped_once(alloc: Global, calls: u64, undo_path: &str, path: &str) -> Option<bool> {
    let behaviour = Behaviour {
        calls,
        is_broken: false,
        has_links: true,
    };
    let device = device_with(alloc, behaviour, true, true)?;
    let mut disk = Disk::new(alloc, device);
    let answer: Result<(), PairFault> = disk.save_pair(
        undo_path,
        &Bytes(NEW_UNDO),
        path,
        &Bytes(NEW),
    );
    let device = disk.device()?;
    let is_saved = answer.is_ok();
    if is_saved {
        let is_new = holds(device, undo_path, NEW_UNDO) && holds(device, path, NEW);
        return if is_new && device.count() == 4 {
            Some(true)
        } else {
            None
        };
    }
    let is_old = holds(device, "bank", OLD) && holds(device, "undo", OLD_UNDO);
    if is_old && device.count() <= 4 {
        Some(false)
    } else {
        None
    }
}

#[test]
fn a_pair_is_written_in_place(rt: HostRuntime) {
    let alloc = rt.alloc();
    for calls in 0..MOST_CALLS {
        assert!(rt; save_piped_once(alloc, calls, "pipe", "bank").is_some());
        assert!(rt; save_piped_once(alloc, calls, "undo", "pipe").is_some());
    }
    assert!(rt; save_piped_once(alloc, MOST_CALLS, "pipe", "bank") == Some(true));
    assert!(rt; save_piped_once(alloc, MOST_CALLS, "undo", "pipe") == Some(true));
}

#[test]
fn a_folder_is_made_where_nothing_is(rt: HostRuntime) {
    let alloc = rt.alloc();
    let behaviour = Behaviour {
        calls: 1,
        is_broken: false,
        has_links: true,
    };
    let mut device = MemoryDevice::new(alloc, behaviour);
    assert!(rt; device.put("bank", OLD).is_ok());
    let mut disk = Disk::new(alloc, device);
    assert!(rt; disk.make_folder("kit") == Ok(true));
    assert!(rt; disk.device().is_some_and(|device| device.has_folder("kit")));
    // (this call fails)
    let fault = Failure::Fault(WriteFault { written: 0 });
    assert!(rt; disk.make_folder("other") == Err(fault));
    assert!(rt; disk.last_error() == Some(ErrorKind::StorageFull));
    assert!(rt; disk.make_folder("kit") == Ok(false));
    assert!(rt; disk.make_folder("bank") == Ok(false));
    assert!(rt; disk.last_error().is_none());
    assert!(rt;
        disk.device().is_some_and(|device| !device.has_folder("bank") && holds(device, "bank", OLD))
    );
}
