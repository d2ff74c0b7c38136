//! Tests of the program that the checks cannot run: no argument, a terminal, and a device that fails at each call.

use crate::memory_device::{Behaviour, MemoryDevice};
use file_disk::{Disk, System};
use file_host::Host;
use program_reports::Watched;
use sfbank::{NoReports, run};
use std::alloc::{AllocError, Global};
use std::io::Write;
use test_inputs::tone;

/// Runs the program with these arguments, separated by spaces, and returns its exit status.
fn run_on<H: Host, O: Write, E: Write>(
    host: &mut H,
    alloc: Global,
    words: &str,
    output: &mut O,
    errors: &mut E,
    is_terminal: bool,
) -> u8 {
    let words: Result<Vec<&str>, AllocError> = words.split_ascii_whitespace().collect(alloc);
    match words {
        Ok(words) => run(
            host,
            alloc,
            words.as_slice(),
            &mut b"".as_slice(),
            &mut Watched::new(output),
            errors,
            is_terminal,
            &mut NoReports,
        ),
        Err(AllocError) => 255,
    }
}

/// Runs the program on real files, and returns its exit status.
fn run_on_system<O: Write, E: Write>(
    rt: &HostRuntime,
    words: &str,
    output: &mut O,
    errors: &mut E,
    is_terminal: bool,
) -> u8 {
    let mut disk = Disk::new(rt.alloc(), System::new(rt));
    run_on(&mut disk, rt.alloc(), words, output, errors, is_terminal)
}

/// Whether the arguments are refused with a message on standard error.
fn are_refused(rt: &HostRuntime, words: &str) -> bool {
    let mut output = Vec::new(rt.alloc());
    let mut errors = Vec::new(rt.alloc());
    run_on_system(rt, words, &mut output, &mut errors, false) == 1
        && output.is_empty()
        && !errors.is_empty()
}

#[test]
fn a_run_without_arguments_is_refused(rt: HostRuntime) {
    assert!(rt; are_refused(&rt, ""));
}

/// Whether a run on a missing bank writes exactly this to standard error.
fn reports_missing_bank(rt: &HostRuntime, is_terminal: bool, line: &[u8]) -> bool {
    let mut output = Vec::new(rt.alloc());
    let mut errors = Vec::new(rt.alloc());
    let status = run_on_system(
        rt,
        "sfbank show no/bank",
        &mut output,
        &mut errors,
        is_terminal,
    );
    status == 5 && output.is_empty() && errors.as_slice() == line
}

#[test]
fn a_terminal_has_the_reason_of_a_file_fault(rt: HostRuntime) {
    let line = b"sfbank: file fault no/bank\n";
    let reason = b"sfbank: file fault no/bank\n  No such file or directory\n";
    assert!(rt; reports_missing_bank(&rt, false, line));
    assert!(rt; reports_missing_bank(&rt, true, reason));
}

/// More calls of a device than any command below makes.
const MOST_CALLS: u64 = 600;

/// Commands on the files of `device_with`.
const COMMANDS: [&str; 8] = [
    "sfbank apply bank script bank undo",
    "sfbank apply bank script out undo",
    "sfbank apply --neutral bank script bank new",
    "sfbank canon bank bank",
    "sfbank keep --preset 0:0 bank bank undo",
    "sfbank new --force bank",
    "sfbank script bank out",
    "sfbank tidy bank out new",
];

/// A bank, a script and an old undo script on a device with one call that fails.
fn device_with(alloc: Global, calls: u64) -> Result<MemoryDevice, AllocError> {
    let mut device = MemoryDevice::new(
        alloc,
        Behaviour {
            calls,
            is_broken: false,
            has_links: true,
        },
    );
    let bank = tone();
    device.put("bank", bank.bytes())?;
    device.put("script", b"rename-sample 0 \"a\"\n")?;
    device.put("undo", b"an older undo script\n")?;
    Ok(device)
}

/// Runs a command on a device with one call that fails. Returns the exit status and what the files are then.
fn run_with_fault(
    alloc: Global,
    words: &str,
    calls: u64,
) -> Result<(u8, Disk<MemoryDevice>), AllocError> {
    let mut output = Vec::new(alloc);
    let mut errors = Vec::new(alloc);
    let mut disk = Disk::new(alloc, device_with(alloc, calls)?);
    let status = run_on(&mut disk, alloc, words, &mut output, &mut errors, false);
    Ok((status, disk))
}

/// The paths of all files of the commands.
const PATHS: [&str; 5] = ["bank", "script", "undo", "new", "out"];

/// Whether the file at a path is the same on both devices.
fn is_same(one: &MemoryDevice, other: &MemoryDevice, path: &str) -> bool {
    one.file(path) == other.file(path)
}

/// Whether a run left each file as it was or as it should be, and a new bank with its undo script.
fn is_safe(left: &MemoryDevice, before: &MemoryDevice, after: &MemoryDevice) -> bool {
    let is_pair = is_same(left, after, "undo") && is_same(left, after, "new");
    for path in PATHS {
        if !is_same(left, before, path) && !is_same(left, after, path) {
            return false;
        }
    }
    is_same(left, before, "bank") || is_pair
}

/// Whether a run left each file as it should be.
fn is_done(left: &MemoryDevice, after: &MemoryDevice) -> bool {
    for path in PATHS {
        if !is_same(left, after, path) {
            return false;
        }
    }
    true
}

/// Whether a command, with each call of its device failing in turn, ends with a fault and old or whole files, and in the
/// end is done. Returns `None` where memory does not suffice for the test.
fn is_safe_at_each_call(alloc: Global, words: &str) -> Option<bool> {
    let before = device_with(alloc, MOST_CALLS).ok()?;
    let (status, disk) = run_with_fault(alloc, words, MOST_CALLS).ok()?;
    let after = disk.device()?;
    for calls in 0..MOST_CALLS {
        let (status, disk) = run_with_fault(alloc, words, calls).ok()?;
        let left = disk.device()?;
        let is_right = match status {
            0 => is_done(left, after),
            5 | 6 => is_safe(left, &before, after),
            _ => false,
        };
        if !is_right {
            return Some(false);
        }
    }
    Some(status == 0)
}

#[test]
fn a_failing_device_leaves_each_file_old_or_whole(rt: HostRuntime) {
    for words in COMMANDS {
        assert!(rt;
            is_safe_at_each_call(rt.alloc(), words) == Some(true),
            "{words}"
        );
    }
}
