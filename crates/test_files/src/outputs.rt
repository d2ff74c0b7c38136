//! Checks of outputs, and streams, on a device in memory.

use crate::memory_device::{Behaviour, MemoryDevice};
use base_outputs::{OutputFault, put_all};
use file_disk::Disk;
use file_host::{Host, check_apart, check_no_bank};
use sf_base::Failure;
use std::alloc::{AllocError, Global};
use std::test::Fail;

const BANK: &[u8] = b"RIFF\x08\0\0\0sfbkLIST";

const WAVE: &[u8] = b"RIFF\x08\0\0\0WAVEfmt ";

/// A disk in memory, each of whose calls fails after some.
fn disk_with(alloc: Global, calls: u64) -> Result<Disk<MemoryDevice>, AllocError> {
    let mut device = MemoryDevice::new(
        alloc,
        Behaviour {
            calls,
            is_broken: true,
            has_links: true,
        },
    );
    device.put("bank", BANK)?;
    device.put("wave", WAVE)?;
    device.put("pipe", BANK)?;
    Ok(Disk::new(alloc, device))
}

#[test]
fn outputs_in_memory_are_checked(rt: HostRuntime) -> Result<(), Fail> {
    let mut disk = disk_with(rt.alloc(), 100)?;
    for (path, has_bank) in [
        ("bank", true),
        ("wave", false),
        ("pipe", false),
        ("new", false),
    ] {
        assert_eq!(rt; disk.has_bank(path)?, has_bank, "at {path}");
        assert_eq!(rt;
            check_no_bank(&mut disk, path, false).is_err(),
            has_bank,
            "at {path}"
        );
        assert!(rt; check_no_bank(&mut disk, path, true).is_ok(), "at {path}");
    }
    let is_rejected = Err(Failure::Fault(OutputFault::SameFile));
    assert!(rt; check_apart(&mut disk, "new", &["wave", "bank"]).is_ok());
    assert!(rt; check_apart(&mut disk, "bank", &["wave", "bank"]) == is_rejected);
    assert!(rt; disk.is_output("pipe-output")?);
    assert!(rt; !disk.is_output("pipe")?);
    Ok(())
}

#[test]
fn failed_calls_are_out_of_memory(rt: HostRuntime) -> Result<(), Fail> {
    let mut disk = disk_with(rt.alloc(), 0)?;
    let out_of_memory = Err(Failure::OutOfMemory);
    assert!(rt; check_no_bank(&mut disk, "bank", false) == out_of_memory);
    assert!(rt; check_apart(&mut disk, "bank", &["bank"]) == out_of_memory);
    assert!(rt; disk.is_output("pipe-output").is_err());
    assert!(rt; disk.open_stream("pipe").is_err());
    Ok(())
}

#[test]
fn a_stream_in_memory_is_written(rt: HostRuntime) -> Result<(), Fail> {
    let mut disk = disk_with(rt.alloc(), 100)?;
    let mut stream = disk.open_stream("pipe")?;
    put_all(&mut stream, b"frames")?;
    assert!(rt; stream.bytes() == b"frames".as_slice());
    Ok(())
}
