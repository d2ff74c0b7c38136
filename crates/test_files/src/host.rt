//! Tests of the host in memory.

use crate::texts::Bytes;
use base_outputs::{OutputFault, WriteFault};
use file_host::{Host, InputFault, MemoryHost, PairFault, Which, check_apart, check_no_bank};
use sf_base::Failure;

#[test]
fn a_saved_text_is_read_back(rt: HostRuntime) {
    let alloc = rt.alloc();
    let mut host = MemoryHost::new(alloc, 100);
    assert!(rt; host.read(alloc, "a") == Err(Failure::Fault(InputFault::NotFound)));
    assert!(rt; host.save("a", &Bytes(b"first")).is_ok());
    assert!(rt; host.save("b", &Bytes(b"other")).is_ok());
    assert!(rt; host.save("a", &Bytes(b"second")).is_ok());
    assert!(rt; host.file("a") == Some(b"second".as_slice()));
    assert!(rt; host.file("b") == Some(b"other".as_slice()));
    assert!(rt; host.file("c").is_none());
}

#[test]
fn a_failed_save_changes_nothing(rt: HostRuntime) {
    let alloc = rt.alloc();
    let mut host = MemoryHost::new(alloc, 9);
    assert!(rt; host.save("a", &Bytes(b"old")).is_ok());
    let answer = host.save("a", &Bytes(b"newer text"));
    assert!(rt; answer == Err(Failure::Fault(WriteFault { written: 6 })));
    let answer = host.save_pair("undo", &Bytes(b"undo"), "a", &Bytes(b"new"));
    assert!(rt; answer == Err(PairFault::Write(Which::Out, 2)));
    assert!(rt; host.file("a") == Some(b"old".as_slice()));
    assert!(rt; host.file("undo").is_none());
}

#[test]
fn a_pair_is_saved_together(rt: HostRuntime) {
    let alloc = rt.alloc();
    let mut host = MemoryHost::new(alloc, 100);
    assert!(rt;
        host.save_pair("undo", &Bytes(b"undo"), "a", &Bytes(b"new"))
            .is_ok()
    );
    assert!(rt; host.file("a") == Some(b"new".as_slice()));
    assert!(rt; host.file("undo") == Some(b"undo".as_slice()));
}

#[test]
fn a_folder_is_made_where_nothing_is(rt: HostRuntime) {
    let alloc = rt.alloc();
    let mut host = MemoryHost::new(alloc, 100);
    assert!(rt; host.save("file", &Bytes(b"text")).is_ok());
    assert!(rt; host.make_folder("folder") == Ok(true));
    assert!(rt; host.make_folder("folder") == Ok(false));
    assert!(rt; host.make_folder("file") == Ok(false));
    assert!(rt; host.read(alloc, "folder") == Err(Failure::Fault(InputFault::IsFolder)));
    let fault = Failure::Fault(WriteFault { written: 0 });
    assert!(rt; host.save("folder", &Bytes(b"text")) == Err(fault));
    assert!(rt; host.file("folder").is_none());
    assert!(rt; host.file("file") == Some(b"text".as_slice()));
}

#[test]
fn an_output_is_apart(rt: HostRuntime) {
    let mut host = MemoryHost::new(rt.alloc(), 0);
    let is_rejected = Err(Failure::Fault(OutputFault::SameFile));
    for (output, answer) in [("c", Ok(())), ("a", is_rejected), ("b", is_rejected)] {
        assert!(rt; check_apart(&mut host, output, &["a", "b"]) == answer);
    }
}

#[test]
fn an_output_replaces_no_bank(rt: HostRuntime) {
    let mut host = MemoryHost::new(rt.alloc(), 100);
    assert!(rt; host.save("bank", &Bytes(b"RIFF\x08\0\0\0sfbkLIST")).is_ok());
    assert!(rt; host.save("wave", &Bytes(b"RIFF\x08\0\0\0WAVEfmt ")).is_ok());
    assert!(rt; host.save("short", &Bytes(b"RIFF\x08\0\0\0sfb")).is_ok());
    let is_rejected = Err(Failure::Fault(OutputFault::HoldsBank));
    for (output, force, answer) in [
        ("new", false, Ok(())),
        ("wave", false, Ok(())),
        ("short", false, Ok(())),
        ("bank", true, Ok(())),
        ("bank", false, is_rejected),
    ] {
        assert!(rt; check_no_bank(&mut host, output, force) == answer);
    }
}
