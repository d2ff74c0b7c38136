//! Tests of `Session` on `tone`: edits and a group, undone and redone.

use bank_core::{InfoId, Owner};
use base_numbered_lists::NumberedList;
use edit_forms::{Edit, SampleStep, Step, TextStep, ZoneStep};
use edit_refusals::{Cause, Refusal};
use edit_script::print;
use inverse_edits::Session;
use live_lines::Comment;
use sf_base::{BorrowedBytes, Name20, OutOfMemory};
use sf_reader::read;
use sf_writer::write;
use std::alloc::Global;
use std::test::Fail;
use test_inputs::{File, tone};

/// Whether the session's bank is that of this file, and its undo list has this text.
fn is_at(alloc: Global, session: &Session<'_>, file: &File, back: &[u8]) -> bool {
    let mut out = Vec::new(alloc);
    let mut text = Vec::new(alloc);
    for edit in session.undo_list() {
        if print(edit, &mut text).is_err() {
            return false;
        }
    }
    write(session.bank(), &mut out).is_ok()
        && out.as_slice() == file.bytes()
        && text.as_slice() == back
}

/// Whether there is nothing to undo.
fn is_first(alloc: Global, session: &mut Session<'_>) -> bool {
    session.undo(alloc) == Err(Refusal::NothingToUndo)
}

/// Whether there is nothing to redo.
fn is_last(alloc: Global, session: &mut Session<'_>) -> bool {
    session.redo(alloc) == Err(Refusal::NothingToRedo)
}

/// Whether an edit has this line.
fn has_line(edit: Option<&Edit<'_>>, line: &[u8]) -> bool {
    match edit {
        Some(edit) => Comment::of_edit(edit).bytes() == line,
        None => false,
    }
}

/// `tone` with another name of its sample; below, `tone` with a bank name.
fn renamed() -> File {
    tone().patched(&[(440, b'u')])
}

fn titled() -> File {
    tone().patched(&[(60, b'x')])
}

/// Whether a session on `tone` does, undoes, redoes and undoes the renaming.
fn undoes_and_redoes<'a>(alloc: Global, session: &mut Session<'a>, rename: Edit<'a>) -> bool {
    let back = b"rename-sample 0 \"t\"\n";
    is_first(alloc, session)
        && session.edit(alloc, rename).is_ok()
        && is_last(alloc, session)
        && is_at(alloc, session, &renamed(), back)
        && has_line(session.next_undo(), b"rename-sample 0 \"t\"")
        && session.next_redo().is_none()
        && session.undo(alloc).is_ok()
        && is_at(alloc, session, &tone(), b"")
        && session.next_undo().is_none()
        && has_line(session.next_redo(), b"rename-sample 0 \"u\"")
        && session.redo(alloc).is_ok()
        && is_at(alloc, session, &renamed(), back)
        && session.undo(alloc).is_ok()
        && is_first(alloc, session)
}

#[test]
fn a_session_undoes_and_redoes(rt: HostRuntime) -> Result<(), Fail> {
    let (alloc, file) = (rt.alloc(), tone());
    let (bank, _counts) = read(alloc, file.bytes())?;
    let mut session = Session::new(alloc, bank);
    let name = Name20::from_bytes(b"u")?;
    let rename = Edit::One(Step::Sample(SampleStep::RenameSample { sample: 0, name }));
    assert!(rt; undoes_and_redoes(alloc, &mut session, rename));
    let (id, text) = (InfoId::Name, BorrowedBytes::new(b"x"));
    assert!(rt;
        session
            .edit(alloc, Edit::One(Step::Text(TextStep::SetInfo { id, text })))
            .is_ok()
    );
    assert!(rt; is_last(alloc, &mut session));
    assert!(rt; is_at(alloc, &session, &titled(), b"set-info INAM \"\"\n"));
    Ok(())
}

/// Whether a refused edit is returned, and leaves the redo list as it was.
fn keeps_the_redo_list(alloc: Global, session: &mut Session<'_>) -> bool {
    let remove = Edit::One(Step::Sample(SampleStep::RemoveSample { sample: 1 }));
    let outcome = session.edit(alloc, remove);
    let refused = match &outcome {
        Err(
            (
                Refusal::Of(Cause::NoSuchSample),
                Edit::One(Step::Sample(SampleStep::RemoveSample { sample })),
            ),
        ) => { *sample == 1 }
        _ => false,
    };
    refused && is_at(alloc, session, &tone(), b"") && session.redo(alloc).is_ok()
}

#[test]
fn a_refused_edit_keeps_the_redo_list(rt: HostRuntime) -> Result<(), Fail> {
    let (alloc, file) = (rt.alloc(), tone());
    let (bank, _counts) = read(alloc, file.bytes())?;
    let mut session = Session::new(alloc, bank);
    let name = Name20::from_bytes(b"u")?;
    let rename = Edit::One(Step::Sample(SampleStep::RenameSample { sample: 0, name }));
    assert!(rt; session.edit(alloc, rename).is_ok());
    assert!(rt; session.undo(alloc).is_ok());
    assert!(rt; keeps_the_redo_list(alloc, &mut session));
    assert!(rt; is_at(alloc, &session, &renamed(), b"rename-sample 0 \"t\"\n"));
    Ok(())
}

#[test]
fn refusals_are_reported(rt: HostRuntime) {
    let (memory, cause) = (Refusal::OutOfMemory, Refusal::Of(Cause::InUse));
    assert!(rt; memory.number() == 38 && memory.name() == "OutOfMemory");
    assert!(rt; cause.number() == 26 && cause.name() == "InUse");
    let (undo, redo) = (Refusal::NothingToUndo, Refusal::NothingToRedo);
    assert!(rt; undo.number() == 39 && undo.name() == "NothingToUndo");
    assert!(rt; redo.number() == 40 && redo.name() == "NothingToRedo");
}

/// The inverse of the group.
const GROUP_UNDO: &[u8] = b"group { add-sample 0 \"t\" 44100 60 0 mono loop 1 3 xe803d00730f8 } \
    { add-zone inst 0 0 { 0 g 54 1 } }\n";

/// `tone` without its sample and without the zone of its instrument: 376 bytes.
fn silent() -> File {
    let sizes = [
        (4, 0x70),
        (5, 1),
        (66, 12),
        (78, 0),
        (184, 0x1e),
        (382, 4),
        (416, 4),
        (436, 46),
    ];
    tone()
        .patched(&sizes)
        .patched(&[(376, 0)])
        .edited("440 46; 420 8; 390 4; 82 98")
}

/// The group that removes the zone and the sample of `tone`.
fn removals<'a>(alloc: Global) -> Result<Edit<'a>, OutOfMemory> {
    let mut steps = Vec::new(alloc);
    steps.push(Step::Zone(Owner::Inst(0), ZoneStep::RemoveZone { zone: 0 }))?;
    steps.push(Step::Sample(SampleStep::RemoveSample { sample: 0 }))?;
    Ok(Edit::Group(NumberedList::from_vec(steps)))
}

/// Whether a session on `tone` does, undoes and redoes the group.
fn undoes_a_group(alloc: Global, session: &mut Session<'_>) -> bool {
    let Ok(group) = removals(alloc) else {
        return false;
    };
    session.edit(alloc, group).is_ok()
        && is_at(alloc, session, &silent(), GROUP_UNDO)
        && session.undo(alloc).is_ok()
        && is_at(alloc, session, &tone(), b"")
        && session.redo(alloc).is_ok()
        && is_at(alloc, session, &silent(), GROUP_UNDO)
}

#[test]
fn a_session_undoes_a_group(rt: HostRuntime) -> Result<(), Fail> {
    let (alloc, file) = (rt.alloc(), tone());
    let (bank, _counts) = read(alloc, file.bytes())?;
    let mut session = Session::new(alloc, bank);
    assert!(rt; undoes_a_group(alloc, &mut session));
    Ok(())
}
