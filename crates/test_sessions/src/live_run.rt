//! Tests of whole live sessions that read from and write to memory.

use base_progress::{MixedFrames, NoReports, OverriddenSetting, Progress, StartedNote, Work};
use file_host::MemoryHost;
use live_sessions::{InputLines, SessionFiles, live_run};

/// The file of the empty bank of minor version 4.
static EMPTY: &[u8] = b"\
    RIFF\x2c\x01\0\0sfbk\
    LIST\x2a\0\0\0INFO\
    ifil\x04\0\0\0\x02\0\x04\0\
    isng\x08\0\0\0EMU8000\0\
    INAM\x02\0\0\0\0\0\
    LIST\x0c\0\0\0sdta\
    smpl\0\0\0\0\
    LIST\xda\0\0\0pdta\
    phdr\x26\0\0\0\
      EOP\0\0\0\0\0\0\0\0\0\0\0\0\0\0\0\0\0\0\0\0\0\0\0\0\0\0\0\0\0\0\0\0\0\0\0\
    pbag\x04\0\0\0\
      \0\0\0\0\
    pmod\x0a\0\0\0\
      \0\0\0\0\0\0\0\0\0\0\
    pgen\x04\0\0\0\
      \0\0\0\0\
    inst\x16\0\0\0\
      EOI\0\0\0\0\0\0\0\0\0\0\0\0\0\0\0\0\0\0\0\
    ibag\x04\0\0\0\
      \0\0\0\0\
    imod\x0a\0\0\0\
      \0\0\0\0\0\0\0\0\0\0\
    igen\x04\0\0\0\
      \0\0\0\0\
    shdr\x2e\0\0\0\
      EOS\0\0\0\0\0\0\0\0\0\0\0\0\0\0\0\0\0\0\0\0\0\0\0\0\0\0\0\0\0\0\0\0\0\0\0\0\0\0\0\0\0\0\0";

// The instrument plays the point 1000 in a loop, once in the middle and once on the right.
static LINES: &[u8] = b"\
    add-sample 0 \"c\" 44100 60 0 mono loop 0 1 xe803\n\
    add-inst 0 \"i\" { 0 g 54 1 } { 0 g 17 500 g 54 1 }\n\
    # a comment is not answered\n\
    add-preset 0 \"p\" 0 0 0 0 0 { 0 }\n\
    note 100 0 0 60 127\n\
    undo\n\
    frames 1\n\
    note 100 0 0 60 127\n\
    press 0 0 60 127\n\
    release 0 0 60\n\
    release 0 0 60\n\
    pedal on 0 0\n\
    press 0 0 60 127\n\
    release 0 0 60\n\
    release 0 0 60\n\
    voices\n\
    pedal off 0 1\n\
    pedal off 0 0\n\
    press 0 0 60 127\n\
    silence\n\
    voices\n\
    stop\n\
    voices\n\
    meter\n\
    meter\n\
    record notes.txt\n\
    rename-sample 1 \"u\"\n\
    neutral trim 0 0 0\n\
    save out.sf2 undo.txt\n\
    unknown\n\
    quit\n\
    undo\n";

static ANSWERS: &[u8] = b"\
    ok\n\
    ok\n\
    ok\n\
    ok 2\n\
    ok # remove-preset 0\n\
    ok\n\
    ok 0\n\
    ok 0\n\
    ok 1\n\
    ok 0\n\
    ok\n\
    ok 0\n\
    ok 1\n\
    ok 0\n\
    ok 2 1\n\
    ok 0\n\
    ok 1\n\
    ok 0\n\
    ok 1\n\
    ok 0 0\n\
    ok\n\
    ok 0 0\n\
    ok 1500 0\n\
    ok 0 0\n\
    ok 5\n\
    refused 22 NoSuchSample\n\
    refused 50 NotNeutral\n\
    ok\n\
    fault 41 Syntax # unknown\n\
    ok\n";

// 500 on the left and 1500 on the right.
static FRAMES: &[u8] = b"\xf4\x01\xdc\x05";

// The second note starts after the only frame, when all are released.
static NOTES: &[u8] = b"\
    0 1 0 0 60 127\n\
    1 0 0 0 60 127\n\
    1 0 0 0 60 127\n\
    1 0 0 0 60 127\n\
    1 0 0 0 60 127\n";

static UNDO_SCRIPT: &[u8] = b"\
    remove-inst 0\n\
    remove-sample 0\n";

/// More bytes than a session saves.
const ROOM: usize = 10_000;

static FILES: SessionFiles<'static> = SessionFiles {
    bank: "in.sf2",
    pcm: "frames.pcm",
    force: false,
};

#[test]
fn a_session_is_answered(rt: HostRuntime) {
    let alloc = rt.alloc();
    let mut input = InputLines::new(LINES);
    let mut answers = Vec::new(alloc);
    let mut pcm = Vec::new(alloc);
    let mut host = MemoryHost::new(alloc, ROOM);
    let run = live_run(
        alloc,
        EMPTY,
        FILES,
        &mut input,
        &mut answers,
        &mut pcm,
        &mut host,
        &mut NoReports,
    );
    assert!(rt; run.is_ok());
    assert!(rt; answers.as_slice() == ANSWERS);
    assert!(rt; pcm.as_slice() == FRAMES);
    assert!(rt; begins_as_riff(host.file("out.sf2")));
    assert!(rt; host.file("undo.txt") == Some(UNDO_SCRIPT));
    assert!(rt; host.file("notes.txt") == Some(NOTES));
}

fn begins_as_riff(file: Option<&[u8]>) -> bool {
    match file {
        Some(bytes) => bytes.starts_with(b"RIFF"),
        None => false,
    }
}

static SAVES: &[u8] = b"\
    save out.sf2 undo.txt\n\
    save frames.pcm undo.txt\n\
    save other.sf2 in.sf2\n\
    save other.sf2 frames.pcm\n\
    save other.sf2 other.sf2\n\
    save other.sf2 out.sf2\n\
    record frames.pcm\n\
    record in.sf2\n\
    record out.sf2\n\
    record notes.txt\n\
    save in.sf2 undo.txt\n";

// The bank has 308 bytes, so that the last save has room for 84.
static SAVED: &[u8] = b"\
    ok\n\
    refused 64 SameFile frames.pcm\n\
    refused 64 SameFile in.sf2\n\
    refused 64 SameFile frames.pcm\n\
    refused 64 SameFile other.sf2\n\
    refused 65 HoldsBank out.sf2\n\
    refused 64 SameFile frames.pcm\n\
    refused 64 SameFile in.sf2\n\
    refused 65 HoldsBank out.sf2\n\
    ok 0\n\
    write fault in.sf2 after 84 bytes\n";

#[test]
fn saves_are_rejected_and_fail(rt: HostRuntime) {
    let alloc = rt.alloc();
    let mut input = InputLines::new(SAVES);
    let mut answers = Vec::new(alloc);
    let mut pcm = Vec::new(alloc);
    let mut host = MemoryHost::new(alloc, 392);
    let run = live_run(
        alloc,
        EMPTY,
        FILES,
        &mut input,
        &mut answers,
        &mut pcm,
        &mut host,
        &mut NoReports,
    );
    assert!(rt; run.is_ok());
    assert!(rt; answers.as_slice() == SAVED);
    assert!(rt; host.file("out.sf2") == Some(EMPTY));
    assert!(rt; host.file("undo.txt") == Some(b"".as_slice()));
    assert!(rt; host.file("other.sf2").is_none());
    assert!(rt; host.file("in.sf2").is_none());
}

/// Counts what is reported in detail.
#[derive(Clone, Copy, Default, PartialEq, Eq)]
struct Counter {
    notes: u32,
    voices: usize,
    clipped: u32,
    faults: u32,
    fault_bytes: usize,
}

impl Progress for Counter {
    fn begin(&mut self, _work: Work, _count: u64) {}

    fn advance(&mut self, _count: u64) {}

    fn end(&mut self) {}

    fn set_detailed(&mut self, _is_detailed: bool) {}

    fn is_detailed(&self) -> bool {
        true
    }

    fn started(&mut self, note: StartedNote) {
        self.notes = self.notes.saturating_add(1);
        self.voices = self.voices.saturating_add(note.voices);
    }

    fn mixed(&mut self, frames: MixedFrames) {
        self.clipped = self.clipped.saturating_add(frames.clipped);
    }

    fn found_fault(&mut self, line: &[u8]) {
        self.faults = self.faults.saturating_add(1);
        self.fault_bytes = self.fault_bytes.saturating_add(line.len());
    }

    fn found_overridden(&mut self, _setting: OverriddenSetting) {}

    fn report_sound(&mut self) {}
}

// The instrument plays the highest point twice on the right. A comment and an edit that is refused are no faults of a
// line.
static REPORTED_LINES: &[u8] = b"\
    add-sample 0 \"c\" 44100 60 0 mono loop 0 1 xff7f\n\
    add-inst 0 \"i\" { 0 g 17 500 g 54 1 } { 0 g 17 500 g 54 1 }\n\
    # comment\n\
    add-preset 0 \"p\" 0 0 0 0 0 { 0 }\n\
    note 3000 0 0 60 127\n\
    note 3000 0 9 60 127\n\
    frames 2000\n\
    unknown\n\
    frames 100\n\
    rename-sample 1 \"u\"\n\
    frames 2000\n\
    note 1 2";

#[test]
fn details_of_a_session_are_reported(rt: HostRuntime) {
    let alloc = rt.alloc();
    let mut input = InputLines::new(REPORTED_LINES);
    let mut answers = Vec::new(alloc);
    let mut pcm = Vec::new(alloc);
    let mut host = MemoryHost::new(alloc, ROOM);
    let mut counter = Counter::default();
    let run = live_run(
        alloc,
        EMPTY,
        FILES,
        &mut input,
        &mut answers,
        &mut pcm,
        &mut host,
        &mut counter,
    );
    let expected = Counter {
        notes: 2,
        voices: 2,
        clipped: 3000,
        faults: 2,
        fault_bytes: 15,
    };
    assert!(rt; run.is_ok());
    assert!(rt; counter == expected);
}
