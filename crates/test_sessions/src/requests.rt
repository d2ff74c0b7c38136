//! Tests of `read_line`: requests, faults, and the lines of the help.
ghost use Rattle.std.specs.Prelude.{◌≡◌, not};
ghost use Rattle.std.specs.List.{list_all};
ghost use Rattle.script_tokens.specs.Lines.{is_feed};

use base_outputs::Output;
use edit_script::put_edit;
use live_lines::{
    HELP, Key, Paths, PedalMove, PedalPosition, Request, RequestFault, pool_of_line, read_line,
};
use script_notes::Note;
use script_tokens::{Lines, Piece, put_line};
use sf_base::{BorrowedBytes, Failure};
use std::alloc::Global;
use std::io::Write;

/// Lines and their requests, written as canonical lines.
const LINES: [(&[u8], &[u8]); 34] = [
    (b"", b"nothing\n"),
    (b" \t# undo\r", b"nothing\n"),
    (b"rename-sample 0 \"u\"", b"edit rename-sample 0 \"u\"\n"),
    (
        b"group { remove-zone inst 0 1 } { trim 0 1 2 }",
        b"edit group { remove-zone inst 0 1 } { trim 0 1 2 }\n",
    ),
    (
        b"neutral rename-sample 00 x75 # heard by nobody",
        b"neutral rename-sample 0 \"u\"\n",
    ),
    (b"undo", b"undo\n"),
    (b"\tredo # forth\r", b"redo\n"),
    (b"show", b"show\n"),
    (b"help", b"help\n"),
    (b"quit", b"quit\n"),
    (b"note 44100 0 1 60 100", b"note 0 44100 0 1 60 100\n"),
    (
        b"note 100000000 65535 65535 127 127",
        b"note 0 100000000 65535 65535 127 127\n",
    ),
    (b"note 0 0 0 0 0", b"note 0 0 0 0 0 0\n"),
    (b"press 0 1 60 100", b"held note 0 100000000 0 1 60 100\n"),
    (b"release 0 1 60", b"release 0 1 60\n"),
    (b"pedal on 128 0", b"pedal on 128 0\n"),
    (b"pedal off 0 65535", b"pedal off 0 65535\n"),
    (b"silence", b"silence\n"),
    (b"stop", b"stop\n"),
    (b"record notes.txt", b"record \"notes.txt\"\n"),
    (b"record \"my notes.txt\"", b"record \"my notes.txt\"\n"),
    (b"voices", b"voices\n"),
    (b"meter", b"meter\n"),
    (b"frames 0", b"frames 0\n"),
    (b"frames 100000000", b"frames 100000000\n"),
    (b"save out.sf2 undo.txt", b"save \"out.sf2\" \"undo.txt\"\n"),
    (
        b"save \"my bank.sf2\" \"undo.txt\"",
        b"save \"my bank.sf2\" \"undo.txt\"\n",
    ),
    (
        b"save out.sf2 \"my undo.txt\"",
        b"save \"out.sf2\" \"my undo.txt\"\n",
    ),
    (
        b"save \"my bank.sf2\" undo.txt",
        b"save \"my bank.sf2\" \"undo.txt\"\n",
    ),
    (b"save x6f2e736632 x75", b"save \"o.sf2\" \"u\"\n"),
    (b"save x6f2e736632 u", b"save \"o.sf2\" \"u\"\n"),
    (b"save \xc3\xb6.sf2 xc3b6", b"save xc3b62e736632 xc3b6\n"),
    (b"save save undo", b"save \"save\" \"undo\"\n"),
    (b"save - -", b"save \"-\" \"-\"\n"),
];

/// Lines with a fault, and its number and name.
const FAULTS: [(&[u8], &[u8]); 52] = [
    (b"play", b"fault 41 Syntax\n"),
    (b"Undo", b"fault 41 Syntax\n"),
    (b"undo 1", b"fault 41 Syntax\n"),
    (b"\"undo\"", b"fault 41 Syntax\n"),
    (b"redo redo", b"fault 41 Syntax\n"),
    (b"show all", b"fault 41 Syntax\n"),
    (b"help me", b"fault 41 Syntax\n"),
    (b"quit now", b"fault 41 Syntax\n"),
    (b"neutral", b"fault 41 Syntax\n"),
    (b"neutral undo", b"fault 41 Syntax\n"),
    (b"neutral neutral remove-preset 0", b"fault 41 Syntax\n"),
    (b"remove-preset", b"fault 41 Syntax\n"),
    (b"remove-preset 0 0", b"fault 41 Syntax\n"),
    (b"remove-preset 4294967296", b"fault 42 Number\n"),
    (b"neutral remove-preset -1", b"fault 42 Number\n"),
    (
        b"rename-sample 0 \"a name of over 20 bytes\"",
        b"fault 43 Literal\n",
    ),
    (b"rename-sample 0 \"u", b"fault 43 Literal\n"),
    (b"undo x0", b"fault 43 Literal\n"),
    (b"note", b"fault 45 BadNote\n"),
    (b"note 1 0 0 60", b"fault 45 BadNote\n"),
    (b"note 1 0 0 60 100 0", b"fault 45 BadNote\n"),
    (b"note 1 0 0 128 100", b"fault 45 BadNote\n"),
    (b"note 1 0 0 60 128", b"fault 45 BadNote\n"),
    (b"note 1 65536 0 60 100", b"fault 45 BadNote\n"),
    (b"note 1 0 0 60 \"\"", b"fault 45 BadNote\n"),
    (b"note 1 0 0 60 x1", b"fault 43 Literal\n"),
    (b"note 100000001 0 0 60 100", b"fault 47 TooLong\n"),
    (b"press 0 0 60", b"fault 45 BadNote\n"),
    (b"press 0 0 60 128", b"fault 45 BadNote\n"),
    (b"release 0 0", b"fault 41 Syntax\n"),
    (b"release 0 0 128", b"fault 42 Number\n"),
    (b"pedal", b"fault 41 Syntax\n"),
    (b"pedal up 0 0", b"fault 41 Syntax\n"),
    (b"pedal on 0", b"fault 41 Syntax\n"),
    (b"pedal on 65536 0", b"fault 42 Number\n"),
    (b"pedal off 0 0 60", b"fault 41 Syntax\n"),
    (b"silence now", b"fault 41 Syntax\n"),
    (b"stop 0", b"fault 41 Syntax\n"),
    (b"record", b"fault 41 Syntax\n"),
    (b"record x0", b"fault 43 Literal\n"),
    (b"record a b", b"fault 41 Syntax\n"),
    (b"voices 0", b"fault 41 Syntax\n"),
    (b"meter 0", b"fault 41 Syntax\n"),
    (b"frames", b"fault 41 Syntax\n"),
    (b"frames 100000001", b"fault 42 Number\n"),
    (b"frames x00", b"fault 42 Number\n"),
    (b"frames 1 1", b"fault 41 Syntax\n"),
    (b"save out.sf2", b"fault 41 Syntax\n"),
    (b"save out.sf2 undo.txt more.txt", b"fault 41 Syntax\n"),
    (b"save \xff undo.txt", b"fault 41 Syntax\n"),
    (b"save xff undo.txt", b"fault 43 Literal\n"),
    (b"save xbank.sf2 undo.txt", b"fault 43 Literal\n"),
];

/// Writes a request as a line.
fn put_request<W: Write>(request: &Request<'_, '_>, output: &mut Output<'_, W>) {
    match request {
        Request::Edit(edit) => {
            output.put(b"edit ");
            put_edit(edit, output);
        }
        Request::Neutral(edit) => {
            output.put(b"neutral ");
            put_edit(edit, output);
        }
        Request::Undo => output.put(b"undo\n"),
        Request::Redo => output.put(b"redo\n"),
        Request::Note(note) => put_note(note, output),
        Request::Press(note) => {
            output.put(b"held ");
            put_note(note, output);
        }
        Request::Release(key) => put_key(*key, output),
        Request::Pedal(moved) => put_pedal(*moved, output),
        Request::Silence => output.put(b"silence\n"),
        Request::Stop => output.put(b"stop\n"),
        Request::Frames(count) => {
            put_line(b"frames", &[Piece::Number(u64::from(*count))], output);
        }
        Request::Record(path) => put_line(b"record", &[quoted(path.text())], output),
        Request::Save(paths) => put_paths(paths, output),
        Request::Voices => output.put(b"voices\n"),
        Request::Meter => output.put(b"meter\n"),
        Request::Show => output.put(b"show\n"),
        Request::Help => output.put(b"help\n"),
        Request::Quit => output.put(b"quit\n"),
    }
}

fn put_note<W: Write>(note: &Note, output: &mut Output<'_, W>) {
    put_line(
        b"note",
        &[
            Piece::Number(u64::from(note.start())),
            Piece::Number(u64::from(note.length())),
            Piece::Number(u64::from(note.bank())),
            Piece::Number(u64::from(note.number())),
            Piece::Number(u64::from(note.key())),
            Piece::Number(u64::from(note.velocity())),
        ],
        output,
    );
}

fn put_key<W: Write>(key: Key, output: &mut Output<'_, W>) {
    put_line(
        b"release",
        &[
            Piece::Number(u64::from(key.bank)),
            Piece::Number(u64::from(key.number)),
            Piece::Number(u64::from(key.key)),
        ],
        output,
    );
}

fn put_pedal<W: Write>(moved: PedalMove, output: &mut Output<'_, W>) {
    let position = match moved.position {
        PedalPosition::On => b"on".as_slice(),
        PedalPosition::Off => b"off".as_slice(),
    };
    put_line(
        b"pedal",
        &[
            Piece::Word(BorrowedBytes::new(position)),
            Piece::Number(u64::from(moved.pedal.bank)),
            Piece::Number(u64::from(moved.pedal.number)),
        ],
        output,
    );
}

fn quoted(text: &str) -> Piece<'_> {
    Piece::Name(BorrowedBytes::new(text.as_bytes()))
}

fn put_paths<W: Write>(paths: &Paths<'_>, output: &mut Output<'_, W>) {
    let out = quoted(paths.out.text());
    let undo = quoted(paths.undo.text());
    put_line(b"save", &[out, undo], output);
}

fn put_fault<W: Write>(fault: RequestFault, output: &mut Output<'_, W>) {
    let number = Piece::Number(u64::from(fault.number()));
    let name = Piece::Word(BorrowedBytes::new(fault.name().as_bytes()));
    put_line(b"fault", &[number, name], output);
}

fn has_no_feed(line: &[u8]) -> bool
    ensures { result ≡ list_all (λ b. not (is_feed b)) line.now }
{
    line.iter().all(|byte| *byte != b'\n')
}

/// Writes the request of a line, or its fault. Writes nothing if out of memory, or if there is a line feed in
/// the line.
fn put_request_or_fault<W: Write>(alloc: Global, line: &[u8], output: &mut Output<'_, W>) {
    if !has_no_feed(line) {
        return;
    }
    match pool_of_line(alloc, line) {
        Ok(pool) => match read_line(alloc, line, &pool) {
            Ok(Some(request)) => put_request(&request, output),
            Ok(None) => output.put(b"nothing\n"),
            Err(Failure::Fault(fault)) => put_fault(fault, output),
            Err(Failure::OutOfMemory) => {}
        },
        Err(Failure::Fault(fault)) => put_fault(fault, output),
        Err(Failure::OutOfMemory) => {}
    }
}

/// Whether the request or fault of a line is written as `want`.
fn is_read_as(alloc: Global, line: &[u8], want: &[u8]) -> bool {
    let mut output_text = Vec::new(alloc);
    let mut output = Output::to(&mut output_text);
    put_request_or_fault(alloc, line, &mut output);
    output.end().is_ok() && output_text.as_slice() == want
}

#[test]
fn lines_are_read(rt: HostRuntime) {
    for (line, want) in LINES {
        assert!(rt; is_read_as(rt.alloc(), line, want));
    }
}

#[test]
fn faults_are_reported(rt: HostRuntime) {
    for (line, want) in FAULTS {
        assert!(rt; is_read_as(rt.alloc(), line, want));
    }
}

/// Whether a line is read as a request.
fn is_request(alloc: Global, line: &[u8]) -> bool {
    has_no_feed(line)
        && match pool_of_line(alloc, line) {
            Ok(pool) => matches!(read_line(alloc, line, &pool), Ok(Some(_))),
            Err(_) => false,
        }
}

#[test]
fn the_lines_of_the_help_are_read(rt: HostRuntime) {
    for line in Lines::of(HELP.as_bytes()) {
        assert!(rt; is_request(rt.alloc(), line));
    }
}
