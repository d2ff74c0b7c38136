//! Reads the request of a line.
ghost use Rattle.std.specs.Prelude.{◌≡◌, drop, Ok, IfOk, IfErr, IsOk};
ghost use Rattle.script_tokens.specs.Tokens.{tokens_of};
ghost use Rattle.script_tokens.specs.TokenValue.{values_in, cursor_over, values_over};
ghost use Rattle.script_tokens.specs.Parsers.{Reads, word, ended};
ghost use Rattle.script_tokens.specs.Pool.{Answers, Fails, pool_bytes};
ghost use Rattle.script_grammar.specs.Names.{next_named};
ghost use Rattle.sf_base.specs.declared.memory.Failure.TheVariants.{Fault};
ghost use Rattle.edit_forms.specs.declared.edit.Edit.{Edit};
ghost use Rattle.edit_script.specs.Grammar.{edit};
ghost use Rattle.live_lines.specs.declared.request.Request.{Request};
ghost use Rattle.live_lines.specs.declared.request.Request.TheVariants as asks;
ghost use Rattle.live_lines.specs.Faults.{of_line};
ghost use Rattle.live_lines.specs.Paths.{one_path, paths};
ghost use Rattle.live_lines.specs.Requests.{command_word, commands, made_request, note_now, note_held, noted, key, pedal, frames, request_by, request, request_of, HasNoFeed, IsNotOutOfMemory};

use crate::command::Command;
use crate::fault::RequestFault;
use crate::paths::{both_paths, one_path};
use crate::pedal::{Pedal, PedalMove, PedalPosition};
use crate::request::{Key, MOST_FRAMES, Request};
use edit_forms::Edit;
use edit_script::edit;
use script_grammar::next_named;
use script_notes::{HIGHEST_KEY, HIGHEST_VELOCITY, LAST_FRAME, Note};
use script_tokens::{Cursor, LineFault, pool_of};
use sf_base::Failure;
use std::alloc::Global;

/// The bytes of the literals of a line, in order, or the line's fault if one of them is malformed, or `OutOfMemory`. A
/// line without literals allocates nothing.
pub fn pool_of_line(alloc: Global, line: &[u8]) -> Result<Vec<u8>, Failure<RequestFault>>
    requires { HasNoFeed line.now }
    ensures pool { IfOk result (λ pool. pool_bytes line.now ≡ Ok pool.items) }
    ensures fault { IfErr result (λ why. Fails why (request_of (values_in line.now))) }
{
    match pool_of(alloc, line) {
        Ok(pool) => Ok(pool),
        Err(Failure::Fault(_)) => Err(Failure::Fault(RequestFault::Literal)),
        Err(Failure::OutOfMemory) => Err(Failure::OutOfMemory),
    }
}

/// Reads the request of a line, with a pool of the bytes of its literals, or returns its first fault from left to
/// right. A line without tokens has no request. An edit may fail with `OutOfMemory`.
pub fn read_line<'t, 'p: 't>(
    alloc: Global,
    line: &'t [u8],
    pool: &'p [u8],
) -> Result<Option<Request<'t, 'p>>, Failure<RequestFault>>
    requires line { HasNoFeed line.now }
    requires pool { pool_bytes line.now ≡ Ok pool.now }
    ensures { Answers (λ r. r) result (request_of (values_in line.now)) }
{
    let cursor = Cursor::of(line, pool);
    if cursor.is_empty() {
        return Ok(None);
    }
    match request(alloc, line, pool) {
        Ok(request) => Ok(Some(request)),
        Err(failure) => Err(failure),
    }
}

// Reads the request of a line with tokens.
fn request<'t, 'p: 't>(
    alloc: Global,
    line: &'t [u8],
    pool: &'p [u8],
) -> Result<Request<'t, 'p>, Failure<RequestFault>>
    ensures { Answers (λ r. r) result (request (values_over pool.now (tokens_of line.now))) }
{
    let mut rest = Cursor::of(line, pool);
    request_on(alloc, &mut rest, line, pool)
}

/// Reads the request of a line with tokens by a cursor at its start.
pub(crate) fn request_on<'t, 'p: 't>(
    alloc: Global,
    rest: &mut Cursor<'t, 'p>,
    line: &'t [u8],
    pool: &'p [u8],
) -> Result<Request<'t, 'p>, Failure<RequestFault>>
    requires { rest.old ≡ cursor_over pool.now (tokens_of line.now) }
    ensures { Answers (λ r. r) result (request (values_over pool.now (tokens_of line.now))) }
{
    let command = next_named(rest);
    request_or_edit(alloc, command, rest, line, pool)
}

// The request of the command, if the line begins with one; else an edit.
fn request_or_edit<'t, 'p: 't>(
    alloc: Global,
    command: Result<Command, LineFault>,
    rest: &mut Cursor<'t, 'p>,
    line: &'t [u8],
    pool: &'p [u8],
) -> Result<Request<'t, 'p>, Failure<RequestFault>>
    requires { Reads (λ c. c) (next_named command_word commands) (cursor_over pool.now (tokens_of line.now)) rest.old command }
    ensures { Answers (λ r. r) result (request (values_over pool.now (tokens_of line.now))) }
{
    match command {
        Ok(command) => request_by(alloc, command, rest, line, pool),
        Err(_) => edit_of_line(alloc, rest, line, pool),
    }
}

// The edit of a whole line.
fn edit_of_line<'t, 'p>(
    alloc: Global,
    rest: &mut Cursor<'t, 'p>,
    line: &'t [u8],
    pool: &'p [u8],
) -> Result<Request<'t, 'p>, Failure<RequestFault>>
    ensures { Answers (λ r. r) result (made_request asks.Edit (edit (values_over pool.now (tokens_of line.now)))) }
{
    *rest = Cursor::of(line, pool);
    Ok(Request::Edit(an_edit(alloc, rest)?))
}

// The request of a command, by the rest of its line.
fn request_by<'t, 'p: 't>(
    alloc: Global,
    command: Command,
    rest: &mut Cursor<'t, 'p>,
    line: &'t [u8],
    pool: &'p [u8],
) -> Result<Request<'t, 'p>, Failure<RequestFault>>
    requires after_word { rest.old.token_values ≡ drop 1 (values_over pool.now (tokens_of line.now)) }
    requires word { IsOk (word (values_over pool.now (tokens_of line.now))) }
    ensures { Answers (λ r. r) result (request_by command rest.old.token_values) }
{
    match command {
        Command::Neutral => neutral_edit(alloc, rest),
        Command::Undo => without_arguments(Request::Undo, rest),
        Command::Redo => without_arguments(Request::Redo, rest),
        Command::Note => note(rest),
        Command::Press => press(rest),
        Command::Release => release(rest),
        Command::Pedal => move_pedal(rest),
        Command::Silence => without_arguments(Request::Silence, rest),
        Command::Stop => without_arguments(Request::Stop, rest),
        Command::Frames => some_frames(rest),
        Command::Record => record(line, pool),
        Command::Save => save(line, pool),
        Command::Voices => without_arguments(Request::Voices, rest),
        Command::Meter => without_arguments(Request::Meter, rest),
        Command::Show => without_arguments(Request::Show, rest),
        Command::Help => without_arguments(Request::Help, rest),
        Command::Quit => without_arguments(Request::Quit, rest),
    }
}

// The edit in the rest of a line, as one that must be neutral.
fn neutral_edit<'t, 'p>(
    alloc: Global,
    line: &mut Cursor<'t, 'p>,
) -> Result<Request<'t, 'p>, Failure<RequestFault>>
    ensures { Answers (λ r. r) result (made_request asks.Neutral (edit line.old.token_values)) }
{
    Ok(Request::Neutral(an_edit(alloc, line)?))
}

// The edit in the rest of a line.
fn an_edit<'p>(alloc: Global, line: &mut Cursor<'_, 'p>) -> Result<Edit<'p>, Failure<RequestFault>>
    ensures { (make : Edit → Request) → Answers make result (made_request make (edit line.old.token_values)) }
{
    match edit(alloc, line) {
        Ok(edit) => Ok(edit),
        Err(Failure::Fault(fault)) => Err(failure_of(fault)),
        Err(Failure::OutOfMemory) => Err(Failure::OutOfMemory),
    }
}

// The failure of a line with this fault.
fn failure_of(fault: LineFault) -> Failure<RequestFault>
    ensures { result ≡ Fault (of_line fault) }
{
    Failure::Fault(fault.into())
}

// The request, if its line is at its end.
#[tactic(auto, unfolding(script_tokens::specs::Parsers::ended))]
fn without_arguments<'t, 'p>(
    request: Request<'t, 'p>,
    line: &mut Cursor<'t, 'p>,
) -> Result<Request<'t, 'p>, Failure<RequestFault>>
    ensures answer { Answers (λ r. r) result (made_request (λ r. r) (ended request.entry line.old.token_values)) }
    ensures memory { IsNotOutOfMemory result }
{
    match line.end() {
        Ok(()) => Ok(request),
        Err(fault) => Err(failure_of(fault)),
    }
}

// A note that starts now.
fn note<'t, 'p>(line: &mut Cursor<'t, 'p>) -> Result<Request<'t, 'p>, Failure<RequestFault>>
    ensures answer { Answers (λ r. r) result (noted asks.Note (note_now line.old.token_values)) }
    ensures memory { IsNotOutOfMemory result }
{
    match note_now(line) {
        Ok(Some(note)) => Ok(Request::Note(note)),
        Ok(None) => Err(Failure::Fault(RequestFault::TooLong)),
        Err(_) => Err(Failure::Fault(RequestFault::BadNote)),
    }
}

// A note that starts now and is held.
fn press<'t, 'p>(line: &mut Cursor<'t, 'p>) -> Result<Request<'t, 'p>, Failure<RequestFault>>
    ensures answer { Answers (λ r. r) result (noted asks.Press (note_held line.old.token_values)) }
    ensures memory { IsNotOutOfMemory result }
{
    match note_held(line) {
        Ok(Some(note)) => Ok(Request::Press(note)),
        Ok(None) => Err(Failure::Fault(RequestFault::TooLong)),
        Err(_) => Err(Failure::Fault(RequestFault::BadNote)),
    }
}

// The release of a key.
fn release<'t, 'p>(line: &mut Cursor<'t, 'p>) -> Result<Request<'t, 'p>, Failure<RequestFault>>
    ensures answer { Answers (λ r. r) result (made_request asks.Release (key line.old.token_values)) }
    ensures memory { IsNotOutOfMemory result }
{
    match key(line) {
        Ok(key) => Ok(Request::Release(key)),
        Err(fault) => Err(failure_of(fault)),
    }
}

// A pedal that is pressed or released.
fn move_pedal<'t, 'p>(line: &mut Cursor<'t, 'p>) -> Result<Request<'t, 'p>, Failure<RequestFault>>
    ensures answer { Answers (λ r. r) result (made_request asks.Pedal (pedal line.old.token_values)) }
    ensures memory { IsNotOutOfMemory result }
{
    match pedal(line) {
        Ok(moved) => Ok(Request::Pedal(moved)),
        Err(fault) => Err(failure_of(fault)),
    }
}

// The numbers of a note that starts now, to the line's end; `None` if it is too long.
#[tactic(auto, unfolding(crate::specs::Requests::note_now))]
fn note_now(line: &mut Cursor<'_, '_>) -> Result<Option<Note>, LineFault>
    ensures { Reads (λ n. n) note_now line.old line.new result }
{
    let length = line.number(u32::MAX)?;
    let bank = line.number(u32::from(u16::MAX))?;
    let number = line.number(u32::from(u16::MAX))?;
    let key = line.number(u32::from(HIGHEST_KEY))?;
    let velocity = line.number(u32::from(HIGHEST_VELOCITY))?;
    line.end()?;
    Ok(Note::new(
        0,
        length,
        bank as u16,
        number as u16,
        key as u8,
        velocity as u8,
    ))
}

// The numbers of a note that starts now and is held as long as a note can be, to the line's end.
#[tactic(auto, unfolding(crate::specs::Requests::note_held))]
fn note_held(line: &mut Cursor<'_, '_>) -> Result<Option<Note>, LineFault>
    ensures { Reads (λ n. n) note_held line.old line.new result }
{
    let bank = line.number(u32::from(u16::MAX))?;
    let number = line.number(u32::from(u16::MAX))?;
    let key = line.number(u32::from(HIGHEST_KEY))?;
    let velocity = line.number(u32::from(HIGHEST_VELOCITY))?;
    line.end()?;
    Ok(Note::new(
        0,
        LAST_FRAME as u32,
        bank as u16,
        number as u16,
        key as u8,
        velocity as u8,
    ))
}

// The numbers of a key, to the line's end.
#[tactic(auto, unfolding(crate::specs::Requests::key, script_tokens::specs::Parsers::ended))]
fn key(line: &mut Cursor<'_, '_>) -> Result<Key, LineFault>
    ensures { Reads (λ k. k) key line.old line.new result }
{
    let bank = line.number(u32::from(u16::MAX))?;
    let number = line.number(u32::from(u16::MAX))?;
    let key = line.number(u32::from(HIGHEST_KEY))?;
    line.end()?;
    Ok(Key {
        bank: bank as u16,
        number: number as u16,
        key: key as u8,
    })
}

// `on` or `off`, and the preset of a pedal, to the line's end.
#[tactic(auto, unfolding(crate::specs::Requests::pedal, script_tokens::specs::Parsers::ended))]
fn pedal(line: &mut Cursor<'_, '_>) -> Result<PedalMove, LineFault>
    ensures { Reads (λ p. p) pedal line.old line.new result }
{
    let position: PedalPosition = next_named(line)?;
    let bank = line.number(u32::from(u16::MAX))?;
    let number = line.number(u32::from(u16::MAX))?;
    line.end()?;
    Ok(PedalMove {
        position,
        pedal: Pedal {
            bank: bank as u16,
            number: number as u16,
        },
    })
}

// A request for frames.
fn some_frames<'t, 'p>(line: &mut Cursor<'t, 'p>) -> Result<Request<'t, 'p>, Failure<RequestFault>>
    ensures answer { Answers (λ r. r) result (made_request asks.Frames (frames line.old.token_values)) }
    ensures memory { IsNotOutOfMemory result }
{
    match frames(line) {
        Ok(count) => Ok(Request::Frames(count)),
        Err(fault) => Err(failure_of(fault)),
    }
}

// A number of frames, to the line's end.
#[tactic(auto, unfolding(crate::specs::Requests::frames, script_tokens::specs::Parsers::ended))]
fn frames(line: &mut Cursor<'_, '_>) -> Result<u32, LineFault>
    ensures { Reads (λ n. n) frames line.old line.new result }
{
    let count = line.number(MOST_FRAMES)?;
    line.end()?;
    Ok(count)
}

// The path of a recording, by the whole line.
fn record<'t, 'p: 't>(
    line: &'t [u8],
    pool: &'p [u8],
) -> Result<Request<'t, 'p>, Failure<RequestFault>>
    requires { IsOk (word (values_over pool.now (tokens_of line.now))) }
    ensures answer { Answers (λ r. r) result (made_request asks.Record (one_path (drop 1 (values_over pool.now (tokens_of line.now))))) }
    ensures memory { IsNotOutOfMemory result }
{
    match one_path(line, pool) {
        Ok(path) => Ok(Request::Record(path)),
        Err(fault) => Err(failure_of(fault)),
    }
}

// The paths of a save, by the whole line.
fn save<'t, 'p: 't>(
    line: &'t [u8],
    pool: &'p [u8],
) -> Result<Request<'t, 'p>, Failure<RequestFault>>
    requires { IsOk (word (values_over pool.now (tokens_of line.now))) }
    ensures answer { Answers (λ r. r) result (made_request asks.Save (paths (drop 1 (values_over pool.now (tokens_of line.now))))) }
    ensures memory { IsNotOutOfMemory result }
{
    match both_paths(line, pool) {
        Ok(paths) => Ok(Request::Save(paths)),
        Err(fault) => Err(failure_of(fault)),
    }
}
