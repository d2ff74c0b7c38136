//! The paths of files.
ghost use Rattle.std.specs.Prelude.{◌≡◌, [], drop, nat_le, MatchResult, IsOk, if◌then◌else◌};
ghost use Rattle.std.specs.List.{list_all};
ghost use Rattle.script_tokens.specs.Tokens.{tokens_of};
ghost use Rattle.script_tokens.specs.TokenValue.{values_over};
ghost use Rattle.script_tokens.specs.Parsers.{Reads, word};
ghost use Rattle.live_lines.specs.Paths.{path_of, path, one_path, paths};

use script_tokens::{Cursor, LineFault};
use std::marker::Model;

/// The path of a file: UTF-8 bytes without control characters.
#[derive(Debug, Drop)]
pub struct FilePath<'a> {
    text: &'a str,
}

impl<'a> Model for FilePath<'a> {
    ghost use Rattle.std.specs.Prelude.{ℕ, List};

    ghost Value = { List ℕ };

    ghost view = { λ path. path.text.now };
}

impl<'a> FilePath<'a> {
    /// The path with these bytes, or `None` if they are not UTF-8 or one of them is below 0x20.
    pub fn of(bytes: &'a [u8]) -> Option<FilePath<'a>>
        ensures { result ≡ path_of bytes.now }
    {
        match str::from_utf8(bytes) {
            Ok(text) => without_controls(text),
            Err(_) => None,
        }
    }

    /// The text of the path.
    pub fn text(&self) -> &'a str
        ensures { result.now ≡ self.now }
    {
        self.text
    }
}

/// The paths of a save.
#[derive(Debug, Drop)]
pub struct Paths<'a> {
    /// The path of the bank.
    pub out: FilePath<'a>,
    /// The path of the undo script.
    pub undo: FilePath<'a>,
}

// The path with this text, if no byte of it is below 0x20.
fn without_controls(text: &str) -> Option<FilePath<'_>>
    ensures { result ≡ (if list_all (λ b. nat_le 32 b) text.now then Some text.now else None) }
{
    if has_no_controls(text.as_bytes()) {
        Some(FilePath { text })
    } else {
        None
    }
}

fn has_no_controls(bytes: &[u8]) -> bool
    ensures { result ≡ list_all (λ b. nat_le 32 b) bytes.now }
{
    bytes.iter().all(|byte| *byte >= 0x20)
}

// The path after the first word of a line, to its end.
#[tactic(auto, unfolding(crate::specs::Paths::one_path, script_tokens::specs::Parsers::ended))]
pub(crate) fn one_path<'t, 'p: 't>(
    line: &'t [u8],
    pool: &'p [u8],
) -> Result<FilePath<'t>, LineFault>
    requires { IsOk (word (values_over pool.now (tokens_of line.now))) }
    ensures { MatchResult result (λ p. one_path (drop 1 (values_over pool.now (tokens_of line.now))) ≡ Ok (record { value = p; rest = [] })) (λ e. one_path (drop 1 (values_over pool.now (tokens_of line.now))) ≡ Err e) }
{
    let (path, mut rest) = first_path(line, pool)?;
    rest.end()?;
    Ok(path)
}

// The paths after the first word of a line, to its end.
#[tactic(auto, unfolding(crate::specs::Paths::paths, script_tokens::specs::Parsers::ended))]
pub(crate) fn both_paths<'t, 'p: 't>(line: &'t [u8], pool: &'p [u8]) -> Result<Paths<'t>, LineFault>
    requires { IsOk (word (values_over pool.now (tokens_of line.now))) }
    ensures { MatchResult result (λ p. paths (drop 1 (values_over pool.now (tokens_of line.now))) ≡ Ok (record { value = p; rest = [] })) (λ e. paths (drop 1 (values_over pool.now (tokens_of line.now))) ≡ Err e) }
{
    let (out, mut rest) = first_path(line, pool)?;
    let (_, twin) = first_path(line, pool)?;
    let undo = path(&mut rest, twin)?;
    rest.end()?;
    Ok(Paths { out, undo })
}

// The first path after the first word of a line, and the rest of the line.
fn first_path<'t, 'p: 't>(
    line: &'t [u8],
    pool: &'p [u8],
) -> Result<(FilePath<'t>, Cursor<'t, 'p>), LineFault>
    requires { IsOk (word (values_over pool.now (tokens_of line.now))) }
    ensures { MatchResult result (λ r. path (drop 1 (values_over pool.now (tokens_of line.now))) ≡ Ok (record { value = r.0; rest = r.1.token_values })) (λ e. path (drop 1 (values_over pool.now (tokens_of line.now))) ≡ Err e) }
{
    let mut rest = after_first_word(line, pool);
    let twin = after_first_word(line, pool);
    let out = path(&mut rest, twin)?;
    Ok((out, rest))
}

// The rest of a line after its first word.
#[tactic(auto, using(crate::proofs::RequestLaws::rest_after_word))]
fn after_first_word<'t, 'p>(line: &'t [u8], pool: &'p [u8]) -> Cursor<'t, 'p>
    requires { IsOk (word (values_over pool.now (tokens_of line.now))) }
    ensures { result.token_values ≡ drop 1 (values_over pool.now (tokens_of line.now)) }
{
    let mut rest = Cursor::of(line, pool);
    rest.word().unwrap();
    rest
}

// Reads the next path. A cursor can't be asked whether a word or a literal is next, so a twin tries it first.
#[tactic(auto, unfolding(crate::specs::Paths::path, script_tokens::specs::Parsers::word, script_tokens::specs::Parsers::literal))]
fn path<'t, 'p: 't>(
    line: &mut Cursor<'t, 'p>,
    mut twin: Cursor<'t, 'p>,
) -> Result<FilePath<'t>, LineFault>
    requires { twin.token_values ≡ line.old.token_values }
    ensures { Reads (λ p. p) path line.old line.new result }
{
    match twin.word() {
        Ok(_) => {
            let word = line.word()?;
            FilePath::of(word).ok_or(LineFault::Syntax)
        }
        Err(_) => {
            let bytes = line.literal()?;
            FilePath::of(bytes).ok_or(LineFault::Literal)
        }
    }
}
