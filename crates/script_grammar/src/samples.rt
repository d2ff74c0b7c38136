//! Reads and writes the parts of a sample.
ghost use Rattle.std.specs.Prelude.{◌≡◌, ◌∷◌, []};
ghost use Rattle.std.specs.List.{flat_map};
ghost use Rattle.base_outputs.specs.Output.{Puts};
ghost use Rattle.script_tokens.specs.Parsers.{most_word, Reads};
ghost use Rattle.script_tokens.specs.Printing.{spaced};
ghost use Rattle.script_grammar.specs.Operands as operand;
ghost use Rattle.script_grammar.specs.Operands.{pieces_of};
ghost use Rattle.script_grammar.specs.Samples.{kind_operands, loop_operands, tune_operands, head_operands, body_operands, kind, looped, points_of, points, tune, body};

use crate::names::word_is;
use bank_parts::{Kind, Sample};
use base_outputs::Output;
use sample_view::Points;
use script_tokens::{Cursor, Joined, LineFault, Piece, put_pieces};
use sf_base::{BorrowedBytes, Name20};
use std::alloc::Global;
use std::io::Write;

// ---- read

/// Reads a sample: `NAME RATE KEY CORR KIND LOOP POINTS`.
#[tactic(auto, unfolding(crate::specs::Samples::body))]
pub fn sample_body<'p>(alloc: Global, line: &mut Cursor<'_, 'p>) -> Result<Sample<'p>, LineFault>
    ensures { Reads (λ s. s) body line.old line.new result }
{
    let name = line.name()?;
    let (rate, key, correction) = tune(line)?;
    let kind = kind(line)?;
    let looped = looped(line)?;
    let points = points(alloc, line)?;
    Ok(Sample {
        name,
        points,
        looped,
        rate,
        key,
        correction,
        kind,
    })
}

/// Reads `RATE KEY CORR`: a sample's rate in points a second, its key (0 to 255), and its correction in cents
/// (-128 to 127), as in a sample header (SoundFont 2.04, section 7.10).
#[tactic(auto, unfolding(crate::specs::Samples::tune))]
pub fn tune(line: &mut Cursor<'_, '_>) -> Result<(u32, u8, i8), LineFault>
    ensures { Reads (λ t. t) tune line.old line.new result }
{
    let rate = line.number(u32::MAX)?;
    let key = line.number(u32::from(u8::MAX))?;
    let correction = line.signed(127)?;
    Ok((rate, key as u8, correction as i8))
}

/// Reads a sample's kind: `mono`, `right N`, `left N` or `linked N`, where N is the number of the linked
/// sample, up to 65,535; `Syntax` for another word.
#[tactic(auto, unfolding(crate::specs::Samples::kind, crate::specs::Samples::kind_after_word))]
pub fn kind(line: &mut Cursor<'_, '_>) -> Result<Kind, LineFault>
    ensures { Reads (λ k. k) kind line.old line.new result }
{
    let word = line.word()?;
    if word_is(word, b"mono") {
        Ok(Kind::Mono)
    } else if word_is(word, b"right") {
        Ok(Kind::Right(line.number(u32::from(u16::MAX))? as u16))
    } else if word_is(word, b"left") {
        Ok(Kind::Left(line.number(u32::from(u16::MAX))? as u16))
    } else if word_is(word, b"linked") {
        Ok(Kind::Linked(line.number(u32::from(u16::MAX))? as u16))
    } else {
        Err(LineFault::Syntax)
    }
}

/// Reads a sample's loop: `noloop`, or `loop A B` with the first point A and the point after the last, B;
/// `Syntax` for another word.
#[tactic(auto, unfolding(crate::specs::Samples::looped, crate::specs::Samples::loop_after_word))]
pub fn looped(line: &mut Cursor<'_, '_>) -> Result<Option<(u32, u32)>, LineFault>
    ensures { Reads (λ l. l) looped line.old line.new result }
{
    let word = line.word()?;
    if word_is(word, b"noloop") {
        Ok(None)
    } else if word_is(word, b"loop") {
        let start = line.number(u32::MAX)?;
        let end = line.number(u32::MAX)?;
        Ok(Some((start, end)))
    } else {
        Err(LineFault::Syntax)
    }
}

/// Reads points: a literal of two bytes for each point, the low byte first; `Literal` for an odd number of bytes.
#[tactic(auto, unfolding(crate::specs::Samples::points))]
pub fn points<'p>(alloc: Global, line: &mut Cursor<'_, 'p>) -> Result<Points<'p>, LineFault>
    ensures { Reads (λ p. p) points line.old line.new result }
{
    let bytes = line.literal()?;
    points_of(alloc, bytes).ok_or(LineFault::Literal)
}

// The points in these bytes, unless their number is odd.
#[tactic(auto, unfolding(crate::specs::Samples::points_of))]
fn points_of(alloc: Global, bytes: &[u8]) -> Option<Points<'_>>
    ensures { result ≡ points_of bytes.now }
{
    Points::of_slice(alloc, bytes).ok()
}

// ---- printed

/// Writes a sample without its points, `NAME RATE KEY CORR KIND LOOP`, each token after a space.
pub fn put_sample_head<W: Write>(sample: &Sample<'_>, output: &mut Output<'_, W>)
    ensures { Puts W.contents output.old output.new (flat_map spaced (pieces_of (head_operands sample.now))) }
{
    put_name(&sample.name, output);
    put_tune(sample.rate, sample.key, sample.correction, output);
    put_kind(sample.kind, output);
    put_loop(sample.looped, output);
}

/// Writes a name as a literal, after a space.
pub fn put_name<W: Write>(name: &Name20, output: &mut Output<'_, W>)
    ensures { Puts W.contents output.old output.new (flat_map spaced (pieces_of (operand.Name name.now ∷ []))) }
{
    put_pieces(&[Piece::Name(BorrowedBytes::new(name.bytes()))], output);
}

/// Writes `RATE KEY CORR`, each token after a space.
pub fn put_tune<W: Write>(rate: u32, key: u8, correction: i8, output: &mut Output<'_, W>)
    ensures { Puts W.contents output.old output.new (flat_map spaced (pieces_of (tune_operands rate key correction))) }
{
    let rate = Piece::Number(u64::from(rate));
    let key = Piece::Number(u64::from(key));
    let correction = Piece::Signed(i64::from(correction));
    put_pieces(&[rate, key, correction], output);
}

/// Writes a sample's kind, each token after a space.
pub fn put_kind<W: Write>(kind: Kind, output: &mut Output<'_, W>)
    ensures { Puts W.contents output.old output.new (flat_map spaced (pieces_of (kind_operands kind))) }
{
    match kind {
        Kind::Mono => put_pieces(&[Piece::Word(BorrowedBytes::new(b"mono"))], output),
        Kind::Right(link) => put_link(b"right", link, output),
        Kind::Left(link) => put_link(b"left", link, output),
        Kind::Linked(link) => put_link(b"linked", link, output),
    }
}

fn put_link<W: Write>(word: &[u8], link: u16, output: &mut Output<'_, W>)
    ensures { Puts W.contents output.old output.new (flat_map spaced (pieces_of (operand.Fixed word.now ∷ operand.Number most_word link ∷ []))) }
{
    let link = Piece::Number(u64::from(link));
    put_pieces(&[Piece::Word(BorrowedBytes::new(word)), link], output);
}

/// Writes a sample's loop, each token after a space.
pub fn put_loop<W: Write>(looped: Option<(u32, u32)>, output: &mut Output<'_, W>)
    ensures { Puts W.contents output.old output.new (flat_map spaced (pieces_of (loop_operands looped))) }
{
    match looped {
        None => put_pieces(&[Piece::Word(BorrowedBytes::new(b"noloop"))], output),
        Some((start, end)) => {
            let word = Piece::Word(BorrowedBytes::new(b"loop"));
            let start = Piece::Number(u64::from(start));
            let end = Piece::Number(u64::from(end));
            put_pieces(&[word, start, end], output);
        }
    }
}

/// Writes points as a literal in hex digits, after a space.
pub fn put_points<W: Write>(points: &Points<'_>, output: &mut Output<'_, W>)
    ensures { Puts W.contents output.old output.new (flat_map spaced (pieces_of (operand.Points points.now ∷ []))) }
{
    put_pieces(&[Piece::Hex(Joined::new(points.pieces()))], output);
}

/// Writes a sample, `NAME RATE KEY CORR KIND LOOP POINTS`, each token after a space.
pub fn put_sample_body<W: Write>(sample: &Sample<'_>, output: &mut Output<'_, W>)
    ensures { Puts W.contents output.old output.new (flat_map spaced (pieces_of (body_operands sample.now))) }
{
    put_sample_head(sample, output);
    put_points(&sample.points, output);
}
