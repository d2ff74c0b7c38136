//! Writes lines.
ghost use Rattle.std.specs.Prelude.{◌≡◌, ◌<◌, ◌≤◌, ◌*◌, ◌++◌, ◌∷◌, [], length, slice_index, decimal};
ghost use Rattle.std.specs.List.{list_all, flat_map};
ghost use Rattle.hex.specs.Hex.{encode_lower, lower_digits};
ghost use Rattle.base_outputs.specs.Output.{Puts};
ghost use Rattle.script_tokens.specs.Slices.{all_bytes};
ghost use Rattle.script_tokens.specs.Printing.{is_quotable, hex_literal, name_text, piece_text, spaced, line_text};

use crate::joined::Joined;
use base_outputs::Output;
use itoa::Buffer;
use sf_base::BorrowedBytes;
use std::io::Write;

/// A token of a printed line, after its first word.
#[derive(Drop)]
pub enum Piece<'a> {
    /// A number, in decimal digits.
    Number(u64),
    /// A number, in decimal digits, with `-` before them where it is negative.
    Signed(i64),
    /// The ends of a range, in decimal digits with `..` between them.
    Range(u8, u8),
    /// A word, unchanged.
    Word(BorrowedBytes<'a>),
    /// Bytes as a literal: between quotes where all are from 0x20 to 0x7e and none is a quote, else in hex
    /// digits after `x`.
    Name(BorrowedBytes<'a>),
    /// Bytes as a literal, always in hex digits after `x`.
    Hex(Joined<'a>),
}

/// Writes a line: a word, then each piece after a space, and a line feed.
pub fn put_line<W: Write>(word: &[u8], pieces: &[Piece<'_>], output: &mut Output<'_, W>)
    ensures { Puts W.contents output.old output.new (line_text word.now pieces.now) }
{
    output.put(word);
    put_pieces(pieces, output);
    output.put(b"\n");
}

/// Writes each piece after a space.
pub fn put_pieces<W: Write>(pieces: &[Piece<'_>], output: &mut Output<'_, W>)
    ensures { Puts W.contents output.old output.new (flat_map spaced pieces.now) }
{
    for piece in pieces {
        put_spaced(piece, output);
    }
}

#[tactic(auto, using(base_outputs::proofs::OutputLaws::puts_then))]
fn put_spaced<W: Write>(piece: &Piece<'_>, output: &mut Output<'_, W>)
    ensures { Puts W.contents output.old output.new (spaced piece.now) }
{
    output.put(b" ");
    put_piece(piece, output);
}

#[tactic(auto, unfolding(crate::specs::Printing::piece_text))]
fn put_piece<W: Write>(piece: &Piece<'_>, output: &mut Output<'_, W>)
    ensures { Puts W.contents output.old output.new (piece_text piece.now) }
{
    match piece {
        Piece::Number(number) => {
            let mut digits = Buffer::new();
            output.put(digits.format(*number).as_bytes());
        }
        Piece::Signed(number) => {
            let mut digits = Buffer::new();
            output.put(digits.format(*number).as_bytes());
        }
        Piece::Range(low, high) => put_range(*low, *high, output),
        Piece::Word(word) => output.put(word.bytes()),
        Piece::Name(name) => put_name(name.bytes(), output),
        Piece::Hex(bytes) => put_hex(bytes.slices(), output),
    }
}

#[tactic(auto, using(base_outputs::proofs::OutputLaws::puts_then))]
fn put_range<W: Write>(low: u8, high: u8, output: &mut Output<'_, W>)
    ensures { Puts W.contents output.old output.new (decimal low ++ 46 ∷ 46 ∷ decimal high) }
{
    let mut digits = Buffer::new();
    output.put(digits.format(low).as_bytes());
    output.put(b"..");
    output.put(digits.format(high).as_bytes());
}

#[tactic(auto, unfolding(crate::specs::Printing::name_text), using(base_outputs::proofs::OutputLaws::puts_then))]
fn put_name<W: Write>(name: &[u8], output: &mut Output<'_, W>)
    ensures { Puts W.contents output.old output.new (name_text name.now) }
{
    if all_quotable(name) {
        output.put(b"\"");
        output.put(name);
        output.put(b"\"");
    } else {
        output.put(b"x");
        put_digits(name, output);
    }
}

#[tactic(auto, using(base_outputs::proofs::OutputLaws::puts_then))]
fn put_hex<W: Write>(slices: &[&[u8]], output: &mut Output<'_, W>)
    ensures { Puts W.contents output.old output.new (hex_literal (all_bytes slices.now)) }
{
    output.put(b"x");
    put_all_digits(slices, output);
}

fn put_all_digits<W: Write>(slices: &[&[u8]], output: &mut Output<'_, W>)
    ensures { Puts W.contents output.old output.new (encode_lower (all_bytes slices.now)) }
{
    for bytes in slices {
        put_digits(bytes, output);
    }
}

fn put_digits<W: Write>(bytes: &[u8], output: &mut Output<'_, W>)
    ensures { Puts W.contents output.old output.new (encode_lower bytes.now) }
{
    // Clearing the large buffer would take longer than writing a short literal through the small one.
    if bytes.len() <= 2048 {
        put_through(&mut [0; 512], bytes, output);
    } else {
        put_through(&mut [0; 16384], bytes, output);
    }
}

// Writes the digits of these bytes, as many at a time as the buffer holds.
fn put_through<W: Write>(buffer: &mut [u8], bytes: &[u8], output: &mut Output<'_, W>)
    requires { 2 ≤ length buffer.old }
    ensures { Puts W.contents output.old output.new (encode_lower bytes.now) }
{
    for few in bytes.chunks(buffer.len() / 2) {
        let digits = &mut buffer[..2 * few.len()];
        write_digits(few, digits);
        output.put(digits);
    }
}

// Arithmetic in place of a table lets the compiler vectorize the loop.
fn write_digits(bytes: &[u8], digits: &mut [u8])
    requires { length digits.old ≡ 2 * length bytes.now }
    ensures { digits.new ≡ encode_lower bytes.now }
{
    for i in 0..bytes.len() {
        digits[2 * i] = digit(bytes[i] / 16);
        digits[2 * i + 1] = digit(bytes[i] % 16);
    }
}

fn digit(nibble: u8) -> u8
    requires { nibble < 16 }
    ensures { result ≡ slice_index lower_digits nibble }
{
    nibble + if nibble < 10 { 48 } else { 87 }
}

fn all_quotable(bytes: &[u8]) -> bool
    ensures { result ≡ list_all is_quotable bytes.now }
{
    bytes
        .iter()
        .all(|byte| *byte >= 0x20 && *byte <= 0x7e && *byte != b'"')
}
