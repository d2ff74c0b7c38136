//! Numbers, names, owners and places in lines.
ghost use Rattle.std.specs.Prelude.{◌++◌, ◌∷◌, decimal};
ghost use Rattle.std.specs.Fmt.{signed_decimal};
ghost use Rattle.base_outputs.specs.Output.{Puts};
ghost use Rattle.script_tokens.specs.Printing.{name_text};
ghost use Rattle.show_findings.specs.Texts.{numbered, owner_text, place_text};

use bank_core::{Owner, Place};
use base_outputs::Output;
use itoa::Buffer;
use script_tokens::{Piece, put_pieces};
use sf_base::BorrowedBytes;
use std::io::Write;

// Writes a number in decimal.
pub(crate) fn put_number<W: Write>(number: u32, output: &mut Output<'_, W>)
    ensures { Puts W.contents output.old output.new (decimal number) }
{
    let mut digits = Buffer::new();
    output.put(digits.format(number).as_bytes());
}

// Writes a number in decimal, with `-` before it if it is negative.
pub(crate) fn put_signed<W: Write>(number: i32, output: &mut Output<'_, W>)
    ensures { Puts W.contents output.old output.new (signed_decimal number) }
{
    let mut digits = Buffer::new();
    output.put(digits.format(number).as_bytes());
}

// Writes words, and a number.
#[tactic(auto, using(base_outputs::proofs::OutputLaws::puts_then))]
pub(crate) fn put_numbered<W: Write>(words: &[u8], number: u32, output: &mut Output<'_, W>)
    ensures { Puts W.contents output.old output.new (numbered words.now number) }
{
    output.put(words);
    put_number(number, output);
}

// Writes a space, and a name as scripts print it.
pub(crate) fn put_name<W: Write>(name: &[u8], output: &mut Output<'_, W>)
    ensures { Puts W.contents output.old output.new (32 ∷ name_text name.now) }
{
    let pieces = [Piece::Name(BorrowedBytes::new(name))];
    put_pieces(&pieces, output);
}

// Writes an owner in the words of scripts.
pub(crate) fn put_owner<W: Write>(owner: Owner, output: &mut Output<'_, W>)
    ensures { Puts W.contents output.old output.new (owner_text owner) }
{
    match owner {
        Owner::Preset(preset) => put_numbered(b"preset ", preset, output),
        Owner::Inst(instrument) => put_numbered(b"inst ", instrument, output),
    }
}

// Writes a space, and a place in the words of scripts.
pub(crate) fn put_place<W: Write>(place: Place, output: &mut Output<'_, W>)
    ensures { Puts W.contents output.old output.new (place_text place) }
{
    match place {
        Place::Global => output.put(b" global"),
        Place::Zone(zone) => put_numbered(b" ", zone, output),
    }
}
