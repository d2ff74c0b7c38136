//! Operands that the forms of presets, instruments and samples share.
ghost use Rattle.std.specs.Prelude.{◌≡◌, ◌∷◌, []};
ghost use Rattle.std.specs.List.{flat_map};
ghost use Rattle.base_outputs.specs.Output.{Puts};
ghost use Rattle.script_tokens.specs.Parsers.{Reads};
ghost use Rattle.script_tokens.specs.Printing.{spaced};
ghost use Rattle.script_grammar.specs.Operands.{pieces_of};
ghost use Rattle.script_grammar.specs.Memory.{ReadsOrOutOfMemory};
ghost use Rattle.script_steps.specs.Members.{place, named_operands, moved_operands, indexed_name, index_pair, zones_of};

use bank_parts::ZoneOwner;
use base_outputs::Output;
use script_grammar::zones;
use script_tokens::{Cursor, LineFault, Piece, put_pieces};
use sf_base::{BorrowedBytes, Failure, Name20};
use std::alloc::Global;
use std::io::Write;

// ---- read

// `I NAME`
#[tactic(auto, unfolding(crate::specs::Members::indexed_name))]
pub(crate) fn indexed_name(line: &mut Cursor<'_, '_>) -> Result<(u32, Name20), LineFault>
    ensures { Reads (λ n. n) indexed_name line.old line.new result }
{
    let number = line.number(u32::MAX)?;
    let name = line.name()?;
    Ok((number, name))
}

// `I J`
#[tactic(auto, unfolding(crate::specs::Members::index_pair))]
pub(crate) fn index_pair(line: &mut Cursor<'_, '_>) -> Result<(u32, u32), LineFault>
    ensures { Reads (λ m. m) index_pair line.old line.new result }
{
    let from = line.number(u32::MAX)?;
    let to = line.number(u32::MAX)?;
    Ok((from, to))
}

// `GLOBAL? ZONE*` after a head
#[tactic(auto, unfolding(crate::specs::Members::zones_of))]
pub(crate) fn zones_of<H: Copy>(
    head: H,
    alloc: Global,
    line: &mut Cursor<'_, '_>,
) -> Result<ZoneOwner<H>, Failure<LineFault>>
    ensures { ReadsOrOutOfMemory (λ x. x) (zones_of head) line.old line.new result }
{
    let (global, zones) = zones(alloc, line)?;
    Ok(ZoneOwner {
        head,
        global,
        zones,
    })
}

// ---- printed

// `I NAME`, each token after a space
pub(crate) fn put_indexed_name<W: Write>(number: u32, name: &Name20, output: &mut Output<'_, W>)
    ensures { Puts W.contents output.old output.new (flat_map spaced (pieces_of (named_operands number name.now))) }
{
    let number = Piece::Number(u64::from(number));
    let name = Piece::Name(BorrowedBytes::new(name.bytes()));
    put_pieces(&[number, name], output);
}

// `I J`, each token after a space
pub(crate) fn put_index_pair<W: Write>(from: u32, to: u32, output: &mut Output<'_, W>)
    ensures { Puts W.contents output.old output.new (flat_map spaced (pieces_of (moved_operands from to))) }
{
    let from = Piece::Number(u64::from(from));
    let to = Piece::Number(u64::from(to));
    put_pieces(&[from, to], output);
}

// `I`, after a space
pub(crate) fn put_number<W: Write>(number: u32, output: &mut Output<'_, W>)
    ensures { Puts W.contents output.old output.new (flat_map spaced (pieces_of (place number ∷ []))) }
{
    put_pieces(&[Piece::Number(u64::from(number))], output);
}
