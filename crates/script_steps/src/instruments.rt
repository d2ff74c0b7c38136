//! The forms that edit instruments.
ghost use Rattle.std.specs.Prelude.{◌≡◌, ◌∷◌, codes};
ghost use Rattle.std.specs.List.{flat_map};
ghost use Rattle.base_outputs.specs.Output.{Puts};
ghost use Rattle.script_tokens.specs.Printing.{spaced};
ghost use Rattle.script_grammar.specs.Operands.{pieces_of};
ghost use Rattle.script_grammar.specs.Memory.{ReadsOrOutOfMemory};
ghost use Rattle.script_steps.specs.Forms.{form_in, ReadsForm, ReadsWithoutAllocation};
ghost use Rattle.script_steps.specs.Members.{place, printed_owner};
ghost use Rattle.script_steps.specs.Instruments.{forms, printed, name_operands, add_instrument, remove_instrument, rename_instrument, move_instrument};

use crate::by_word::by_word;
use crate::members::{
    index_pair, indexed_name, put_index_pair, put_indexed_name, put_number, zones_of,
};
use bank_parts::Instrument;
use base_outputs::Output;
use edit_forms::{InstrumentStep, Step};
use script_grammar::put_zones;
use script_tokens::{Cursor, LineFault, Piece, put_pieces};
use sf_base::{BorrowedBytes, Failure, Name20};
use std::alloc::Global;
use std::io::Write;

// ---- read

/// Reads the operands of a step after its word; `None` if the word names none of these forms.
#[tactic(auto, unfolding(crate::specs::Instruments::forms, crate::specs::Forms::ReadsForm))]
pub(crate) fn instrument_step<'p>(
    word: &[u8],
    alloc: Global,
    line: &mut Cursor<'_, 'p>,
) -> Option<Result<Step<'p>, Failure<LineFault>>>
    ensures { ReadsForm (form_in forms word.now) line.old line.new result }
{
    by_word!(word,
        b"add-inst" => add_instrument(alloc, line),
        b"remove-inst" => remove_instrument(line),
        b"rename-inst" => rename_instrument(line),
        b"move-inst" => move_instrument(line),
    )
}

// `I NAME GLOBAL? ZONE*`
#[tactic(auto, unfolding(crate::specs::Instruments::add_instrument))]
fn add_instrument<'p>(
    alloc: Global,
    line: &mut Cursor<'_, 'p>,
) -> Result<Step<'p>, Failure<LineFault>>
    ensures { ReadsOrOutOfMemory (λ s. s) add_instrument line.old line.new result }
{
    let (at, name) = indexed_name(line)?;
    let instrument = zones_of(name, alloc, line)?;
    Ok(Step::Instrument(InstrumentStep::AddInstrument { at, instrument }))
}

// `I`
#[tactic(auto, unfolding(crate::specs::Instruments::remove_instrument))]
fn remove_instrument<'p>(line: &mut Cursor<'_, 'p>) -> Result<Step<'p>, Failure<LineFault>>
    ensures { ReadsWithoutAllocation remove_instrument line.old line.new result }
{
    let instrument = line.number(u32::MAX)?;
    Ok(Step::Instrument(InstrumentStep::RemoveInstrument { instrument }))
}

// `I NAME`
#[tactic(auto, unfolding(crate::specs::Instruments::rename_instrument))]
fn rename_instrument<'p>(line: &mut Cursor<'_, 'p>) -> Result<Step<'p>, Failure<LineFault>>
    ensures { ReadsWithoutAllocation rename_instrument line.old line.new result }
{
    let (instrument, name) = indexed_name(line)?;
    Ok(Step::Instrument(InstrumentStep::RenameInstrument { instrument, name }))
}

// `I J`
#[tactic(auto, unfolding(crate::specs::Instruments::move_instrument))]
fn move_instrument<'p>(line: &mut Cursor<'_, 'p>) -> Result<Step<'p>, Failure<LineFault>>
    ensures { ReadsWithoutAllocation move_instrument line.old line.new result }
{
    let (from, to) = index_pair(line)?;
    Ok(Step::Instrument(InstrumentStep::MoveInstrument { from, to }))
}

// ---- printed

/// The word of a step's form.
pub(crate) fn instrument_word(step: &InstrumentStep) -> &'static [u8]
    ensures { result.now ≡ (printed step.now).0 }
{
    match step {
        InstrumentStep::AddInstrument { .. } => b"add-inst",
        InstrumentStep::RemoveInstrument { .. } => b"remove-inst",
        InstrumentStep::RenameInstrument { .. } => b"rename-inst",
        InstrumentStep::MoveInstrument { .. } => b"move-inst",
    }
}

pub(crate) fn put_instrument_step<W: Write>(step: &InstrumentStep, output: &mut Output<'_, W>)
    ensures { Puts W.contents output.old output.new (flat_map spaced (pieces_of (printed step.now).1)) }
{
    match step {
        InstrumentStep::AddInstrument { at, instrument } => put_add_instrument(
            *at, instrument, output,
        ),
        InstrumentStep::RemoveInstrument { instrument } => put_number(*instrument, output),
        InstrumentStep::RenameInstrument { instrument, name } => put_indexed_name(
            *instrument,
            name,
            output,
        ),
        InstrumentStep::MoveInstrument { from, to } => put_index_pair(*from, *to, output),
    }
}

#[tactic(auto, using(crate::proofs::PutLaws::puts_owner))]
fn put_add_instrument<W: Write>(at: u32, instrument: &Instrument, output: &mut Output<'_, W>)
    ensures { Puts W.contents output.old output.new (flat_map spaced (pieces_of (printed_owner name_operands at instrument.now))) }
{
    put_placed_name(at, &instrument.head, output);
    put_zones(&instrument.global, instrument.zones.as_slice(), output);
}

// `I NAME`, each token after a space.
fn put_placed_name<W: Write>(at: u32, name: &Name20, output: &mut Output<'_, W>)
    ensures { Puts W.contents output.old output.new (flat_map spaced (pieces_of (place at ∷ name_operands name.now))) }
{
    let at = Piece::Number(u64::from(at));
    let name = Piece::Name(BorrowedBytes::new(name.bytes()));
    put_pieces(&[at, name], output);
}
