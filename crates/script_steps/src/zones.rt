//! The forms that edit zones.
ghost use Rattle.std.specs.Prelude.{◌≡◌, codes};
ghost use Rattle.std.specs.List.{flat_map};
ghost use Rattle.base_outputs.specs.Output.{Puts};
ghost use Rattle.script_tokens.specs.Printing.{spaced};
ghost use Rattle.script_grammar.specs.Operands.{pieces_of};
ghost use Rattle.script_grammar.specs.Memory.{ReadsOrOutOfMemory};
ghost use Rattle.edit_forms.specs.declared.zones.ZoneStep.TheVariants.{MoveZone, SplitZone, JoinZone, SetTarget};
ghost use Rattle.script_steps.specs.Forms.{form_in, ReadsForm, ReadsWithoutAllocation};
ghost use Rattle.script_steps.specs.Owners.{of_zone};
ghost use Rattle.script_steps.specs.Zones.{forms, printed, printed_zone, add_zone, remove_zone, move_zone, split_zone, join_zone, set_target};

use crate::by_word::by_word;
use crate::owners::{kind_piece, number_piece, owner_zone};
use bank_changes::Owner;
use bank_parts::Zone;
use bank_zone_ranges::{Axis, Keep};
use base_outputs::Output;
use edit_forms::{Step, ZoneStep};
use script_grammar::{HasWord, next_named, put_zone, zone};
use script_tokens::{Cursor, LineFault, Piece, put_pieces};
use sf_base::{BorrowedBytes, Failure};
use std::alloc::Global;
use std::io::Write;

// ---- read

/// Reads the operands of a step after its word; `None` if the word names none of these forms.
#[tactic(auto, unfolding(crate::specs::Zones::forms, crate::specs::Forms::ReadsForm))]
pub(crate) fn zone_step<'p>(
    word: &[u8],
    alloc: Global,
    line: &mut Cursor<'_, 'p>,
) -> Option<Result<Step<'p>, Failure<LineFault>>>
    ensures { ReadsForm (form_in forms word.now) line.old line.new result }
{
    by_word!(word,
        b"add-zone" => add_zone(alloc, line),
        b"remove-zone" => remove_zone(line),
        b"move-zone" => move_zone(line),
        b"split-zone" => split_zone(line),
        b"join-zone" => join_zone(line),
        b"set-target" => set_target(line),
    )
}

// `OWNER K ZONE`
#[tactic(auto, unfolding(crate::specs::Zones::add_zone))]
fn add_zone<'p>(alloc: Global, line: &mut Cursor<'_, 'p>) -> Result<Step<'p>, Failure<LineFault>>
    ensures { ReadsOrOutOfMemory (λ s. s) add_zone line.old line.new result }
{
    let (owner, at) = owner_zone(line)?;
    let zone = zone(alloc, line)?;
    Ok(Step::Zone(owner, ZoneStep::AddZone { at, zone }))
}

// `OWNER K`
#[tactic(auto, unfolding(crate::specs::Zones::remove_zone))]
fn remove_zone<'p>(line: &mut Cursor<'_, 'p>) -> Result<Step<'p>, Failure<LineFault>>
    ensures { ReadsWithoutAllocation remove_zone line.old line.new result }
{
    let (owner, zone) = owner_zone(line)?;
    Ok(Step::Zone(owner, ZoneStep::RemoveZone { zone }))
}

// `OWNER I J`
#[tactic(auto, unfolding(crate::specs::Zones::move_zone))]
fn move_zone<'p>(line: &mut Cursor<'_, 'p>) -> Result<Step<'p>, Failure<LineFault>>
    ensures { ReadsWithoutAllocation move_zone line.old line.new result }
{
    let (owner, from) = owner_zone(line)?;
    let to = line.number(u32::MAX)?;
    Ok(Step::Zone(owner, ZoneStep::MoveZone { from, to }))
}

// `OWNER K key|vel M`
#[tactic(auto, unfolding(crate::specs::Zones::split_zone))]
fn split_zone<'p>(line: &mut Cursor<'_, 'p>) -> Result<Step<'p>, Failure<LineFault>>
    ensures { ReadsWithoutAllocation split_zone line.old line.new result }
{
    let (owner, zone) = owner_zone(line)?;
    let axis = next_named(line)?;
    let at = line.number(u32::from(u8::MAX))? as u8;
    Ok(Step::Zone(owner, ZoneStep::SplitZone { zone, axis, at }))
}

// `OWNER K key|vel keep|bare`
#[tactic(auto, unfolding(crate::specs::Zones::join_zone))]
fn join_zone<'p>(line: &mut Cursor<'_, 'p>) -> Result<Step<'p>, Failure<LineFault>>
    ensures { ReadsWithoutAllocation join_zone line.old line.new result }
{
    let (owner, zone) = owner_zone(line)?;
    let axis = next_named(line)?;
    let keep = next_named(line)?;
    Ok(Step::Zone(owner, ZoneStep::JoinZone { zone, axis, keep }))
}

// `OWNER K TARGET`
#[tactic(auto, unfolding(crate::specs::Zones::set_target))]
fn set_target<'p>(line: &mut Cursor<'_, 'p>) -> Result<Step<'p>, Failure<LineFault>>
    ensures { ReadsWithoutAllocation set_target line.old line.new result }
{
    let (owner, zone) = owner_zone(line)?;
    let target = line.number(u32::from(u16::MAX))? as u16;
    Ok(Step::Zone(owner, ZoneStep::SetTarget { zone, target }))
}

// ---- printed

/// The word of a step's form.
pub(crate) fn zone_word(step: &ZoneStep) -> &'static [u8]
    ensures { (owner : Owner) → result.now ≡ (printed owner step.now).0 }
{
    match step {
        ZoneStep::AddZone { .. } => b"add-zone",
        ZoneStep::RemoveZone { .. } => b"remove-zone",
        ZoneStep::MoveZone { .. } => b"move-zone",
        ZoneStep::SplitZone { .. } => b"split-zone",
        ZoneStep::JoinZone { .. } => b"join-zone",
        ZoneStep::SetTarget { .. } => b"set-target",
    }
}

pub(crate) fn put_zone_step<W: Write>(owner: Owner, step: &ZoneStep, output: &mut Output<'_, W>)
    ensures { Puts W.contents output.old output.new (flat_map spaced (pieces_of (printed owner step.now).1)) }
{
    match step {
        ZoneStep::AddZone { at, zone } => put_add_zone(owner, *at, zone, output),
        ZoneStep::RemoveZone { zone } => put_owner_zone(owner, *zone, output),
        ZoneStep::MoveZone { from, to } => put_move_zone(owner, *from, *to, output),
        ZoneStep::SplitZone { zone, axis, at } => put_split_zone(owner, *zone, *axis, *at, output),
        ZoneStep::JoinZone { zone, axis, keep } => put_join_zone(
            owner, *zone, *axis, *keep, output,
        ),
        ZoneStep::SetTarget { zone, target } => put_set_target(owner, *zone, *target, output),
    }
}

#[tactic(auto, using(script_grammar::proofs::PutLaws::puts_both))]
fn put_add_zone<W: Write>(owner: Owner, at: u32, zone: &Zone, output: &mut Output<'_, W>)
    ensures { Puts W.contents output.old output.new (flat_map spaced (pieces_of (printed_zone owner at zone.now))) }
{
    put_owner_zone(owner, at, output);
    put_zone(zone, output);
}

// `OWNER K`, each token after a space
fn put_owner_zone<W: Write>(owner: Owner, zone: u32, output: &mut Output<'_, W>)
    ensures { Puts W.contents output.old output.new (flat_map spaced (pieces_of (of_zone owner zone))) }
{
    let zone = Piece::Number(u64::from(zone));
    put_pieces(&[kind_piece(owner), number_piece(owner), zone], output);
}

fn put_move_zone<W: Write>(owner: Owner, from: u32, to: u32, output: &mut Output<'_, W>)
    ensures { Puts W.contents output.old output.new (flat_map spaced (pieces_of (printed owner (MoveZone from to)).1)) }
{
    let from = Piece::Number(u64::from(from));
    let to = Piece::Number(u64::from(to));
    put_pieces(&[kind_piece(owner), number_piece(owner), from, to], output);
}

fn put_split_zone<W: Write>(owner: Owner, zone: u32, axis: Axis, at: u8, output: &mut Output<'_, W>)
    ensures { Puts W.contents output.old output.new (flat_map spaced (pieces_of (printed owner (SplitZone zone axis at)).1)) }
{
    let zone = Piece::Number(u64::from(zone));
    let axis = Piece::Word(BorrowedBytes::new(axis.word()));
    let at = Piece::Number(u64::from(at));
    put_pieces(
        &[kind_piece(owner), number_piece(owner), zone, axis, at],
        output,
    );
}

fn put_join_zone<W: Write>(
    owner: Owner,
    zone: u32,
    axis: Axis,
    keep: Keep,
    output: &mut Output<'_, W>,
)
    ensures { Puts W.contents output.old output.new (flat_map spaced (pieces_of (printed owner (JoinZone zone axis keep)).1)) }
{
    let zone = Piece::Number(u64::from(zone));
    let axis = Piece::Word(BorrowedBytes::new(axis.word()));
    let keep = Piece::Word(BorrowedBytes::new(keep.word()));
    put_pieces(
        &[kind_piece(owner), number_piece(owner), zone, axis, keep],
        output,
    );
}

fn put_set_target<W: Write>(owner: Owner, zone: u32, target: u16, output: &mut Output<'_, W>)
    ensures { Puts W.contents output.old output.new (flat_map spaced (pieces_of (printed owner (SetTarget zone target)).1)) }
{
    let zone = Piece::Number(u64::from(zone));
    let target = Piece::Number(u64::from(target));
    put_pieces(
        &[kind_piece(owner), number_piece(owner), zone, target],
        output,
    );
}
