//! Owners of zones, and places in them.
ghost use Rattle.std.specs.Prelude.{◌≡◌};
ghost use Rattle.script_tokens.specs.Parsers.{Reads};
ghost use Rattle.script_grammar.specs.Operands.{piece_of};
ghost use Rattle.script_grammar.specs.Operands as operand;
ghost use Rattle.script_steps.specs.Members as member;
ghost use Rattle.script_steps.specs.Owners.{kind_word, kinds, kind_of, number_in, at_place, an_owner, a_place, owner_zone, owner_place};

use bank_changes::{Owner, Place};
use script_grammar::{HasWord, next_named};
use script_tokens::{Cursor, LineFault, Piece};
use sf_base::BorrowedBytes;

/// The two levels at which members have zones.
#[derive(Debug, Clone, Copy)]
pub enum OwnerKind {
    Preset,
    Instrument,
}

static KINDS: [OwnerKind; 2] = [OwnerKind::Preset, OwnerKind::Instrument];

impl HasWord for OwnerKind {
    ghost all = { kinds };

    ghost word_of = { kind_word };

    fn all() -> &'static [OwnerKind] {
        &KINDS
    }

    fn word(self) -> &'static [u8] {
        match self {
            OwnerKind::Preset => b"preset",
            OwnerKind::Instrument => b"inst",
        }
    }
}

// ---- read

// `OWNER K`
#[tactic(auto, unfolding(crate::specs::Owners::owner_zone))]
pub(crate) fn owner_zone(line: &mut Cursor<'_, '_>) -> Result<(Owner, u32), LineFault>
    ensures { Reads (λ z. z) owner_zone line.old line.new result }
{
    let owner = owner(line)?;
    let zone = line.number(u32::MAX)?;
    Ok((owner, zone))
}

// `OWNER PLACE`
#[tactic(auto, unfolding(crate::specs::Owners::owner_place))]
pub(crate) fn owner_place(line: &mut Cursor<'_, '_>) -> Result<(Owner, Place), LineFault>
    ensures { Reads (λ p. p) owner_place line.old line.new result }
{
    let owner = owner(line)?;
    let place = place(line)?;
    Ok((owner, place))
}

// `preset P` or `inst I`
#[tactic(auto, unfolding(crate::specs::Owners::an_owner))]
fn owner(line: &mut Cursor<'_, '_>) -> Result<Owner, LineFault>
    ensures { Reads (λ o. o) an_owner line.old line.new result }
{
    let kind = next_named(line)?;
    let number = line.number(u32::MAX)?;
    Ok(match kind {
        OwnerKind::Preset => Owner::Preset(number),
        OwnerKind::Instrument => Owner::Inst(number),
    })
}

// `global` or `K`
#[tactic(auto, unfolding(crate::specs::Owners::a_place))]
fn place(line: &mut Cursor<'_, '_>) -> Result<Place, LineFault>
    ensures { Reads (λ p. p) a_place line.old line.new result }
{
    if line.is_next(b"global") {
        line.word()?;
        Ok(Place::Global)
    } else {
        Ok(Place::Zone(line.number(u32::MAX)?))
    }
}

// ---- printed

pub(crate) fn kind_piece(owner: Owner) -> Piece<'static>
    ensures { result ≡ piece_of (operand.Fixed (kind_word (kind_of owner))) }
{
    let kind = match owner {
        Owner::Preset(_) => OwnerKind::Preset,
        Owner::Inst(_) => OwnerKind::Instrument,
    };
    Piece::Word(BorrowedBytes::new(kind.word()))
}

pub(crate) fn number_piece(owner: Owner) -> Piece<'static>
    ensures { result ≡ piece_of (member.place (number_in owner)) }
{
    match owner {
        Owner::Preset(number) | Owner::Inst(number) => Piece::Number(u64::from(number)),
    }
}

pub(crate) fn place_piece(place: Place) -> Piece<'static>
    ensures { result ≡ piece_of (at_place place) }
{
    match place {
        Place::Global => Piece::Word(BorrowedBytes::new(b"global")),
        Place::Zone(zone) => Piece::Number(u64::from(zone)),
    }
}
