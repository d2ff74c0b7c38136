//! The names of members and operators.
ghost use Rattle.std.specs.Prelude.{◌≡◌, ◌∷◌, []};
ghost use Rattle.std.specs.List.{flat_map};
ghost use Rattle.bank_changes.specs.Members.{level_of};
ghost use Rattle.script_comments.specs.Putting.{PutsItems};
ghost use Rattle.script_comments.specs.Names as names;
ghost use Rattle.script_comments.specs.Names.{each_of, name_item, named, numbered, named_operator, numbered_operator};

use crate::lead::{Lead, put_item};
use bank_core::Bank;
use base_outputs::Output;
use generator_rows::{GeneratorRow, row_of};
use generators::Level;
use script_tokens::Piece;
use sf_base::{BorrowedBytes, Name20};
use std::io::Write;

/// A member of a bank, by its number.
#[derive(Clone, Copy)]
pub enum Member {
    Preset(u32),
    Instrument(u32),
    Sample(u32),
}

impl Member {
    // The member that a zone of this level targets.
    pub(crate) fn target(level: Level, number: u16) -> Member
        ensures { result ≡ names.target_of level number }
    {
        let number = u32::from(number);
        match level {
            Level::Preset => Member::Instrument(number),
            Level::Inst => Member::Sample(number),
        }
    }

    fn number(self) -> u32
        ensures { result ≡ names.number_of self }
    {
        match self {
            Member::Preset(number) | Member::Instrument(number) | Member::Sample(number) => number,
        }
    }

    // The name in a bank; none if there is no such member.
    fn name(self, bank: &Bank<'_>) -> Option<Name20>
        ensures { result ≡ names.name_of bank.now self }
    {
        match self {
            Member::Preset(number) => Some(bank.head(number)?.name),
            Member::Instrument(number) => bank.inst_name(number),
            Member::Sample(number) => Some(bank.sample(number)?.name),
        }
    }
}

// Puts the name of a member, if there is one.
pub(crate) fn put_named<W: Write>(
    bank: &Bank<'_>,
    member: Member,
    lead: Lead,
    output: &mut Output<'_, W>,
) -> Lead
    ensures { PutsItems W.contents output.old output.new lead result (named bank.now member) }
{
    match member.name(bank) {
        Some(name) => put_name(name, lead, output),
        None => lead,
    }
}

// Puts a name.
pub(crate) fn put_name<W: Write>(name: Name20, lead: Lead, output: &mut Output<'_, W>) -> Lead
    ensures { PutsItems W.contents output.old output.new lead result (name_item name ∷ []) }
{
    let name = Piece::Name(BorrowedBytes::new(name.bytes()));
    put_item(lead, &[name], output)
}

// Puts the number and the name of a member, if there is one.
pub(crate) fn put_numbered<W: Write>(
    bank: &Bank<'_>,
    member: Member,
    lead: Lead,
    output: &mut Output<'_, W>,
) -> Lead
    ensures { PutsItems W.contents output.old output.new lead result (numbered bank.now member) }
{
    match member.name(bank) {
        Some(name) => {
            let number = Piece::Number(u64::from(member.number()));
            let name = Piece::Name(BorrowedBytes::new(name.bytes()));
            put_item(lead, &[number, name], output)
        }
        None => lead,
    }
}

// Puts the name of an operator, if it has one.
pub(crate) fn put_operator<W: Write>(operator: u16, lead: Lead, output: &mut Output<'_, W>) -> Lead
    ensures { PutsItems W.contents output.old output.new lead result (named_operator operator) }
{
    match row_of(operator) {
        Some(row) => {
            let name = Piece::Word(BorrowedBytes::new(row.full_name()));
            put_item(lead, &[name], output)
        }
        None => lead,
    }
}

// Puts the number and the name of an operator.
pub(crate) fn put_numbered_operator<W: Write>(
    row: &GeneratorRow,
    lead: Lead,
    output: &mut Output<'_, W>,
) -> Lead
    ensures { PutsItems W.contents output.old output.new lead result (numbered_operator row.now ∷ []) }
{
    let number = Piece::Number(u64::from(row.number));
    let name = Piece::Word(BorrowedBytes::new(row.full_name()));
    put_item(lead, &[number, name], output)
}
