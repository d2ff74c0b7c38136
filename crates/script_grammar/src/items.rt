//! Reads the items of a zone: generators and modulators.
ghost use Rattle.std.specs.Prelude.{◌≡◌, OnOk};
ghost use Rattle.script_tokens.specs.Parsers.{Reads};
ghost use Rattle.script_grammar.specs.Items.{an_item, item_after_word, amount, generator, modulator, items, with_item, no_content};
ghost use Rattle.script_grammar.specs.Memory.{ReadsOrOutOfMemory};

use crate::names::word_is;
use bank_parts::GlobalZone;
use base_numbered_lists::NumberedList;
use generators::{GenMap, Range, is_range_operator};
use modulators::Modulator;
use script_tokens::{Cursor, LineFault};
use sf_base::{Failure, OutOfMemory};
use std::alloc::Global;

/// An item of a zone: a generator and its amount, or a modulator.
#[derive(Debug, Clone, Copy)]
pub enum Item {
    Generator(u16, u16),
    Modulator(Modulator),
}

// ---- read

/// Reads `ITEM* }`: the generators and modulators up to the closing brace. If an operator is repeated, its
/// last amount counts.
pub(crate) fn items(
    alloc: Global,
    line: &mut Cursor<'_, '_>,
) -> Result<GlobalZone, Failure<LineFault>>
    ensures { ReadsOrOutOfMemory (λ z. z) items line.old line.new result }
{
    let mut content = no_content(alloc);
    while !line.is_next(b"}") {
        let item = an_item(line)?;
        add_item(&mut content, item)?;
    }
    line.word()?;
    Ok(content)
}

// Neither generators nor modulators.
pub(crate) fn no_content(alloc: Global) -> GlobalZone
    ensures { result ≡ no_content }
{
    GlobalZone {
        gens: GenMap::new(alloc),
        mods: NumberedList::new(alloc),
    }
}

// Sets a generator, or appends a modulator.
fn add_item(content: &mut GlobalZone, item: Item) -> Result<(), OutOfMemory>
    ensures { OnOk result (content.new ≡ with_item content.old item) }
{
    match item {
        Item::Generator(operator, amount) => {
            content.gens.set(operator, amount)?;
        }
        Item::Modulator(modulator) => {
            content.mods.push(modulator).map_err(|_| OutOfMemory)?;
        }
    }
    Ok(())
}

// `g OPERATOR AMOUNT` or `m MOD`
#[tactic(auto, unfolding(crate::specs::Items::an_item, crate::specs::Items::item_after_word))]
fn an_item(line: &mut Cursor<'_, '_>) -> Result<Item, LineFault>
    ensures { Reads (λ i. i) an_item line.old line.new result }
{
    let word = line.word()?;
    if word_is(word, b"g") {
        let (operator, amount) = generator(line)?;
        Ok(Item::Generator(operator, amount))
    } else if word_is(word, b"m") {
        Ok(Item::Modulator(modulator(line)?))
    } else {
        Err(LineFault::Syntax)
    }
}

/// Reads `OPERATOR AMOUNT`: a generator's operator, and its amount as a WORD of 16 bits. The amount is
/// written as `LO..HI` for key and velocity ranges, else as a signed number.
#[tactic(auto, unfolding(crate::specs::Items::generator))]
pub fn generator(line: &mut Cursor<'_, '_>) -> Result<(u16, u16), LineFault>
    ensures { Reads (λ e. e) generator line.old line.new result }
{
    let operator = line.number(u32::from(u16::MAX))? as u16;
    let amount = amount(operator, line)?;
    Ok((operator, amount))
}

// The amount of an operator, as a WORD: `LO..HI` for key and velocity ranges, else a signed number.
#[tactic(auto, unfolding(crate::specs::Items::amount))]
fn amount(operator: u16, line: &mut Cursor<'_, '_>) -> Result<u16, LineFault>
    ensures { Reads (λ a. a) (amount operator) line.old line.new result }
{
    if is_range_operator(operator) {
        let (low, high) = line.range()?;
        Ok(Range { low, high }.to_amount())
    } else {
        let number = line.signed(32767)? as i16;
        Ok(number.cast_unsigned())
    }
}

/// Reads a modulator: `SOURCE DEST AMOUNT ASOURCE TRANSFORM`.
#[tactic(auto, unfolding(crate::specs::Items::modulator))]
pub fn modulator(line: &mut Cursor<'_, '_>) -> Result<Modulator, LineFault>
    ensures { Reads (λ m. m) modulator line.old line.new result }
{
    let source = line.number(u32::from(u16::MAX))? as u16;
    let dest = line.number(u32::from(u16::MAX))? as u16;
    let amount = line.signed(32767)? as i16;
    let amount_source = line.number(u32::from(u16::MAX))? as u16;
    let transform = line.number(u32::from(u16::MAX))? as u16;
    Ok(Modulator {
        source,
        dest,
        amount,
        amount_source,
        transform,
    })
}
