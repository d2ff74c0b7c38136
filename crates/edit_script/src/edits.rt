//! Reads and writes edits.
ghost use Rattle.std.specs.Prelude.{◌≡◌, [], OnOk};
ghost use Rattle.std.specs.List.{flat_map};
ghost use Rattle.base_outputs.specs.Writing.{Writes};
ghost use Rattle.base_outputs.specs.Output.{Puts};
ghost use Rattle.edit_forms.specs.declared.step.Step.{Step};
ghost use Rattle.script_tokens.specs.Printing.{spaced};
ghost use Rattle.script_grammar.specs.Operands.{pieces_of};
ghost use Rattle.script_grammar.specs.Memory.{ReadsOrOutOfMemory};
ghost use Rattle.edit_script.specs.Grammar.{braced, braced_step, remaining_steps, group, one, one_or_group, edit};
ghost use Rattle.edit_script.specs.Printing.{text_of, texts_of};
ghost use Rattle.edit_forms.specs.declared.edit.Edit.TheVariants.{One, Group};

use base_numbered_lists::NumberedList;
use base_outputs::{Output, WriteFault};
use base_texts::Text;
use edit_forms::{Edit, Step};
use script_grammar::fixed;
use script_steps::{put_operands, step, word_of};
use script_tokens::{Cursor, LineFault, Piece, put_pieces};
use sf_base::{BorrowedBytes, Failure};
use std::alloc::Global;
use std::io::Write;

// ---- read

/// Reads an edit from the remaining tokens of a line, to its end. The error is the first fault from left to
/// right, or `OutOfMemory`.
#[tactic(auto, unfolding(crate::specs::Grammar::edit, script_tokens::specs::Parsers::ended))]
pub fn edit<'p>(alloc: Global, line: &mut Cursor<'_, 'p>) -> Result<Edit<'p>, Failure<LineFault>>
    ensures reads { ReadsOrOutOfMemory (λ e. e) edit line.old line.new result }
    ensures done { OnOk result (line.new.token_values ≡ []) }
{
    let edit = one_or_group(alloc, line)?;
    line.end()?;
    Ok(edit)
}

// Reads a step, or a group of steps.
fn one_or_group<'p>(
    alloc: Global,
    line: &mut Cursor<'_, 'p>,
) -> Result<Edit<'p>, Failure<LineFault>>
    ensures { ReadsOrOutOfMemory (λ e. e) one_or_group line.old line.new result }
{
    if line.is_next(b"group") {
        group(alloc, line)
    } else {
        one(alloc, line)
    }
}

#[tactic(auto, unfolding(crate::specs::Grammar::one))]
fn one<'p>(alloc: Global, line: &mut Cursor<'_, 'p>) -> Result<Edit<'p>, Failure<LineFault>>
    ensures { ReadsOrOutOfMemory (λ e. e) one line.old line.new result }
{
    let step = step(alloc, line)?;
    Ok(Edit::One(step))
}

// `group`, and its steps
#[tactic(auto, unfolding(crate::specs::Grammar::group))]
fn group<'p>(alloc: Global, line: &mut Cursor<'_, 'p>) -> Result<Edit<'p>, Failure<LineFault>>
    ensures { ReadsOrOutOfMemory (λ e. e) group line.old line.new result }
{
    fixed(line, b"group")?;
    let steps = remaining_steps(alloc, line)?;
    Ok(Edit::Group(steps))
}

// Reads the steps up to the line's end, each in braces.
fn remaining_steps<'p>(
    alloc: Global,
    line: &mut Cursor<'_, 'p>,
) -> Result<NumberedList<Step<'p>>, Failure<LineFault>>
    ensures { ReadsOrOutOfMemory (λ steps. steps) (remaining_steps []) line.old line.new result }
{
    let mut steps = NumberedList::new(alloc);
    while !line.is_empty() {
        let step = braced_step(alloc, line)?;
        if steps.push(step).is_err() {
            return Err(Failure::OutOfMemory);
        }
    }
    Ok(steps)
}

// `{ STEP }`
#[tactic(auto, unfolding(crate::specs::Grammar::braced_step))]
fn braced_step<'p>(alloc: Global, line: &mut Cursor<'_, 'p>) -> Result<Step<'p>, Failure<LineFault>>
    ensures { ReadsOrOutOfMemory (λ s. s) braced_step line.old line.new result }
{
    fixed(line, b"{")?;
    let step = step(alloc, line)?;
    fixed(line, b"}")?;
    Ok(step)
}

// ---- printed

/// Writes the line of an edit, with its line feed. It allocates nothing.
pub fn print<W: Write>(edit: &Edit<'_>, out: &mut W) -> Result<(), WriteFault>
    ensures { Writes (W.contents out.old) (W.contents out.new) (text_of edit.now) result }
{
    let mut output = Output::to(out);
    put_edit(edit, &mut output);
    output.end()?;
    Ok(())
}

/// The lines of edits, one after another.
#[derive(Clone, Copy)]
pub struct EditLines<'t, 'a>(pub &'t [Edit<'a>]);

impl Text for EditLines<'_, '_> {
    ghost bytes = { λ lines. texts_of lines.0.now };

    fn put<W: Write>(&self, output: &mut Output<'_, W>) {
        for edit in self.0 {
            put_edit(edit, output);
        }
    }
}

/// Puts the line of an edit, with its line feed. It allocates nothing.
pub fn put_edit<W: Write>(edit: &Edit<'_>, output: &mut Output<'_, W>)
    ensures { Puts W.contents output.old output.new (text_of edit.now) }
{
    match edit {
        Edit::One(step) => put_one(step, output),
        Edit::Group(steps) => put_group(steps.as_slice(), output),
    }
}

fn put_one<W: Write>(step: &Step<'_>, output: &mut Output<'_, W>)
    ensures { Puts W.contents output.old output.new (text_of (One step.now)) }
{
    output.put(word_of(step));
    put_operands(step, output);
    output.put(b"\n");
}

fn put_group<W: Write>(steps: &[Step<'_>], output: &mut Output<'_, W>)
    ensures { Puts W.contents output.old output.new (text_of (Group steps.now)) }
{
    output.put(b"group");
    put_all_braced(steps, output);
    output.put(b"\n");
}

fn put_all_braced<W: Write>(steps: &[Step<'_>], output: &mut Output<'_, W>)
    ensures { Puts W.contents output.old output.new (flat_map (λ (s : Step). flat_map spaced (pieces_of (braced s))) steps.now) }
{
    for step in steps {
        put_braced(step, output);
    }
}

// `{ STEP }`, each token after a space
fn put_braced<W: Write>(step: &Step<'_>, output: &mut Output<'_, W>)
    ensures { Puts W.contents output.old output.new (flat_map spaced (pieces_of (braced step.now))) }
{
    let word = Piece::Word(BorrowedBytes::new(word_of(step)));
    put_pieces(&[Piece::Word(BorrowedBytes::new(b"{")), word], output);
    put_operands(step, output);
    put_pieces(&[Piece::Word(BorrowedBytes::new(b"}"))], output);
}
