//! Lines with comments.
ghost use Rattle.std.specs.Prelude.{◌≡◌};
ghost use Rattle.std.specs.List.{flat_map};
ghost use Rattle.base_outputs.specs.Output.{Puts};
ghost use Rattle.edit_forms.specs.declared.step.Step.{Step};
ghost use Rattle.edit_forms.specs.declared.edit.Edit.TheVariants.{One, Group};
ghost use Rattle.script_tokens.specs.Printing.{spaced};
ghost use Rattle.script_grammar.specs.Operands.{pieces_of};
ghost use Rattle.edit_script.specs.Grammar.{braced};
ghost use Rattle.edit_script.specs.Printing.{text_of};
ghost use Rattle.script_comments.specs.Comments.{comment_of};
ghost use Rattle.script_comments.specs.Lines.{before_feed, commented_line};

use crate::comment::put_comment;
use bank_core::Bank;
use base_outputs::Output;
use edit_forms::{Edit, Step};
use script_steps::{put_operands, word_of};
use script_tokens::{Piece, put_pieces};
use sf_base::BorrowedBytes;
use std::io::Write;

/// Puts the line of an edit with its comment, with the names of `bank`. Allocates nothing.
pub fn put_named_edit<W: Write>(bank: &Bank<'_>, edit: &Edit<'_>, output: &mut Output<'_, W>)
    ensures { Puts W.contents output.old output.new (commented_line edit.now (comment_of bank.now edit.now)) }
{
    put_unfed(edit, output);
    put_comment(bank, edit, output);
    output.put(b"\n");
}

/// Puts the line of an edit, with a comment before its line feed. Allocates nothing.
pub fn put_commented<W: Write>(edit: &Edit<'_>, comment: &[u8], output: &mut Output<'_, W>)
    ensures { Puts W.contents output.old output.new (commented_line edit.now comment.now) }
{
    put_unfed(edit, output);
    output.put(comment);
    output.put(b"\n");
}

// Puts the line of an edit without its line feed.
fn put_unfed<W: Write>(edit: &Edit<'_>, output: &mut Output<'_, W>)
    ensures { Puts W.contents output.old output.new (before_feed (text_of edit.now)) }
{
    match edit {
        Edit::One(step) => put_one(step, output),
        Edit::Group(steps) => put_group(steps.as_slice(), output),
    }
}

fn put_one<W: Write>(step: &Step<'_>, output: &mut Output<'_, W>)
    ensures { Puts W.contents output.old output.new (before_feed (text_of (One step.now))) }
{
    output.put(word_of(step));
    put_operands(step, output);
}

fn put_group<W: Write>(steps: &[Step<'_>], output: &mut Output<'_, W>)
    ensures { Puts W.contents output.old output.new (before_feed (text_of (Group steps.now))) }
{
    output.put(b"group");
    put_all_braced(steps, output);
}

fn put_all_braced<W: Write>(steps: &[Step<'_>], output: &mut Output<'_, W>)
    ensures { Puts W.contents output.old output.new (flat_map (λ (s : Step). flat_map spaced (pieces_of (braced s))) steps.now) }
{
    for step in steps {
        put_braced(step, output);
    }
}

// `{ STEP }`, each token after a space
fn put_braced<W: Write>(step: &Step<'_>, output: &mut Output<'_, W>)
    ensures { Puts W.contents output.old output.new (flat_map spaced (pieces_of (braced step.now))) }
{
    let word = Piece::Word(BorrowedBytes::new(word_of(step)));
    put_pieces(&[Piece::Word(BorrowedBytes::new(b"{")), word], output);
    put_operands(step, output);
    put_pieces(&[Piece::Word(BorrowedBytes::new(b"}"))], output);
}
