//! The comments of edits that are applied one after another.
ghost use Rattle.std.specs.Prelude.{◌≡◌, ◌++◌, ◌∷◌, [], ℕ, List, None, length, map, drop, IfSome, IfOk, IfErr, OnOk};
ghost use Rattle.bank_changes.specs.SampleMoves.{AreMoves, IsMove};
ghost use Rattle.bank_edits.specs.MoveEdits.{move_edit};
ghost use Rattle.bank_edits.specs.Runs.{AllAccepted, after_all};
ghost use Rattle.edit_refusals.specs.Edits.{raw, refusal};
ghost use Rattle.edit_refusals.specs.declared.refusal.Refusal.TheVariants as refusals;
ghost use Rattle.script_comments.specs.Comments.{comment_of};
ghost use Rattle.script_comments.specs.Along.{comments_of, pieces, comments_in, Holds, name_comment};
ghost use Rattle.script_comments.specs.Lines as lines;

use crate::comment::put_comment;
use crate::lead::Lead;
use crate::lines::put_commented;
use crate::names::put_name;
use bank_core::{Bank, SampleMove};
use bank_edits::{apply, sample_move};
use base_numbered_lists::NumberedList;
use base_outputs::Output;
use base_texts::{Text, write_text};
use edit_forms::{Edit, Step};
use edit_refusals::Refusal;
use sf_base::{Name20, OutOfMemory};
use std::alloc::Global;
use std::io::Write;

/// The comment of an edit, with the names of the bank before it.
#[derive(Clone, Copy)]
pub struct EditComment<'t, 'a, 'e> {
    pub bank: &'t Bank<'a>,
    pub edit: &'t Edit<'e>,
}

impl Text for EditComment<'_, '_, '_> {
    ghost bytes = { λ comment. comment_of comment.bank.now comment.edit.now };

    fn put<W: Write>(&self, output: &mut Output<'_, W>) {
        put_comment(self.bank, self.edit, output);
    }
}

// The comment of an edit whose only name this is.
#[derive(Clone, Copy)]
struct NameComment {
    name: Name20,
}

impl Text for NameComment {
    ghost bytes = { λ comment. name_comment comment.name };

    fn put<W: Write>(&self, output: &mut Output<'_, W>) {
        put_name(self.name, Lead::first(false), output);
    }
}

/// The comments of edits, in the order of the edits.
#[derive(Drop)]
pub struct EditComments {
    // The bytes of all comments, one after another.
    bytes: Vec<u8>,
    // The length of each.
    lengths: Vec<usize>,
}

/// The lines of edits, each with its comment. An edit without one has none.
#[derive(Clone, Copy)]
pub struct CommentedLines<'t, 'a> {
    pub edits: &'t [Edit<'a>],
    pub comments: &'t EditComments,
}

impl Text for CommentedLines<'_, '_> {
    ghost bytes = { λ text. lines.commented_in_turn text.edits.now (comments_in text.comments.now) };

    fn put<W: Write>(&self, output: &mut Output<'_, W>) {
        let mut bytes = self.comments.bytes.as_slice();
        let mut lengths = self.comments.lengths.as_slice();
        for edit in self.edits {
            let (comment, other_bytes, other_lengths) = first_comment(bytes, lengths);
            put_commented(edit, comment, output);
            bytes = other_bytes;
            lengths = other_lengths;
        }
    }
}

// The first comment, and what remains.
fn first_comment<'c>(bytes: &'c [u8], lengths: &'c [usize]) -> (&'c [u8], &'c [u8], &'c [usize])
    ensures first { result.0.now ≡ lines.first_comment (pieces lengths.now bytes.now) }
    ensures others { pieces result.2.now result.1.now ≡ drop 1 (pieces lengths.now bytes.now) }
{
    match lengths.split_first() {
        Some((length, others)) => {
            let (comment, rest) = bytes.split_at(bytes.len().min(*length));
            (comment, rest, others)
        }
        None => (&[], &[], &[]),
    }
}

/// Applies edits to the bank in order, and returns the comment of each with the names of the bank before it. If an edit
/// is refused, its reason is returned, and the bank has the edits before it. If all are accepted, `OutOfMemory` may still
/// be returned.
pub fn comments_along<'a>(
    alloc: Global,
    bank: &mut Bank<'a>,
    edits: &[Edit<'a>],
) -> Result<EditComments, Refusal>
    ensures comments { IfOk result (λ comments. comments_in comments ≡ comments_of bank.old edits.now) }
    ensures bank { OnOk result (bank.new ≡ after_all bank.old edits.now) }
    ensures accepted { AllAccepted bank.old edits.now → IfErr result (λ why. why ≡ refusals.OutOfMemory) }
{
    let mut comments = EditComments {
        bytes: Vec::new(alloc),
        lengths: Vec::new(alloc),
    };
    let mut moves = Vec::new(alloc);
    for edit in edits {
        match move_of(bank, edit) {
            Some(change) => gather(&mut moves, change)?,
            None => {
                add_moves(alloc, &mut comments, bank, &moves)?;
                moves.clear();
                add_and_apply(alloc, &mut comments, bank, edit)?;
            }
        }
    }
    add_moves(alloc, &mut comments, bank, &moves)?;
    Ok(comments)
}

// The move of an edit that is a move of a sample of the bank.
fn move_of(bank: &Bank<'_>, edit: &Edit<'_>) -> Option<SampleMove>
    ensures { IfSome result (λ m. (edit.now ≡ move_edit m) × IsMove (length bank.now.samples) m) }
{
    match edit {
        Edit::One(step) => sample_move(bank, step),
        Edit::Group(_) => None,
    }
}

// Adds a move to those that are applied together.
fn gather(moves: &mut Vec<SampleMove>, change: SampleMove) -> Result<(), Refusal>
    ensures gathered { OnOk result (moves.new.items ≡ moves.old.items ++ change ∷ []) }
    ensures memory { IfErr result (λ why. why ≡ refusals.OutOfMemory) }
{
    match moves.push(change) {
        Ok(()) => Ok(()),
        Err(_) => Err(Refusal::OutOfMemory),
    }
}

// Adds the comments of moves that follow one another, and applies the moves together.
fn add_moves(
    alloc: Global,
    comments: &mut EditComments,
    bank: &mut Bank<'_>,
    moves: &[SampleMove],
) -> Result<(), Refusal>
    requires { AreMoves (length bank.old.samples) moves.now }
    ensures added { OnOk result ((cs : List (List ℕ)) → Holds comments.old cs → Holds comments.new (cs ++ comments_of bank.old (map move_edit moves.now))) }
    ensures done { OnOk result (bank.new ≡ after_all bank.old (map move_edit moves.now)) }
    ensures memory { IfErr result (λ why. why ≡ refusals.OutOfMemory) }
{
    if moves.is_empty() {
        return Ok(());
    }
    let Ok(names) = bank.move_samples(alloc, moves) else {
        return Err(Refusal::OutOfMemory);
    };
    match add_names(comments, &names) {
        Ok(()) => Ok(()),
        Err(_) => Err(Refusal::OutOfMemory),
    }
}

// Adds a comment of each name.
fn add_names(comments: &mut EditComments, names: &[Name20]) -> Result<(), OutOfMemory>
    ensures { OnOk result ((cs : List (List ℕ)) → Holds comments.old cs → Holds comments.new (cs ++ map name_comment names.now)) }
{
    for name in names {
        add_comment(comments, &NameComment { name: *name })?;
    }
    Ok(())
}

// Adds the comment of an edit, and applies a copy of the edit.
fn add_and_apply<'a>(
    alloc: Global,
    comments: &mut EditComments,
    bank: &mut Bank<'a>,
    edit: &Edit<'a>,
) -> Result<(), Refusal>
    ensures added { OnOk result ((cs : List (List ℕ)) → Holds comments.old cs → Holds comments.new (cs ++ comment_of bank.old edit.now ∷ [])) }
    ensures done { OnOk result (bank.new ≡ raw bank.old edit.now) }
    ensures refused { refusal bank.old edit.now ≡ None → IfErr result (λ why. why ≡ refusals.OutOfMemory) }
{
    let Ok(()) = add_comment(comments, &EditComment { bank, edit }) else {
        return Err(Refusal::OutOfMemory);
    };
    apply_copy(alloc, bank, edit)
}

// Adds a comment.
fn add_comment<T: Text>(comments: &mut EditComments, comment: &T) -> Result<(), OutOfMemory>
    ensures { OnOk result ((cs : List (List ℕ)) → Holds comments.old cs → Holds comments.new (cs ++ T.bytes comment.now ∷ [])) }
{
    let length = append_comment(&mut comments.bytes, comment)?;
    comments.lengths.push(length)?;
    Ok(())
}

// Appends the bytes of a comment, and returns their number.
fn append_comment<T: Text>(bytes: &mut Vec<u8>, comment: &T) -> Result<usize, OutOfMemory>
    ensures bytes { OnOk result (bytes.new.items ≡ bytes.old.items ++ T.bytes comment.now) }
    ensures length { IfOk result (λ n. n ≡ length (T.bytes comment.now)) }
{
    let before = bytes.len();
    let Ok(()) = write_text(comment, bytes) else {
        return Err(OutOfMemory);
    };
    Ok(bytes.len() - before)
}

// Applies a copy of an edit.
fn apply_copy<'a>(alloc: Global, bank: &mut Bank<'a>, edit: &Edit<'a>) -> Result<(), Refusal>
    ensures done { OnOk result (bank.new ≡ raw bank.old edit.now) }
    ensures refused { refusal bank.old edit.now ≡ None → IfErr result (λ why. why ≡ refusals.OutOfMemory) }
{
    let Ok(copy) = copy_edit(alloc, edit) else {
        return Err(Refusal::OutOfMemory);
    };
    match apply(alloc, bank, copy) {
        Ok(_back) => Ok(()),
        Err((why, _edit)) => Err(why),
    }
}

// Copies an edit. The copy borrows the same points and texts.
fn copy_edit<'a>(alloc: Global, edit: &Edit<'a>) -> Result<Edit<'a>, OutOfMemory>
    ensures { IfOk result (λ copy. copy ≡ edit.now) }
{
    Ok(match edit {
        Edit::One(step) => Edit::One(step.copy(alloc)?),
        Edit::Group(steps) => Edit::Group(copy_steps(alloc, steps.as_slice())?),
    })
}

fn copy_steps<'a>(alloc: Global, steps: &[Step<'a>]) -> Result<NumberedList<Step<'a>>, OutOfMemory>
    ensures { IfOk result (λ copy. copy ≡ steps.now) }
{
    let mut copy = NumberedList::new(alloc);
    for step in steps {
        let step = step.copy(alloc)?;
        if copy.push(step).is_err() {
            return Err(OutOfMemory);
        }
    }
    Ok(copy)
}
