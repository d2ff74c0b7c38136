//! A script that turns one bank into another.
ghost use Rattle.std.specs.Prelude.{◌≡◌, [], IfOk, true};
ghost use Rattle.bank_edits.specs.Runs.{AllAccepted};
ghost use Rattle.script_of_bank.specs.BankScript.{IsScript};
ghost use Rattle.sfbank.specs.Differences.{FindsDifference, IsScriptOf, ReadsTwoBanks, RunsDifference, WritesNothing};
ghost use Rattle.sfbank.specs.Differences.{both, two_banks_of};
ghost use Rattle.sfbank.specs.EditTexts.{edits_text};
ghost use Rattle.sfbank.specs.Prepared.{text_of_difference};

use crate::edits_script::comments_of;
use crate::short::short_difference;
use crate::writing::write_one;
use bank_core::Bank;
use base_outputs::Output;
use base_texts::Text;
use edit_forms::Edit;
use edit_script::EditLines;
use file_host::Which;
use program_reports::RunFault;
use script_comments::{CommentedLines, EditComments};
use script_of_bank::Replacement;
use sf_base::OutOfMemory;
use sf_reader::read;
use std::alloc::Global;
use std::io::Write;

/// Reads both files, writes a script that turns the first bank into the second to `out`, and flushes `out`. With
/// `comments`, a comment at the end of each line names what its numbers mean.
///
/// Both banks must have the same minor version, which no edit changes. Where a file has a fault, the versions differ
/// or an allocation fails, nothing is written. A fault of the writer (`Which::Out`) has the number of bytes written.
pub fn diff_run<W: Write>(
    alloc: Global,
    first: &[u8],
    second: &[u8],
    comments: bool,
    out: &mut W,
) -> Result<(), RunFault>
    // The fault of the first file, else of the second, else `OtherVersion`; else a script is written that turns the
    // first file into the canonical file of the second, and whose undo text restores the canonical file of the first.
    ensures runs { RunsDifference comments (W.contents out.old) (W.contents out.new) first.now second.now result }
    // The script for two files of the same bank is empty.
    ensures nothing { WritesNothing (W.contents out.old) (W.contents out.new) first.now second.now result }
{
    match difference_of(alloc, first, second, comments) {
        Ok(difference) => write_one(Which::Out, &difference, out),
        Err(fault) => Err(fault),
    }
}

/// A script that turns one bank into another.
pub(crate) enum BankDifference<'a> {
    /// The edits that were found between them.
    Found(Vec<Edit<'a>>),
    /// The same with their comments.
    Commented(Vec<Edit<'a>>, EditComments),
    /// The replacement of the first by the second.
    Replacing(Bank<'a>, Bank<'a>),
}

// Not derived: a derived drop is inlined, and proved, wherever a value is dropped; this one is a call.
impl Drop for BankDifference<'_> {
    fn drop(self) {
        match self {
            BankDifference::Found(_) => {}
            BankDifference::Commented(_, _) => {}
            BankDifference::Replacing(_, _) => {}
        }
    }
}

impl Text for BankDifference<'_> {
    ghost bytes = { text_of_difference };

    fn put<W: Write>(&self, output: &mut Output<'_, W>) {
        match self {
            BankDifference::Found(edits) => EditLines(edits.as_slice()).put(output),
            BankDifference::Commented(edits, comments) => CommentedLines {
                edits: edits.as_slice(),
                comments,
            }
            .put(output),
            BankDifference::Replacing(from, to) => Replacement { from, to }.put(output),
        }
    }
}

/// Reads both files, and finds a script that turns the first bank into the second.
pub(crate) fn difference_of<'a>(
    alloc: Global,
    first: &'a [u8],
    second: &'a [u8],
    comments: bool,
) -> Result<BankDifference<'a>, RunFault>
    ensures { FindsDifference comments text_of_difference first.now second.now result }
{
    match read_two_banks(alloc, first, second) {
        Ok((from, to)) => match difference_between(alloc, from, to, comments) {
            Ok(difference) => Ok(difference),
            Err(OutOfMemory) => Err(RunFault::Memory),
        },
        Err(fault) => Err(fault),
    }
}

// Finds a script that turns one bank into another of its minor version.
fn difference_between<'a>(
    alloc: Global,
    from: Bank<'a>,
    to: Bank<'a>,
    comments: bool,
) -> Result<BankDifference<'a>, OutOfMemory>
    ensures leads { IfOk result (λ d. from.entry.minor ≡ to.entry.minor → IsScript from.entry (text_of_difference d) to.entry) }
    ensures form { IfOk result (λ d. IsScriptOf comments from.entry to.entry (text_of_difference d)) }
    ensures nothing { from.entry ≡ to.entry → IfOk result (λ d. text_of_difference d ≡ []) }
{
    from.soundness();
    to.soundness();
    match short_difference(alloc, &from, &to)? {
        Some(edits) if comments => with_comments(alloc, from, edits),
        Some(edits) => Ok(BankDifference::Found(edits)),
        None => Ok(BankDifference::Replacing(from, to)),
    }
}

// Makes the comments of edits that the bank accepts.
fn with_comments<'a>(
    alloc: Global,
    bank: Bank<'a>,
    edits: Vec<Edit<'a>>,
) -> Result<BankDifference<'a>, OutOfMemory>
    requires { AllAccepted bank edits.items }
    ensures { IfOk result (λ d. text_of_difference d ≡ edits_text true bank.entry edits.entry.items) }
{
    let comments = comments_of(alloc, &bank, edits.as_slice())?;
    Ok(BankDifference::Commented(edits, comments))
}

// Reads both banks, and checks that they have the same minor version.
fn read_two_banks<'a>(
    alloc: Global,
    first: &'a [u8],
    second: &'a [u8],
) -> Result<(Bank<'a>, Bank<'a>), RunFault>
    ensures { ReadsTwoBanks both (two_banks_of first.now second.now) result }
{
    let from = match read(alloc, first) {
        Ok((bank, _counts)) => bank,
        Err(failure) => return Err(RunFault::of_first(failure)),
    };
    let to = match read(alloc, second) {
        Ok((bank, _counts)) => bank,
        Err(failure) => return Err(RunFault::of_second(failure)),
    };
    if from.minor() != to.minor() {
        return Err(RunFault::OtherVersion);
    }
    Ok((from, to))
}
