//! The script of edits that are found for a bank.
ghost use Rattle.std.specs.Prelude.{◌≡◌, IfOk, Some};
ghost use Rattle.bank_edits.specs.Runs.{AllAccepted};
ghost use Rattle.script_comments.specs.Along.{comments_in, comments_of};
ghost use Rattle.sfbank.specs.EditTexts.{edits_text};
ghost use Rattle.sfbank.specs.Prepared.{edits_script_text};

use bank_core::Bank;
use base_outputs::Output;
use base_texts::Text;
use edit_forms::Edit;
use edit_script::EditLines;
use script_comments::{CommentedLines, EditComments, comments_along};
use sf_base::OutOfMemory;
use std::alloc::Global;
use std::io::Write;

/// The lines of edits, with comments or without.
pub(crate) struct EditsScript<'t, 'a> {
    edits: &'t [Edit<'a>],
    comments: Option<EditComments>,
}

// Not derived: a derived drop is inlined, and proved, wherever a value is dropped; this one is a call.
impl Drop for EditsScript<'_, '_> {
    fn drop(self) {
        let EditsScript {
            edits: _,
            comments: _,
        } = self;
    }
}

impl<'t, 'a> EditsScript<'t, 'a> {
    /// The lines of edits that the bank accepts.
    pub(crate) fn of(
        alloc: Global,
        bank: &Bank<'a>,
        edits: &'t [Edit<'a>],
        comments: bool,
    ) -> Result<EditsScript<'t, 'a>, OutOfMemory>
        requires { AllAccepted bank.now edits.now }
        ensures { IfOk result (λ script. edits_script_text script ≡ edits_text comments bank.now edits.now) }
    {
        let comments = if comments {
            Some(comments_of(alloc, bank, edits)?)
        } else {
            None
        };
        Ok(EditsScript { edits, comments })
    }
}

impl Text for EditsScript<'_, '_> {
    ghost bytes = { edits_script_text };

    fn put<W: Write>(&self, output: &mut Output<'_, W>) {
        let edits = self.edits;
        match &self.comments {
            Some(comments) => CommentedLines { edits, comments }.put(output),
            None => EditLines(edits).put(output),
        }
    }
}

/// The comments of edits that the bank accepts, made on a copy of the bank.
pub(crate) fn comments_of<'a>(
    alloc: Global,
    bank: &Bank<'a>,
    edits: &[Edit<'a>],
) -> Result<EditComments, OutOfMemory>
    requires { AllAccepted bank.now edits.now }
    ensures { IfOk result (λ comments. comments_in comments ≡ comments_of bank.now edits.now) }
{
    let mut copy = bank.copy(alloc)?;
    comments_along(alloc, &mut copy, edits).map_err(|_| OutOfMemory)
}
