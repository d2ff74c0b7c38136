//! The script of a bank, from bytes to bytes.
ghost use Rattle.sfbank.specs.BankScripts.{IsRemade, form_text, script_outcome};
ghost use Rattle.std.specs.Prelude.{◌≡◌, IfOk};
ghost use Rattle.sfbank.specs.Prepared.{formed_text};
ghost use Rattle.sfbank.specs.Written.{RunsOneText};

use crate::reading::read_bank;
use crate::writing::write_one;
use bank_core::Bank;
use base_outputs::Output;
use base_texts::Text;
use commented_scripts::{CommentedScript, listed_edits};
use edit_forms::Edit;
use file_host::Which;
use program_reports::RunFault;
use script_of_bank::{BankScript, SamplePoints};
use sf_base::OutOfMemory;
use std::alloc::Global;
use std::io::Write;

/// What the script of a bank has besides its edits.
#[derive(Clone, Copy, Debug, PartialEq, Eq)]
pub struct ScriptForm {
    pub points: SamplePoints,
    /// Whether a comment at the end of each line names what its numbers mean.
    pub comments: bool,
}

/// Reads the file, writes the script that makes its bank of the empty bank of the same minor version to `out`, with
/// or without the points of its samples and comments, and flushes `out`.
///
/// Where the file has a fault or an allocation fails, nothing is written. A fault of the writer (`Which::Out`) has the
/// number of bytes written.
pub fn script_run<W: Write>(
    alloc: Global,
    file: &[u8],
    form: ScriptForm,
    out: &mut W,
) -> Result<(), RunFault>
    // The outcome is the fault of the file, else the script.
    ensures runs { RunsOneText (W.contents out.old) (W.contents out.new) (script_outcome form file.now) result }
    // With all points, the script run on the file of the empty bank writes the canonical file of the bank.
    ensures remade { IsRemade file.now }
{
    match read_bank(alloc, file) {
        Ok((bank, _counts)) => match FormedScript::of(alloc, &bank, form) {
            Ok(script) => write_one(Which::Out, &script, out),
            Err(OutOfMemory) => Err(RunFault::Memory),
        },
        Err(fault) => Err(fault),
    }
}

/// The script of a bank in one of its forms.
pub(crate) struct FormedScript<'t, 'a> {
    bank: &'t Bank<'a>,
    points: SamplePoints,
    // The edits of the script, if it has comments.
    edits: Option<Vec<Edit<'a>>>,
}

// Not derived: a derived drop is inlined, and proved, wherever a value is dropped; this one is a call.
impl Drop for FormedScript<'_, '_> {
    fn drop(self) {
        let FormedScript {
            bank: _,
            points: _,
            edits: _,
        } = self;
    }
}

impl<'t, 'a> FormedScript<'t, 'a> {
    /// The script of a bank in this form.
    #[tactic(auto, unfolding(commented_scripts::specs::CommentedScript::commented_script))]
    pub(crate) fn of(
        alloc: Global,
        bank: &'t Bank<'a>,
        form: ScriptForm,
    ) -> Result<FormedScript<'t, 'a>, OutOfMemory>
        ensures { IfOk result (λ script. formed_text script ≡ form_text form bank.now) }
    {
        let points = form.points;
        if !form.comments {
            return Ok(FormedScript {
                bank,
                points,
                edits: None,
            });
        }
        let edits = Some(listed_edits(alloc, bank, points)?);
        Ok(FormedScript {
            bank,
            points,
            edits,
        })
    }
}

impl Text for FormedScript<'_, '_> {
    ghost bytes = { formed_text };

    fn put<W: Write>(&self, output: &mut Output<'_, W>) {
        let (bank, points) = (self.bank, self.points);
        match &self.edits {
            Some(edits) => CommentedScript {
                bank,
                points,
                edits: edits.as_slice(),
            }
            .put(output),
            None => BankScript { bank, points }.put(output),
        }
    }
}
