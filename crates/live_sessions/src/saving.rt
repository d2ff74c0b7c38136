//! Saves the bank of a session and its undo script.
ghost use Rattle.std.specs.Prelude.{◌≡◌, ◌∷◌, [], OnOk, IfErr};
ghost use Rattle.std.specs.Option.{option_map};
ghost use Rattle.file_host.specs.Checks.{IsApart, IsNoBank};
ghost use Rattle.file_host.specs.Saving.{PairFails, CountsPair};
ghost use Rattle.inverse_edits.specs.Histories.{IsHistory};
ghost use Rattle.live_sessions.specs.Saved.{undo_text};
ghost use Rattle.live_sessions.specs.FileSaves.{OutIsApart, UndoIsApart, FilesAfterSave, path_of, rejection, failure_of, saved_now, with_saved};
ghost use Rattle.live_sessions.specs.Steps.{SaveIs};

use crate::live::LiveState;
use base_outputs::{Output, OutputFault};
use base_texts::Text;
use edit_forms::Edit;
use edit_script::put_edit;
use file_host::{Host, PairFault, Which, check_apart, check_no_bank};
use live_lines::{Answer, FilePath, Paths};
use sf_base::Failure;
use sf_writer::BankFile;
use std::io::Write;

/// The files of a session. No save may replace its frames, and no undo script its bank.
#[derive(Clone, Copy, Debug)]
pub struct SessionFiles<'a> {
    /// The path of the bank.
    pub bank: &'a str,
    /// The path of the frames.
    pub pcm: &'a str,
    /// Whether an undo script may replace another bank.
    pub force: bool,
}

/// An undo script: the lines of inverses, the last of the list first.
#[derive(Clone, Copy)]
pub struct UndoLines<'t, 'a>(pub &'t [Edit<'a>]);

impl Text for UndoLines<'_, '_> {
    ghost bytes = { λ lines. undo_text lines.0.now };

    fn put<W: Write>(&self, output: &mut Output<'_, W>) {
        let back = self.0;
        let mut remaining = back.len();
        while remaining > 0 {
            remaining -= 1;
            put_edit(&back[remaining], output);
        }
    }
}

/// Saves the current bank and its undo script, unless a path is rejected.
pub(crate) fn save<'t, H: Host>(
    live: &LiveState<'_>,
    files: SessionFiles<'_>,
    paths: Paths<'t>,
    host: &mut H,
) -> Answer<'t>
    ensures answer { SaveIs live.now paths.entry result live.now }
    ensures saved { FilesAfterSave files.entry live.now paths.entry result (H.world host.old) (H.world host.new) (H.written host.new) }
{
    match check_out(files, &paths, host) {
        Ok(()) => {}
        Err(why) => return rejected(paths, Which::Out, why),
    }
    match check_undo(files, &paths, host) {
        Ok(()) => {}
        Err(why) => return rejected(paths, Which::Undo, why),
    }
    match save_texts(live, &paths, host) {
        Ok(()) => Answer::Done,
        Err(why) => failed(paths, why),
    }
}

// Rejects a save that would replace the frames.
fn check_out<H: Host>(
    files: SessionFiles<'_>,
    paths: &Paths<'_>,
    host: &mut H,
) -> Result<(), Failure<OutputFault>>
    ensures checked { OutIsApart files.entry paths.now (H.world host.old) result }
    ensures stays { H.world host.new ≡ H.world host.old }
{
    check_apart(host, paths.out.text(), &[files.pcm])
}

// Rejects a save whose undo script would replace the session's bank, the frames, the saved bank or another bank.
fn check_undo<H: Host>(
    files: SessionFiles<'_>,
    paths: &Paths<'_>,
    host: &mut H,
) -> Result<(), Failure<OutputFault>>
    ensures checked { UndoIsApart files.entry paths.now (H.world host.old) result }
    ensures stays { H.world host.new ≡ H.world host.old }
{
    let undo = paths.undo.text();
    check_apart(host, undo, &[files.bank, files.pcm, paths.out.text()])?;
    check_no_bank(host, undo, files.force)
}

// Saves the undo script of the current bank, and the bank.
fn save_texts<H: Host>(
    live: &LiveState<'_>,
    paths: &Paths<'_>,
    host: &mut H,
) -> Result<(), PairFault>
    ensures history { IsHistory live.now.session }
    ensures saved { OnOk result (H.world host.new ≡ option_map (with_saved paths.now (saved_now live.now)) (H.world host.old)) }
    ensures failed { IfErr result (PairFails (H.world host.old) (H.world host.new) paths.now.undo (saved_now live.now).undo paths.now.out (saved_now live.now).out) }
    ensures counted { IfErr result (CountsPair (H.written host.new)) }
{
    let bank = BankFile(live.session.bank());
    let undo = UndoLines(live.session.undo_list());
    host.save_pair(paths.undo.text(), &undo, paths.out.text(), &bank)
}

// The answer to a save of which this path is rejected.
fn rejected<'t>(paths: Paths<'t>, which: Which, why: Failure<OutputFault>) -> Answer<'t>
    ensures { result ≡ rejection paths.entry which why }
{
    match why {
        Failure::Fault(fault) => Answer::Rejected {
            path: path_of(paths, which),
            fault,
        },
        Failure::OutOfMemory => Answer::OutOfMemory,
    }
}

// The answer to a save that failed.
fn failed<'t>(paths: Paths<'t>, why: PairFault) -> Answer<'t>
    ensures { result ≡ failure_of paths.entry why }
{
    match why {
        PairFault::Write(which, written) => Answer::WriteFault {
            path: path_of(paths, which),
            written,
        },
        PairFault::OutOfMemory => Answer::OutOfMemory,
    }
}

// The path of one of the texts.
fn path_of<'t>(paths: Paths<'t>, which: Which) -> FilePath<'t>
    ensures { result ≡ path_of which paths.entry }
{
    let Paths { out, undo } = paths;
    match which {
        Which::Out => out,
        Which::Undo => undo,
    }
}
