//! Does the requests of a session.
ghost use Rattle.std.specs.Prelude.{◌≡◌, ◌+◌, min, IfOk, IfErr, None};
ghost use Rattle.std.specs.List.{flat_map};
ghost use Rattle.std.specs.Io.KnownBytes.{Appends};
ghost use Rattle.wave_file.specs.Wave.{sample_bytes};
ghost use Rattle.live_sessions.specs.Steps.{FramesAre, FramesStop, Does, StopsIn, block_if};
ghost use Rattle.live_sessions.specs.AnswerTexts.{kind_of, next_of};

use crate::fault::LiveFault;
use crate::frames::write_frames;
use crate::live::LiveState;
use crate::recording::record;
use crate::saving::{SessionFiles, save};
use base_progress::Progress;
use file_host::Host;
use live_lines::{Answer, Request};
use std::alloc::Global;
use std::io::Write;

/// Whether the session continues after a line.
#[derive(Clone, Copy)]
pub(crate) enum Next {
    Line,
    End,
}

/// The text before the answer to a request, and whether the session ends after it.
#[derive(Clone, Copy)]
pub(crate) enum RequestKind {
    Plain,
    /// The listing of the bank.
    Show,
    /// The help.
    Help,
    /// No text; the session ends.
    Quit,
}

/// The kind of a request.
pub(crate) fn kind_of(request: &Request<'_, '_>) -> RequestKind
    ensures { result ≡ kind_of request.now }
{
    match request {
        Request::Show => RequestKind::Show,
        Request::Help => RequestKind::Help,
        Request::Quit => RequestKind::Quit,
        _ => RequestKind::Plain,
    }
}

/// Whether the session continues after a request of this kind.
pub(crate) fn next_of(kind: RequestKind) -> Next
    ensures { result ≡ next_of kind }
{
    match kind {
        RequestKind::Quit => Next::End,
        RequestKind::Plain | RequestKind::Show | RequestKind::Help => Next::Line,
    }
}

/// Does a request, and returns its answer. After a fault of the writer of frames the session's state is unspecified.
pub(crate) fn do_request<'t, 'a, P: Write, H: Host, Q: Progress>(
    alloc: Global,
    live: &mut LiveState<'a>,
    files: SessionFiles<'_>,
    request: Request<'t, 'a>,
    pcm: &mut P,
    host: &mut H,
    progress: &mut Q,
) -> Result<Answer<'t>, LiveFault>
    ensures done { IfOk result (λ a. Does files.entry live.old live.new request.entry a
        (record { input = None; answers = None; pcm = P.contents pcm.old; files = H.world host.old; written = H.written host.old })
        (record { input = None; answers = None; pcm = P.contents pcm.new; files = H.world host.new; written = H.written host.new })) }
    ensures stopped { IfErr result (λ fault. StopsIn live.old request.entry
        (record { input = None; answers = None; pcm = P.contents pcm.old; files = H.world host.old; written = H.written host.old })
        (record { input = None; answers = None; pcm = P.contents pcm.new; files = H.world host.new; written = H.written host.new }) fault) }
{
    match request {
        Request::Edit(edit) => Ok(live.edit(alloc, edit)),
        Request::Neutral(edit) => Ok(live.neutral(alloc, edit)),
        Request::Undo => Ok(live.undo(alloc)),
        Request::Redo => Ok(live.redo(alloc)),
        Request::Note(note) => Ok(live.note(alloc, &note, progress)),
        Request::Press(note) => Ok(live.press(alloc, &note, progress)),
        Request::Release(key) => Ok(live.release(key)),
        Request::Pedal(moved) => Ok(live.move_pedal(moved)),
        Request::Silence => Ok(live.silence()),
        Request::Stop => Ok(live.stop()),
        Request::Frames(count) => give_frames(live, count, pcm, progress),
        Request::Record(path) => Ok(record(live, files, path, host)),
        Request::Save(paths) => Ok(save(live, files, paths, host)),
        Request::Voices => Ok(live.voices()),
        Request::Meter => Ok(live.measure()),
        Request::Show => Ok(Answer::Done),
        Request::Help => Ok(Answer::Done),
        Request::Quit => Ok(Answer::Done),
    }
}

// Writes this many frames.
fn give_frames<P: Write, Q: Progress>(
    live: &mut LiveState<'_>,
    count: u32,
    pcm: &mut P,
    progress: &mut Q,
) -> Result<Answer<'static>, LiveFault>
    ensures done { IfOk result (λ a. FramesAre live.old count a live.new) }
    ensures is_written { IfOk result (λ a. Appends (P.contents pcm.old) (P.contents pcm.new) (flat_map sample_bytes (block_if live.old count a))) }
    ensures stopped { IfErr result (λ fault. FramesStop live.old count (P.contents pcm.old) (P.contents pcm.new) fault) }
{
    let given = live.performance.given;
    match write_frames(
        &mut live.performance.player,
        &mut live.meter,
        count,
        pcm,
        progress,
    ) {
        Ok(_) => {
            live.performance.given = given.saturating_add(u64::from(count));
            Ok(Answer::Done)
        }
        Err(fault) => {
            let before = given.saturating_mul(4);
            Err(LiveFault::Pcm(before.saturating_add(fault.written)))
        }
    }
}
