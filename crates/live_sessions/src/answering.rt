//! The text that answers a line.
ghost use Rattle.std.specs.Prelude.{◌≡◌, ◌++◌, IfOk};
ghost use Rattle.base_outputs.specs.Output.{Puts};
ghost use Rattle.live_lines.specs.Answers.{answer_text};
ghost use Rattle.live_sessions.specs.AnswerTexts.{preamble, next_of, IsWritten};

use crate::fault::LiveFault;
use crate::live::LiveState;
use crate::requests::{Next, RequestKind, next_of};
use bank_format::Counts;
use base_outputs::Output;
use base_texts::{Text, write_text};
use live_lines::{Answer, HELP, put_answer};
use show_listing::Listing;
use std::io::Write;

/// The text that answers a line: what its kind writes first, then the answer.
#[derive(Clone, Copy)]
struct AnswerText<'t, 'a, 'b> {
    live: &'t LiveState<'a>,
    counts: &'t Counts,
    kind: RequestKind,
    answer: &'t Answer<'b>,
}

impl Text for AnswerText<'_, '_, '_> {
    ghost bytes = { λ text. preamble text.counts.now text.live.now text.kind ++ answer_text text.answer.now };

    fn put<W: Write>(&self, output: &mut Output<'_, W>) {
        put_preamble(self.live, self.counts, self.kind, output);
        put_answer(self.answer, output);
    }
}

/// Writes the text that answers a line, flushes, and returns whether the session continues. Allocates nothing.
pub(crate) fn write_answer<A: Write>(
    live: &LiveState<'_>,
    counts: &Counts,
    kind: RequestKind,
    answer: &Answer<'_>,
    answers: &mut A,
) -> Result<Next, LiveFault>
    ensures is_written { IsWritten (A.contents answers.old) (A.contents answers.new) (preamble counts.now live.now kind ++ answer_text answer.now) result }
    ensures next { IfOk result (λ next. next ≡ next_of kind) }
{
    let text = AnswerText {
        live,
        counts,
        kind,
        answer,
    };
    match write_text(&text, answers) {
        Ok(()) => Ok(next_of(kind)),
        Err(fault) => Err(LiveFault::Answers(fault.written)),
    }
}

// Puts the text before an answer.
#[tactic(auto, using(crate::proofs::WrittenAnswers::bank_is_listed, base_outputs::proofs::OutputLaws::puts_nothing))]
fn put_preamble<A: Write>(
    live: &LiveState<'_>,
    counts: &Counts,
    kind: RequestKind,
    output: &mut Output<'_, A>,
)
    ensures { Puts A.contents output.old output.new (preamble counts.now live.now kind) }
{
    match kind {
        RequestKind::Show => Listing::plain(live.session.bank(), counts).put(output),
        RequestKind::Help => output.put(HELP.as_bytes()),
        RequestKind::Plain => {}
        RequestKind::Quit => {}
    }
}
