//! What lines say of findings.
ghost use Rattle.std.specs.Prelude.{◌≡◌};
ghost use Rattle.base_outputs.specs.Output.{Puts};
ghost use Rattle.show_findings.specs.Messages.{amount_text, phrase_text, message};

use crate::finding::Finding;
use crate::texts::{put_number, put_signed};
use base_outputs::Output;
use std::io::Write;

// A number in a phrase, if there is one.
#[derive(Clone, Copy)]
pub(crate) enum Amount {
    Nothing,
    Number(u32),
    Signed(i32),
}

// A text with up to two numbers.
#[derive(Clone, Copy)]
pub(crate) struct Phrase<'a> {
    start: &'a [u8],
    first: Amount,
    middle: &'a [u8],
    second: Amount,
    end: &'a [u8],
}

/// Writes what is found.
pub fn put_message<W: Write>(finding: Finding, output: &mut Output<'_, W>)
    ensures { Puts W.contents output.old output.new (message finding) }
{
    put_phrase(phrase_of(finding), output);
}

fn put_phrase<W: Write>(phrase: Phrase<'_>, output: &mut Output<'_, W>)
    ensures { Puts W.contents output.old output.new (phrase_text phrase.entry) }
{
    output.put(phrase.start);
    put_amount(phrase.first, output);
    output.put(phrase.middle);
    put_amount(phrase.second, output);
    output.put(phrase.end);
}

// Writes a number, if there is one.
#[tactic(auto, using(base_outputs::proofs::OutputLaws::puts_nothing))]
fn put_amount<W: Write>(amount: Amount, output: &mut Output<'_, W>)
    ensures { Puts W.contents output.old output.new (amount_text amount) }
{
    match amount {
        Amount::Nothing => {}
        Amount::Number(number) => put_number(number, output),
        Amount::Signed(number) => put_signed(number, output),
    }
}

#[tactic(auto, unfolding(crate::specs::Messages::message))]
fn phrase_of<'a>(finding: Finding) -> Phrase<'a>
    ensures { phrase_text result ≡ message finding }
{
    match finding {
        Finding::HiddenPreset { by, .. } => Phrase {
            start: b": hidden by preset ",
            first: Amount::Number(by),
            middle: b", which has the same bank and number",
            second: Amount::Nothing,
            end: b"",
        },
        Finding::UnselectableZone { .. } => Phrase {
            start: b": no note selects this zone",
            first: Amount::Nothing,
            middle: b"",
            second: Amount::Nothing,
            end: b"",
        },
        Finding::UnusedInstrument { .. } | Finding::UnusedSample { .. } => Phrase {
            start: b": unused",
            first: Amount::Nothing,
            middle: b"",
            second: Amount::Nothing,
            end: b"",
        },
        Finding::SilentKeys { low, high, .. } => Phrase {
            start: b": notes with the keys from ",
            first: Amount::Number(u32::from(low)),
            middle: b" to ",
            second: Amount::Number(u32::from(high)),
            end: b" select nothing",
        },
        Finding::OverriddenGenerator { operator, .. } => Phrase {
            start: b": generator ",
            first: Amount::Number(u32::from(operator)),
            middle: b" is set by each zone too",
            second: Amount::Nothing,
            end: b"",
        },
        Finding::OutsideRange {
            operator,
            amount,
            ..
        } => Phrase {
            start: b": generator ",
            first: Amount::Number(u32::from(operator)),
            middle: b" is outside its range: ",
            second: Amount::Signed(i32::from(amount.cast_signed())),
            end: b"",
        },
        Finding::OneSidedLink { other, .. } => Phrase {
            start: b": linked with sample ",
            first: Amount::Number(other),
            middle: b", which is not linked with it",
            second: Amount::Nothing,
            end: b"",
        },
        Finding::ShortLoop { points, .. } => Phrase {
            start: b": short loop (points: ",
            first: Amount::Number(points),
            middle: b")",
            second: Amount::Nothing,
            end: b"",
        },
        Finding::ClickingLoop { jump, step, .. } => Phrase {
            start: b": the loop may click, since it jumps by ",
            first: Amount::Number(jump),
            middle: b", and by at most ",
            second: Amount::Number(step),
            end: b" around it",
        },
        Finding::UnusualRate { rate, .. } => Phrase {
            start: b": unusual rate ",
            first: Amount::Number(rate),
            middle: b"",
            second: Amount::Nothing,
            end: b"",
        },
        Finding::ClippedSample { points, .. } => Phrase {
            start: b": clipped (points: ",
            first: Amount::Number(points),
            middle: b")",
            second: Amount::Nothing,
            end: b"",
        },
        Finding::SilentSample { .. } => Phrase {
            start: b": all points are 0",
            first: Amount::Nothing,
            middle: b"",
            second: Amount::Nothing,
            end: b"",
        },
        Finding::OffsetSample { mean, .. } => Phrase {
            start: b": the mean of its points is ",
            first: Amount::Signed(mean),
            middle: b"",
            second: Amount::Nothing,
            end: b"",
        },
        Finding::EqualSample { to, .. } => Phrase {
            start: b": equal to sample ",
            first: Amount::Number(to),
            middle: b", but for name and link",
            second: Amount::Nothing,
            end: b"",
        },
    }
}
