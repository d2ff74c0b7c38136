//! The forms that edit a sample's points, loop, kind and tuning.
ghost use Rattle.std.specs.Prelude.{◌≡◌, ℕ, codes};
ghost use Rattle.std.specs.List.{flat_map};
ghost use Rattle.base_outputs.specs.Output.{Puts};
ghost use Rattle.script_tokens.specs.Printing.{spaced};
ghost use Rattle.script_grammar.specs.Memory.{ReadsOrOutOfMemory};
ghost use Rattle.script_grammar.specs.Operands.{pieces_of};
ghost use Rattle.edit_forms.specs.declared.points.PointStep.TheVariants.{Trim, Extend, SetLoop, SetKind, SetTune};
ghost use Rattle.script_steps.specs.Forms.{form_in, ReadsForm, ReadsWithoutAllocation};
ghost use Rattle.script_steps.specs.Members.{place};
ghost use Rattle.script_steps.specs.Points.{forms, printed, trim, extend, set_loop, set_kind, set_tune};

use crate::by_word::by_word;
use crate::members::put_number;
use bank_parts::Kind;
use base_outputs::Output;
use edit_forms::{PointStep, Step};
use sample_view::Points;
use script_grammar::{kind, looped, points, put_kind, put_loop, put_points, put_tune, tune};
use script_tokens::{Cursor, LineFault, Piece, put_pieces};
use sf_base::Failure;
use std::alloc::Global;
use std::io::Write;

// ---- read

/// Reads the operands of a step after its word; `None` if the word names none of these forms.
#[tactic(auto, unfolding(crate::specs::Points::forms, crate::specs::Forms::ReadsForm))]
pub(crate) fn point_step<'p>(
    word: &[u8],
    alloc: Global,
    line: &mut Cursor<'_, 'p>,
) -> Option<Result<Step<'p>, Failure<LineFault>>>
    ensures { ReadsForm (form_in forms word.now) line.old line.new result }
{
    by_word!(word,
        b"trim" => trim(line),
        b"extend" => extend(alloc, line),
        b"set-loop" => set_loop(line),
        b"set-kind" => set_kind(line),
        b"set-tune" => set_tune(line),
    )
}

// `S F B`
#[tactic(auto, unfolding(crate::specs::Points::trim))]
fn trim<'p>(line: &mut Cursor<'_, 'p>) -> Result<Step<'p>, Failure<LineFault>>
    ensures { ReadsWithoutAllocation trim line.old line.new result }
{
    let sample = line.number(u32::MAX)?;
    let front = line.number(u32::MAX)?;
    let back = line.number(u32::MAX)?;
    Ok(Step::Points(sample, PointStep::Trim { front, back }))
}

// `S POINTS POINTS`
#[tactic(auto, unfolding(crate::specs::Points::extend))]
fn extend<'p>(alloc: Global, line: &mut Cursor<'_, 'p>) -> Result<Step<'p>, Failure<LineFault>>
    ensures { ReadsOrOutOfMemory (λ s. s) extend line.old line.new result }
{
    let sample = line.number(u32::MAX)?;
    let front = points(alloc, line)?;
    let back = points(alloc, line)?;
    Ok(Step::Points(sample, PointStep::Extend { front, back }))
}

// `S LOOP`
#[tactic(auto, unfolding(crate::specs::Points::set_loop))]
fn set_loop<'p>(line: &mut Cursor<'_, 'p>) -> Result<Step<'p>, Failure<LineFault>>
    ensures { ReadsWithoutAllocation set_loop line.old line.new result }
{
    let sample = line.number(u32::MAX)?;
    let looped = looped(line)?;
    Ok(Step::Points(sample, PointStep::SetLoop { looped }))
}

// `S KIND`
#[tactic(auto, unfolding(crate::specs::Points::set_kind))]
fn set_kind<'p>(line: &mut Cursor<'_, 'p>) -> Result<Step<'p>, Failure<LineFault>>
    ensures { ReadsWithoutAllocation set_kind line.old line.new result }
{
    let sample = line.number(u32::MAX)?;
    let kind = kind(line)?;
    Ok(Step::Points(sample, PointStep::SetKind { kind }))
}

// `S RATE KEY CORR`
#[tactic(auto, unfolding(crate::specs::Points::set_tune))]
fn set_tune<'p>(line: &mut Cursor<'_, 'p>) -> Result<Step<'p>, Failure<LineFault>>
    ensures { ReadsWithoutAllocation set_tune line.old line.new result }
{
    let sample = line.number(u32::MAX)?;
    let (rate, key, correction) = tune(line)?;
    Ok(Step::Points(
        sample,
        PointStep::SetTune {
            rate,
            key,
            correction,
        },
    ))
}

// ---- printed

/// The word of a step's form.
pub(crate) fn point_word(step: &PointStep<'_>) -> &'static [u8]
    ensures { (sample : ℕ) → result.now ≡ (printed sample step.now).0 }
{
    match step {
        PointStep::Trim { .. } => b"trim",
        PointStep::Extend { .. } => b"extend",
        PointStep::SetLoop { .. } => b"set-loop",
        PointStep::SetKind { .. } => b"set-kind",
        PointStep::SetTune { .. } => b"set-tune",
    }
}

pub(crate) fn put_point_step<W: Write>(
    sample: u32,
    step: &PointStep<'_>,
    output: &mut Output<'_, W>,
)
    ensures { Puts W.contents output.old output.new (flat_map spaced (pieces_of (printed sample step.now).1)) }
{
    match step {
        PointStep::Trim { front, back } => put_trim(sample, *front, *back, output),
        PointStep::Extend { front, back } => put_extend(sample, front, back, output),
        PointStep::SetLoop { looped } => put_set_loop(sample, *looped, output),
        PointStep::SetKind { kind } => put_set_kind(sample, *kind, output),
        PointStep::SetTune {
            rate,
            key,
            correction,
        } => put_set_tune(sample, *rate, *key, *correction, output),
    }
}

fn put_trim<W: Write>(sample: u32, front: u32, back: u32, output: &mut Output<'_, W>)
    ensures { Puts W.contents output.old output.new (flat_map spaced (pieces_of (printed sample (Trim front back)).1)) }
{
    let sample = Piece::Number(u64::from(sample));
    let front = Piece::Number(u64::from(front));
    let back = Piece::Number(u64::from(back));
    put_pieces(&[sample, front, back], output);
}

#[tactic(auto, using(script_grammar::proofs::PutLaws::puts_both))]
fn put_extend<W: Write>(
    sample: u32,
    front: &Points<'_>,
    back: &Points<'_>,
    output: &mut Output<'_, W>,
)
    ensures { Puts W.contents output.old output.new (flat_map spaced (pieces_of (printed sample (Extend front.now back.now)).1)) }
{
    put_number(sample, output);
    put_points(front, output);
    put_points(back, output);
}

#[tactic(auto, using(script_grammar::proofs::PutLaws::puts_both))]
fn put_set_loop<W: Write>(sample: u32, looped: Option<(u32, u32)>, output: &mut Output<'_, W>)
    ensures { Puts W.contents output.old output.new (flat_map spaced (pieces_of (printed sample (SetLoop looped)).1)) }
{
    put_number(sample, output);
    put_loop(looped, output);
}

#[tactic(auto, using(script_grammar::proofs::PutLaws::puts_both))]
fn put_set_kind<W: Write>(sample: u32, kind: Kind, output: &mut Output<'_, W>)
    ensures { Puts W.contents output.old output.new (flat_map spaced (pieces_of (printed sample (SetKind kind)).1)) }
{
    put_number(sample, output);
    put_kind(kind, output);
}

#[tactic(auto, using(script_grammar::proofs::PutLaws::puts_both))]
fn put_set_tune<W: Write>(
    sample: u32,
    rate: u32,
    key: u8,
    correction: i8,
    output: &mut Output<'_, W>,
)
    ensures { Puts W.contents output.old output.new (flat_map spaced (pieces_of (printed sample (SetTune rate key correction)).1)) }
{
    put_number(sample, output);
    put_tune(rate, key, correction, output);
}
