//! The list `shdr`: the headers of the samples (SoundFont 2.04, section 7.10).
ghost use Rattle.std.specs.Prelude.{◌≡◌, ◌+◌, ◌*◌, ◌<◌, ◌≤◌, ◌%◌, ◌^◌, length, flat_map};
ghost use Rattle.base_outputs.specs.Output.{Puts};
ghost use Rattle.hydra_records.specs.Encoding.{sample_head_bytes};
ghost use Rattle.bank_parts.specs.Valid.{IsLoop, IsValid};
ghost use Rattle.bank_format.specs.Ids.{SHDR};
ghost use Rattle.bank_format.specs.Tables.{tables_of, sample_head, kind_word, link_word};
ghost use Rattle.sf_writer.specs.Lists.{table_bytes};

use crate::terminals::sample_end;
use bank_core::{Bank, Kind, Sample};
use base_outputs::Output;
use hydra_records::{Encoded, SampleHead};
use riff_chunks::ChunkWriter;
use sf_base::limits::ZERO_POINTS;
use std::io::Write;

// Puts the list `shdr`.
pub(crate) fn put_shdr<W: Write>(output: &mut Output<'_, W>, bank: &Bank<'_>, size: u32)
    requires { size ≡ length (flat_map sample_head_bytes (tables_of bank.now).shdr) }
    ensures { Puts W.contents output.old output.new
        (table_bytes SHDR sample_head_bytes (tables_of bank.now).shdr) }
{
    output.head(*b"shdr", size);
    put_heads(output, bank);
}

// Puts the headers: each sample starts after the points and zero points of the one before it.
fn put_heads<W: Write>(output: &mut Output<'_, W>, bank: &Bank<'_>)
    ensures puts { Puts W.contents output.old output.new
        (flat_map sample_head_bytes (tables_of bank.now).shdr) }
    ensures valid { IsValid bank.now }
{
    let samples = bank.samples();
    let mut start = 0;
    for sample in samples {
        let head = sample_head(start, sample);
        output.put(&head.put());
        start = head.end + ZERO_POINTS as u32;
    }
    output.put(&sample_end().put());
}

// The header of a sample whose first point has index `start`.
fn sample_head(start: u32, sample: &Sample<'_>) -> SampleHead
    requires points { start + length sample.now.points < 2 ^ 32 }
    requires looped { IsLoop (length sample.now.points) sample.now.looped }
    ensures { result ≡ sample_head start sample.now }
{
    let (loop_start, loop_end) = sample.looped.unwrap_or((0, 0));
    SampleHead {
        name: sample.name.filled(),
        start,
        end: start + sample.points.len() as u32,
        loop_start: start + loop_start,
        loop_end: start + loop_end,
        rate: sample.rate,
        key: sample.key,
        correction: sample.correction,
        link: link_word(sample.kind),
        kind: kind_word(sample.kind),
    }
}

// `sfSampleType`.
fn kind_word(kind: Kind) -> u16
    ensures { result ≡ kind_word kind }
{
    match kind {
        Kind::Mono => 1,
        Kind::Right(_) => 2,
        Kind::Left(_) => 4,
        Kind::Linked(_) => 8,
    }
}

// `wSampleLink`: 0 for a mono sample.
fn link_word(kind: Kind) -> u16
    ensures { result ≡ link_word kind }
{
    match kind {
        Kind::Mono => 0,
        Kind::Right(link) | Kind::Left(link) | Kind::Linked(link) => link,
    }
}
