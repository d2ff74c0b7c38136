//! Samples.
ghost use Rattle.std.specs.Prelude.{◌≡◌};
ghost use Rattle.std.specs.List.{flat_map};
ghost use Rattle.base_outputs.specs.Output.{Puts};
ghost use Rattle.show_page.specs.declared.json.Field.TheVariants.{Signed};
ghost use Rattle.show_page.specs.Json.{more};
ghost use Rattle.show_page.specs.Samples.{kind_fields, loop_fields, sample_fields, sample_text};

use crate::columns::put_columns;
use crate::json::{Field, number, put_more, put_opened, text};
use bank_core::{Kind, Sample};
use base_outputs::Output;
use std::io::Write;

// Writes a line for each sample.
pub(crate) fn put_samples<W: Write>(samples: &[Sample<'_>], output: &mut Output<'_, W>)
    ensures { Puts W.contents output.old output.new (flat_map sample_text samples.now) }
{
    for sample in samples {
        put_sample(sample, output);
    }
}

// Writes the line of a sample.
fn put_sample<W: Write>(sample: &Sample<'_>, output: &mut Output<'_, W>)
    ensures { Puts W.contents output.old output.new (sample_text sample.now) }
{
    output.put(b"\n,");
    put_opened(&text(sample.name.bytes()), output);
    put_fields(sample, output);
    output.put(b",\"");
    put_columns(&sample.points, output);
    output.put(b"\"]");
}

// Writes the fields of a sample after its name.
fn put_fields<W: Write>(sample: &Sample<'_>, output: &mut Output<'_, W>)
    ensures { Puts W.contents output.old output.new (more (sample_fields sample.now)) }
{
    let (kind, link) = kind_fields(sample.kind);
    let (start, end) = loop_fields(sample.looped);
    let fields = [
        number(sample.points.len() as u64),
        number(u64::from(sample.rate)),
        number(u64::from(sample.key)),
        correction_field(sample.correction),
        number(kind),
        number(u64::from(link)),
        number(u64::from(start)),
        number(u64::from(end)),
    ];
    put_more(&fields, output);
}

// A correction as a field.
fn correction_field<'a>(correction: i8) -> Field<'a>
    ensures { result ≡ Signed correction }
{
    Field::Signed(i64::from(correction))
}

// The number of a kind in a file, and the sample that it links to.
fn kind_fields(kind: Kind) -> (u64, u16)
    ensures { result ≡ kind_fields kind }
{
    match kind {
        Kind::Mono => (1, 0),
        Kind::Right(link) => (2, link),
        Kind::Left(link) => (4, link),
        Kind::Linked(link) => (8, link),
    }
}

// The ends of a loop; 0 and 0 if there is none.
fn loop_fields(looped: Option<(u32, u32)>) -> (u32, u32)
    ensures { result ≡ loop_fields looped }
{
    looped.unwrap_or((0, 0))
}
