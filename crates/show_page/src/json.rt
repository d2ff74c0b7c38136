//! Lists of numbers and texts in JSON, for a `script` element of a page.
ghost use Rattle.std.specs.Prelude.{◌≡◌};
ghost use Rattle.std.specs.List.{flat_map};
ghost use Rattle.base_outputs.specs.Output.{Puts};
ghost use Rattle.show_page.specs.declared.json.Field.TheVariants.{Number, Signed, Text};
ghost use Rattle.show_page.specs.Json.{two_digits, character, quoted, field_text, next_text, more, opened, listed};

use base_outputs::Output;
use hex::encode_to_slice;
use itoa::Buffer;
use sf_base::BorrowedBytes;
use std::io::Write;

/// A number or a text.
#[derive(Drop)]
pub(crate) enum Field<'a> {
    Number(u64),
    Signed(i64),
    // Any bytes.
    Text(BorrowedBytes<'a>),
}

// A number as a field.
pub(crate) fn number<'a>(number: u64) -> Field<'a>
    ensures { result ≡ Number number }
{
    Field::Number(number)
}

// A signed number as a field.
pub(crate) fn signed<'a>(number: i16) -> Field<'a>
    ensures { result ≡ Signed number }
{
    Field::Signed(i64::from(number))
}

// A text as a field.
pub(crate) fn text(bytes: &[u8]) -> Field<'_>
    ensures { result ≡ Text bytes.now }
{
    Field::Text(BorrowedBytes::new(bytes))
}

// Writes a list of fields.
pub(crate) fn put_list<W: Write>(
    first: &Field<'_>,
    others: &[Field<'_>],
    output: &mut Output<'_, W>,
)
    ensures { Puts W.contents output.old output.new (listed first.now others.now) }
{
    put_opened(first, output);
    put_more(others, output);
    output.put(b"]");
}

// Writes the start of a list, with its first field.
pub(crate) fn put_opened<W: Write>(first: &Field<'_>, output: &mut Output<'_, W>)
    ensures { Puts W.contents output.old output.new (opened first.now) }
{
    output.put(b"[");
    put_field(first, output);
}

// Writes each field after a comma.
pub(crate) fn put_more<W: Write>(fields: &[Field<'_>], output: &mut Output<'_, W>)
    ensures { Puts W.contents output.old output.new (more fields.now) }
{
    for field in fields {
        put_next(field, output);
    }
}

// Writes a field after a comma.
pub(crate) fn put_next<W: Write>(field: &Field<'_>, output: &mut Output<'_, W>)
    ensures { Puts W.contents output.old output.new (next_text field.now) }
{
    output.put(b",");
    put_field(field, output);
}

#[tactic(auto, unfolding(crate::specs::Json::field_text))]
fn put_field<W: Write>(field: &Field<'_>, output: &mut Output<'_, W>)
    ensures { Puts W.contents output.old output.new (field_text field.now) }
{
    match field {
        Field::Number(number) => {
            let mut digits = Buffer::new();
            output.put(digits.format(*number).as_bytes());
        }
        Field::Signed(number) => {
            let mut digits = Buffer::new();
            output.put(digits.format(*number).as_bytes());
        }
        Field::Text(text) => put_quoted(text.bytes(), output),
    }
}

fn put_quoted<W: Write>(text: &[u8], output: &mut Output<'_, W>)
    ensures { Puts W.contents output.old output.new (quoted text.now) }
{
    output.put(b"\"");
    put_characters(text, output);
    output.put(b"\"");
}

fn put_characters<W: Write>(text: &[u8], output: &mut Output<'_, W>)
    ensures { Puts W.contents output.old output.new (flat_map character text.now) }
{
    for byte in text {
        put_character(*byte, output);
    }
}

// Writes a byte of a text: escaped where it would end the text or could be markup, itself if it is printable ASCII,
// else the replacement character.
#[tactic(auto, unfolding(crate::specs::Json::character))]
fn put_character<W: Write>(byte: u8, output: &mut Output<'_, W>)
    ensures { Puts W.contents output.old output.new (character byte) }
{
    match byte {
        b'\n' | b'\r' | b'"' | b'&' | b'<' | b'>' | b'\\' => {
            output.put(b"\\u00");
            put_hex(byte, output);
        }
        0x20..=0x7e => output.put(&[byte]),
        _ => output.put(b"\\ufffd"),
    }
}

// Writes a byte as two hex digits.
pub(crate) fn put_hex<W: Write>(byte: u8, output: &mut Output<'_, W>)
    ensures { Puts W.contents output.old output.new (two_digits byte) }
{
    let mut digits = [0; 2];
    encode_to_slice(&[byte], &mut digits).unwrap();
    output.put(&digits);
}
