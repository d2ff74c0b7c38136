//! The pieces of a picture's text: XML, with names escaped.
ghost use Rattle.std.specs.Prelude.{◌≡◌};
ghost use Rattle.std.specs.List.{flat_map};
ghost use Rattle.base_outputs.specs.Output.{Puts};
ghost use Rattle.show_zone_map.specs.declared.marks.Mark.TheVariants.{Text, Number, Name};
ghost use Rattle.show_zone_map.specs.Marks.{shown, mark_text, marks_text};

use base_outputs::Output;
use itoa::Buffer;
use sf_base::BorrowedBytes;
use std::io::Write;

/// A piece of a picture's text.
#[derive(Drop)]
pub enum Mark<'a> {
    /// A text, unchanged.
    Text(BorrowedBytes<'a>),
    /// A number in decimal.
    Number(u32),
    /// Any bytes, as XML text: `&`, `<` and `>` as entities, and bytes other than printable ASCII as U+FFFD.
    Name(BorrowedBytes<'a>),
}

/// Returns a text as a piece.
pub fn text(bytes: &[u8]) -> Mark<'_>
    ensures { result ≡ Text bytes.now }
{
    Mark::Text(BorrowedBytes::new(bytes))
}

/// Returns a number as a piece.
pub fn number<'a>(number: u32) -> Mark<'a>
    ensures { result ≡ Number number }
{
    Mark::Number(number)
}

/// Returns a name, of any bytes, as a piece.
pub fn name(bytes: &[u8]) -> Mark<'_>
    ensures { result ≡ Name bytes.now }
{
    Mark::Name(BorrowedBytes::new(bytes))
}

/// Writes pieces, one after another.
pub fn put_marks<W: Write>(marks: &[Mark<'_>], output: &mut Output<'_, W>)
    ensures { Puts W.contents output.old output.new (marks_text marks.now) }
{
    for mark in marks {
        put_mark(mark, output);
    }
}

#[tactic(auto, unfolding(crate::specs::Marks::mark_text))]
fn put_mark<W: Write>(mark: &Mark<'_>, output: &mut Output<'_, W>)
    ensures { Puts W.contents output.old output.new (mark_text mark.now) }
{
    match mark {
        Mark::Text(text) => output.put(text.bytes()),
        Mark::Number(number) => {
            let mut digits = Buffer::new();
            output.put(digits.format(*number).as_bytes());
        }
        Mark::Name(name) => put_name(name.bytes(), output),
    }
}

fn put_name<W: Write>(name: &[u8], output: &mut Output<'_, W>)
    ensures { Puts W.contents output.old output.new (flat_map shown name.now) }
{
    for byte in name {
        put_shown(*byte, output);
    }
}

// Writes a byte of a name as XML text: markup characters as entities, and bytes other than printable ASCII as the
// replacement character.
#[tactic(auto, unfolding(crate::specs::Marks::shown))]
fn put_shown<W: Write>(byte: u8, output: &mut Output<'_, W>)
    ensures { Puts W.contents output.old output.new (shown byte) }
{
    match byte {
        b'&' => output.put(b"&amp;"),
        b'<' => output.put(b"&lt;"),
        b'>' => output.put(b"&gt;"),
        0x20..=0x7e => output.put(&[byte]),
        _ => output.put(b"&#65533;"),
    }
}
