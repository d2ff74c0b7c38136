//! Notes, each once.
ghost use Rattle.std.specs.Prelude.{◌≡◌, ◌||◌, true, IfOk, OnOk};
ghost use Rattle.script_notes.specs.Notes.{Numbers};
ghost use Rattle.plan_edits.specs.Playing.{is_like, is_among, HaveLikeNotes};

use script_notes::Note;
use sf_base::OutOfMemory;
use std::alloc::Global;

/// The notes of a list, of those with the same preset, key and velocity only one.
pub(crate) fn distinct(alloc: Global, notes: &[Note]) -> Result<Vec<Note>, OutOfMemory>
    ensures { IfOk result (λ distinct. HaveLikeNotes distinct.items notes.now) }
{
    let mut sorted = Vec::from_slice(alloc, notes)?;
    sorted.sort_by_key(|note| key_of(note))?;
    let mut distinct = Vec::new(alloc);
    for note in sorted.as_slice() {
        push_new(&mut distinct, note)?;
    }
    Ok(distinct)
}

// The numbers of a note's preset, its key and its velocity, as one number.
fn key_of(note: &Note) -> u64 {
    let preset = u64::from(note.bank()) * 65536 + u64::from(note.number());
    let pitch = u64::from(note.key()) * 256 + u64::from(note.velocity());
    preset * 65536 + pitch
}

// Adds a note, unless the last one is like it.
fn push_new(distinct: &mut Vec<Note>, note: &Note) -> Result<(), OutOfMemory>
    ensures { OnOk result ((n : Numbers) → is_among distinct.new.items n ≡ (is_among distinct.old.items n || is_like n note.now)) }
{
    if is_last(distinct.as_slice(), note) {
        return Ok(());
    }
    distinct.push(*note)?;
    Ok(())
}

fn is_last(notes: &[Note], note: &Note) -> bool
    ensures { result ≡ true → is_among notes.now note.now ≡ true }
{
    match notes.last() {
        Some(last) => is_like(last, note),
        None => false,
    }
}

fn is_like(a: &Note, b: &Note) -> bool
    ensures { result ≡ is_like b.now a.now }
{
    b.bank() == a.bank()
        && b.number() == a.number()
        && b.key() == a.key()
        && b.velocity() == a.velocity()
}
