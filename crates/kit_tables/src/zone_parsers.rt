//! Reads a zone from what follows the file in a line.
ghost use Rattle.std.specs.Prelude.{◌≡◌, [], MatchResult};
ghost use Rattle.script_tokens.specs.Tokens.{tokens_of};
ghost use Rattle.script_tokens.specs.TokenValue.{cursor_over, values_over};
ghost use Rattle.script_tokens.specs.Parsers.{Reads};
ghost use Rattle.kit_tables.specs.ZoneParsers.{zone, keys, single_key, range_with, velocities, is_without_velocities};
ghost use Rattle.kit_tables.specs.ZoneParsers.{velocity_range, root, pan, pan_value, class, class_value};

use crate::limits::{FARTHEST_PAN, HIGHEST_CLASS, HIGHEST_KEY};
use crate::zone::KitZone;
use generators::Range;
use script_tokens::{Cursor, LineFault};

// Reads a zone, to the line's end. `line` has no pool, as no literal is part of a zone.
#[tactic(auto, unfolding(crate::specs::ZoneParsers::zone))]
pub(crate) fn zone(line: &[u8]) -> Result<KitZone, LineFault>
    ensures { MatchResult result (λ z. zone (values_over [] (tokens_of line.now)) ≡ Ok (record { value = z; rest = [] })) (λ e. zone (values_over [] (tokens_of line.now)) ≡ Err e) }
{
    let mut cursor = Cursor::of(line, &[]);
    let keys = keys(&mut cursor, line)?;
    let velocities = velocities(&mut cursor)?;
    let root = root(&mut cursor)?;
    let pan = pan(&mut cursor)?;
    let class = class(&mut cursor)?;
    cursor.end()?;
    Ok(KitZone {
        keys,
        velocities,
        root,
        pan,
        class,
    })
}

// Reads the keys at the start of a line: a range or one key. A failed `range` has consumed the token, so that the
// line begins again for the key.
#[tactic(auto, unfolding(crate::specs::ZoneParsers::keys))]
fn keys<'t>(cursor: &mut Cursor<'t, '_>, line: &'t [u8]) -> Result<Range, LineFault>
    requires { cursor.old ≡ cursor_over [] (tokens_of line.now) }
    ensures { Reads (λ r. r) keys cursor.old cursor.new result }
{
    let (low, high) = match cursor.range() {
        Ok(ends) => ends,
        Err(_) => {
            *cursor = Cursor::of(line, &[]);
            single_key(cursor)?
        }
    };
    range_with(low, high).ok_or(LineFault::Number)
}

// Reads one key, which is both ends.
#[tactic(auto, unfolding(crate::specs::ZoneParsers::single_key))]
fn single_key(cursor: &mut Cursor<'_, '_>) -> Result<(u8, u8), LineFault>
    ensures { Reads (λ r. r) single_key cursor.old cursor.new result }
{
    let key = cursor.number(u32::from(HIGHEST_KEY))? as u8;
    Ok((key, key))
}

// The range with these ends, if they are in order and at most 127.
#[tactic(auto, unfolding(crate::specs::ZoneParsers::range_with))]
fn range_with(low: u8, high: u8) -> Option<Range>
    ensures { result ≡ range_with (low, high) }
{
    let range = Range { low, high };
    if range.is_valid() { Some(range) } else { None }
}

// Reads the velocities, or returns all where the line has none.
#[tactic(auto, unfolding(crate::specs::ZoneParsers::velocities))]
fn velocities(cursor: &mut Cursor<'_, '_>) -> Result<Range, LineFault>
    ensures { Reads (λ r. r) velocities cursor.old cursor.new result }
{
    if is_without_velocities(cursor) {
        return Ok(KitZone::whole().velocities);
    }
    velocity_range(cursor)
}

// Whether no velocities come next: the line ends, or an optional part begins.
fn is_without_velocities(cursor: &Cursor<'_, '_>) -> bool
    ensures { result ≡ is_without_velocities cursor.now.token_values }
{
    cursor.is_empty()
        || cursor.is_next(b"root")
        || cursor.is_next(b"pan")
        || cursor.is_next(b"class")
}

// Reads a range of velocities.
#[tactic(auto, unfolding(crate::specs::ZoneParsers::velocity_range))]
fn velocity_range(cursor: &mut Cursor<'_, '_>) -> Result<Range, LineFault>
    ensures { Reads (λ r. r) velocity_range cursor.old cursor.new result }
{
    let (low, high) = cursor.range()?;
    range_with(low, high).ok_or(LineFault::Number)
}

// Reads the root key, if it comes next.
#[tactic(auto, unfolding(crate::specs::ZoneParsers::root))]
fn root(cursor: &mut Cursor<'_, '_>) -> Result<Option<u8>, LineFault>
    ensures { Reads (λ r. r) root cursor.old cursor.new result }
{
    if !cursor.is_next(b"root") {
        return Ok(None);
    }
    cursor.word()?;
    let key = cursor.number(u32::from(HIGHEST_KEY))?;
    Ok(Some(key as u8))
}

// Reads the pan, if it comes next.
#[tactic(auto, unfolding(crate::specs::ZoneParsers::pan))]
fn pan(cursor: &mut Cursor<'_, '_>) -> Result<Option<i16>, LineFault>
    ensures { Reads (λ r. r) pan cursor.old cursor.new result }
{
    if !cursor.is_next(b"pan") {
        return Ok(None);
    }
    cursor.word()?;
    let pan = pan_value(cursor)?;
    Ok(Some(pan))
}

// Reads a number from -500 to 500.
#[tactic(auto, unfolding(crate::specs::ZoneParsers::pan_value))]
fn pan_value(cursor: &mut Cursor<'_, '_>) -> Result<i16, LineFault>
    ensures { Reads (λ z. z) pan_value cursor.old cursor.new result }
{
    let pan = cursor.signed(FARTHEST_PAN)?;
    if pan < -i32::from(FARTHEST_PAN) {
        return Err(LineFault::Number);
    }
    Ok(pan as i16)
}

// Reads the exclusive class, if it comes next.
#[tactic(auto, unfolding(crate::specs::ZoneParsers::class))]
fn class(cursor: &mut Cursor<'_, '_>) -> Result<Option<u8>, LineFault>
    ensures { Reads (λ r. r) class cursor.old cursor.new result }
{
    if !cursor.is_next(b"class") {
        return Ok(None);
    }
    cursor.word()?;
    let class = class_value(cursor)?;
    Ok(Some(class))
}

// Reads a number from 1 to 127.
#[tactic(auto, unfolding(crate::specs::ZoneParsers::class_value))]
fn class_value(cursor: &mut Cursor<'_, '_>) -> Result<u8, LineFault>
    ensures { Reads (λ n. n) class_value cursor.old cursor.new result }
{
    let class = cursor.number(u32::from(HIGHEST_CLASS))?;
    if class == 0 {
        return Err(LineFault::Number);
    }
    Ok(class as u8)
}
