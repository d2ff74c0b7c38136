//! The `smpl` chunk of a WAVE file: loop and pitch.
ghost use Rattle.std.specs.Prelude.{◌≡◌, ◌+◌, ◌*◌, ◌≤◌, length, Some};
ghost use Rattle.std.specs.Option.{option_copied, option_map};
ghost use Rattle.bank_format.specs.FaultChecks.{Passes};
ghost use Rattle.wave_file.specs.Recordings.{loop_count_in, forward_loop, ends_of, unity_note_in, data_in, is_stored, stored_in, cents_in, nearest, pitch_in, sampler_in, with_key};
ghost use Rattle.wave_file.specs.ReadChecks.{has_loops, loop_checks, chunk_checks, sampler_checks};

use crate::fault::WaveFault;
use crate::recording::{Pitch, Sampler};
use crate::sampler_loop::SamplerLoop;
use crate::sampler_pitch::{pitch_fraction, unity_note};
use hydra_records::Table;
use sf_base::{part_of, u32_at};

/// The size of the header before the loops, in bytes.
const HEAD_SIZE: usize = 36;

/// The size of a loop, in bytes.
const LOOP_SIZE: usize = 24;

/// The size of the sampler data in which sfbank stores a sample's key and correction, in bytes.
const STORED_SIZE: usize = 8;

/// The type of a forward loop.
const FORWARDS: u32 = 0;

/// The highest key.
const HIGHEST_KEY: u32 = 127;

/// Reads the `smpl` chunk of a recording of `frames` frames. Without one there is no pitch and no loop.
pub(crate) fn read_sampler(chunk: Option<&[u8]>, frames: usize) -> Result<Sampler, WaveFault>
    ensures { Passes (λ s. s) result (sampler_checks frames (option_copied chunk.entry)) (sampler_in (option_copied chunk.entry)) }
{
    match chunk {
        None => Ok(Sampler {
            pitch: None,
            looped: None,
        }),
        Some(chunk) => read_chunk(chunk, frames),
    }
}

/// With this key and no correction, if there is one.
pub(crate) fn with_key(key: Option<u8>, sampler: Sampler) -> Sampler
    ensures { result ≡ with_key key sampler }
{
    match key {
        Some(key) => Sampler {
            pitch: Some(Pitch { key, correction: 0 }),
            looped: sampler.looped,
        },
        None => sampler,
    }
}

#[tactic(auto, unfolding(crate::specs::ReadChecks::chunk_checks))]
fn read_chunk(chunk: &[u8], frames: usize) -> Result<Sampler, WaveFault>
    ensures { Passes (λ s. s) result (chunk_checks frames chunk.now)
        (record { pitch = Some (pitch_in chunk.now); looped = option_map ends_of (forward_loop chunk.now) }) }
{
    if !has_loops(chunk) {
        return Err(WaveFault::ShortSampler);
    }
    if u32_at(chunk, 12) > HIGHEST_KEY {
        return Err(WaveFault::UnityNote);
    }
    let looped = read_loop(forward_loop(chunk), frames)?;
    let pitch = Some(pitch_in(chunk));
    Ok(Sampler { pitch, looped })
}

// Whether the chunk holds its header and all its loops.
fn has_loops(chunk: &[u8]) -> bool
    ensures { result ≡ has_loops chunk.now }
{
    chunk.len() >= HEAD_SIZE && HEAD_SIZE + LOOP_SIZE * loop_count(chunk) <= chunk.len()
}

fn loop_count(chunk: &[u8]) -> usize
    requires { 36 ≤ length chunk.now }
    ensures value { result ≡ loop_count_in chunk.now }
    ensures bound { result ≤ 4294967295 }
{
    u32_at(chunk, 28) as usize
}

// The first forward loop.
fn forward_loop(chunk: &[u8]) -> Option<SamplerLoop>
    requires head { 36 ≤ length chunk.now }
    requires loops { 36 + 24 * loop_count_in chunk.now ≤ length chunk.now }
    ensures { result ≡ forward_loop chunk.now }
{
    let loops = part_of(chunk, HEAD_SIZE, LOOP_SIZE * loop_count(chunk));
    let table: Table<SamplerLoop> = Table::over(loops).unwrap();
    for found in table.iter() {
        if found.kind == FORWARDS {
            return Some(found);
        }
    }
    None
}

// The ends of a loop, which must lie within the frames.
fn read_loop(found: Option<SamplerLoop>, frames: usize) -> Result<Option<(u32, u32)>, WaveFault>
    ensures { Passes (λ looped. looped) result (loop_checks frames found) (option_map ends_of found) }
{
    let Some(found) = found else {
        return Ok(None);
    };
    if found.last < found.first || found.last == u32::MAX || frames <= found.last as usize {
        return Err(WaveFault::LoopOutside);
    }
    Ok(Some((found.first, found.last + 1)))
}

// The key and the correction that sfbank stored, else the nearest to the chunk's pitch.
fn pitch_in(chunk: &[u8]) -> Pitch
    requires head { 36 ≤ length chunk.now }
    requires note { unity_note_in chunk.now ≤ 127 }
    ensures { result ≡ pitch_in chunk.now }
{
    match stored_in(chunk) {
        Some(pitch) => pitch,
        None => nearest(u32_at(chunk, 12) as u8, cents_in(chunk)),
    }
}

// The key and the correction in the sampler data, if sfbank wrote the chunk.
fn stored_in(chunk: &[u8]) -> Option<Pitch>
    requires { 36 ≤ length chunk.now }
    ensures { result ≡ stored_in chunk.now }
{
    let bytes = data_in(chunk);
    if bytes.len() != STORED_SIZE {
        return None;
    }
    let pitch = Pitch {
        key: bytes[4],
        correction: bytes[5].cast_signed(),
    };
    if is_stored(chunk, pitch) {
        Some(pitch)
    } else {
        None
    }
}

// The sampler data, after the loops.
fn data_in(chunk: &[u8]) -> &[u8]
    requires { 36 ≤ length chunk.now }
    ensures { result.now ≡ data_in chunk.now }
{
    let offset = HEAD_SIZE + LOOP_SIZE * loop_count(chunk);
    part_of(chunk, offset, u32_at(chunk, 32) as usize)
}

// Whether the chunk is what sfbank writes for a sample of this pitch.
#[tactic(auto, unfolding(crate::specs::SampleWave::stored_pitch))]
fn is_stored(chunk: &[u8], pitch: Pitch) -> bool
    requires { 36 ≤ length chunk.now }
    ensures { result ≡ is_stored chunk.now pitch }
{
    let stored = [
        b's',
        b'f',
        b'b',
        b'k',
        pitch.key,
        pitch.correction.cast_unsigned(),
        0,
        0,
    ];
    data_in(chunk) == stored.as_slice()
        && u32_at(chunk, 12) == unity_note(pitch.key, pitch.correction)
        && u32_at(chunk, 16) == pitch_fraction(pitch.key, pitch.correction)
}

// The pitch fraction in cents, rounded to nearest.
fn cents_in(chunk: &[u8]) -> u8
    requires { 36 ≤ length chunk.now }
    ensures value { result ≡ cents_in chunk.now }
    ensures bound { result ≤ 100 }
{
    let fraction = u64::from(u32_at(chunk, 16));
    ((100 * fraction + (1 << 31)) >> 32) as u8
}

// The nearest key to a note and cents above it, at most 127, and the correction from it.
fn nearest(note: u8, cents: u8) -> Pitch
    requires note { note ≤ 127 }
    requires cents { cents ≤ 100 }
    ensures { result ≡ nearest note cents }
{
    if cents <= 50 || note == 127 {
        Pitch {
            key: note,
            correction: -(cents as i8),
        }
    } else {
        Pitch {
            key: note + 1,
            correction: (100 - cents) as i8,
        }
    }
}
