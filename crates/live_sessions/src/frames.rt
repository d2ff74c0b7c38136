//! Renders and writes frames.
ghost use Rattle.std.specs.Prelude.{◌≡◌, ◌≤◌, ◌/◌, ◌%◌, length};
ghost use Rattle.std.specs.List.{flat_map};
ghost use Rattle.base_outputs.specs.Output.{Puts};
ghost use Rattle.base_outputs.specs.Writing as writing;
ghost use Rattle.mixer.specs.Events.{after_block, block};
ghost use Rattle.wave_file.specs.Wave.{sample_bytes};
ghost use Rattle.live_sessions.specs.Meters.{metered};

use crate::meter::Meter;
use base_outputs::{Output, WriteFault};
use base_progress::Progress;
use byteorder::{ByteOrder, LittleEndian};
use mixer::Player;
use std::io::Write;

/// The most frames that are rendered at a time.
const MOST_AT_ONCE: usize = 1024;

/// The samples of these frames, left and right in turn.
const BLOCK: usize = 2048;

/// Writes the next frames, each sample little-endian, flushes, and measures the frames. A fault has the number of bytes
/// written. Allocates nothing.
pub(crate) fn write_frames<P: Write, Q: Progress>(
    player: &mut Player<'_>,
    meter: &mut Meter,
    count: u32,
    pcm: &mut P,
    progress: &mut Q,
) -> Result<u64, WriteFault>
    ensures is_written { writing.Delivers (P.contents pcm.old) (P.contents pcm.new) (flat_map sample_bytes (block player.old count)) result }
    ensures played { player.new ≡ after_block player.old count }
    ensures measured { meter.new ≡ metered meter.old (block player.old count) }
{
    let mut output = Output::to(pcm);
    put_frames(player, meter, count, &mut output, progress);
    output.deliver()
}

// Puts the next frames in blocks.
fn put_frames<P: Write, Q: Progress>(
    player: &mut Player<'_>,
    meter: &mut Meter,
    count: u32,
    output: &mut Output<'_, P>,
    progress: &mut Q,
)
    ensures put { Puts P.contents output.old output.new (flat_map sample_bytes (block player.old count)) }
    ensures played { player.new ≡ after_block player.old count }
    ensures measured { meter.new ≡ metered meter.old (block player.old count) }
{
    let mut samples = [0; BLOCK];
    let mut left = count as usize;
    while left > 0 {
        let size = left.min(MOST_AT_ONCE);
        let samples = &mut samples[..2 * size];
        put_block(player, meter, samples, output, progress);
        left -= size;
    }
    // Only for its contract: a player without frames is unchanged.
    player.block(&mut []);
}

// Puts a block of at most 1,024 frames.
fn put_block<P: Write, Q: Progress>(
    player: &mut Player<'_>,
    meter: &mut Meter,
    samples: &mut [i16],
    output: &mut Output<'_, P>,
    progress: &mut Q,
)
    requires whole { length samples.old % 2 ≡ 0 }
    requires short { length samples.old ≤ BLOCK }
    ensures put { Puts P.contents output.old output.new (flat_map sample_bytes (block player.old (length samples.old / 2))) }
    ensures played { player.new ≡ after_block player.old (length samples.old / 2) }
    ensures measured { meter.new ≡ metered meter.old (block player.old (length samples.old / 2)) }
{
    player.block_with_progress(samples, progress);
    meter.add(samples);
    put_samples(samples, output);
}

// Puts samples, little-endian.
fn put_samples<P: Write>(samples: &[i16], output: &mut Output<'_, P>)
    requires { length samples.now ≤ BLOCK }
    ensures { Puts P.contents output.old output.new (flat_map sample_bytes samples.now) }
{
    let mut bytes = [0; 2 * BLOCK];
    let encoded = &mut bytes[..2 * samples.len()];
    LittleEndian::write_i16_into(samples, encoded);
    output.put(encoded);
}
