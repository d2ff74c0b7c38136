//! The `fmt ` and `data` chunks of a WAVE file.
ghost use Rattle.std.specs.Prelude.{◌≡◌, ◌<◌, ◌≤◌, ◌*◌, ◌%◌, [], length, unwrap_or, IfOk};
ghost use Rattle.std.specs.Option.{option_copied};
ghost use Rattle.bank_format.specs.FaultChecks.{Passes};
ghost use Rattle.pcm_points.specs.Dither.{reduced_words};
ghost use Rattle.pcm_points.specs.Samples.{size_of};
ghost use Rattle.wave_file.specs.Recordings.{has_tag, is_pcm, is_float, encoding_in, layout_of, format_in, HasChannel, frame_size, mono_in, channels_in};
ghost use Rattle.wave_file.specs.ReadChecks.{format_checks, channel_checks, data_checks, frame_checks};

use crate::channel_samples::ChannelSamples;
use crate::fault::WaveFault;
use crate::recording::{Channels, Format, Layout};
use pcm_points::SampleEncoding;
use sample_view::Points;
use sf_base::{part_of, u16_at, u32_at};
use std::alloc::Global;

/// The least size of a `fmt ` chunk, in bytes.
const FORMAT_SIZE: usize = 16;

/// The format tag of integer PCM.
const PCM_TAG: u16 = 1;

/// The format tag of IEEE 754 numbers.
const FLOAT_TAG: u16 = 3;

/// The format tag of WAVE_FORMAT_EXTENSIBLE, which has a subformat.
const EXTENSIBLE_TAG: u16 = 0xfffe;

/// The offset of the subformat GUID.
const SUBFORMAT_OFFSET: usize = 24;

/// The subformat GUID of integer PCM.
const PCM_SUBFORMAT: [u8; 16] = [1, 0, 0, 0, 0, 0, 16, 0, 128, 0, 0, 170, 0, 56, 155, 113];

/// The subformat GUID of IEEE 754 numbers.
const FLOAT_SUBFORMAT: [u8; 16] = [3, 0, 0, 0, 0, 0, 16, 0, 128, 0, 0, 170, 0, 56, 155, 113];

/// Reads the `fmt ` chunk, which must be integer PCM of 8, 16, 24 or 32 bits or 32-bit float. The given channel must
/// exist; without one there must be one or two.
#[tactic(auto, unfolding(crate::specs::ReadChecks::format_checks))]
pub(crate) fn read_format(channel: Option<u16>, format: &[u8]) -> Result<Format, WaveFault>
    ensures reads { Passes (λ f. f) result (format_checks channel format.now) (format_in channel format.now) }
    ensures channel { IfOk result (λ f. HasChannel f.layout) }
{
    if format.len() < FORMAT_SIZE {
        return Err(WaveFault::NoFormat);
    }
    if !is_pcm(format) && !is_float(format) {
        return Err(WaveFault::Compressed);
    }
    let Some(encoding) = encoding_in(format) else {
        return Err(WaveFault::SampleBits);
    };
    let layout = read_layout(channel, u16_at(format, 2))?;
    let rate = u32_at(format, 4);
    Ok(Format {
        layout,
        encoding,
        rate,
    })
}

// The given channel, or else all of one or two, in a file of this many channels.
fn read_layout(channel: Option<u16>, channels: u16) -> Result<Layout, WaveFault>
    ensures reads { Passes (λ l. l) result (channel_checks channel channels) (layout_of channel channels) }
    ensures channel { IfOk result HasChannel }
{
    if let Some(channel) = channel {
        return if channel < channels {
            Ok(Layout::Mono { channels, channel })
        } else {
            Err(WaveFault::NoSuchChannel)
        };
    }
    match channels {
        1 => Ok(Layout::Mono {
            channels,
            channel: 0,
        }),
        2 => Ok(Layout::Stereo),
        _ => Err(WaveFault::ChannelCount),
    }
}

// How samples are encoded, or `None` for integers of other widths.
fn encoding_in(format: &[u8]) -> Option<SampleEncoding>
    requires { 16 ≤ length format.now }
    ensures { result ≡ encoding_in format.now }
{
    if is_float(format) {
        return Some(SampleEncoding::Float32);
    }
    match u16_at(format, 14) {
        8 => Some(SampleEncoding::Unsigned8),
        16 => Some(SampleEncoding::Signed16),
        24 => Some(SampleEncoding::Signed24),
        32 => Some(SampleEncoding::Signed32),
        _ => None,
    }
}

// Whether the samples are integers.
#[tactic(auto, unfolding(crate::specs::Recordings::PCM))]
fn is_pcm(format: &[u8]) -> bool
    requires { 16 ≤ length format.now }
    ensures { result ≡ is_pcm format.now }
{
    has_tag(PCM_TAG, &PCM_SUBFORMAT, format)
}

// Whether the samples are 32-bit floats.
#[tactic(auto, unfolding(crate::specs::Recordings::IEEE_FLOAT))]
fn is_float(format: &[u8]) -> bool
    requires { 16 ≤ length format.now }
    ensures { result ≡ is_float format.now }
{
    has_tag(FLOAT_TAG, &FLOAT_SUBFORMAT, format) && u16_at(format, 14) == 32
}

// Whether samples have this format tag, directly or by their subformat in WAVE_FORMAT_EXTENSIBLE.
fn has_tag(tag: u16, subformat: &[u8; 16], format: &[u8]) -> bool
    requires { 16 ≤ length format.now }
    ensures { result ≡ has_tag tag subformat.now format.now }
{
    let found = u16_at(format, 0);
    found == tag
        || (found == EXTENSIBLE_TAG
            && part_of(format, SUBFORMAT_OFFSET, 16) == subformat.as_slice())
}

/// Reads the `data` chunk, which must exist and consist of whole frames. Allocates nothing.
#[tactic(auto, unfolding(crate::specs::ReadChecks::data_checks))]
pub(crate) fn read_data<'a>(
    alloc: Global,
    format: Format,
    dither: Option<u64>,
    body: Option<&'a [u8]>,
) -> Result<Channels<'a>, WaveFault>
    requires { HasChannel format.layout }
    ensures { Passes (λ c. c) result (data_checks format (option_copied body.entry))
        (channels_in dither format (unwrap_or (option_copied body.entry) [])) }
{
    match body {
        Some(bytes) => read_channels(alloc, format, dither, bytes),
        None => Err(WaveFault::NoData),
    }
}

// The samples of whole frames.
#[tactic(auto, unfolding(crate::specs::ReadChecks::frame_checks))]
fn read_channels<'a>(
    alloc: Global,
    format: Format,
    dither: Option<u64>,
    bytes: &'a [u8],
) -> Result<Channels<'a>, WaveFault>
    requires { HasChannel format.layout }
    ensures { Passes (λ c. c) result (frame_checks format bytes.now) (channels_in dither format bytes.now) }
{
    if bytes.len() % frame_size(format) != 0 {
        return Err(WaveFault::HalfFrame);
    }
    let encoding = format.encoding;
    match format.layout {
        Layout::Mono { channels, channel } => Ok(mono_in(
            alloc,
            encoding,
            usize::from(channels),
            usize::from(channel),
            dither,
            bytes,
        )),
        Layout::Stereo => Ok(Channels::Stereo(
            ChannelSamples::of(bytes, encoding, 2, 0, dither),
            ChannelSamples::of(bytes, encoding, 2, 1, dither),
        )),
    }
}

// The size of a frame, in bytes.
pub(crate) fn frame_size(format: Format) -> usize
    requires { HasChannel format.layout }
    ensures value { result ≡ frame_size format }
    ensures some { 0 < result }
{
    match format.layout {
        Layout::Mono { channels, .. } => usize::from(channels) * format.encoding.size(),
        Layout::Stereo => 2 * format.encoding.size(),
    }
}

// The samples of one channel. Those of 16 bits and a single channel are its points.
fn mono_in<'a>(
    alloc: Global,
    encoding: SampleEncoding,
    channels: usize,
    channel: usize,
    dither: Option<u64>,
    bytes: &'a [u8],
) -> Channels<'a>
    requires whole { length bytes.now % (channels * size_of encoding) ≡ 0 }
    requires channel { channel < channels }
    requires count { channels ≤ 65535 }
    ensures { result ≡ mono_in encoding channels (reduced_words dither encoding channels channel bytes.now) }
{
    match encoding {
        SampleEncoding::Signed16 if channels == 1 => {
            Channels::Mono(Points::of_slice(alloc, bytes).unwrap())
        }
        _ => Channels::MonoSamples(ChannelSamples::of(bytes, encoding, channels, channel, dither)),
    }
}
