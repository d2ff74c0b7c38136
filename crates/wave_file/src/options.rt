//! How a recording is read.
ghost use Rattle.std.specs.Prelude.{◌≡◌};
ghost use Rattle.wave_file.specs.Recordings.{as_stored};

/// How a recording is read.
#[derive(Clone, Copy, Debug, PartialEq, Eq)]
pub struct ReadOptions {
    /// The channel to read as mono, counted from 0; without it all channels, of which there may be one or two.
    pub channel: Option<u16>,
    /// The root key, with no correction, in place of that of the `smpl` chunk: 0 to 127.
    pub key: Option<u8>,
    /// The seed of the dither of samples of more than 16 bits; without it they are rounded.
    pub dither: Option<u64>,
}

impl ReadOptions {
    /// All channels, the key of the file, and no dither.
    pub fn as_stored() -> ReadOptions
        ensures { result ≡ as_stored }
    {
        ReadOptions {
            channel: None,
            key: None,
            dither: None,
        }
    }
}
