//! How samples are encoded.
ghost use Rattle.std.specs.Prelude.{◌≡◌, ◌<◌, ◌≤◌};
ghost use Rattle.pcm_points.specs.Samples.{size_of};
ghost use Rattle.pcm_points.specs.Blocks.{is_integer, shift_of, bias_of};

/// How a PCM sample is encoded, little-endian: the kind of its number and its width in bits.
#[derive(Clone, Copy, Debug, PartialEq, Eq)]
pub enum SampleEncoding {
    /// An integer with 128 for zero.
    Unsigned8,
    /// An integer in two's complement, as the two below.
    Signed16,
    Signed24,
    Signed32,
    /// An IEEE 754 number; the full scale is from -1 to 1.
    Float32,
}

impl SampleEncoding {
    /// The size of a sample, in bytes.
    pub fn size(self) -> usize
        ensures value { result ≡ size_of self }
        ensures some { 0 < result }
        ensures bound { result ≤ 4 }
    {
        match self {
            SampleEncoding::Unsigned8 => 1,
            SampleEncoding::Signed16 => 2,
            SampleEncoding::Signed24 => 3,
            SampleEncoding::Signed32 | SampleEncoding::Float32 => 4,
        }
    }

    // Whether samples are integers.
    pub(crate) fn is_integer(self) -> bool
        ensures { result ≡ is_integer self }
    {
        match self {
            SampleEncoding::Float32 => false,
            _ => true,
        }
    }

    // The bits of a number of 32 bits above those of a sample.
    pub(crate) fn shift(self) -> u32
        ensures value { result ≡ shift_of self }
        ensures bound { result < 32 }
    {
        match self {
            SampleEncoding::Unsigned8 => 24,
            SampleEncoding::Signed16 => 16,
            SampleEncoding::Signed24 => 8,
            SampleEncoding::Signed32 | SampleEncoding::Float32 => 0,
        }
    }

    // Where 0 is in such numbers, if they count from the least one, for a sample in two's complement.
    pub(crate) fn bias(self) -> u32
        ensures { result ≡ bias_of self }
    {
        match self {
            SampleEncoding::Unsigned8 | SampleEncoding::Float32 => 0,
            _ => 0x8000_0000,
        }
    }
}
