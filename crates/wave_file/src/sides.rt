//! The points of a recording that are not borrowed from the file.
ghost use Rattle.std.specs.Prelude.{◌≡◌, IfOk};
ghost use Rattle.wave_file.specs.Imports.{sides_of};

use crate::channel_samples::ChannelSamples;
use crate::recording::Channels;
use sample_view::Points;
use sf_base::OutOfMemory;
use std::alloc::Global;
use std::marker::Model;

/// The points of the left and of the right channel, each in a vector. A mono recording has a left side only, which is
/// empty if its points are borrowed from the file.
#[derive(Drop)]
pub struct Sides {
    left: Vec<u8>,
    right: Vec<u8>,
}

impl Model for Sides {
    ghost use Rattle.std.specs.Prelude.{◌≡◌, ◌%◌, length};
    ghost use Rattle.sample_view.specs.Words.{words};
    ghost use Rattle.wave_file.specs.Imports.{BothSides};

    ghost Value = { BothSides };

    ghost view = { λ s. record { left = words s.left.items; right = words s.right.items } };

    ghost invariant = { λ s. (length s.left.items % 2 ≡ 0) × (length s.right.items % 2 ≡ 0) };
}

impl Sides {
    /// Converts the samples of these channels, split by channel.
    pub fn of(alloc: Global, channels: &Channels<'_>) -> Result<Sides, OutOfMemory>
        ensures { IfOk result (λ sides. sides ≡ sides_of channels.now) }
    {
        match channels {
            Channels::Mono(_) => Ok(Sides {
                left: Vec::new(alloc),
                right: Vec::new(alloc),
            }),
            Channels::MonoSamples(samples) => Ok(Sides {
                left: samples.points(alloc)?,
                right: Vec::new(alloc),
            }),
            Channels::Stereo(left, right) => Sides::of_pair(alloc, left, right),
        }
    }

    // Converts the samples of two channels.
    fn of_pair(
        alloc: Global,
        left: &ChannelSamples<'_>,
        right: &ChannelSamples<'_>,
    ) -> Result<Sides, OutOfMemory>
        ensures { IfOk result (λ sides. sides ≡ sides_of (Channels.Stereo left.now right.now)) }
    {
        let left = left.points(alloc)?;
        let right = right.points(alloc)?;
        Ok(Sides { left, right })
    }

    /// The points of the left channel.
    pub fn left(&self, alloc: Global) -> Points<'_>
        ensures { result ≡ self.now.left }
    {
        Points::of_slice(alloc, self.left.as_slice()).unwrap()
    }

    /// The points of the right channel.
    pub fn right(&self, alloc: Global) -> Points<'_>
        ensures { result ≡ self.now.right }
    {
        Points::of_slice(alloc, self.right.as_slice()).unwrap()
    }
}
