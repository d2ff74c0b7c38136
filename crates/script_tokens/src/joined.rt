//! Bytes split over several slices.
ghost use Rattle.std.specs.Prelude.{◌≡◌};
ghost use Rattle.script_tokens.specs.Slices.{all_bytes};

use std::marker::Model;

/// The concatenation of several slices, without a copy.
#[derive(Drop)]
pub struct Joined<'a> {
    slices: &'a [&'a [u8]],
}

impl<'a> Model for Joined<'a> {
    ghost use Rattle.std.specs.Prelude.{ℕ, List};
    ghost use Rattle.script_tokens.specs.Slices.{all_bytes};

    ghost Value = { List ℕ };

    ghost view = { λ joined. all_bytes joined.slices.now };
}

impl<'a> Joined<'a> {
    /// The bytes of the slices, one slice after another.
    pub fn new(slices: &'a [&'a [u8]]) -> Joined<'a>
        ensures { result ≡ all_bytes slices.now }
    {
        Joined { slices }
    }

    pub(crate) fn slices(&self) -> &'a [&'a [u8]]
        ensures { all_bytes result.now ≡ self.now }
    {
        self.slices
    }
}
