//! Whether two heads of presets, or of instruments, are equal.
ghost use Rattle.std.specs.Prelude.{◌≡◌, ◌↔◌, IsTrue};

use bank_parts::{Head, OwnerHead};
use sf_base::Name20;

/// The head of a preset or an instrument, which can be compared.
pub trait SameHead: OwnerHead {
    /// Whether both are equal.
    fn is_same(&self, other: &Self) -> bool
        ensures { IsTrue result ↔ (self.now ≡ other.now) };
}

impl SameHead for Head {
    fn is_same(&self, other: &Head) -> bool {
        self.name.is_same(&other.name)
            && self.number == other.number
            && self.bank == other.bank
            && self.library == other.library
            && self.genre == other.genre
            && self.morphology == other.morphology
    }
}

impl SameHead for Name20 {
    fn is_same(&self, other: &Name20) -> bool {
        self.bytes() == other.bytes()
    }
}
