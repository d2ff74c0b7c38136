//! Members that may link to other members of their list.
use base_numbered_lists::Renumber;
use sf_base::Blank;

/// A member of a list that may link to a member by number.
pub trait Linked: Renumber + Blank {
    ghost use Rattle.std.specs.Prelude.{◌≡◌, ℕ, Bool, false};
    ghost use Rattle.base_numbered_lists.specs.declared.renumbering.Renumbering.{Renumbering};

    /// Whether it links to a member.
    ghost has_link: { Self → Bool };

    /// Whether it links to the member with this number.
    ghost links_to: { ℕ → Self → Bool };

    /// Whether it links to a member.
    fn has_link(&self) -> bool
        ensures { result ≡ has_link self.now };

    /// Whether it links to the member with this number.
    fn links_to(&self, number: u32) -> bool
        ensures { result ≡ links_to number self.now };

    // A member without a link links to no member, and renumbering keeps it.
    ghost links_nowhere: { (number : ℕ) (x : Self) → has_link x ≡ false → links_to number x ≡ false };

    ghost stays: { (by : Renumbering) (x : Self) → has_link x ≡ false → Self.with_new_numbers by x ≡ x };
}
