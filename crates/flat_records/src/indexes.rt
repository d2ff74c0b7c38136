//! Indexes of the first member of a part of one list, or of one of each of two lists.
ghost use Rattle.std.specs.Prelude.{◌≡◌, ◌↔◌, ◌≤◌, ◌<◌, ◌+◌, ◌-◌, ◌^◌, ℕ, length, slice_index_or, IsTrue};
ghost use Rattle.std.proofs.Common.{add-zero};
ghost use Rattle.std.proofs.Math.Nat.{sub-zero};

/// An index into one list, or one into each of two lists.
pub(crate) trait Index: Copy {
    ghost origin: { Self };

    ghost raised: { Self → Self → Self };

    ghost lowered: { Self → Self → Self };

    ghost CanRaise: { Self → Self → Type 0 };

    ghost CanLower: { Self → Self → Type 0 };

    /// Adds to it.
    fn raise(&mut self, by: Self)
        requires { CanRaise by self.old }
        ensures { self.new ≡ raised by self.old };

    /// Subtracts from it.
    fn lower(&mut self, by: Self)
        requires { CanLower by self.old }
        ensures { self.new ≡ lowered by self.old };

    /// Whether it is not less than `least`.
    fn is_at_least(self, least: Self) -> bool
        ensures { IsTrue result ↔ CanLower least self };

    /// Whether it is the first index.
    fn is_origin(self) -> bool
        ensures { IsTrue result ↔ (self ≡ origin) };

    ghost raised_by_none: { (at : Self) → raised origin at ≡ at };

    ghost lowered_by_none: { (at : Self) → lowered origin at ≡ at };
}

impl Index for u16 {
    ghost origin = { 0 };

    ghost raised = { λ by at. at + by };

    ghost lowered = { λ by at. at - by };

    ghost CanRaise = { λ by at. at + by < 2 ^ 16 };

    ghost CanLower = { λ by at. by ≤ at };

    ghost raised_by_none = { add-zero };

    ghost lowered_by_none = { sub-zero };

    fn raise(&mut self, by: u16) {
        *self += by;
    }

    fn lower(&mut self, by: u16) {
        *self -= by;
    }

    fn is_at_least(self, least: u16) -> bool {
        least <= self
    }

    fn is_origin(self) -> bool {
        self == 0
    }
}

/// Whether no index is less than the one before.
pub(crate) fn are_rising<I: Index>(list: &[I]) -> bool
    ensures { IsTrue result ↔ ((k : ℕ) → k + 1 < length list.now → I.CanLower (slice_index_or list.now k I.origin) (slice_index_or list.now (k + 1) I.origin)) }
{
    for k in 1..list.len() {
        if !list[k].is_at_least(list[k - 1]) {
            return false;
        }
    }
    true
}
