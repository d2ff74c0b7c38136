//! The indexes of a bag's first generator and modulator.
ghost use Rattle.std.specs.Prelude.{◌≡◌, ◌<◌, ◌^◌, slice_index_or, length};
ghost use Rattle.flat_records.specs.Raised.{raised, lowered, CanRaise, CanLower};
ghost use Rattle.std.proofs.Common.{add-zero};
ghost use Rattle.std.proofs.Math.Nat.{sub-zero};

use crate::indexes::Index;

impl Index for (u16, u16) {
    ghost origin = { (0, 0) };

    ghost raised = { raised };

    ghost lowered = { lowered };

    ghost CanRaise = { CanRaise };

    ghost CanLower = { CanLower };

    ghost raised_by_none = { λ at i. (add-zero at.0 i, add-zero at.1 i) };

    ghost lowered_by_none = { λ at i. (sub-zero at.0 i, sub-zero at.1 i) };

    fn raise(&mut self, by: (u16, u16)) {
        self.0 += by.0;
        self.1 += by.1;
    }

    fn lower(&mut self, by: (u16, u16)) {
        self.0 -= by.0;
        self.1 -= by.1;
    }

    fn is_at_least(self, least: (u16, u16)) -> bool {
        least.0 <= self.0 && least.1 <= self.1
    }

    fn is_origin(self) -> bool {
        self.0 == 0 && self.1 == 0
    }
}

/// The indexes of bag `k`.
pub(crate) fn index(bags: &[(u16, u16)], k: usize) -> (usize, usize)
    requires { k < length bags.now }
    ensures index { result ≡ slice_index_or bags.now k result }
    ensures fits { (result.0 < 2 ^ 16) × (result.1 < 2 ^ 16) }
{
    let (gens, mods) = bags[k];
    (gens as usize, mods as usize)
}
