//! Whether presets, or instruments, are equal.
ghost use Rattle.std.specs.Prelude.{◌≡◌, ◌<◌, ◌↔◌, ℕ, List, length, slice_get, IsTrue};

use crate::heads::SameHead;
use crate::zones::{same_settings, same_zones};
use bank_parts::{Owners, ZonePlace};

/// Whether owner `i` of `a` and owner `j` of `b` are equal: head, global zone and zones.
pub fn same_owner<H: SameHead>(a: &Owners<H>, i: usize, b: &Owners<H>, j: usize) -> bool
    requires first { i < length a.now }
    requires second { j < length b.now }
    ensures { IsTrue result ↔ (slice_get a.now i ≡ slice_get b.now j) }
{
    a.head(i).is_same(b.head(j))
        && same_settings(a, i, ZonePlace::Global, b, j, ZonePlace::Global)
        && same_zones(a, i, b, j)
}

/// Whether all presets, or all instruments, are equal, in the same order.
pub fn same_owners<H: SameHead>(a: &Owners<H>, b: &Owners<H>) -> bool
    ensures { IsTrue result ↔ (a.now ≡ b.now) }
{
    let count = a.len();
    if count != b.len() {
        return false;
    }
    for i in 0..count {
        if !same_owner(a, i, b, i) {
            return false;
        }
    }
    true
}
