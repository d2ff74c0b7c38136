//! Whether zones match those of the other bank of which they are copies.
ghost use Rattle.std.specs.Prelude.{◌≡◌, ◌<◌, length, true, slice_get};
ghost use Rattle.bank_parts.specs.declared.owners.ZonePlace.TheVariants as place;
ghost use Rattle.bank_parts.specs.Owners.{HasPlace, zone_at};
ghost use Rattle.plan_take.specs.Matches.{AreBoth, HasNumber, ZonesMatch, Renumbered};

use bank_equality::same_settings;
use bank_parts::{OwnerHead, Owners, ZonePlace};

/// Whether owner `i` of one list and owner `j` of another have the same zones, with renumbered targets.
pub(crate) fn is_renumbered<H: OwnerHead>(
    from: &Owners<H>,
    i: usize,
    to: &Owners<H>,
    j: usize,
    targets: &[Option<u16>],
) -> bool
    ensures { result ≡ true → AreBoth (Renumbered targets.now) (slice_get from.now i) (slice_get to.now j) }
{
    i < from.len() && j < to.len() && has_same_zones(from, i, to, j, targets)
}

fn has_same_zones<H: OwnerHead>(
    from: &Owners<H>,
    i: usize,
    to: &Owners<H>,
    j: usize,
    targets: &[Option<u16>],
) -> bool
    requires first { i < length from.now }
    requires second { j < length to.now }
    ensures { result ≡ true → AreBoth (Renumbered targets.now) (slice_get from.now i) (slice_get to.now j) }
{
    let count = from.zone_count(i);
    if count != to.zone_count(j) {
        return false;
    }
    if !same_settings(from, i, ZonePlace::Global, to, j, ZonePlace::Global) {
        return false;
    }
    for k in 0..count {
        if !is_same_zone(from, i, to, j, k, targets) {
            return false;
        }
    }
    true
}

fn is_same_zone<H: OwnerHead>(
    from: &Owners<H>,
    i: usize,
    to: &Owners<H>,
    j: usize,
    k: usize,
    targets: &[Option<u16>],
) -> bool
    requires first { HasPlace from.now i (place.Zone k) }
    requires second { HasPlace to.now j (place.Zone k) }
    ensures { result ≡ true → AreBoth (ZonesMatch (HasNumber targets.now)) (zone_at from.now i k) (zone_at to.now j k) }
{
    let at = ZonePlace::Zone(k);
    is_number(targets, from.target(i, k), to.target(j, k)) && same_settings(from, i, at, to, j, at)
}

// Whether this is the number of a member.
fn is_number(numbers: &[Option<u16>], member: u16, number: u16) -> bool
    ensures { result ≡ true → HasNumber numbers.now member number }
{
    let member = usize::from(member);
    member < numbers.len() && numbers[member] == Some(number)
}
