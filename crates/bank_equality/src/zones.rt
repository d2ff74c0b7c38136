//! Whether zones, or the settings of places, are equal.
ghost use Rattle.std.specs.Prelude.{◌≡◌, ◌<◌, ◌↔◌, ℕ, List, length, IsTrue};
ghost use Rattle.bank_parts.specs.declared.owners.ZonePlace.TheVariants as place;
ghost use Rattle.bank_parts.specs.Owners.{HasPlace, zone_at};
ghost use Rattle.bank_parts.specs.Settings.{settings_at, zones_at};

use bank_parts::{OwnerHead, Owners, ZonePlace};
use modulators::Modulator;

/// Whether a place of owner `i` of `a` and a place of owner `j` of `b` have the same generators and modulators.
pub fn same_settings<H: OwnerHead, K: OwnerHead>(
    a: &Owners<H>,
    i: usize,
    at: ZonePlace,
    b: &Owners<K>,
    j: usize,
    other: ZonePlace,
) -> bool
    requires first { HasPlace a.now i at }
    requires second { HasPlace b.now j other }
    ensures { IsTrue result ↔ (settings_at a.now i at ≡ settings_at b.now j other) }
{
    same_entries(a.entries(i, at), b.entries(j, other))
        && same_mods(a.mods(i, at), b.mods(j, other))
}

/// Whether zone `k` of owner `i` of `a` and zone `l` of owner `j` of `b` are equal: target, generators and
/// modulators.
pub fn same_zone<H: OwnerHead, K: OwnerHead>(
    a: &Owners<H>,
    i: usize,
    k: usize,
    b: &Owners<K>,
    j: usize,
    l: usize,
) -> bool
    requires first { HasPlace a.now i (place.Zone k) }
    requires second { HasPlace b.now j (place.Zone l) }
    ensures { IsTrue result ↔ (zone_at a.now i k ≡ zone_at b.now j l) }
{
    a.target(i, k) == b.target(j, l)
        && same_settings(a, i, ZonePlace::Zone(k), b, j, ZonePlace::Zone(l))
}

/// Whether owner `i` of `a` and owner `j` of `b` have equal zones. It does not compare their global zones.
pub fn same_zones<H: OwnerHead, K: OwnerHead>(
    a: &Owners<H>,
    i: usize,
    b: &Owners<K>,
    j: usize,
) -> bool
    requires first { i < length a.now }
    requires second { j < length b.now }
    ensures { IsTrue result ↔ (zones_at a.now i ≡ zones_at b.now j) }
{
    let count = a.zone_count(i);
    if count != b.zone_count(j) {
        return false;
    }
    for k in 0..count {
        if !same_zone(a, i, k, b, j, k) {
            return false;
        }
    }
    true
}

fn same_entries(a: &[(u16, u16)], b: &[(u16, u16)]) -> bool
    ensures { IsTrue result ↔ (a.now ≡ b.now) }
{
    a == b
}

fn same_mods(a: &[Modulator], b: &[Modulator]) -> bool
    ensures { IsTrue result ↔ (a.now ≡ b.now) }
{
    a == b
}
