//! Tests whether bags read from a file are the bags of presets or of instruments.
ghost use Rattle.std.specs.Prelude.{◌≡◌, ◌<◌, ◌==◌, ◌↔◌, ℕ, length, IsTrue};
ghost use Rattle.std.specs.List.{list_any};
ghost use Rattle.bank_parts.specs.OwnBags.{is_plain, is_own_bag, AreOwnBags, AreAllBags};

use crate::bag_targets::{ends_in, without_last};
use flat_records::OwnerBags;
use generators::are_in_order;
use modulators::Modulator;

/// Whether all bags are those of presets or of instruments whose targets have this operator.
pub(crate) fn are_all_bags(bags: &OwnerBags, operator: u16) -> bool
    ensures { IsTrue result ↔ AreAllBags operator bags.now.owners }
{
    for i in 0..bags.owner_count() {
        if !are_own_bags(bags, operator, i) {
            return false;
        }
    }
    true
}

fn are_own_bags(bags: &OwnerBags, operator: u16, i: usize) -> bool
    requires { i < length bags.now.owners }
    ensures { IsTrue result ↔ AreOwnBags operator bags.now.owners i }
{
    for k in 0..bags.bag_count(i) {
        if !is_own_bag(operator, k == 0, bags.gens(i, k), bags.mods(i, k)) {
            return false;
        }
    }
    true
}

// Whether a bag with these generators and modulators is that of a zone or, if it is the first, of a global zone that
// is not empty.
fn is_own_bag(operator: u16, is_first: bool, gens: &[(u16, u16)], mods: &[Modulator]) -> bool
    ensures { result ≡ is_own_bag operator is_first (record { gens = gens.now; mods = mods.now }) }
{
    if ends_in(operator, gens) {
        return is_plain(operator, without_last(gens));
    }
    is_first && !(gens.is_empty() && mods.is_empty()) && is_plain(operator, gens)
}

fn is_plain(operator: u16, gens: &[(u16, u16)]) -> bool
    ensures { result ≡ is_plain operator gens.now }
{
    are_in_order(gens) && !has_target(operator, gens)
}

fn has_target(operator: u16, gens: &[(u16, u16)]) -> bool
    ensures { result ≡ list_any (λ (e : ℕ × ℕ). e.0 == operator) gens.now }
{
    gens.iter().any(|&(other, _)| other == operator)
}
