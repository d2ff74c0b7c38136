//! Which records are those of a list of bags.
ghost use Rattle.std.specs.Prelude.{◌≡◌, ◌↔◌, ◌-◌, List, IsTrue, MatchOption};
ghost use Rattle.flat_records.specs.Bags.{Bag, no_modulator, tables_of};
ghost use Rattle.flat_records.specs.Tables.{EndsIn, AreTables};

use crate::bags::{Bags, Recs};
use crate::indexes::are_rising;
use modulators::Modulator;

impl Bags {
    /// The bags of these records, or `None` if they are not the records of a list of bags. Allocates nothing.
    #[tactic(auto, using(crate::proofs::Converse::tables_read))]
    pub fn from_recs(recs: Recs) -> Option<Bags>
        ensures { MatchOption result ((bags : List Bag) → ¬ (recs ≡ tables_of bags)) (λ r. recs ≡ tables_of r.bags) }
    {
        if !are_tables(&recs.bags, &recs.gens, &recs.mods) {
            return None;
        }
        let Recs { bags, gens, mods } = recs;
        Some(Bags { bags, gens, mods })
    }

    /// The bags of these records, which must be those of a list of bags. Checks and allocates nothing.
    pub fn from_sound_recs(recs: Recs) -> Bags
        ghost list: { List Bag }
        requires { recs ≡ tables_of list }
        ensures { result.bags ≡ list }
    {
        let Recs { bags, gens, mods } = recs;
        Bags { bags, gens, mods }
    }
}

/// The records of any list of bags are tables, so `from_recs` accepts them.
pub fn tables_of_bags_are_tables()
    ensures { (bags : List Bag) → AreTables (tables_of bags) }
{}

fn are_tables(bags: &[(u16, u16)], gens: &[(u16, u16)], mods: &[Modulator]) -> bool
    ensures { IsTrue result ↔ AreTables (record { bags = bags.now; gens = gens.now; mods = mods.now }) }
{
    matches!(bags.first(), Some((0, 0)))
        && end_in_counts(bags, gens.len(), mods.len())
        && matches!(gens.last(), Some((0, 0)))
        && end_in_zeros(mods)
        && are_rising(bags)
}

fn end_in_zeros(mods: &[Modulator]) -> bool
    ensures { IsTrue result ↔ EndsIn mods.now no_modulator }
{
    matches!(
        mods.last(),
        Some(Modulator {
            source: 0,
            dest: 0,
            amount: 0,
            amount_source: 0,
            transform: 0
        })
    )
}

fn end_in_counts(bags: &[(u16, u16)], gens: usize, mods: usize) -> bool
    ensures { IsTrue result ↔ EndsIn bags.now (gens - 1, mods - 1) }
{
    match bags.last() {
        Some((last_gen, last_mod)) => {
            *last_gen as usize == gens.saturating_sub(1)
                && *last_mod as usize == mods.saturating_sub(1)
        }
        None => false,
    }
}
