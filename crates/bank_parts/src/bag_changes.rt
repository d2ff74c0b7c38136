//! Changes of the bags of owners: insertion of zones and whole owners, and the bags of global zones, which exist only
//! while they hold a record.
ghost use Rattle.std.specs.Prelude.{◌≡◌, ◌==◌, ◌≤◌, ◌<◌, ◌+◌, ◌^◌, ℕ, ◌++◌, ◌∷◌, [], length, insert, slice_get, map, IfSome, IsSomeAnd, IfErr, OnOk, OnErr, IsSome};
ghost use Rattle.base_numbered_lists.specs.Moved.{changed};
ghost use Rattle.flat_records.specs.Bags.{Bag, gens_in, with_gens};
ghost use Rattle.flat_records.specs.Owned.{all_bags, bag_at, bag_changed};
ghost use Rattle.flat_records.specs.Stored.{Uses};
ghost use Rattle.bank_parts.specs.declared.counting.Records.{Records};
ghost use Rattle.bank_parts.specs.Counts.{records_of_global, records_of_zone, records_of_owner, records_sum};
ghost use Rattle.bank_parts.specs.Bagged.{zone_bag, global_bags, bags_of};
ghost use Rattle.bank_parts.specs.Room.{CanHold, HasRoom, records_of_zones};
ghost use Rattle.bank_parts.specs.Changes.{FitsIndex, gens_with, bag_size, gen_record_removed, mod_record_removed};

use crate::counting::Records;
use crate::parts::{GlobalZone, Zone, ZoneOwner};
use crate::room::make_room;
use flat_records::OwnerBags;
use modulators::Modulator;
use sf_base::OutOfMemory;

/// Inserts the bag of a zone as bag `k` of owner `i`.
pub(crate) fn insert_zone_bag(bags: &mut OwnerBags, i: usize, k: usize, operator: u16, zone: &Zone)
    requires place { IsSomeAnd (slice_get bags.old.owners i) (λ own. k ≤ length own) }
    requires room { HasRoom bags.old (records_of_zone zone.now) }
    ensures owners { bags.new.owners ≡ changed bags.old.owners i (λ own. insert own k (zone_bag operator zone.now)) }
    ensures room { (more : Records) → HasRoom bags.old (records_sum (records_of_zone zone.now) more) → HasRoom bags.new more }
{
    let target = [(operator, zone.target)];
    bags.put_bag(i, k, zone.gens.entries(), &target, zone.mods.as_slice());
}

/// Appends the bags of a preset or an instrument as the last owner.
pub(crate) fn append_owner<H>(bags: &mut OwnerBags, operator: u16, owner: &ZoneOwner<H>)
    requires room { HasRoom bags.old (records_of_owner owner.now) }
    requires owners { 0 < bags.old.spare_owners }
    ensures { bags.new.owners ≡ bags.old.owners ++ bags_of operator owner.now ∷ [] }
{
    let i = bags.owner_count();
    bags.insert_empty_owner(i);
    append_global(bags, i, &owner.global);
    append_zones(bags, i, operator, owner.zones.as_slice());
}

// Appends the bag of a global zone to owner i, unless the global zone is empty.
fn append_global(bags: &mut OwnerBags, i: usize, global: &GlobalZone)
    requires place { i < length bags.old.owners }
    requires room { HasRoom bags.old (records_of_global global.now) }
    ensures owners { bags.new.owners ≡ changed bags.old.owners i (λ own. own ++ global_bags global.now) }
    ensures room { (more : Records) → HasRoom bags.old (records_sum (records_of_global global.now) more) → HasRoom bags.new more }
{
    if global.is_empty() {
        return;
    }
    let count = bags.bag_count(i);
    bags.put_bag(i, count, global.gens.entries(), &[], global.mods.as_slice());
}

// Appends the bags of zones to owner i.
fn append_zones(bags: &mut OwnerBags, i: usize, operator: u16, zones: &[Zone])
    requires place { i < length bags.old.owners }
    requires room { HasRoom bags.old (records_of_zones zones.now) }
    ensures { bags.new.owners ≡ changed bags.old.owners i (λ own. own ++ map (zone_bag operator) zones.now) }
{
    for zone in zones {
        let count = bags.bag_count(i);
        insert_zone_bag(bags, i, count, operator, zone);
    }
}

/// Inserts a bag as the first of owner `i`.
pub(crate) fn insert_first_bag(
    bags: &mut OwnerBags,
    i: usize,
    gens: &[(u16, u16)],
    mods: &[Modulator],
) -> Result<(), OutOfMemory>
    requires place { i < length bags.old.owners }
    requires held { CanHold bags.old.owners (record { zones = 1; gens = length gens.now; mods = length mods.now }) }
    ensures ok { OnOk result (bags.new.owners ≡ changed bags.old.owners i (λ own. insert own 0 (record { gens = gens.now; mods = mods.now }))) }
    ensures err { OnErr result (bags.new.owners ≡ bags.old.owners) }
{
    let more = Records {
        zones: 1,
        gens: gens.len(),
        mods: mods.len(),
    };
    make_room(bags, 0, more)?;
    bags.put_bag(i, 0, gens, &[], mods);
    Ok(())
}

/// Sets a generator of bag `k` of owner `i` at its index, or inserts it at one, into reserved capacity.
pub(crate) fn put_gen(
    bags: &mut OwnerBags,
    i: usize,
    k: usize,
    index: Result<usize, usize>,
    pair: (u16, u16),
)
    requires place { IsSomeAnd (bag_at bags.old.owners i k) (λ (b : Bag). FitsIndex b.gens index) }
    requires room { 0 < bags.old.spare.gens }
    requires limit { IfErr index (λ (j : ℕ). length (gens_in (all_bags bags.old.owners)) + 1 < 2 ^ 16) }
    ensures owners { bags.new.owners ≡ bag_changed bags.old.owners i k (λ (b : Bag). with_gens (gens_with b.gens index pair) b) }
    ensures spare { Uses bags.old.spare bags.new.spare (record { bags = 0; gens = 1; mods = 0 }) }
{
    match index {
        Ok(j) => bags.set_gen(i, k, j, pair),
        Err(j) => bags.put_gens(i, k, j, &[pair]),
    }
}

/// Removes generator `j` of bag `k` of owner `i`, and the bag too if that was its last record.
pub(crate) fn remove_gen_record(bags: &mut OwnerBags, i: usize, k: usize, j: usize)
    requires { IsSomeAnd (bag_at bags.old.owners i k) (λ (b : Bag). j < length b.gens) }
    ensures { IfSome (bag_at bags.old.owners i k) (λ (b : Bag). bags.new.owners ≡ gen_record_removed bags.old.owners i k j b) }
{
    if has_one_record(bags, i, k) {
        bags.cut_bag(i, k);
    } else {
        bags.cut_gens(i, k, j, 1);
    }
}

/// Removes modulator `j` of bag `k` of owner `i`, and the bag too if that was its last record.
pub(crate) fn remove_mod_record(bags: &mut OwnerBags, i: usize, k: usize, j: usize)
    requires { IsSomeAnd (bag_at bags.old.owners i k) (λ (b : Bag). j < length b.mods) }
    ensures { IfSome (bag_at bags.old.owners i k) (λ (b : Bag). bags.new.owners ≡ mod_record_removed bags.old.owners i k j b) }
{
    if has_one_record(bags, i, k) {
        bags.cut_bag(i, k);
    } else {
        bags.cut_mods(i, k, j, 1);
    }
}

fn has_one_record(bags: &OwnerBags, i: usize, k: usize) -> bool
    requires { IsSome (bag_at bags.now.owners i k) }
    ensures { IfSome (bag_at bags.now.owners i k) (λ (b : Bag). result ≡ (bag_size b == 1)) }
{
    let gens = bags.gens(i, k).len();
    let mods = bags.mods(i, k).len();
    gens.saturating_add(mods) == 1
}
