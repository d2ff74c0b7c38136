//! Changes of the bags of one owner.
ghost use Rattle.std.specs.Prelude.{◌≡◌, ◌≤◌, ◌<◌, ◌+◌, ◌^◌, ◌++◌, length, insert, remove, slice_get, slice_set, IsSome, IfSome};
ghost use Rattle.std.specs.Option.{IsSomeAnd};
ghost use Rattle.base_numbered_lists.specs.Moved.{changed};
ghost use Rattle.flat_records.specs.Runs.{put, cut};
ghost use Rattle.flat_records.specs.Bags.{Bag, gens_in, mods_in, with_gens, with_mods};
ghost use Rattle.flat_records.specs.Stored.{Uses, Frees, counts_of};
ghost use Rattle.flat_records.specs.Owned.{all_bags, bag_at, bag_changed};

use crate::index_shift::{lower_from, raise_from};
use crate::owned::{OwnerBags, place};
use modulators::Modulator;

impl OwnerBags {
    /// Inserts a bag as number `k` of owner `i`, which must exist, into reserved capacity. Its generators are those of
    /// `gens`, then those of `last`. Allocates nothing.
    pub fn put_bag(
        &mut self,
        i: usize,
        k: usize,
        gens: &[(u16, u16)],
        last: &[(u16, u16)],
        mods: &[Modulator],
    )
        requires place { IsSomeAnd (slice_get self.old.owners i) (λ bags. k ≤ length bags) }
        requires bags { 0 < self.old.spare.bags }
        requires gens { length gens.now + length last.now ≤ self.old.spare.gens }
        requires mods { length mods.now ≤ self.old.spare.mods }
        requires bags_limit { length (all_bags self.old.owners) + 1 < 2 ^ 16 }
        requires gens_limit { length (gens_in (all_bags self.old.owners)) + (length gens.now + length last.now) < 2 ^ 16 }
        requires mods_limit { length (mods_in (all_bags self.old.owners)) + length mods.now < 2 ^ 16 }
        ensures owners { self.new.owners ≡ changed self.old.owners i (λ bags. insert bags k (record { gens = gens.now ++ last.now; mods = mods.now })) }
        ensures spare { Uses self.old.spare self.new.spare (record { bags = 1; gens = length gens.now + length last.now; mods = length mods.now }) }
        ensures spare_owners { self.new.spare_owners ≡ self.old.spare_owners }
    {
        let at = place(&self.begins, i, k);
        self.bags.put_bag(at, gens, last, mods);
        raise_from(&mut self.begins, i + 1, 1);
    }

    /// Removes bag `k` of owner `i`, which must exist. Allocates nothing.
    pub fn cut_bag(&mut self, i: usize, k: usize)
        requires { IsSome (bag_at self.old.owners i k) }
        ensures owners { self.new.owners ≡ changed self.old.owners i (λ bags. remove bags k) }
        ensures spare { IfSome (bag_at self.old.owners i k) (λ (b : Bag). Frees self.old.spare self.new.spare (counts_of b)) }
        ensures spare_owners { self.new.spare_owners ≡ self.old.spare_owners }
    {
        let at = place(&self.begins, i, k);
        self.bags.cut_bag(at);
        lower_from(&mut self.begins, i + 1, 1);
    }

    /// Inserts generators into bag `k` of owner `i`, which must exist, from index `j`, into reserved capacity.
    /// Allocates nothing.
    pub fn put_gens(&mut self, i: usize, k: usize, j: usize, gens: &[(u16, u16)])
        requires place { IsSomeAnd (bag_at self.old.owners i k) (λ (b : Bag). j ≤ length b.gens) }
        requires room { length gens.now ≤ self.old.spare.gens }
        requires limit { length (gens_in (all_bags self.old.owners)) + length gens.now < 2 ^ 16 }
        ensures owners { self.new.owners ≡ bag_changed self.old.owners i k (λ (b : Bag). with_gens (put b.gens j gens.now) b) }
        ensures spare { Uses self.old.spare self.new.spare (record { bags = 0; gens = length gens.now; mods = 0 }) }
        ensures spare_owners { self.new.spare_owners ≡ self.old.spare_owners }
    {
        let at = place(&self.begins, i, k);
        self.bags.put_gens(at, j, gens);
    }

    /// Removes `n` generators of bag `k` of owner `i` from index `j`; they must exist. Allocates nothing.
    pub fn cut_gens(&mut self, i: usize, k: usize, j: usize, n: usize)
        requires { IsSomeAnd (bag_at self.old.owners i k) (λ (b : Bag). j + n ≤ length b.gens) }
        ensures owners { self.new.owners ≡ bag_changed self.old.owners i k (λ (b : Bag). with_gens (cut b.gens j n) b) }
        ensures spare { Frees self.old.spare self.new.spare (record { bags = 0; gens = n; mods = 0 }) }
        ensures spare_owners { self.new.spare_owners ≡ self.old.spare_owners }
    {
        let at = place(&self.begins, i, k);
        self.bags.cut_gens(at, j, n);
    }

    /// Sets generator `j` of bag `k` of owner `i`, which must exist, to an operator and its amount. Allocates nothing.
    pub fn set_gen(&mut self, i: usize, k: usize, j: usize, pair: (u16, u16))
        requires { IsSomeAnd (bag_at self.old.owners i k) (λ (b : Bag). j < length b.gens) }
        ensures owners { self.new.owners ≡ bag_changed self.old.owners i k (λ (b : Bag). with_gens (slice_set b.gens j pair) b) }
        ensures spare { self.new.spare ≡ self.old.spare }
        ensures spare_owners { self.new.spare_owners ≡ self.old.spare_owners }
    {
        let at = place(&self.begins, i, k);
        self.bags.set_gen(at, j, pair);
    }

    /// Inserts modulators into bag `k` of owner `i`, which must exist, from index `j`, into reserved capacity.
    /// Allocates nothing.
    pub fn put_mods(&mut self, i: usize, k: usize, j: usize, mods: &[Modulator])
        requires place { IsSomeAnd (bag_at self.old.owners i k) (λ (b : Bag). j ≤ length b.mods) }
        requires room { length mods.now ≤ self.old.spare.mods }
        requires limit { length (mods_in (all_bags self.old.owners)) + length mods.now < 2 ^ 16 }
        ensures owners { self.new.owners ≡ bag_changed self.old.owners i k (λ (b : Bag). with_mods (put b.mods j mods.now) b) }
        ensures spare { Uses self.old.spare self.new.spare (record { bags = 0; gens = 0; mods = length mods.now }) }
        ensures spare_owners { self.new.spare_owners ≡ self.old.spare_owners }
    {
        let at = place(&self.begins, i, k);
        self.bags.put_mods(at, j, mods);
    }

    /// Removes `n` modulators of bag `k` of owner `i` from index `j`; they must exist. Allocates nothing.
    pub fn cut_mods(&mut self, i: usize, k: usize, j: usize, n: usize)
        requires { IsSomeAnd (bag_at self.old.owners i k) (λ (b : Bag). j + n ≤ length b.mods) }
        ensures owners { self.new.owners ≡ bag_changed self.old.owners i k (λ (b : Bag). with_mods (cut b.mods j n) b) }
        ensures spare { Frees self.old.spare self.new.spare (record { bags = 0; gens = 0; mods = n }) }
        ensures spare_owners { self.new.spare_owners ≡ self.old.spare_owners }
    {
        let at = place(&self.begins, i, k);
        self.bags.cut_mods(at, j, n);
    }

    /// Replaces modulator `j` of bag `k` of owner `i`, which must exist. Allocates nothing.
    pub fn set_mod(&mut self, i: usize, k: usize, j: usize, modulator: Modulator)
        requires { IsSomeAnd (bag_at self.old.owners i k) (λ (b : Bag). j < length b.mods) }
        ensures owners { self.new.owners ≡ bag_changed self.old.owners i k (λ (b : Bag). with_mods (slice_set b.mods j modulator) b) }
        ensures spare { self.new.spare ≡ self.old.spare }
        ensures spare_owners { self.new.spare_owners ≡ self.old.spare_owners }
    {
        let at = place(&self.begins, i, k);
        self.bags.set_mod(at, j, modulator);
    }
}
