//! Changes of the bags of a level.
ghost use Rattle.std.specs.Prelude.{◌≡◌, ◌≤◌, ◌<◌, ◌+◌, ◌^◌, ◌++◌, length, insert, remove, slice_get, slice_set, Some, IfSome};
ghost use Rattle.std.specs.Option.{IsSomeAnd};
ghost use Rattle.base_numbered_lists.specs.Moved.{changed};
ghost use Rattle.flat_records.specs.Runs.{put, cut, exchanged};
ghost use Rattle.flat_records.specs.Bags.{Bag, no_bag, gens_in, mods_in, with_gens, with_mods};
ghost use Rattle.flat_records.specs.Stored.{Uses, Frees, counts_of, no_records};

use crate::bags::Bags;
use crate::index_pairs::index;
use crate::index_shift::{exchange_indexes, lower_from, raise_from};
use crate::pieces::{cut_within, exchange_within, put_both_within, put_within};
use modulators::Modulator;

impl Bags {
    // Inserts generators, given as two slices, and modulators into bag k, at an index each.
    fn insert_records(
        &mut self,
        k: usize,
        j: usize,
        gens: &[(u16, u16)],
        last: &[(u16, u16)],
        i: usize,
        mods: &[Modulator],
    )
        requires place { IsSomeAnd (slice_get self.old.bags k) (λ (b : Bag). (j ≤ length b.gens) × (i ≤ length b.mods)) }
        requires gens { length gens.now + length last.now ≤ self.old.spare.gens }
        requires mods { length mods.now ≤ self.old.spare.mods }
        requires gens_limit { 0 < length gens.now + length last.now → length (gens_in self.old.bags) + (length gens.now + length last.now) < 2 ^ 16 }
        requires mods_limit { 0 < length mods.now → length (mods_in self.old.bags) + length mods.now < 2 ^ 16 }
        ensures bags { self.new.bags ≡ changed self.old.bags k (λ (b : Bag). record { gens = put b.gens j (gens.now ++ last.now); mods = put b.mods i mods.now }) }
        ensures spare { Uses self.old.spare self.new.spare (record { bags = 0; gens = length gens.now + length last.now; mods = length mods.now }) }
    {
        let at = self.bags[k];
        put_both_within(&mut self.gens, at.0 as usize + j, gens, last);
        put_within(&mut self.mods, at.1 as usize + i, mods);
        let by = ((gens.len() + last.len()) as u16, mods.len() as u16);
        raise_from(&mut self.bags, k + 1, by);
    }

    // Removes n generators and m modulators of bag k, from an index each.
    fn remove_records(&mut self, k: usize, j: usize, n: usize, i: usize, m: usize)
        requires place { IsSomeAnd (slice_get self.old.bags k) (λ (b : Bag). (j + n ≤ length b.gens) × (i + m ≤ length b.mods)) }
        ensures bags { self.new.bags ≡ changed self.old.bags k (λ (b : Bag). record { gens = cut b.gens j n; mods = cut b.mods i m }) }
        ensures spare { Frees self.old.spare self.new.spare (record { bags = 0; gens = n; mods = m }) }
    {
        Bags::records_fit(self);
        let at = self.bags[k];
        cut_within(&mut self.gens, at.0 as usize + j, n);
        cut_within(&mut self.mods, at.1 as usize + i, m);
        lower_from(&mut self.bags, k + 1, (n as u16, m as u16));
    }

    // Inserts an empty bag as number k.
    fn insert_empty_bag(&mut self, k: usize)
        requires place { k ≤ length self.old.bags }
        requires room { 0 < self.old.spare.bags }
        ensures bags { self.new.bags ≡ insert self.old.bags k no_bag }
        ensures spare { Uses self.old.spare self.new.spare (record { bags = 1; gens = 0; mods = 0 }) }
    {
        let at = self.bags[k];
        put_within(&mut self.bags, k, &[at]);
    }

    // Removes an empty bag.
    fn remove_empty_bag(&mut self, k: usize)
        requires { slice_get self.old.bags k ≡ Some no_bag }
        ensures bags { self.new.bags ≡ remove self.old.bags k }
        ensures spare { Frees self.old.spare self.new.spare (record { bags = 1; gens = 0; mods = 0 }) }
    {
        self.bags.remove(k);
    }

    /// Inserts a bag as number k, into reserved capacity. Its generators are those of `gens`, then those of `last`.
    /// Allocates nothing.
    pub fn put_bag(
        &mut self,
        k: usize,
        gens: &[(u16, u16)],
        last: &[(u16, u16)],
        mods: &[Modulator],
    )
        requires place { k ≤ length self.old.bags }
        requires bags { 0 < self.old.spare.bags }
        requires gens { length gens.now + length last.now ≤ self.old.spare.gens }
        requires mods { length mods.now ≤ self.old.spare.mods }
        requires gens_limit { length (gens_in self.old.bags) + (length gens.now + length last.now) < 2 ^ 16 }
        requires mods_limit { length (mods_in self.old.bags) + length mods.now < 2 ^ 16 }
        ensures bags { self.new.bags ≡ insert self.old.bags k (record { gens = gens.now ++ last.now; mods = mods.now }) }
        ensures spare { Uses self.old.spare self.new.spare (record { bags = 1; gens = length gens.now + length last.now; mods = length mods.now }) }
    {
        self.insert_empty_bag(k);
        self.insert_records(k, 0, gens, last, 0, mods);
    }

    /// Removes bag k. Allocates nothing.
    pub fn cut_bag(&mut self, k: usize)
        requires { k < length self.old.bags }
        ensures bags { self.new.bags ≡ remove self.old.bags k }
        ensures spare { IfSome (slice_get self.old.bags k) (λ (b : Bag). Frees self.old.spare self.new.spare (counts_of b)) }
    {
        self.clear_bag(k);
        self.remove_empty_bag(k);
    }

    // Removes all generators and modulators of a bag.
    fn clear_bag(&mut self, k: usize)
        requires { k < length self.old.bags }
        ensures bags { self.new.bags ≡ slice_set self.old.bags k no_bag }
        ensures spare { IfSome (slice_get self.old.bags k) (λ (b : Bag). Frees self.old.spare self.new.spare (record { bags = 0; gens = length b.gens; mods = length b.mods })) }
    {
        let gens = self.gens(k).len();
        let mods = self.mods(k).len();
        self.remove_records(k, 0, gens, 0, mods);
    }

    /// Replaces the generators and modulators of bag k by these, of which there may be no more than it has. Allocates
    /// nothing.
    pub fn set_bag(&mut self, k: usize, gens: &[(u16, u16)], mods: &[Modulator])
        requires place { k < length self.old.bags }
        requires gens { IfSome (slice_get self.old.bags k) (λ (b : Bag). length gens.now ≤ length b.gens) }
        requires mods { IfSome (slice_get self.old.bags k) (λ (b : Bag). length mods.now ≤ length b.mods) }
        ensures bags { self.new.bags ≡ slice_set self.old.bags k (record { gens = gens.now; mods = mods.now }) }
        ensures spare { Uses self.old.spare self.new.spare no_records }
    {
        self.records_fit();
        self.clear_bag(k);
        self.insert_records(k, 0, &[], gens, 0, mods);
    }

    // The law that the numbers of generators and modulators fit into 16 bits, since the terminal bag has them. It does
    // nothing.
    fn records_fit(&self)
        ensures gens { length (gens_in self.now.bags) < 2 ^ 16 }
        ensures mods { length (mods_in self.now.bags) < 2 ^ 16 }
    {
        let _counts = index(&self.bags, self.bags.len() - 1);
    }

    /// Inserts generators into bag k from index j, into reserved capacity. Allocates nothing.
    pub fn put_gens(&mut self, k: usize, j: usize, gens: &[(u16, u16)])
        requires place { IsSomeAnd (slice_get self.old.bags k) (λ (b : Bag). j ≤ length b.gens) }
        requires room { length gens.now ≤ self.old.spare.gens }
        requires limit { length (gens_in self.old.bags) + length gens.now < 2 ^ 16 }
        ensures bags { self.new.bags ≡ changed self.old.bags k (λ (b : Bag). with_gens (put b.gens j gens.now) b) }
        ensures spare { Uses self.old.spare self.new.spare (record { bags = 0; gens = length gens.now; mods = 0 }) }
    {
        self.insert_records(k, j, &[], gens, 0, &[]);
    }

    /// Removes n generators of bag k from index j. Allocates nothing.
    pub fn cut_gens(&mut self, k: usize, j: usize, n: usize)
        requires { IsSomeAnd (slice_get self.old.bags k) (λ (b : Bag). j + n ≤ length b.gens) }
        ensures bags { self.new.bags ≡ changed self.old.bags k (λ (b : Bag). with_gens (cut b.gens j n) b) }
        ensures spare { Frees self.old.spare self.new.spare (record { bags = 0; gens = n; mods = 0 }) }
    {
        self.remove_records(k, j, n, 0, 0);
    }

    /// Sets generator j of bag k to an operator and its amount. Allocates nothing.
    pub fn set_gen(&mut self, k: usize, j: usize, pair: (u16, u16))
        requires place { IsSomeAnd (slice_get self.old.bags k) (λ (b : Bag). j < length b.gens) }
        ensures bags { self.new.bags ≡ changed self.old.bags k (λ (b : Bag). with_gens (slice_set b.gens j pair) b) }
        ensures spare { self.new.spare ≡ self.old.spare }
    {
        let at = self.bags[k].0 as usize + j;
        self.gens[at] = pair;
    }

    /// Inserts modulators into bag k from index j, into reserved capacity. Allocates nothing.
    pub fn put_mods(&mut self, k: usize, j: usize, mods: &[Modulator])
        requires place { IsSomeAnd (slice_get self.old.bags k) (λ (b : Bag). j ≤ length b.mods) }
        requires room { length mods.now ≤ self.old.spare.mods }
        requires limit { length (mods_in self.old.bags) + length mods.now < 2 ^ 16 }
        ensures bags { self.new.bags ≡ changed self.old.bags k (λ (b : Bag). with_mods (put b.mods j mods.now) b) }
        ensures spare { Uses self.old.spare self.new.spare (record { bags = 0; gens = 0; mods = length mods.now }) }
    {
        self.insert_records(k, 0, &[], &[], j, mods);
    }

    /// Removes n modulators of bag k from index j. Allocates nothing.
    pub fn cut_mods(&mut self, k: usize, j: usize, n: usize)
        requires { IsSomeAnd (slice_get self.old.bags k) (λ (b : Bag). j + n ≤ length b.mods) }
        ensures bags { self.new.bags ≡ changed self.old.bags k (λ (b : Bag). with_mods (cut b.mods j n) b) }
        ensures spare { Frees self.old.spare self.new.spare (record { bags = 0; gens = 0; mods = n }) }
    {
        self.remove_records(k, 0, 0, j, n);
    }

    /// Replaces modulator j of bag k. Allocates nothing.
    pub fn set_mod(&mut self, k: usize, j: usize, modulator: Modulator)
        requires place { IsSomeAnd (slice_get self.old.bags k) (λ (b : Bag). j < length b.mods) }
        ensures bags { self.new.bags ≡ changed self.old.bags k (λ (b : Bag). with_mods (slice_set b.mods j modulator) b) }
        ensures spare { self.new.spare ≡ self.old.spare }
    {
        let at = self.bags[k].1 as usize + j;
        self.mods[at] = modulator;
    }

    /// Exchanges the bags `a..b` with the bags `b..c`. Allocates nothing.
    pub fn rotate(&mut self, a: usize, b: usize, c: usize)
        requires first { a ≤ b }
        requires second { b ≤ c }
        requires last { c ≤ length self.old.bags }
        ensures bags { self.new.bags ≡ exchanged self.old.bags a b c }
        ensures spare { self.new.spare ≡ self.old.spare }
    {
        let start = index(&self.bags, a);
        let middle = index(&self.bags, b);
        let stop = index(&self.bags, c);
        exchange_within(&mut self.gens, start.0, middle.0, stop.0);
        exchange_within(&mut self.mods, start.1, middle.1, stop.1);
        let down = ((middle.0 - start.0) as u16, (middle.1 - start.1) as u16);
        let up = ((stop.0 - middle.0) as u16, (stop.1 - middle.1) as u16);
        exchange_indexes(&mut self.bags, a, b, c, down, up);
    }
}
