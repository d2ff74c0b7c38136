//! Insertion, removal and moves of owners, and moves of bags of one owner.
ghost use Rattle.std.specs.Prelude.{◌≡◌, ◌≤◌, ◌<◌, ◌+◌, length, insert, remove, slice_get, [], Some, slice_set};
ghost use Rattle.std.specs.Option.{IsSomeAnd};
ghost use Rattle.base_numbered_lists.specs.Moved.{moved, changed};
ghost use Rattle.flat_records.specs.Runs.{exchanged};

use crate::bags::Bags;
use crate::index_shift::exchange_indexes;
use crate::owned::{OwnerBags, place};
use crate::pieces::put_one_within;

impl OwnerBags {
    /// Inserts an owner without bags as number `i`, into reserved capacity; the numbers of later owners grow by one.
    /// Allocates nothing.
    pub fn insert_empty_owner(&mut self, i: usize)
        requires place { i ≤ length self.old.owners }
        requires room { 0 < self.old.spare_owners }
        ensures owners { self.new.owners ≡ insert self.old.owners i [] }
        ensures spare { self.new.spare ≡ self.old.spare }
        ensures spare_owners { self.old.spare_owners ≤ self.new.spare_owners + 1 }
    {
        let begin = self.begins[i];
        put_one_within(&mut self.begins, i, begin);
    }

    // Removes an owner without bags.
    fn remove_empty_owner(&mut self, i: usize)
        requires { slice_get self.old.owners i ≡ Some [] }
        ensures owners { self.new.owners ≡ remove self.old.owners i }
    {
        self.begins.remove(i);
    }

    /// Moves owner `from` to index `to`; the others keep their order. Allocates nothing.
    #[tactic(auto, using(crate::proofs::OwnerRotations::moved_up, crate::proofs::OwnerRotations::moved_down))]
    pub fn move_owner(&mut self, from: usize, to: usize)
        requires from { from < length self.old.owners }
        requires to { to < length self.old.owners }
        ensures owners { self.new.owners ≡ moved self.old.owners from to }
        ensures spare { self.new.spare ≡ self.old.spare }
        ensures spare_owners { self.new.spare_owners ≡ self.old.spare_owners }
    {
        let _count = self.owner_count();
        if from <= to {
            self.rotate(from, from + 1, to + 1);
        } else {
            self.rotate(to, from, from + 1);
        }
    }

    // Exchanges the owners `a..b` with the owners `b..c`.
    fn rotate(&mut self, a: usize, b: usize, c: usize)
        requires first { a ≤ b }
        requires second { b ≤ c }
        requires last { c ≤ length self.old.owners }
        ensures owners { self.new.owners ≡ exchanged self.old.owners a b c }
        ensures spare { self.new.spare ≡ self.old.spare }
        ensures spare_owners { self.new.spare_owners ≡ self.old.spare_owners }
    {
        let start = self.begins[a];
        let middle = self.begins[b];
        let stop = self.begins[c];
        self.bags
            .rotate(start as usize, middle as usize, stop as usize);
        exchange_indexes(&mut self.begins, a, b, c, middle - start, stop - middle);
    }

    /// Moves bag `from` of owner `i` to index `to`; all must exist. Its other bags keep their order. Allocates nothing.
    pub fn move_bag(&mut self, i: usize, from: usize, to: usize)
        requires from { IsSomeAnd (slice_get self.old.owners i) (λ bags. from < length bags) }
        requires to { IsSomeAnd (slice_get self.old.owners i) (λ bags. to < length bags) }
        ensures owners { self.new.owners ≡ changed self.old.owners i (λ bags. moved bags from to) }
        ensures spare { self.new.spare ≡ self.old.spare }
        ensures spare_owners { self.new.spare_owners ≡ self.old.spare_owners }
    {
        let first = place(&self.begins, i, from);
        let second = place(&self.begins, i, to);
        move_within(&mut self.bags, first, second);
    }

    /// Removes owner `i`, which must exist, with its bags; the numbers of later owners fall by one. Allocates nothing.
    pub fn cut_owner(&mut self, i: usize)
        requires { i < length self.old.owners }
        ensures { self.new.owners ≡ remove self.old.owners i }
    {
        let last = self.owner_count() - 1;
        self.move_owner(i, last);
        self.clear_owner(last);
        self.remove_empty_owner(last);
    }

    // Removes all bags of an owner, the last one first.
    fn clear_owner(&mut self, i: usize)
        requires { i < length self.old.owners }
        ensures { self.new.owners ≡ slice_set self.old.owners i [] }
    {
        let mut left = self.bag_count(i);
        while left > 0 {
            left -= 1;
            self.cut_bag(i, left);
        }
    }
}

#[tactic(auto, using(crate::proofs::OwnerRotations::moved_up, crate::proofs::OwnerRotations::moved_down))]
fn move_within(bags: &mut Bags, from: usize, to: usize)
    requires from { from < length bags.old.bags }
    requires to { to < length bags.old.bags }
    ensures bags { bags.new.bags ≡ moved bags.old.bags from to }
    ensures spare { bags.new.spare ≡ bags.old.spare }
{
    let _count = bags.bag_count();
    if from <= to {
        bags.rotate(from, from + 1, to + 1);
    } else {
        bags.rotate(to, from, from + 1);
    }
}
