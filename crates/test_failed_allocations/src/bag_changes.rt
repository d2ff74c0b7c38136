//! Changes of `Bags` that allocate nothing.
ghost use Rattle.std.specs.Prelude.{◌<◌, ◌≤◌, ◌+◌, length, slice_get};
ghost use Rattle.std.specs.Bool.{OnTrue};
ghost use Rattle.std.specs.Option.{IsSomeAnd};
ghost use Rattle.flat_records.specs.Bags.{Bag};

use flat_records::Bags;
use modulators::{DEFAULT_VELOCITY, Modulator};
use sf_base::OutOfMemory;
use std::alloc::Global;

static GENS: [(u16, u16); 2] = [(43, 5), (44, 6)];

static MODS: [Modulator; 1] = [DEFAULT_VELOCITY];

static OTHER: Modulator = Modulator {
    source: 2,
    dest: 17,
    amount: 500,
    amount_source: 0,
    transform: 0,
};

/// One bag, with spare capacity for what `changes_bags` inserts.
pub(crate) fn spare_bags(alloc: Global) -> Result<Bags, OutOfMemory> {
    let mut bags = Bags::new(alloc)?;
    let _ = put_bag(&mut bags, 0);
    bags.reserve(1, 3, 2)?;
    Ok(bags)
}

/// Inserts a bag, generators and modulators within the spare capacity, replaces some, exchanges both bags, and removes
/// one bag. Returns whether the lists of records were right.
pub(crate) fn changes_bags(bags: &mut Bags) -> bool {
    inserts_all(bags)
        && has(
            bags,
            &[(0, 0), (3, 2), (5, 3)],
            &[(43, 5), (44, 6), (17, 7), (43, 9), (44, 6), (0, 0)],
        )
        && removes_all(bags)
        && has(bags, &[(0, 0), (1, 0)], &[(1, 1), (0, 0)])
}

fn inserts_all(bags: &mut Bags) -> bool {
    put_bag(bags, 1)
        && put_gens(bags, 1, 2)
        && put_mods(bags, 1, 0)
        && set_gen(bags, 0, 0)
        && set_mod(bags, 0, 0)
        && rotate(bags, 1)
}

fn removes_all(bags: &mut Bags) -> bool {
    cut_gens(bags, 0, 1) && cut_mods(bags, 0, 0) && set_bag(bags, 0) && cut_bag(bags, 1)
}

// Whether these are the records; the last bag holds the number of modulators.
fn has(bags: &Bags, bag_records: &[(u16, u16)], gen_records: &[(u16, u16)]) -> bool {
    let Some((_, mods)) = bag_records.last() else {
        return false;
    };
    bags.bag_records() == bag_records
        && bags.gen_records() == gen_records
        && bags.mod_count() == *mods as usize
}

// Each function that inserts something first calls `reserve`, which allocates nothing within the spare capacity.

fn put_bag(bags: &mut Bags, k: usize) -> bool {
    if bags.reserve(1, 2, 1).is_err() || bags.gen_count() > 100 || bags.mod_count() > 100 {
        return false;
    }
    if k > bags.bag_count() {
        return false;
    }
    bags.put_bag(k, &GENS, &[], &MODS);
    true
}

fn put_gens(bags: &mut Bags, k: usize, j: usize) -> bool {
    if bags.reserve(0, 1, 0).is_err() || bags.gen_count() > 100 || bags.mod_count() > 100 {
        return false;
    }
    if !has_gens(bags, k, j) {
        return false;
    }
    bags.put_gens(k, j, &[(17, 7)]);
    true
}

fn put_mods(bags: &mut Bags, k: usize, j: usize) -> bool {
    if bags.reserve(0, 0, 1).is_err() || bags.gen_count() > 100 || bags.mod_count() > 100 {
        return false;
    }
    if !has_mods(bags, k, j) {
        return false;
    }
    bags.put_mods(k, j, &[OTHER]);
    true
}

fn set_gen(bags: &mut Bags, k: usize, j: usize) -> bool {
    if !has_gen(bags, k, j) {
        return false;
    }
    bags.set_gen(k, j, (43, 9));
    true
}

fn set_mod(bags: &mut Bags, k: usize, j: usize) -> bool {
    if !has_mod(bags, k, j) {
        return false;
    }
    bags.set_mod(k, j, OTHER);
    true
}

fn rotate(bags: &mut Bags, middle: usize) -> bool {
    let count = bags.bag_count();
    if middle > count {
        return false;
    }
    bags.rotate(0, middle, count);
    true
}

fn cut_gens(bags: &mut Bags, k: usize, j: usize) -> bool {
    if !has_gen(bags, k, j) {
        return false;
    }
    bags.cut_gens(k, j, 1);
    true
}

fn cut_mods(bags: &mut Bags, k: usize, j: usize) -> bool {
    if !has_mod(bags, k, j) {
        return false;
    }
    bags.cut_mods(k, j, 1);
    true
}

fn set_bag(bags: &mut Bags, k: usize) -> bool {
    if k >= bags.bag_count() || bags.gens(k).is_empty() {
        return false;
    }
    bags.set_bag(k, &[(1, 1)], &[]);
    true
}

fn cut_bag(bags: &mut Bags, k: usize) -> bool {
    if k >= bags.bag_count() {
        return false;
    }
    bags.cut_bag(k);
    true
}

// Whether the bag exists and has at least `count` generators.
fn has_gens(bags: &Bags, k: usize, count: usize) -> bool
    ensures { OnTrue result (IsSomeAnd (slice_get bags.now.bags k) (λ (b : Bag). count ≤ length b.gens)) }
{
    k < bags.bag_count() && count <= bags.gens(k).len()
}

fn has_mods(bags: &Bags, k: usize, count: usize) -> bool
    ensures { OnTrue result (IsSomeAnd (slice_get bags.now.bags k) (λ (b : Bag). count ≤ length b.mods)) }
{
    k < bags.bag_count() && count <= bags.mods(k).len()
}

// Whether the bag exists and has a generator at index `j`.
fn has_gen(bags: &Bags, k: usize, j: usize) -> bool
    ensures there { OnTrue result (IsSomeAnd (slice_get bags.now.bags k) (λ (b : Bag). j < length b.gens)) }
    ensures one { OnTrue result (IsSomeAnd (slice_get bags.now.bags k) (λ (b : Bag). j + 1 ≤ length b.gens)) }
{
    k < bags.bag_count() && j < bags.gens(k).len()
}

fn has_mod(bags: &Bags, k: usize, j: usize) -> bool
    ensures there { OnTrue result (IsSomeAnd (slice_get bags.now.bags k) (λ (b : Bag). j < length b.mods)) }
    ensures one { OnTrue result (IsSomeAnd (slice_get bags.now.bags k) (λ (b : Bag). j + 1 ≤ length b.mods)) }
{
    k < bags.bag_count() && j < bags.mods(k).len()
}
