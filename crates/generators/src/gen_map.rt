//! The generators that a zone sets.
ghost use Rattle.std.specs.Prelude.{◌≡◌, ◌↔◌, ◌≤◌, ◌<◌, ◌+◌, ℕ, length, IsTrue, IsSome, IsOk, IfOk, IfErr, OnOk, OnErr, slice_get};
ghost use Rattle.std.specs.FinMap as map;
ghost use Rattle.generators.specs.Gens.{rank, FitGens, AreInOrder, AreGens};
ghost use Rattle.generators.specs.Indexes.{IsAt, IsInsertionIndex, operator_at};

use crate::operators;
use sf_base::OutOfMemory;
use std::alloc::Global;
use std::marker::Model;

/// A finite map from operators to amounts, in canonical order: `keyRange`, then `velRange`, then the other operators by
/// number.
///
/// This is an order in which a file may have them, since it begins with the ranges (SoundFont 2.04, section 8.1.2).
#[derive(Debug)]
pub struct GenMap {
    // In canonical order, each operator once.
    entries: Vec<(u16, u16)>,
}

// Not derived: a derived `drop` is inlined, and proved, wherever a value is dropped; this one is a call.
impl Drop for GenMap {
    fn drop(self) {
        let GenMap { entries: _ } = self;
    }
}

impl Model for GenMap {
    ghost use Rattle.std.specs.FinMap as map;
    ghost use Rattle.std.specs.Coded.{coded_ℕ};
    ghost use Rattle.generators.specs.Gens.{Gens, AreGens};

    ghost Value = { Gens };

    ghost coded = { map.code coded_ℕ coded_ℕ };

    ghost view = { λ m. map.from_sorted m.entries.items };

    ghost invariant = { λ m. AreGens m.entries.items };
}

impl GenMap {
    /// Makes an empty map. Allocates nothing.
    pub fn new(alloc: Global) -> GenMap
        ensures { result ≡ map.empty }
    {
        GenMap {
            entries: Vec::new(alloc),
        }
    }

    /// Makes a map of a copy of entries that are in canonical order, each operator once.
    pub fn from_entries(alloc: Global, entries: &[(u16, u16)]) -> Result<GenMap, OutOfMemory>
        requires { AreGens entries.now }
        ensures { IfOk result (λ m. map.entries m ≡ entries.now) }
    {
        Ok(GenMap {
            entries: Vec::from_slice(alloc, entries)?,
        })
    }

    /// The number of operators that are set.
    pub fn len(&self) -> usize
        ensures counted { result ≡ map.len self.now }
        ensures few { result ≤ 65536 }
        ensures fit { FitGens self.now }
    {
        self.entries.len()
    }

    /// Whether no operator is set.
    pub fn is_empty(&self) -> bool
        ensures { IsTrue result ↔ (self.now ≡ map.empty) }
    {
        self.entries.is_empty()
    }

    /// The amount of an operator, or `None` if it is not set.
    pub fn get(&self, operator: u16) -> Option<u16>
        ensures { result ≡ map.get self.now operator }
    {
        match self.search(operator) {
            Ok(at) => Some(self.entries[at].1),
            Err(_) => None,
        }
    }

    /// The operator and the amount at an index of the canonical order, or `None` past the end.
    pub fn at(&self, index: usize) -> Option<(u16, u16)>
        ensures { result ≡ slice_get (map.entries self.now) index }
    {
        self.entries.get(index).copied()
    }

    /// The operators that are set with their amounts, in canonical order.
    pub fn entries(&self) -> &[(u16, u16)]
        ensures all { result.now ≡ map.entries self.now }
        ensures fit { FitGens self.now }
    {
        self.entries.as_slice()
    }

    /// Sets an operator, and returns its former amount. It allocates only for an operator that is not set; a failed
    /// allocation changes nothing.
    pub fn set(&mut self, operator: u16, amount: u16) -> Result<Option<u16>, OutOfMemory>
        ensures was { IfOk result (λ was. was ≡ map.get self.old operator) }
        ensures ok { OnOk result (self.new ≡ map.insert self.old operator amount) }
        ensures err { OnErr result (self.new ≡ self.old) }
        ensures needs_no_memory { IsSome (map.get self.old operator) → IsOk result }
    {
        match self.search(operator) {
            Ok(at) => {
                let was = self.entries[at].1;
                self.entries[at] = (operator, amount);
                Ok(Some(was))
            }
            Err(at) => {
                self.entries.insert(at, (operator, amount))?;
                Ok(None)
            }
        }
    }

    /// Clears an operator, and returns its former amount. Allocates nothing.
    pub fn clear(&mut self, operator: u16) -> Option<u16>
        ensures was { result ≡ map.get self.old operator }
        ensures cleared { self.new ≡ map.remove self.old operator }
    {
        match self.search(operator) {
            Ok(at) => Some(self.entries.remove(at).1),
            Err(_) => None,
        }
    }

    /// Makes a copy of the map.
    pub fn copy(&self, alloc: Global) -> Result<GenMap, OutOfMemory>
        ensures { IfOk result (λ copy. copy ≡ self.now) }
    {
        Ok(GenMap {
            entries: Vec::from_slice(alloc, &self.entries)?,
        })
    }

    // The index of the operator, or else the index at which it would be inserted.
    fn search(&self, operator: u16) -> Result<usize, usize>
        ensures found { IfOk result (λ at. IsAt (map.entries self.now) operator at) }
        ensures absent { IfErr result (λ at. IsInsertionIndex (map.entries self.now) operator at) }
    {
        search_entries(&self.entries, operator)
    }
}

/// The index of an operator among entries in canonical order, each operator once, or else the index at which it would
/// be inserted.
pub fn search_entries(entries: &[(u16, u16)], operator: u16) -> Result<usize, usize>
    requires { AreInOrder entries.now }
    ensures found { IfOk result (λ at. IsAt entries.now operator at) }
    ensures absent { IfErr result (λ at. IsInsertionIndex entries.now operator at) }
{
    entries.binary_search_by_key(&rank(operator), |&(other, _)| rank(other))
}

/// Whether entries are in canonical order, each operator once.
pub fn are_in_order(entries: &[(u16, u16)]) -> bool
    ensures { IsTrue result ↔ AreInOrder entries.now }
{
    ranks_rise(entries)
}

fn ranks_rise(entries: &[(u16, u16)]) -> bool
    ensures { IsTrue result ↔ ((k : ℕ) → k + 1 < length entries.now → rank (operator_at entries.now k) < rank (operator_at entries.now (k + 1))) }
{
    for k in 1..entries.len() {
        if rank(entries[k].0) <= rank(entries[k - 1].0) {
            return false;
        }
    }
    true
}

// The rank of an operator in the canonical order.
fn rank(operator: u16) -> u32
    ensures { result ≡ rank operator }
{
    match operator {
        operators::KEY_RANGE => 0,
        operators::VEL_RANGE => 1,
        _ => operator as u32 + 2,
    }
}
