//! The flat lists of records of one level, while they are built.
ghost use Rattle.std.specs.Prelude.{◌≡◌, ◌≤◌, ◌-◌, ◌++◌, ◌∷◌, [], List, length, IfOk, OnOk};
ghost use Rattle.std.specs.FinMap.{entries};
ghost use Rattle.sf_reader.specs.declared.records.RecordsSoFar.{RecordsSoFar};
ghost use Rattle.flat_records.specs.Bags.{Bag, tables_of};
ghost use Rattle.bank_parts.specs.declared.parts.GlobalZone.{GlobalZone};
ghost use Rattle.bank_parts.specs.Bagged.{global_bags};
ghost use Rattle.sf_reader.specs.Records.{AreSoFar, Appends, HoldsGens, EndsBag};

use bank_core::Recs;
use hydra_records::Table;
use modulators::Modulator;
use sf_base::OutOfMemory;
use std::alloc::Global;

/// The terminal of a list of modulators.
const LAST_MODULATOR: Modulator = Modulator {
    source: 0,
    dest: 0,
    amount: 0,
    amount_source: 0,
    transform: 0,
};

/// The bags, generators and modulators of a level read so far. Generators and modulators have no terminals yet.
#[derive(Drop)]
pub(crate) struct RecordsSoFar {
    pub(crate) bags: Vec<(u16, u16)>,
    pub(crate) gens: Vec<(u16, u16)>,
    pub(crate) mods: Vec<Modulator>,
}

impl RecordsSoFar {
    /// Completes the lists with their terminals.
    pub(crate) fn ended(self) -> Result<Recs, OutOfMemory>
        ensures { IfOk result (λ recs. (all : List Bag) → AreSoFar self all → recs ≡ tables_of all) }
    {
        let RecordsSoFar {
            bags,
            mut gens,
            mut mods,
        } = self;
        gens.push((0, 0))?;
        mods.push(LAST_MODULATOR)?;
        Ok(Recs { bags, gens, mods })
    }
}

/// Empty lists with capacity for these numbers of records.
pub(crate) fn empty_records(
    alloc: Global,
    bags: usize,
    gens: usize,
    mods: usize,
) -> Result<RecordsSoFar, OutOfMemory>
    ensures { IfOk result (λ records. AreSoFar records []) }
{
    let mut bags = Vec::with_capacity(alloc, bags)?;
    bags.push((0, 0))?;
    let gens = Vec::with_capacity(alloc, gens)?;
    let mods = Vec::with_capacity(alloc, mods)?;
    Ok(RecordsSoFar { bags, gens, mods })
}

/// Completes the bag of a zone, whose generators are already in the list, with its target (an operator and its
/// amount) and its modulators.
pub(crate) fn end_zone(
    records: &mut RecordsSoFar,
    target: (u16, u16),
    modulators: &Table<'_, Modulator>,
) -> Result<(), OutOfMemory>
    ensures { OnOk result (EndsBag records.old records.new (target ∷ []) modulators.now) }
{
    records.gens.push(target)?;
    end_bag(records, modulators)
}

/// Completes the bag of a global zone, whose generators are the entries from `start` on. An empty global zone has no
/// bag.
pub(crate) fn end_global(
    records: &mut RecordsSoFar,
    start: usize,
    modulators: &Table<'_, Modulator>,
) -> Result<(), OutOfMemory>
    requires { start ≤ length records.old.gens.items }
    ensures { OnOk result ((before : RecordsSoFar) (g : GlobalZone) → HoldsGens before records.old (entries g.gens) → start ≡ length before.gens.items
        → g.mods ≡ modulators.now → Appends before records.new (global_bags g)) }
{
    let gens = records.gens.len() - start;
    let mods = modulators.len();
    if gens == 0 && mods == 0 {
        return Ok(());
    }
    end_bag(records, modulators)
}

// Completes a bag, whose generators are already in the list, with its modulators.
fn end_bag(records: &mut RecordsSoFar, modulators: &Table<'_, Modulator>) -> Result<(), OutOfMemory>
    ensures { OnOk result (EndsBag records.old records.new [] modulators.now) }
{
    push_mods(&mut records.mods, modulators)?;
    let gens = index(records.gens.len())?;
    let mods = index(records.mods.len())?;
    records.bags.push((gens, mods))?;
    Ok(())
}

// Appends modulators.
fn push_mods(
    mods: &mut Vec<Modulator>,
    modulators: &Table<'_, Modulator>,
) -> Result<(), OutOfMemory>
    ensures { OnOk result (mods.new.items ≡ mods.old.items ++ modulators.now) }
{
    for modulator in modulators.iter() {
        mods.push(modulator)?;
    }
    Ok(())
}

/// Returns the number of bags as an index.
pub(crate) fn bag_count(records: &RecordsSoFar) -> Result<u16, OutOfMemory>
    ensures { IfOk result (λ count. count ≡ length records.now.bags.items - 1) }
{
    index(records.bags.len().saturating_sub(1))
}

// Converts a count to a 16-bit index. The lists of a file that passes its checks are never longer.
fn index(count: usize) -> Result<u16, OutOfMemory>
    ensures { IfOk result (λ index. index ≡ count) }
{
    if count > u16::MAX as usize {
        return Err(OutOfMemory);
    }
    Ok(count as u16)
}
