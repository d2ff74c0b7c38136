//! The generators of one bag.
ghost use Rattle.std.specs.Prelude.{◌≡◌, ◌≤◌, ◌+◌, ◌++◌, length, take, IfOk, OnOk};
ghost use Rattle.std.specs.FinMap.{entries};
ghost use Rattle.bank_format.specs.Zones.{target_of, gens_read};
ghost use Rattle.generators.specs.Gens.{set_in_order};
ghost use Rattle.sf_reader.specs.Entries.{EndsInMap, map_from};
ghost use Rattle.sf_reader.specs.Gens.{entries_in, gens_read_of, is_out_of_order, repaired_at, one_if};

use crate::entries::{repair_from, set_from};
use generators::operators::{KEY_RANGE, VEL_RANGE};
use generators::{Level, allowed};
use hydra_records::{Generator, Table};
use sf_base::OutOfMemory;

/// What is read from the generator records of a bag, besides the generators that are kept.
#[derive(Drop)]
pub(crate) struct GensRead {
    /// The amount of the first target record.
    pub(crate) target: Option<u16>,
    /// The number of records that are neither kept nor the target.
    pub(crate) dropped: u64,
    /// The number of ranges that were repaired.
    pub(crate) ranges: u64,
}

/// Reads the generator records of a bag, and appends those that are kept to `gens`, with repaired ranges.
pub(crate) fn read_gens(
    gens: &mut Vec<(u16, u16)>,
    level: Level,
    records: &Table<'_, Generator>,
) -> Result<GensRead, OutOfMemory>
    ensures all { IfOk result (λ read. read ≡ gens_read_of level records.now) }
    ensures gens { OnOk result (gens.new.items ≡ gens.old.items ++ entries (gens_read level records.now)) }
    ensures dropped { IfOk result (λ read. read.dropped ≤ length records.now) }
    ensures ranges { IfOk result (λ read. read.ranges ≤ 2) }
{
    let start = gens.len();
    let target = set_gens(gens, start, level, records)?;
    let used = gens.len() - start + usize::from(target.is_some());
    let dropped = (records.len() - used) as u64;
    let ranges = repair_ranges(gens, start);
    Ok(GensRead {
        target,
        dropped,
        ranges,
    })
}

// Sets the allowed generators before the target in the map of the entries from `start` on, and returns the target.
fn set_gens(
    gens: &mut Vec<(u16, u16)>,
    start: usize,
    level: Level,
    records: &Table<'_, Generator>,
) -> Result<Option<u16>, OutOfMemory>
    requires { EndsInMap start gens.old.items }
    ensures front { take start gens.new.items ≡ take start gens.old.items }
    ensures map { EndsInMap start gens.new.items }
    ensures target { IfOk result (λ target. target ≡ target_of level records.now) }
    ensures set { OnOk result (map_from start gens.new.items ≡ set_in_order (map_from start gens.old.items) (entries_in level records.now)) }
{
    for record in records.iter() {
        if record.operator == level.target_operator() {
            return Ok(Some(record.amount));
        }
        if allowed(record.operator, level) {
            set_from(gens, start, record.operator, record.amount)?;
        }
    }
    Ok(None)
}

// Repairs the key range and the velocity range in that map, and returns how many changed.
fn repair_ranges(gens: &mut Vec<(u16, u16)>, start: usize) -> u64
    requires { EndsInMap start gens.old.items }
    ensures front { take start gens.new.items ≡ take start gens.old.items }
    ensures map { EndsInMap start gens.new.items }
    ensures count { result ≡ one_if (is_out_of_order 43 (map_from start gens.old.items)) + one_if (is_out_of_order 44 (map_from start gens.old.items)) }
    ensures repaired { map_from start gens.new.items ≡ repaired_at 44 (repaired_at 43 (map_from start gens.old.items)) }
{
    let keys = repair_from(gens, start, KEY_RANGE);
    let velocities = repair_from(gens, start, VEL_RANGE);
    u64::from(keys) + u64::from(velocities)
}
