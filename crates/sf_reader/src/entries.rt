//! Generator maps stored as the last entries of a list.
ghost use Rattle.std.specs.Prelude.{◌≡◌, take, OnOk};
ghost use Rattle.std.specs.FinMap.{insert};
ghost use Rattle.sf_reader.specs.Entries.{EndsInMap, map_from};
ghost use Rattle.sf_reader.specs.Gens.{repaired_at, is_out_of_order};
ghost use Rattle.bank_format.specs.Zones.{repaired_range};

use generators::{Range, search_entries};
use sf_base::OutOfMemory;

/// The highest key and the highest velocity.
const HIGHEST: u8 = 127;

/// Sets an operator in the map of the entries from `start` on. It keeps the entries sorted.
pub(crate) fn set_from(
    entries: &mut Vec<(u16, u16)>,
    start: usize,
    operator: u16,
    amount: u16,
) -> Result<(), OutOfMemory>
    requires { EndsInMap start entries.old.items }
    ensures front { take start entries.new.items ≡ take start entries.old.items }
    ensures map { EndsInMap start entries.new.items }
    ensures set { OnOk result (map_from start entries.new.items ≡ insert (map_from start entries.old.items) operator amount) }
{
    match search_entries(&entries[start..], operator) {
        Ok(at) => {
            entries[start + at] = (operator, amount);
            Ok(())
        }
        Err(at) => {
            entries.insert(start + at, (operator, amount))?;
            Ok(())
        }
    }
}

/// Repairs the range of an operator in that map, and returns whether it changed.
pub(crate) fn repair_from(entries: &mut Vec<(u16, u16)>, start: usize, operator: u16) -> bool
    requires { EndsInMap start entries.old.items }
    ensures front { take start entries.new.items ≡ take start entries.old.items }
    ensures map { EndsInMap start entries.new.items }
    ensures changed { result ≡ is_out_of_order operator (map_from start entries.old.items) }
    ensures repaired { map_from start entries.new.items ≡ repaired_at operator (map_from start entries.old.items) }
{
    let Ok(at) = search_entries(&entries[start..], operator) else {
        return false;
    };
    let amount = entries[start + at].1;
    let repaired = repaired_amount(amount);
    entries[start + at] = (operator, repaired);
    repaired != amount
}

// Lowers ends above 127 to 127, and exchanges ends in the wrong order.
fn repaired_amount(amount: u16) -> u16
    ensures { result ≡ repaired_range amount }
{
    let Range { low, high } = Range::of_amount(amount);
    let (low, high) = (low.min(HIGHEST), high.min(HIGHEST));
    let range = if low <= high {
        Range { low, high }
    } else {
        Range {
            low: high,
            high: low,
        }
    };
    range.to_amount()
}
