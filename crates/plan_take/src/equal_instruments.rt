//! Instruments of a bank that are equal but for their names. They are found by hash keys, and compared.
ghost use Rattle.std.specs.Prelude.{◌≡◌, ◌<◌, length};

use crate::existing_instruments::instrument_key;
use crate::member_index::MemberIndex;
use crate::names::Names;
use crate::new_targets::set_targets;
use crate::numbers::{set_number, step_number};
use crate::zone_matches::is_renumbered;
use bank_core::{Bank, Owner, Owners};
use edit_drafts::{Draft, Stop};
use sf_base::{Name20, OutOfMemory};
use std::alloc::Global;

/// Sets the targets of the zones of all instruments but those that then are equal to earlier ones, whatever their
/// names. Returns for each instrument the number of the first one that is equal.
pub(crate) fn set_instrument_targets(
    alloc: Global,
    draft: &mut Draft<'_, '_>,
    instruments: &Owners<Name20>,
    samples: &[Option<u16>],
) -> Result<Vec<Option<u16>>, Stop>
    ensures { draft.new.first ≡ draft.old.first }
{
    let index = index_of(alloc, instruments, samples)?;
    let mut numbers = vec![in alloc; None; instruments.len()]?;
    for i in 0..instruments.len() {
        let number = set_if_first(alloc, draft, instruments, &index, samples, i)?;
        set_number(numbers.as_mut_slice(), i, number);
    }
    Ok(numbers)
}

fn index_of(
    alloc: Global,
    instruments: &Owners<Name20>,
    samples: &[Option<u16>],
) -> Result<MemberIndex, OutOfMemory> {
    let mut keys = Vec::with_capacity(alloc, instruments.len())?;
    for i in 0..instruments.len() {
        keys.push(key_of(instruments, i, samples))?;
    }
    MemberIndex::new(alloc, keys.as_slice())
}

// The key of instrument `i` with its targets renumbered, whatever its name.
fn key_of(instruments: &Owners<Name20>, i: usize, samples: &[Option<u16>]) -> u64 {
    instrument_key(instruments, i, Some(samples), Names::Ignored)
}

// Sets the targets of instrument `i`, unless it is equal to an earlier one. Returns the number of the first one that is
// equal.
fn set_if_first(
    alloc: Global,
    draft: &mut Draft<'_, '_>,
    instruments: &Owners<Name20>,
    index: &MemberIndex,
    samples: &[Option<u16>],
    i: usize,
) -> Result<Option<u16>, Stop>
    requires { i < length instruments.now }
    ensures { draft.new.first ≡ draft.old.first }
{
    let earlier = earlier_equal(draft.bank(), instruments, index, samples, i);
    if earlier.is_none() {
        let owner = Owner::Inst(step_number(i));
        set_targets(alloc, draft, owner, instruments, i, samples)?;
        return Ok(u16::try_from(i).ok());
    }
    Ok(earlier)
}

// The first instrument with the key of instrument `i`, if it is an earlier one. In the edited bank its targets are set.
fn earlier_equal(
    edited: &Bank<'_>,
    instruments: &Owners<Name20>,
    index: &MemberIndex,
    samples: &[Option<u16>],
    i: usize,
) -> Option<u16> {
    let first = index.first(key_of(instruments, i, samples))?;
    if first < i && is_renumbered(instruments, i, edited.instruments(), first, samples) {
        return u16::try_from(first).ok();
    }
    None
}
