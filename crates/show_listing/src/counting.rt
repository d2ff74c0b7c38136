//! Counting numbers, and the numbers that a bank's zones and samples refer to.
ghost use Rattle.std.specs.Prelude.{◌≡◌, ◌<◌, ◌++◌, length, map, slice_get, IfSome, IfOk, OnOk};
ghost use Rattle.bank_parts.specs.declared.parts.Zone.{Zone};
ghost use Rattle.show_listing.specs.Uses.{tally, targets_in, other_link, links_in};

use bank_core::{Kind, Owners, Sample};
use bank_parts::OwnerHead;
use sf_base::OutOfMemory;
use std::alloc::Global;

/// Counts how often each number below `members` occurs in a list, in one pass.
pub(crate) fn tally(alloc: Global, members: usize, numbers: &[u16]) -> Result<Vec<u64>, OutOfMemory>
    ensures { IfOk result (λ counts. counts.items ≡ tally members numbers.now) }
{
    let mut counts = vec![in alloc; 0u64; members]?;
    for number in numbers {
        let at = usize::from(*number);
        if at < counts.len() {
            counts[at] += 1;
        }
    }
    Ok(counts)
}

/// Returns the targets of all zones of presets or of instruments.
pub(crate) fn targets<H: OwnerHead>(
    alloc: Global,
    owners: &Owners<H>,
) -> Result<Vec<u16>, OutOfMemory>
    ensures { IfOk result (λ found. found.items ≡ targets_in owners.now) }
{
    let mut found = Vec::new(alloc);
    for i in 0..owners.len() {
        push_targets(owners, i, &mut found)?;
    }
    Ok(found)
}

// Appends the targets of the zones of owner `i`, which exists.
fn push_targets<H: OwnerHead>(
    owners: &Owners<H>,
    i: usize,
    found: &mut Vec<u16>,
) -> Result<(), OutOfMemory>
    requires { i < length owners.now }
    ensures { OnOk result (IfSome (slice_get owners.now i) (λ x. found.new.items ≡ found.old.items ++ map (λ (z : Zone). z.target) x.zones)) }
{
    for k in 0..owners.zone_count(i) {
        found.push(owners.target(i, k))?;
    }
    Ok(())
}

/// Returns the samples that other samples link to.
pub(crate) fn links(alloc: Global, samples: &[Sample<'_>]) -> Result<Vec<u16>, OutOfMemory>
    ensures { IfOk result (λ found. found.items ≡ links_in samples.now) }
{
    let found = samples
        .iter()
        .enumerate()
        .filter_map(|(number, sample)| other_link(number, sample.kind))
        .collect(alloc)?;
    Ok(found)
}

// The sample that sample `number` links to, unless it is itself.
fn other_link(number: usize, kind: Kind) -> Option<u16>
    ensures { result ≡ other_link number kind }
{
    match kind {
        Kind::Mono => None,
        Kind::Right(link) | Kind::Left(link) | Kind::Linked(link) => {
            if usize::from(link) == number {
                None
            } else {
                Some(link)
            }
        }
    }
}
