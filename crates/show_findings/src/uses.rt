//! Which instruments and samples are used.
ghost use Rattle.std.specs.Prelude.{◌≡◌, ◌<◌, ◌++◌, ◌||◌, ℕ, false, cond, Some, None, length, get_or, OnOk, IfOk};
ghost use Rattle.std.specs.List.{filter_map};
ghost use Rattle.bank_changes.specs.Members.{target_of};
ghost use Rattle.show_zone_map.specs.Rectangles.{zone_numbers};
ghost use Rattle.show_findings.specs.Uses.{targets_of, other_link, links_in, has, unused_instruments, unused_samples};
ghost use Rattle.show_findings.specs.Numbers.{preset_owners, instrument_owners};
ghost use Rattle.show_findings.specs.declared.finding.Finding.TheVariants.{UnusedInstrument, UnusedSample};

use crate::finding::Finding;
use crate::gathering::{count_in, instruments_of, presets_of, push_option};
use bank_core::{Bank, List, Owner};
use sf_base::OutOfMemory;
use std::alloc::Global;
use zone_select::zones_in;

/// Appends the instruments that no zone targets.
pub(crate) fn push_unused_instruments(
    alloc: Global,
    bank: &Bank<'_>,
    found: &mut Vec<Finding>,
) -> Result<(), OutOfMemory>
    ensures { OnOk result (found.new.items ≡ found.old.items ++ unused_instruments bank.now) }
{
    let used = used_instruments(alloc, bank)?;
    for instrument in 0..count_in(bank, List::Instruments) {
        push_option(found, unused_instrument(used.as_slice(), instrument))?;
    }
    Ok(())
}

// Whether a zone of a preset targets each instrument.
fn used_instruments(alloc: Global, bank: &Bank<'_>) -> Result<Vec<bool>, OutOfMemory>
    ensures { IfOk result (λ used. (n : ℕ) → n < length bank.now.instruments → get_or used.items n false ≡ has (targets_of bank.now (preset_owners bank.now)) n) }
{
    let owners = presets_of(alloc, bank)?;
    let targets = targets_of(alloc, bank, owners.as_slice())?;
    flags(alloc, count_in(bank, List::Instruments), targets.as_slice())
}

fn unused_instrument(used: &[bool], instrument: u32) -> Option<Finding>
    ensures { result ≡ cond (get_or used.now instrument false) None (Some (UnusedInstrument instrument)) }
{
    if is_marked(used, instrument) {
        return None;
    }
    Some(Finding::UnusedInstrument { instrument })
}

/// Appends the samples that no zone targets and no other sample links to.
pub(crate) fn push_unused_samples(
    alloc: Global,
    bank: &Bank<'_>,
    found: &mut Vec<Finding>,
) -> Result<(), OutOfMemory>
    ensures { OnOk result (found.new.items ≡ found.old.items ++ unused_samples bank.now) }
{
    let used = used_samples(alloc, bank)?;
    for sample in 0..count_in(bank, List::Samples) {
        push_option(found, unused_sample(used.as_slice(), sample))?;
    }
    Ok(())
}

// Whether a zone of an instrument targets each sample, or another sample links to it.
fn used_samples(alloc: Global, bank: &Bank<'_>) -> Result<Vec<bool>, OutOfMemory>
    ensures { IfOk result (λ used. (n : ℕ) → n < length bank.now.samples → get_or used.items n false ≡ (has (targets_of bank.now (instrument_owners bank.now)) n || has (links_in bank.now) n)) }
{
    let owners = instruments_of(alloc, bank)?;
    let targets = targets_of(alloc, bank, owners.as_slice())?;
    let links = links_of(alloc, bank)?;
    let mut used = flags(alloc, count_in(bank, List::Samples), targets.as_slice())?;
    mark(used.as_mut_slice(), links.as_slice());
    Ok(used)
}

fn unused_sample(used: &[bool], sample: u32) -> Option<Finding>
    ensures { result ≡ cond (get_or used.now sample false) None (Some (UnusedSample sample)) }
{
    if is_marked(used, sample) {
        return None;
    }
    Some(Finding::UnusedSample { sample })
}

// For each number below a count, whether it is among these.
fn flags(alloc: Global, count: u32, numbers: &[u16]) -> Result<Vec<bool>, OutOfMemory>
    ensures length { IfOk result (λ used. length used.items ≡ count) }
    ensures marks { IfOk result (λ used. (n : ℕ) → n < count → get_or used.items n false ≡ has numbers.now n) }
{
    let mut used = vec![in alloc; false; count as usize]?;
    mark(used.as_mut_slice(), numbers);
    Ok(used)
}

// The targets of all zones of these owners.
fn targets_of(alloc: Global, bank: &Bank<'_>, owners: &[Owner]) -> Result<Vec<u16>, OutOfMemory>
    ensures { IfOk result (λ found. found.items ≡ targets_of bank.now owners.now) }
{
    let mut found = Vec::new(alloc);
    for owner in owners {
        push_targets(bank, *owner, &mut found)?;
    }
    Ok(found)
}

fn push_targets(bank: &Bank<'_>, owner: Owner, found: &mut Vec<u16>) -> Result<(), OutOfMemory>
    ensures { OnOk result (found.new.items ≡ found.old.items ++ filter_map (target_of bank.now owner) (zone_numbers bank.now owner)) }
{
    for zone in 0..zones_in(bank, owner) {
        push_option(found, bank.target(owner, zone))?;
    }
    Ok(())
}

// The samples that other samples link to.
fn links_of(alloc: Global, bank: &Bank<'_>) -> Result<Vec<u16>, OutOfMemory>
    ensures { IfOk result (λ found. found.items ≡ links_in bank.now) }
{
    let mut found = Vec::new(alloc);
    for sample in 0..count_in(bank, List::Samples) {
        push_option(&mut found, other_link(bank, sample))?;
    }
    Ok(found)
}

// The sample that a sample links to, unless it is itself.
fn other_link(bank: &Bank<'_>, sample: u32) -> Option<u16>
    ensures { result ≡ other_link bank.now sample }
{
    let link = bank.sample(sample)?.kind.link()?;
    if u32::from(link) == sample {
        return None;
    }
    Some(link)
}

// Marks the members with these numbers.
fn mark(used: &mut [bool], numbers: &[u16])
    ensures length { length used.new ≡ length used.old }
    ensures marks { (n : ℕ) → n < length used.old → get_or used.new n false ≡ (get_or used.old n false || has numbers.now n) }
{
    for number in numbers {
        let at = usize::from(*number);
        if at < used.len() {
            used[at] = true;
        }
    }
}

fn is_marked(used: &[bool], number: u32) -> bool
    ensures { result ≡ get_or used.now number false }
{
    used.get(number as usize).copied().unwrap_or(false)
}
