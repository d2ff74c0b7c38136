//! All findings of a bank.
ghost use Rattle.std.specs.Prelude.{◌≡◌, ◌++◌, IfOk, OnOk};
ghost use Rattle.show_findings.specs.Kinds.{kind_of, AddsKind};
ghost use Rattle.show_findings.specs.Findings.{AreFindings, unused_findings, AddsZoneFindings};

use crate::equal_samples::equal_samples;
use crate::finding::Finding;
use crate::hidden::push_hidden_presets;
use crate::keys::silent_keys;
use crate::outside::outside_ranges;
use crate::overridden::push_overridden_generators;
use crate::points::{PointFacts, facts_of};
use crate::samples::push_sample_findings;
use crate::uses::{push_unused_instruments, push_unused_samples};
use crate::zones::push_unselectable_zones;
use bank_core::Bank;
use sf_base::OutOfMemory;
use std::alloc::Global;

// Indexes of kinds, in the order of their declaration.
const SILENT_KEYS: u8 = 4;

const OUTSIDE_RANGE: u8 = 6;

const EQUAL_SAMPLE: u8 = 14;

/// Returns all findings of a bank, grouped by kind in the order of [`Finding`], and ascending within a kind. It reads
/// the points of each sample once.
pub fn findings_of(alloc: Global, bank: &Bank<'_>) -> Result<Vec<Finding>, OutOfMemory>
    ensures { IfOk result (λ found. AreFindings bank.now found.items) }
{
    let mut found = Vec::new(alloc);
    push_unused_findings(alloc, bank, &mut found)?;
    push_zone_findings(alloc, bank, &mut found)?;
    let facts = facts_of(alloc, bank)?;
    push_sample_findings(bank, facts.as_slice(), &mut found)?;
    push_equal_samples(alloc, bank, facts.as_slice(), &mut found)?;
    Ok(found)
}

fn push_unused_findings(
    alloc: Global,
    bank: &Bank<'_>,
    found: &mut Vec<Finding>,
) -> Result<(), OutOfMemory>
    ensures { OnOk result (found.new.items ≡ found.old.items ++ unused_findings bank.now) }
{
    push_hidden_presets(alloc, bank, found)?;
    push_unselectable_zones(alloc, bank, found)?;
    push_unused_instruments(alloc, bank, found)?;
    push_unused_samples(alloc, bank, found)
}

fn push_zone_findings(
    alloc: Global,
    bank: &Bank<'_>,
    found: &mut Vec<Finding>,
) -> Result<(), OutOfMemory>
    ensures { OnOk result (AddsZoneFindings bank.now found.old.items found.new.items) }
{
    let keys = silent_keys(alloc, bank)?;
    push_of_kind(SILENT_KEYS, keys.as_slice(), found)?;
    push_overridden_generators(alloc, bank, found)?;
    let outside = outside_ranges(alloc, bank)?;
    push_of_kind(OUTSIDE_RANGE, outside.as_slice(), found)
}

fn push_equal_samples(
    alloc: Global,
    bank: &Bank<'_>,
    facts: &[PointFacts],
    found: &mut Vec<Finding>,
) -> Result<(), OutOfMemory>
    ensures { OnOk result (AddsKind EQUAL_SAMPLE found.old.items found.new.items) }
{
    let equal = equal_samples(alloc, bank, facts)?;
    push_of_kind(EQUAL_SAMPLE, equal.as_slice(), found)
}

// Appends those of one kind, which all of them are. The test makes it a clause that no others are added.
fn push_of_kind(kind: u8, findings: &[Finding], found: &mut Vec<Finding>) -> Result<(), OutOfMemory>
    ensures { OnOk result (AddsKind kind found.old.items found.new.items) }
{
    for finding in findings {
        if kind_of(*finding) == kind {
            found.push(*finding)?;
        }
    }
    Ok(())
}

// The index of a kind, in the order of their declaration.
#[tactic(auto, unfolding(crate::specs::Kinds::kind_of))]
fn kind_of(finding: Finding) -> u8
    ensures { result ≡ kind_of finding }
{
    match finding {
        Finding::HiddenPreset { .. } => 0,
        Finding::UnselectableZone { .. } => 1,
        Finding::UnusedInstrument { .. } => 2,
        Finding::UnusedSample { .. } => 3,
        Finding::SilentKeys { .. } => SILENT_KEYS,
        Finding::OverriddenGenerator { .. } => 5,
        Finding::OutsideRange { .. } => OUTSIDE_RANGE,
        Finding::OneSidedLink { .. } => 7,
        Finding::ShortLoop { .. } => 8,
        Finding::ClickingLoop { .. } => 9,
        Finding::UnusualRate { .. } => 10,
        Finding::ClippedSample { .. } => 11,
        Finding::SilentSample { .. } => 12,
        Finding::OffsetSample { .. } => 13,
        Finding::EqualSample { .. } => EQUAL_SAMPLE,
    }
}
