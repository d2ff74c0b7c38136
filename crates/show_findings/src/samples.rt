//! Findings of single samples.
ghost use Rattle.std.specs.Prelude.{◌≡◌, ◌++◌, ◌<◌, ◌*◌, ◌^◌, cond, nat_lt, length, slice_get, pos, int_div, Some, None, OnOk};
ghost use Rattle.std.specs.List.{flat_map};
ghost use Rattle.std.specs.Option.{option_and_then};
ghost use Rattle.bank_parts.specs.declared.parts.Sample.{Sample};
ghost use Rattle.show_findings.specs.declared.finding.Finding.TheVariants.{ClippedSample};
ghost use Rattle.bank_parts.specs.Links.{link_of};
ghost use Rattle.show_findings.specs.Samples.{in_samples, side_link, links_to, one_sided_link, short_loop, unusual_rate, sample_finding};
ghost use Rattle.show_findings.specs.Points.{silent_sample};
ghost use Rattle.show_findings.specs.Scans.{facts_of, facts_of_samples, offset_in, IsNear};
ghost use Rattle.show_findings.specs.Findings.{sample_findings};

use crate::clicks::clicking_loop;
use crate::finding::Finding;
use crate::gathering::{count_in, push_option};
use crate::points::{PointFacts, is_silent};
use bank_core::{Bank, Kind, List, Sample};
use sf_base::OutOfMemory;

/// The fewest points of a loop that is not short.
const LOOP_POINTS: u32 = 32;

/// The lowest usual rate, in frames per second.
const LOWEST_RATE: u32 = 400;

/// The highest usual rate, in frames per second.
const HIGHEST_RATE: u32 = 192_000;

/// The fewest points whose mean shows an offset.
const OFFSET_POINTS: usize = 1000;

/// The largest mean that is no offset: 1 % of the full scale.
const LARGEST_MEAN: u32 = 328;

/// A kind of finding that one sample shows, with the samples that it links to.
#[derive(Clone, Copy)]
pub(crate) enum SampleCheck {
    OneSidedLink,
    ShortLoop,
    ClickingLoop,
    UnusualRate,
    ClippedSample,
    SilentSample,
    OffsetSample,
}

/// The checks, in the order of their kinds.
pub(crate) const CHECKS: [SampleCheck; 7] = [
    SampleCheck::OneSidedLink,
    SampleCheck::ShortLoop,
    SampleCheck::ClickingLoop,
    SampleCheck::UnusualRate,
    SampleCheck::ClippedSample,
    SampleCheck::SilentSample,
    SampleCheck::OffsetSample,
];

/// Appends the findings of all checks, kind by kind.
pub(crate) fn push_sample_findings(
    bank: &Bank<'_>,
    facts: &[PointFacts],
    found: &mut Vec<Finding>,
) -> Result<(), OutOfMemory>
    requires { facts.now ≡ facts_of_samples bank.now.samples }
    ensures { OnOk result (found.new.items ≡ found.old.items ++ sample_findings bank.now) }
{
    push_of_checks(bank, facts, &CHECKS, found)
}

fn push_of_checks(
    bank: &Bank<'_>,
    facts: &[PointFacts],
    checks: &[SampleCheck],
    found: &mut Vec<Finding>,
) -> Result<(), OutOfMemory>
    requires { facts.now ≡ facts_of_samples bank.now.samples }
    ensures { OnOk result (found.new.items ≡ found.old.items ++ flat_map (λ check. in_samples (sample_finding check bank.now) bank.now) checks.now) }
{
    for check in checks {
        push_in_samples(bank, facts, *check, found)?;
    }
    Ok(())
}

// Appends the findings of one kind, sample by sample.
fn push_in_samples(
    bank: &Bank<'_>,
    facts: &[PointFacts],
    check: SampleCheck,
    found: &mut Vec<Finding>,
) -> Result<(), OutOfMemory>
    requires { facts.now ≡ facts_of_samples bank.now.samples }
    ensures { OnOk result (found.new.items ≡ found.old.items ++ in_samples (sample_finding check bank.now) bank.now) }
{
    for number in 0..count_in(bank, List::Samples) {
        push_option(found, finding_at(bank, facts, check, number))?;
    }
    Ok(())
}

fn finding_at(
    bank: &Bank<'_>,
    facts: &[PointFacts],
    check: SampleCheck,
    number: u32,
) -> Option<Finding>
    requires { facts.now ≡ facts_of_samples bank.now.samples }
    ensures { result ≡ option_and_then (sample_finding check bank.now number) (slice_get bank.now.samples number) }
{
    bank.soundness();
    let sample = bank.sample(number)?;
    let shown = facts.get(number as usize)?;
    sample_finding(bank, *shown, check, number, sample)
}

fn sample_finding(
    bank: &Bank<'_>,
    facts: PointFacts,
    check: SampleCheck,
    number: u32,
    sample: &Sample<'_>,
) -> Option<Finding>
    requires facts { facts ≡ facts_of sample.now.points }
    requires few { length sample.now.points < 2 ^ 32 }
    ensures { result ≡ sample_finding check bank.now number sample.now }
{
    match check {
        SampleCheck::OneSidedLink => one_sided_link(bank, number, sample),
        SampleCheck::ShortLoop => short_loop(number, sample),
        SampleCheck::ClickingLoop => clicking_loop(number, sample),
        SampleCheck::UnusualRate => unusual_rate(number, sample),
        SampleCheck::ClippedSample => clipped_sample(number, facts.clipped),
        SampleCheck::SilentSample => silent_sample(number, sample),
        SampleCheck::OffsetSample => offset_sample(number, facts),
    }
}

// A left or right sample links to another, which does not link back.
fn one_sided_link(bank: &Bank<'_>, number: u32, sample: &Sample<'_>) -> Option<Finding>
    ensures { result ≡ one_sided_link bank.now number sample.now }
{
    let other = u32::from(side_link(sample.kind)?);
    if other == number || links_to(bank, other, number) {
        return None;
    }
    Some(Finding::OneSidedLink {
        sample: number,
        other,
    })
}

// The sample that a left or right sample links to.
fn side_link(kind: Kind) -> Option<u16>
    ensures { result ≡ side_link kind }
{
    match kind {
        Kind::Right(link) | Kind::Left(link) => Some(link),
        Kind::Mono | Kind::Linked(_) => None,
    }
}

// Whether a sample links to another.
fn links_to(bank: &Bank<'_>, sample: u32, other: u32) -> bool
    ensures { result ≡ links_to bank.now sample other }
{
    match any_link(bank, sample) {
        Some(link) => u32::from(link) == other,
        None => false,
    }
}

// The sample that a sample links to.
fn any_link(bank: &Bank<'_>, sample: u32) -> Option<u16>
    ensures { result ≡ option_and_then (λ (s : Sample). link_of s.kind) (slice_get bank.now.samples sample) }
{
    bank.sample(sample)?.kind.link()
}

fn short_loop(number: u32, sample: &Sample<'_>) -> Option<Finding>
    ensures { result ≡ short_loop number sample.now }
{
    let (start, end) = sample.looped?;
    let points = end.saturating_sub(start);
    if points >= LOOP_POINTS {
        return None;
    }
    Some(Finding::ShortLoop {
        sample: number,
        points,
    })
}

fn unusual_rate(number: u32, sample: &Sample<'_>) -> Option<Finding>
    ensures { result ≡ unusual_rate number sample.now }
{
    let rate = sample.rate;
    if rate >= LOWEST_RATE && rate <= HIGHEST_RATE {
        return None;
    }
    Some(Finding::UnusualRate {
        sample: number,
        rate,
    })
}

fn silent_sample(number: u32, sample: &Sample<'_>) -> Option<Finding>
    ensures { result ≡ silent_sample number sample.now }
{
    if !is_silent(&sample.points) {
        return None;
    }
    Some(Finding::SilentSample { sample: number })
}

fn clipped_sample(number: u32, points: u32) -> Option<Finding>
    ensures { result ≡ cond (nat_lt 0 points) (Some (ClippedSample number points)) None }
{
    if points == 0 {
        return None;
    }
    Some(Finding::ClippedSample {
        sample: number,
        points,
    })
}

fn offset_sample(number: u32, facts: PointFacts) -> Option<Finding>
    requires few { facts.count < 2 ^ 32 }
    requires near { IsNear facts.sum (32768 * facts.count) }
    ensures { result ≡ offset_in number facts }
{
    if facts.count < OFFSET_POINTS {
        return None;
    }
    let mean = mean_in(facts);
    if mean.unsigned_abs() <= LARGEST_MEAN {
        return None;
    }
    Some(Finding::OffsetSample {
        sample: number,
        mean,
    })
}

// The mean of the points, rounded toward zero.
fn mean_in(facts: PointFacts) -> i32
    requires some { 0 < facts.count }
    requires few { facts.count < 2 ^ 32 }
    requires near { IsNear facts.sum (32768 * facts.count) }
    ensures { result ≡ int_div facts.sum (pos facts.count) }
{
    (facts.sum / facts.count as i64) as i32
}
