//! Proposes edits that make one bank of another: first those that make room, then the others.
use crate::groups::{StepGroup, push_group};
use crate::list_plan::{ListPlan, plan_list};
use crate::owner_pairs::{owner_matching, uses_of};
use crate::owner_steps::{OwnerChanges, OwnerPair, grow_groups, pairs_of_owners, shrink_groups};
use crate::sample_pairs::{sample_matching, sample_views};
use crate::sample_steps::sample_groups;
use crate::texts::text_steps;
use crate::views::{OwnerView, Target, ZoneView, renumber_targets, set_uses, views_of};
use bank_core::{Bank, Head, Owners, Sample};
use bank_parts::OwnerHead;
use diff_orders::Matching;
use sf_base::{Name20, OutOfMemory};
use std::alloc::Global;

/// Steps that make one bank of another. The kinds of samples are set after the groups for samples, and the
/// superfluous members are removed last.
#[derive(Drop)]
pub struct BankChanges<'a> {
    pub for_samples: Vec<StepGroup<'a>>,
    pub for_owners: Vec<StepGroup<'a>>,
    /// The number of each wanted sample.
    pub samples: Vec<usize>,
    /// The numbers of the superfluous members, ascending.
    pub superfluous_instruments: Vec<usize>,
    pub superfluous_samples: Vec<usize>,
}

// The presets or the instruments that there are, and the wanted ones.
#[derive(Drop)]
struct OwnerLists<'s, H> {
    had: Vec<OwnerView<'s, H>>,
    wanted: Vec<OwnerView<'s, H>>,
}

fn lists_of<'s, H: OwnerHead>(
    alloc: Global,
    had: &'s Owners<H>,
    wanted: &'s Owners<H>,
) -> Result<OwnerLists<'s, H>, OutOfMemory> {
    Ok(OwnerLists {
        had: views_of(alloc, had)?,
        wanted: views_of(alloc, wanted)?,
    })
}

// Which members become which wanted ones.
#[derive(Drop)]
struct Matchings {
    presets: Matching,
    instruments: Matching,
    samples: Matching,
}

/// Proposes steps that give the bank `now` what the bank `to` has. Members that nothing uses are removed first if
/// `removes_first`.
pub fn bank_changes<'a>(
    alloc: Global,
    now: &Bank<'a>,
    to: &Bank<'a>,
    removes_first: bool,
) -> Result<BankChanges<'a>, OutOfMemory> {
    let mut presets = lists_of(alloc, now.presets(), to.presets())?;
    let mut instruments = lists_of(alloc, now.instruments(), to.instruments())?;
    let matchings = matchings_of(
        alloc,
        now.samples(),
        to.samples(),
        &mut instruments,
        &mut presets,
    )?;
    let plans = plans_of(
        alloc,
        now.samples(),
        &presets,
        &instruments,
        &matchings,
        removes_first,
    )?;
    let successors = matchings.samples.successors();
    let for_samples = groups_for_samples(alloc, now, to, successors, &plans)?;
    let for_owners = groups_for_owners(alloc, &plans)?;
    let samples = &plans.samples.order;
    let instruments = &plans.instruments.plan.order;
    Ok(BankChanges {
        for_samples,
        for_owners,
        samples: Vec::from_slice(alloc, &samples.positions)?,
        superfluous_instruments: Vec::from_slice(alloc, &instruments.superfluous)?,
        superfluous_samples: Vec::from_slice(alloc, &samples.superfluous)?,
    })
}

// Pairs members, from the samples up, and gives zones their targets and members what uses them.
fn matchings_of<'a>(
    alloc: Global,
    had: &[Sample<'a>],
    wanted: &[Sample<'a>],
    instruments: &mut OwnerLists<'_, Name20>,
    presets: &mut OwnerLists<'_, Head>,
) -> Result<Matchings, OutOfMemory> {
    let had_uses = uses_of(alloc, &instruments.had, had.len())?;
    let wanted_uses = uses_of(alloc, &instruments.wanted, wanted.len())?;
    let had = sample_views(alloc, had, &had_uses)?;
    let wanted = sample_views(alloc, wanted, &wanted_uses)?;
    let samples = sample_matching(alloc, &had, &wanted)?;
    renumber_targets(instruments.had.as_mut_slice(), samples.successors());
    let had_uses = uses_of(alloc, &presets.had, instruments.had.len())?;
    let wanted_uses = uses_of(alloc, &presets.wanted, instruments.wanted.len())?;
    set_uses(instruments.had.as_mut_slice(), &had_uses);
    set_uses(instruments.wanted.as_mut_slice(), &wanted_uses);
    let instruments = owner_matching(alloc, &instruments.had, &instruments.wanted)?;
    renumber_targets(presets.had.as_mut_slice(), instruments.successors());
    let presets = owner_matching(alloc, &presets.had, &presets.wanted)?;
    Ok(Matchings {
        presets,
        instruments,
        samples,
    })
}

// How the three lists of a bank become the wanted ones.
#[derive(Drop)]
struct Plans<'v, 's> {
    presets: OwnerChanges<'v, 's, Head>,
    instruments: OwnerChanges<'v, 's, Name20>,
    samples: ListPlan,
}

fn plans_of<'v, 's>(
    alloc: Global,
    samples: &[Sample<'_>],
    presets: &'v OwnerLists<'s, Head>,
    instruments: &'v OwnerLists<'s, Name20>,
    matchings: &Matchings,
    removes_first: bool,
) -> Result<Plans<'v, 's>, OutOfMemory> {
    let mut used_instruments = vec![in alloc; !removes_first; instruments.had.len()]?;
    let mut used_samples = vec![in alloc; !removes_first; samples.len()]?;
    let pairs = pairs_of_owners(alloc, &presets.had, &presets.wanted, &matchings.presets)?;
    mark_targets(&mut used_instruments, &pairs);
    let presets = OwnerChanges {
        wanted: &presets.wanted,
        pairs,
        plan: plan_list(alloc, &matchings.presets, &[])?,
    };
    let matching = &matchings.instruments;
    let pairs = pairs_of_owners(alloc, &instruments.had, &instruments.wanted, matching)?;
    mark_targets(&mut used_samples, &pairs);
    let successors = matching.successors();
    mark_targets_of_rest(
        &mut used_samples,
        &instruments.had,
        successors,
        &used_instruments,
    );
    mark_links(&mut used_samples, samples);
    let instruments = OwnerChanges {
        wanted: &instruments.wanted,
        pairs,
        plan: plan_list(alloc, matching, &used_instruments)?,
    };
    Ok(Plans {
        presets,
        instruments,
        samples: plan_list(alloc, &matchings.samples, &used_samples)?,
    })
}

// Edits of texts, removals, and all edits of samples.
fn groups_for_samples<'a>(
    alloc: Global,
    now: &Bank<'a>,
    to: &Bank<'a>,
    successors: &[Option<usize>],
    plans: &Plans<'_, '_>,
) -> Result<Vec<StepGroup<'a>>, OutOfMemory> {
    let mut groups = Vec::new(alloc);
    push_group(&mut groups, text_steps(alloc, now, to)?, false)?;
    shrink_groups(alloc, &mut groups, &plans.presets)?;
    shrink_groups(alloc, &mut groups, &plans.instruments)?;
    let (now, to) = (now.samples(), to.samples());
    sample_groups(alloc, &mut groups, now, to, successors, &plans.samples)?;
    Ok(groups)
}

// The other edits of instruments and presets.
fn groups_for_owners<'a>(
    alloc: Global,
    plans: &Plans<'_, '_>,
) -> Result<Vec<StepGroup<'a>>, OutOfMemory> {
    let mut groups = Vec::new(alloc);
    let targets = plans.samples.order.positions.as_slice();
    grow_groups(alloc, &mut groups, &plans.instruments, targets)?;
    let targets = plans.instruments.plan.order.positions.as_slice();
    grow_groups(alloc, &mut groups, &plans.presets, targets)?;
    Ok(groups)
}

// ---- members in use

fn mark(marks: &mut [bool], number: usize) {
    if let Some(mark) = marks.get_mut(number) {
        *mark = true;
    }
}

fn mark_target(marks: &mut [bool], zone: &ZoneView<'_>) {
    if let Target::Superfluous(number) = zone.target {
        mark(marks, number);
    }
}

// Marks the superfluous targets of zones that stay.
fn mark_targets<H>(marks: &mut [bool], pairs: &[OwnerPair<'_, '_, H>]) {
    for pair in pairs {
        if let Some(zones) = &pair.zones {
            for zone in &zones.kept {
                mark_target(marks, &zone.had);
            }
        }
    }
}

// Marks the superfluous targets of instruments that are removed last.
fn mark_targets_of_rest(
    marks: &mut [bool],
    instruments: &[OwnerView<'_, Name20>],
    successors: &[Option<usize>],
    is_used: &[bool],
) {
    for ((instrument, successor), &is_used) in instruments.iter().zip(successors).zip(is_used) {
        if successor.is_none() && is_used {
            for zone in &instrument.zones {
                mark_target(marks, zone);
            }
        }
    }
}

// Marks the samples to which others link.
fn mark_links(marks: &mut [bool], samples: &[Sample<'_>]) {
    for (number, sample) in samples.iter().enumerate() {
        if let Some(link) = sample.kind.link()
            && usize::from(link) != number
        {
            mark(marks, link.into());
        }
    }
}
