//! Presets and instruments as they are compared: borrowed, with ranges apart from the other generators.
ghost use Rattle.std.specs.Prelude.{◌<◌, length};
ghost use Rattle.bank_parts.specs.Owners.{HasPlace};

use bank_core::{Owners, ZonePlace};
use bank_parts::OwnerHead;
use bank_zone_ranges::Axis;
use diff_orders::EMPTY_KEY;
use generators::operators::{KEY_RANGE, VEL_RANGE};
use modulators::Modulator;
use sf_base::OutOfMemory;
use std::alloc::Global;

/// The own ranges of a place, as amounts.
#[derive(Clone, Copy, PartialEq, Eq)]
pub(crate) struct Ranges {
    pub(crate) key: Option<u16>,
    pub(crate) vel: Option<u16>,
}

impl Ranges {
    /// The range on an axis.
    pub(crate) fn on(self, axis: Axis) -> Option<u16> {
        match axis {
            Axis::Key => self.key,
            Axis::Vel => self.vel,
        }
    }

    /// The ranges with another one on an axis.
    pub(crate) fn with(self, axis: Axis, range: Option<u16>) -> Ranges {
        let Ranges { key, vel } = self;
        match axis {
            Axis::Key => Ranges { key: range, vel },
            Axis::Vel => Ranges { key, vel: range },
        }
    }
}

/// The generators and modulators of a place.
#[derive(Clone, Copy, PartialEq, Eq)]
pub(crate) struct Settings<'s> {
    /// In canonical order, which begins with the ranges.
    pub(crate) gens: &'s [(u16, u16)],
    pub(crate) mods: &'s [Modulator],
}

impl<'s> Settings<'s> {
    pub(crate) fn ranges(&self) -> Ranges {
        self.split_ranges().0
    }

    /// The ranges, and the other generators.
    pub(crate) fn split_ranges(&self) -> (Ranges, &'s [(u16, u16)]) {
        let (key, rest) = split_operator(self.gens, KEY_RANGE);
        let (vel, others) = split_operator(rest, VEL_RANGE);
        (Ranges { key, vel }, others)
    }
}

// The amount of an operator that comes first, and the other entries.
fn split_operator(entries: &[(u16, u16)], operator: u16) -> (Option<u16>, &[(u16, u16)]) {
    match entries.split_first() {
        Some((&(first, amount), rest)) if first == operator => (Some(amount), rest),
        _ => (None, entries),
    }
}

/// The target of a zone.
#[derive(Clone, Copy, PartialEq, Eq)]
pub(crate) enum Target {
    /// By its number in the wanted bank.
    Wanted(usize),
    /// By its number in the edited bank, where it becomes none of the wanted bank.
    Superfluous(usize),
}

/// A zone.
#[derive(Clone, Copy, PartialEq, Eq)]
pub(crate) struct ZoneView<'s> {
    pub(crate) target: Target,
    pub(crate) settings: Settings<'s>,
}

/// A preset or an instrument.
#[derive(Drop)]
pub(crate) struct OwnerView<'s, H> {
    pub(crate) head: H,
    pub(crate) global: Settings<'s>,
    pub(crate) zones: Vec<ZoneView<'s>>,
    /// A hash key of what uses it.
    pub(crate) uses: u64,
}

/// Views of all owners of a wanted bank. Nothing uses them yet.
pub(crate) fn views_of<'s, H: OwnerHead>(
    alloc: Global,
    owners: &'s Owners<H>,
) -> Result<Vec<OwnerView<'s, H>>, OutOfMemory> {
    let mut views = Vec::with_capacity(alloc, owners.len())?;
    for i in 0..owners.len() {
        views.push(OwnerView {
            head: *owners.head(i),
            global: settings_at(owners, i, ZonePlace::Global),
            zones: zone_views(alloc, owners, i)?,
            uses: EMPTY_KEY,
        })?;
    }
    Ok(views)
}

fn zone_views<'s, H: OwnerHead>(
    alloc: Global,
    owners: &'s Owners<H>,
    i: usize,
) -> Result<Vec<ZoneView<'s>>, OutOfMemory>
    requires { i < length owners.now }
{
    let count = owners.zone_count(i);
    let mut zones = Vec::with_capacity(alloc, count)?;
    for k in 0..count {
        zones.push(ZoneView {
            target: Target::Wanted(owners.target(i, k).into()),
            settings: settings_at(owners, i, ZonePlace::Zone(k)),
        })?;
    }
    Ok(zones)
}

fn settings_at<'s, H: OwnerHead>(owners: &'s Owners<H>, i: usize, place: ZonePlace) -> Settings<'s>
    requires { HasPlace owners.now i place }
{
    Settings {
        gens: owners.entries(i, place),
        mods: owners.mods(i, place),
    }
}

/// Gives the zones of an edited bank their targets, by the wanted member that each target becomes.
pub(crate) fn renumber_targets<H>(owners: &mut [OwnerView<'_, H>], successors: &[Option<usize>]) {
    for owner in owners.iter_mut() {
        for zone in owner.zones.as_mut_slice().iter_mut() {
            zone.target = renumbered(zone.target, successors);
        }
    }
}

fn renumbered(target: Target, successors: &[Option<usize>]) -> Target {
    match target {
        Target::Wanted(number) => match successors.get(number) {
            Some(Some(wanted)) => Target::Wanted(*wanted),
            _ => Target::Superfluous(number),
        },
        Target::Superfluous(_) => target,
    }
}

/// Sets what uses each owner.
pub(crate) fn set_uses<H>(owners: &mut [OwnerView<'_, H>], uses: &[u64]) {
    for (owner, &key) in owners.iter_mut().zip(uses) {
        owner.uses = key;
    }
}
