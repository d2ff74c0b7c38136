//! Sets of zones.
ghost use Rattle.std.specs.Prelude.{◌≡◌, ℕ, false};
ghost use Rattle.bank_changes.specs.declared.members.Owner.{Owner};
ghost use Rattle.plan_edits.specs.ZoneSets.{has_zone, has_numbers, AddsZone, AddsNumbers};

use bank_core::Owner;
use sf_base::OutOfMemory;
use std::alloc::Global;
use std::collections::BTreeSet;

/// A set of zones of presets and instruments.
#[derive(Drop)]
pub(crate) struct ZoneSet {
    // The owner's number and the zone's.
    pub(crate) of_presets: BTreeSet<(u32, u32)>,
    pub(crate) of_instruments: BTreeSet<(u32, u32)>,
}

impl ZoneSet {
    /// A set without zones.
    pub(crate) fn new(alloc: Global) -> ZoneSet
        ensures { (o : Owner) (k : ℕ) → has_zone result o k ≡ false }
    {
        ZoneSet {
            of_presets: BTreeSet::new(alloc),
            of_instruments: BTreeSet::new(alloc),
        }
    }

    /// Adds a zone.
    pub(crate) fn add(&mut self, owner: Owner, zone: u32) -> Result<(), OutOfMemory>
        ensures { AddsZone self.old self.new owner zone }
    {
        match owner {
            Owner::Preset(preset) => add_numbers(&mut self.of_presets, preset, zone),
            Owner::Inst(instrument) => add_numbers(&mut self.of_instruments, instrument, zone),
        }
    }

    /// Whether the set has a zone.
    pub(crate) fn has(&self, owner: Owner, zone: u32) -> bool
        ensures { result ≡ has_zone self.now owner zone }
    {
        match owner {
            Owner::Preset(preset) => has_numbers(&self.of_presets, preset, zone),
            Owner::Inst(instrument) => has_numbers(&self.of_instruments, instrument, zone),
        }
    }
}

fn add_numbers(set: &mut BTreeSet<(u32, u32)>, owner: u32, zone: u32) -> Result<(), OutOfMemory>
    ensures { AddsNumbers set.old.keys set.new.keys owner zone }
{
    set.insert((owner, zone))?;
    Ok(())
}

fn has_numbers(set: &BTreeSet<(u32, u32)>, owner: u32, zone: u32) -> bool
    ensures { result ≡ has_numbers set.now.keys owner zone }
{
    set.contains(&(owner, zone))
}
