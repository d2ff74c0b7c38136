//! How many records the zones of presets and instruments have in a file.
ghost use Rattle.std.specs.Prelude.{◌≡◌};
ghost use Rattle.bank_parts.specs.Counts.{records_of_global, records_of_zone, records_of_owner, records_sum, all_counted};

use crate::parts::{GlobalZone, Zone, ZoneOwner};

/// Numbers of zone, generator and modulator records. The target of a zone counts as a generator, and an empty global
/// zone counts as none.
#[derive(Clone, Copy, Debug, PartialEq, Eq)]
pub struct Records {
    pub zones: usize,
    pub gens: usize,
    pub mods: usize,
}

impl Records {
    // The sum of both. Each number saturates at 2^64 - 1.
    pub(crate) fn plus(self, more: Records) -> Records
        ensures { result ≡ all_counted (records_sum self more) }
    {
        Records {
            zones: self.zones.saturating_add(more.zones),
            gens: self.gens.saturating_add(more.gens),
            mods: self.mods.saturating_add(more.mods),
        }
    }
}

impl<H> ZoneOwner<H> {
    /// How many records its zones have in a file. Each number saturates at 2^64 - 1, far above each limit.
    pub fn records(&self) -> Records
        ensures { result ≡ all_counted (records_of_owner self.now) }
    {
        let mut total = global_records(&self.global);
        for zone in self.zones.as_slice() {
            total = total.plus(zone.records());
        }
        total
    }
}

fn global_records(global: &GlobalZone) -> Records
    ensures { result ≡ all_counted (records_of_global global.now) }
{
    let gens = global.gens.len();
    let mods = global.mods.len();
    Records {
        zones: gens.saturating_add(mods).min(1),
        gens,
        mods,
    }
}

impl Zone {
    /// How many records the zone has in a file. Its target counts as a generator.
    pub fn records(&self) -> Records
        ensures { result ≡ all_counted (records_of_zone self.now) }
    {
        Records {
            zones: 1,
            gens: self.gens.len().saturating_add(1),
            mods: self.mods.len(),
        }
    }
}
