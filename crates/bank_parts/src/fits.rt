//! Laws that each number, name and text of a value lies in the range of its field. These functions do nothing at run
//! time; a call makes the fact known to the prover.
ghost use Rattle.std.specs.List.{AllByRecursion};
ghost use Rattle.modulators.specs.Modulators.{FitsModulator};
ghost use Rattle.bank_parts.specs.Fits.{FitsOwner, FitsGlobal, FitsZone, FitsSample, FitsLoop, FitsKind};

use crate::heads::OwnerHead;
use crate::parts::{GlobalZone, Kind, Sample, Zone, ZoneOwner};
use modulators::Modulator;

impl<H: OwnerHead> ZoneOwner<H> {
    /// The law that the head and the contents of all zones lie in the ranges of their fields. It does nothing.
    pub fn fits(&self)
        ensures { FitsOwner H.IsFit self.now }
    {
        self.head.fits();
        global_fits(&self.global);
        zones_fit(self.zones.as_slice());
    }
}

fn global_fits(global: &GlobalZone)
    ensures { FitsGlobal global.now }
{
    let _count = global.gens.len();
    mods_fit(global.mods.as_slice());
}

fn zones_fit(zones: &[Zone])
    ensures { AllByRecursion FitsZone zones.now }
{
    for zone in zones {
        zone.fits();
    }
}

impl Zone {
    /// The law that the target, the generators and the modulators lie in the ranges of their fields. It does nothing.
    pub fn fits(&self)
        ensures { FitsZone self.now }
    {
        let _target = self.target;
        let _count = self.gens.len();
        mods_fit(self.mods.as_slice());
    }
}

fn mods_fit(mods: &[Modulator])
    ensures { AllByRecursion FitsModulator mods.now }
{
    for modulator in mods {
        modulator_fits(*modulator);
    }
}

/// The law that each number of a modulator lies in the range of its field. It does nothing.
pub fn modulator_fits(_modulator: Modulator)
    ensures { FitsModulator _modulator }
{}

impl<'a> Sample<'a> {
    /// The law that each field of the sample, and each of its points, lies in its range. It does nothing.
    pub fn fits(&self)
        ensures { FitsSample self.now }
    {
        let _name = self.name.bytes();
        let _points = self.points.len();
        loop_fits(self.looped);
        let _rate = self.rate;
        let _key = self.key;
        let _correction = self.correction;
        self.kind.fits();
    }
}

/// The law that both ends of a loop lie in the ranges of their fields. It does nothing.
pub fn loop_fits(looped: Option<(u32, u32)>)
    ensures { FitsLoop looped }
{
    match looped {
        Some((_start, _end)) => {}
        None => {}
    }
}

impl Kind {
    /// The law that the number of a linked sample lies in the range of its field. It does nothing.
    pub fn fits(self)
        ensures { FitsKind self }
    {
        match self {
            Kind::Mono => {}
            Kind::Right(_link) | Kind::Left(_link) | Kind::Linked(_link) => {}
        }
    }
}
