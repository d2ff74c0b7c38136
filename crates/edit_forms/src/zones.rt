//! Steps that edit the zones of a preset or an instrument.
ghost use Rattle.std.specs.Prelude.{◌≡◌, Some, IsSome, IfOk};
ghost use Rattle.edit_forms.specs.Zones.{Fits, is_neutral, added_zone};

use bank_parts::{TryClone, Zone};
use bank_zone_ranges::{Axis, Keep};
use sf_base::OutOfMemory;
use std::alloc::Global;

/// A step that edits the zones of a preset or an instrument. Numbers count from 0, without the global zone.
pub enum ZoneStep {
    /// `add-zone OWNER K ZONE`: inserts the zone as number `at`.
    AddZone { at: u32, zone: Zone },
    /// `remove-zone OWNER K`: removes the zone.
    RemoveZone { zone: u32 },
    /// `move-zone OWNER I J`: moves zone `from` to number `to`.
    MoveZone { from: u32, to: u32 },
    /// `split-zone OWNER K key|vel M`: splits the zone: it keeps the range below `at`, and a copy after it has the
    /// rest.
    SplitZone { zone: u32, axis: Axis, at: u8 },
    /// `join-zone OWNER K key|vel keep|bare`: joins the zone and the next into one with the range of both.
    JoinZone { zone: u32, axis: Axis, keep: Keep },
    /// `set-target OWNER K TARGET`: sets the target of the zone.
    SetTarget { zone: u32, target: u16 },
}

// Written by hand: a derived drop is inlined, and proved again, wherever a value is dropped.
impl Drop for ZoneStep {
    fn drop(self) {
        match self {
            ZoneStep::AddZone { at: _, zone: _ } => {}
            ZoneStep::RemoveZone { zone: _ } => {}
            ZoneStep::MoveZone { from: _, to: _ } => {}
            ZoneStep::SplitZone {
                zone: _,
                axis: _,
                at: _,
            } => {}
            ZoneStep::JoinZone {
                zone: _,
                axis: _,
                keep: _,
            } => {}
            ZoneStep::SetTarget { zone: _, target: _ } => {}
        }
    }
}

impl ZoneStep {
    /// Returns the zone that the step adds.
    pub fn into_zone(self) -> Zone
        requires { IsSome (added_zone self) }
        ensures { added_zone self ≡ Some result }
    {
        match self {
            ZoneStep::AddZone { at: _, zone } => zone,
            _ => unreachable!(),
        }
    }

    /// Proves that each number is in the range of its field. It does nothing at run time.
    pub fn fits(&self)
        ensures { Fits self.now }
    {
        match self {
            ZoneStep::AddZone { at, zone } => {
                let _at = *at;
                zone.fits();
            }
            ZoneStep::RemoveZone { zone } | ZoneStep::JoinZone { zone, .. } => {
                let _zone = *zone;
            }
            ZoneStep::MoveZone { from, to } => {
                let _from = *from;
                let _to = *to;
            }
            ZoneStep::SplitZone { zone, at, .. } => {
                let _zone = *zone;
                let _at = *at;
            }
            ZoneStep::SetTarget { zone, target } => {
                let _zone = *zone;
                let _target = *target;
            }
        }
    }

    /// Whether the step is of a form that changes no sound, for any bank.
    pub fn is_neutral(&self) -> bool
        ensures { result ≡ is_neutral self.now }
    {
        matches!(
            self,
            ZoneStep::MoveZone { .. } | ZoneStep::SplitZone { .. } | ZoneStep::JoinZone { .. }
        )
    }

    /// Copies the step, or returns `OutOfMemory`.
    pub fn copy(&self, alloc: Global) -> Result<ZoneStep, OutOfMemory>
        ensures { IfOk result (λ copy. copy ≡ self.now) }
    {
        Ok(match *self {
            ZoneStep::AddZone { at, ref zone } => ZoneStep::AddZone {
                at,
                zone: zone.try_clone(alloc)?,
            },
            ZoneStep::RemoveZone { zone } => ZoneStep::RemoveZone { zone },
            ZoneStep::MoveZone { from, to } => ZoneStep::MoveZone { from, to },
            ZoneStep::SplitZone { zone, axis, at } => ZoneStep::SplitZone { zone, axis, at },
            ZoneStep::JoinZone { zone, axis, keep } => ZoneStep::JoinZone { zone, axis, keep },
            ZoneStep::SetTarget { zone, target } => ZoneStep::SetTarget { zone, target },
        })
    }
}
