//! References to the members of a bank by number.
ghost use Rattle.std.specs.Prelude.{◌≡◌};
ghost use Rattle.bank_changes.specs.Members.{level_of, zone_place};

use bank_parts::ZonePlace;
use generators::Level;

/// One of the three numbered lists of a bank.
#[derive(Clone, Copy, Debug, PartialEq, Eq)]
pub enum List {
    Presets,
    Instruments,
    Samples,
}

/// The preset or the instrument with this number.
#[derive(Clone, Copy, Debug, PartialEq, Eq)]
pub enum Owner {
    Preset(u32),
    Inst(u32),
}

impl Owner {
    /// The level of its zones.
    pub fn level(self) -> Level
        ensures { result ≡ level_of self }
    {
        match self {
            Owner::Preset(_) => Level::Preset,
            Owner::Inst(_) => Level::Inst,
        }
    }
}

/// Runs an expression on the list that has an owner, either the presets or the instruments of the parts of a bank,
/// and on the owner's number in it: `with_owners!(parts, owner, |owners, number| { owners.zone_count(number as usize)
/// })`. The list is borrowed as the parts are.
#[macro_export]
macro_rules! with_owners {
    ($parts:expr, $owner:expr, |$owners:ident, $number:ident| $body:expr) => {
        match ($owner, $parts) {
            ($crate::Owner::Preset($number), bank_parts::Parts { presets: $owners, .. }) => $body,
            ($crate::Owner::Inst($number), bank_parts::Parts { instruments: $owners, .. }) => $body,
        }
    };
}

/// Which zone of an owner: the global zone, or the zone with this number.
#[derive(Clone, Copy, Debug, PartialEq, Eq)]
pub enum Place {
    Global,
    Zone(u32),
}

/// The place in the form that `Owners` uses.
pub fn place_of(place: Place) -> ZonePlace
    ensures { result ≡ zone_place place }
{
    match place {
        Place::Global => ZonePlace::Global,
        Place::Zone(zone) => ZonePlace::Zone(zone as usize),
    }
}
