//! What a kit says of a zone.
ghost use Rattle.std.specs.Prelude.{◌≡◌};
ghost use Rattle.kit_tables.specs.Zones.{whole};

use generators::Range;

/// What a kit says of a zone.
#[derive(Debug, Clone, Copy, PartialEq, Eq)]
pub struct KitZone {
    /// The keys that play it, from 0 to 127.
    pub keys: Range,
    /// The velocities that play it, from 0 to 127.
    pub velocities: Range,
    /// The key at which it plays at its recorded pitch, from 0 to 127.
    pub root: Option<u8>,
    /// Its position between left (-500) and right (500), in 0.1 %.
    pub pan: Option<i16>,
    /// Its exclusive class, from 1 to 127: a note in a class ends the others in it.
    pub class: Option<u8>,
}

impl KitZone {
    /// Returns a zone that all keys and velocities play, and of which nothing else is said.
    pub fn whole() -> KitZone
        ensures { result ≡ whole }
    {
        let all = Range { low: 0, high: 127 };
        KitZone {
            keys: all,
            velocities: all,
            root: None,
            pan: None,
            class: None,
        }
    }
}
