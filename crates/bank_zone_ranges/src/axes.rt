//! The axis of a range, and the range of a joined zone.

/// Whether a range is one of keys or of velocities.
#[derive(Clone, Copy, Debug, PartialEq, Eq)]
pub enum Axis {
    /// The key of a note: generator 43 (SoundFont 2.04, section 8.1.2).
    Key,
    /// The velocity of a note: generator 44.
    Vel,
}

/// Whether the zone that results from a join gets a range of its own: that of both zones together.
#[derive(Clone, Copy, Debug, PartialEq, Eq)]
pub enum Keep {
    Keep,
    /// It has no range of its own, and inherits that of its global zone, else 0 to 127.
    Bare,
}
