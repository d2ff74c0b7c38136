//! A modulator, and the default modulator of velocity.
ghost use Rattle.std.specs.Prelude.{◌≡◌, ◌↔◌, IsTrue};
ghost use Rattle.modulators.specs.Modulators.{IsLink, is_link, SameIdentity, same_identity, default_velocity};

/// A rule by which a controller changes a generator of a zone (SoundFont 2.04, sections 7.4 and 8.2).
#[derive(Clone, Copy, Debug, PartialEq, Eq)]
pub struct Modulator {
    /// The controller, `sfModSrcOper`: bits 0 to 6 are its index, bit 7 its controller flag (0 for general controllers,
    /// 1 for MIDI controllers), bit 8 its direction, bit 9 its polarity and bits 10 to 15 its curve.
    pub source: u16,

    /// The number of the generator that it changes, `sfModDestOper`. With bit 15 set, the rest is the number of a
    /// modulator instead.
    pub dest: u16,

    /// The largest change, in the unit of the generator, `modAmount`.
    pub amount: i16,

    /// The controller that scales the amount, `sfModAmtSrcOper`, in the format of `source`.
    pub amount_source: u16,

    /// The transform of the result, `sfModTransOper`: 0 for none.
    pub transform: u16,
}

/// The default modulator from note-on velocity to initial attenuation: general controller 2, falling, unipolar and
/// concave, changes generator 48 by up to 960 centibels (SoundFont 2.04, section 8.4.1).
pub const DEFAULT_VELOCITY: Modulator = Modulator {
    source: 0x0502,
    dest: 48,
    amount: 960,
    amount_source: 0,
    transform: 0,
};

/// The low byte of a source that is another modulator's result: controller flag 0 and index 127.
const LINK_CONTROLLER: u16 = 0x7f;

/// Bit 15 of a destination: set if the destination is a modulator.
const LINK_DESTINATION: u16 = 0x8000;

impl Modulator {
    /// Whether the modulator passes its result to another modulator or receives one's: its destination has bit 15 set,
    /// or its source has controller flag 0 and index 127 (SoundFont 2.04, sections 7.4 and 8.2.1).
    pub fn is_link(&self) -> bool
        ensures value { result ≡ is_link self.now }
        ensures link { IsTrue result ↔ IsLink self.now }
    {
        self.dest & LINK_DESTINATION != 0 || self.source & 0xff == LINK_CONTROLLER
    }

    /// Whether the two modulators are identical in the sense of SoundFont 2.04, section 9.5.1: their sources, their
    /// destinations and their amount sources are equal.
    pub fn same_identity(&self, other: &Modulator) -> bool
        ensures value { result ≡ same_identity self.now other.now }
        ensures same { IsTrue result ↔ SameIdentity self.now other.now }
    {
        self.source == other.source
            && self.dest == other.dest
            && self.amount_source == other.amount_source
    }
}

/// The law that [`DEFAULT_VELOCITY`] equals `default_velocity` of the specs. It does nothing.
pub fn default_velocity_law()
    ensures { DEFAULT_VELOCITY ≡ default_velocity }
{}
