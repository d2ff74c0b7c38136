//! The head of a preset or an instrument: its fields besides its zones.
ghost use Rattle.sf_base.specs.Names.{IsName};
ghost use Rattle.generators.specs.declared.level.Level.{Level};

use crate::parts::Head;
use generators::Level;
use sf_base::{Blank, Name20};

/// The head of a preset (`Head`) or an instrument (`Name20`).
pub trait OwnerHead: Copy + Blank {
    ghost use Rattle.std.specs.Prelude.{ℕ, List};

    /// The level of the owners with such heads.
    ghost LEVEL: { Level };

    /// The name in the head.
    ghost name: { Self → List ℕ };

    /// Each number and name lies in the range of its field.
    ghost IsFit: { Self → Type 0 };

    /// The level of the owners with such heads.
    const LEVEL: Level;

    /// The law that the name is a valid name, and that each field lies in its range. It does nothing.
    fn fits(&self)
        ensures named { IsName (name self.now) }
        ensures fits { IsFit self.now };
}

impl OwnerHead for Head {
    ghost use Rattle.generators.specs.declared.level.Level.TheVariants as level;
    ghost use Rattle.bank_parts.specs.Fits.{FitsHead};

    ghost LEVEL = { level.Preset };

    ghost name = { λ head. head.name };

    ghost IsFit = { FitsHead };

    const LEVEL: Level = Level::Preset;

    fn fits(&self) {
        let Head {
            name,
            number: _number,
            bank: _bank,
            library: _library,
            genre: _genre,
            morphology: _morphology,
        } = *self;
        let _name = name.bytes();
    }
}

impl OwnerHead for Name20 {
    ghost use Rattle.generators.specs.declared.level.Level.TheVariants as level;

    ghost LEVEL = { level.Inst };

    ghost name = { λ name. name };

    ghost IsFit = { IsName };

    const LEVEL: Level = Level::Inst;

    fn fits(&self) {
        let _name = self.bytes();
    }
}
