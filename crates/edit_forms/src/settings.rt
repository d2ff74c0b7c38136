//! Steps that edit the generators and modulators of a place.
ghost use Rattle.edit_forms.specs.Settings.{Fits};

use modulators::Modulator;

/// A step that edits the generators and modulators of a place: of a global zone or of a zone. Modulators count from
/// 0.
#[derive(Clone, Copy)]
pub enum SettingStep {
    /// `set-gen OWNER PLACE OPERATOR AMOUNT`: sets the generator.
    SetGen { operator: u16, amount: u16 },
    /// `clear-gen OWNER PLACE OPERATOR`: removes the generator.
    ClearGen { operator: u16 },
    /// `add-mod OWNER PLACE J MOD`: inserts the modulator as number `index`.
    AddMod { index: u32, modulator: Modulator },
    /// `remove-mod OWNER PLACE J`: removes the modulator.
    RemoveMod { index: u32 },
    /// `set-mod OWNER PLACE J MOD`: replaces the modulator.
    SetMod { index: u32, modulator: Modulator },
}

impl SettingStep {
    /// Proves that each number is in the range of its field. It does nothing at run time.
    pub fn fits(self)
        ensures { Fits self }
    {}
}
