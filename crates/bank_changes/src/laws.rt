//! A law about banks as data.
ghost use Rattle.std.specs.Prelude.{ℕ, List};
ghost use Rattle.sf_base.specs.Names.{IsName};
ghost use Rattle.bank_parts.specs.declared.parts.Parts.{Parts};
ghost use Rattle.bank_parts.specs.Sound.{IsSound};
ghost use Rattle.bank_changes.specs.Samples.{sample_renamed};

/// A sound bank stays sound if a sample is renamed.
pub fn renaming_keeps_sound()
    ensures { (bank : Parts) (number : ℕ) (name : List ℕ) → IsSound bank → IsName name
        → IsSound (sample_renamed bank number name) }
{}
