//! The law of the limits of a bank.
ghost use Rattle.std.specs.Prelude.{◌≡◌, ◌↔◌, None};
ghost use Rattle.bank_parts.specs.declared.parts.Parts.{Parts};
ghost use Rattle.bank_parts.specs.Valid.{IsWithin};
ghost use Rattle.bank_validity.specs.Limits.{broken_limit};

/// No limit is broken exactly if every list is within its limit.
pub fn limits_agree()
    ensures { (b : Parts) → (broken_limit b ≡ None) ↔ IsWithin b }
{}
