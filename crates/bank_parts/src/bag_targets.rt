//! Reads the generators of a bag: whether it ends in a target, the target, and the rest.
ghost use Rattle.std.specs.Prelude.{◌≡◌, ◌<◌, ◌-◌, length, take};
ghost use Rattle.bank_parts.specs.Bagged.{ends_in, last_amount, without_target};

/// Whether the last generator has this operator.
pub(crate) fn ends_in(operator: u16, gens: &[(u16, u16)]) -> bool
    ensures { result ≡ ends_in operator gens.now }
{
    match gens.last() {
        Some(&(last, _)) => last == operator,
        None => false,
    }
}

/// The amount of the last generator, or 0 if there is none.
pub(crate) fn last_amount(gens: &[(u16, u16)]) -> u16
    ensures { result ≡ last_amount gens.now }
{
    match gens.last() {
        Some(&(_, amount)) => amount,
        None => 0,
    }
}

/// The generators of a bag without its target.
pub(crate) fn without_target(operator: u16, gens: &[(u16, u16)]) -> &[(u16, u16)]
    ensures { result.now ≡ without_target operator gens.now }
{
    if ends_in(operator, gens) {
        return without_last(gens);
    }
    gens
}

/// All but the last generator.
pub(crate) fn without_last(gens: &[(u16, u16)]) -> &[(u16, u16)]
    requires { 0 < length gens.now }
    ensures { result.now ≡ take (length gens.now - 1) gens.now }
{
    &gens[..gens.len() - 1]
}
