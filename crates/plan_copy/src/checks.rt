//! Whether a member can be copied.
ghost use Rattle.std.specs.Prelude.{◌≡◌, ◌<◌, ◌≤◌, ℕ, List, Option, Err, IsOk, MatchResult};
ghost use Rattle.plan_presets.specs.declared.numbers.CopiedMember.TheVariants.{Preset};
ghost use Rattle.plan_copy.specs.declared.fault.CopyFault.TheVariants.{NoMember};
ghost use Rattle.plan_copy.specs.Copying.{copied};

use crate::fault::CopyFault;
use crate::numbers::{numbers_for, numbers_of};
use bank_core::Bank;
use edit_forms::Cause;
use plan_presets::{CopiedMember, PresetNumbers};

/// Whether a member can be copied; if not, the fault says why. The bank must have the member. The given numbers for the
/// copy of a preset must not be in use, and without given ones some must be free.
pub fn check_copy(bank: &Bank<'_>, member: CopiedMember) -> Result<(), CopyFault>
    ensures { MatchResult result (λ _. (name : Option (List ℕ)) → IsOk (copied bank.now member name)) (λ fault. (name : Option (List ℕ)) → copied bank.now member name ≡ Err fault) }
{
    match member {
        CopiedMember::Preset(number, given) => check_preset(bank, number, given),
        CopiedMember::Inst(number) => {
            check_number(bank.instruments().len(), number, Cause::NoSuchInstrument)
        }
        CopiedMember::Sample(number) => {
            check_number(bank.samples().len(), number, Cause::NoSuchSample)
        }
    }
}

fn check_preset(bank: &Bank<'_>, number: u32, given: Option<PresetNumbers>) -> Result<(), CopyFault>
    ensures { MatchResult result (λ _. (name : Option (List ℕ)) → IsOk (copied bank.now (Preset number given) name)) (λ fault. (name : Option (List ℕ)) → copied bank.now (Preset number given) name ≡ Err fault) }
{
    match bank.head(number) {
        None => Err(CopyFault::NoMember(Cause::NoSuchPreset)),
        Some(head) => match numbers_for(bank, numbers_of(&head), given) {
            Ok(_) => Ok(()),
            Err(fault) => Err(CopyFault::Numbers(fault)),
        },
    }
}

// Whether a list of `count` members has one with this number.
fn check_number(count: usize, number: u32, cause: Cause) -> Result<(), CopyFault>
    ensures { MatchResult result (λ _. number < count) (λ fault. (count ≤ number) × (fault ≡ NoMember cause)) }
{
    if number as usize >= count {
        return Err(CopyFault::NoMember(cause));
    }
    Ok(())
}
