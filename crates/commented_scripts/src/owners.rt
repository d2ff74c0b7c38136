//! The edits that add presets or instruments.
ghost use Rattle.std.specs.Prelude.{◌≡◌, ◌<◌, ◌≤◌, ◌++◌, ◌^◌, length, slice_get, IfSome, OnOk};
ghost use Rattle.script_of_bank.specs.BankEdits.{in_turn};

use crate::copies::copy_owner;
use bank_core::{Head, Instrument, Owners, Preset, ZoneOwner};
use bank_parts::OwnerHead;
use edit_forms::{Edit, InstrumentStep, PresetStep, Step};
use sf_base::{Name20, OutOfMemory};
use std::alloc::Global;

/// The head of owners that are added by an edit.
pub(crate) trait AddedHead: OwnerHead {
    ghost use Rattle.std.specs.Prelude.{◌≡◌, ◌∷◌, [], ℕ, List};
    ghost use Rattle.bank_parts.specs.declared.parts.ZoneOwner.{ZoneOwner};
    ghost use Rattle.edit_forms.specs.declared.edit.Edit.{Edit};

    /// The edits that add an owner: exactly one.
    ghost edits: { ℕ → ZoneOwner Self → List Edit };

    /// The edit that adds an owner with this number.
    fn edit<'a>(at: u32, owner: ZoneOwner<Self>) -> Edit<'a>
        ensures { edits at owner ≡ result ∷ [] };
}

impl AddedHead for Head {
    ghost use Rattle.std.specs.Prelude.{◌≡◌, ◌∷◌, []};
    ghost use Rattle.script_of_bank.specs.BankEdits.{preset_edits};

    ghost edits = { preset_edits };

    fn edit<'a>(at: u32, preset: Preset) -> Edit<'a>
        ensures { preset_edits at preset ≡ result ∷ [] }
    {
        Edit::One(Step::Preset(PresetStep::AddPreset { at, preset }))
    }
}

impl AddedHead for Name20 {
    ghost use Rattle.std.specs.Prelude.{◌≡◌, ◌∷◌, []};
    ghost use Rattle.script_of_bank.specs.BankEdits.{instrument_edits};

    ghost edits = { instrument_edits };

    fn edit<'a>(at: u32, instrument: Instrument) -> Edit<'a>
        ensures { instrument_edits at instrument ≡ result ∷ [] }
    {
        Edit::One(Step::Instrument(InstrumentStep::AddInstrument { at, instrument }))
    }
}

// Appends an edit for each preset, or for each instrument.
pub(crate) fn list_owners<'a, H: AddedHead>(
    alloc: Global,
    owners: &Owners<H>,
    edits: &mut Vec<Edit<'a>>,
) -> Result<(), OutOfMemory>
    requires { length owners.now ≤ 2 ^ 32 }
    ensures { OnOk result (edits.new.items ≡ edits.old.items ++ in_turn H.edits 0 owners.now) }
{
    for number in 0..owners.len() {
        list_owner(alloc, owners, number, edits)?;
    }
    Ok(())
}

// Appends the edit that adds owner `i`.
fn list_owner<'a, H: AddedHead>(
    alloc: Global,
    owners: &Owners<H>,
    i: usize,
    edits: &mut Vec<Edit<'a>>,
) -> Result<(), OutOfMemory>
    requires owner { i < length owners.now }
    requires fits { i < 2 ^ 32 }
    ensures { OnOk result (IfSome (slice_get owners.now i) (λ x. edits.new.items ≡ edits.old.items ++ H.edits i x)) }
{
    let owner = copy_owner(alloc, owners, i)?;
    edits.push(H::edit(i as u32, owner))?;
    Ok(())
}
