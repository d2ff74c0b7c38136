//! Applying one neutral edit.
ghost use Rattle.std.specs.Prelude.{◌≡◌, true, None, List, MatchResult, IsOk, IfOk, OnOk};
ghost use Rattle.bank_parts.specs.Sound.{IsSound};
ghost use Rattle.script_notes.specs.Notes.{Numbers};
ghost use Rattle.edit_forms.specs.Fits.{FitsEdit};
ghost use Rattle.edit_refusals.specs.Edits.{refusal};
ghost use Rattle.bank_edits.specs.EditChanges.{IsDone, IsRefused, NeedsNoMemory};
ghost use Rattle.zone_select.specs.Alike.{AreAlike, HavePairsAlike};
ghost use Rattle.mixer.specs.Render.{render};
ghost use Rattle.sound_neutral_edits.specs.Neutral as table;

use bank_core::Bank;
use bank_edits::apply;
use edit_forms::Edit;
use edit_refusals::Refusal;
use std::alloc::Global;

/// Applies a neutral edit like `apply`: returns its inverse, or refuses it, returns it with the refusal and changes
/// nothing.
///
/// All notes render identically after the edit: each has the same voices, in some order, and its pairs of zones
/// correspond one to one to those before, each with the same voice. The inverse is neutral too.
pub fn apply_neutral<'a>(
    alloc: Global,
    bank: &mut Bank<'a>,
    edit: Edit<'a>,
) -> Result<Edit<'a>, (Refusal, Edit<'a>)>
    requires { table.is_neutral edit ≡ true }
    ensures outcome { MatchResult result (λ back. IsDone bank.old bank.new edit.entry back)
        (λ refused. IsRefused bank.old bank.new edit.entry refused.0 refused.1) }
    ensures no_memory { NeedsNoMemory edit.entry → refusal bank.old edit.entry ≡ None → IsOk result }
    ensures was_sound { IsSound bank.old }
    ensures sound { IsSound bank.new }
    ensures fits { FitsEdit edit.entry }
    ensures back_fits { IfOk result FitsEdit }
    ensures alike { OnOk result (AreAlike bank.old bank.new) }
    ensures pairs { OnOk result (HavePairsAlike bank.old bank.new) }
    ensures same { OnOk result ((ns : List Numbers) → render bank.new ns ≡ render bank.old ns) }
    ensures back_neutral { IfOk result (λ back. table.is_neutral back ≡ true) }
{
    apply(alloc, bank, edit)
}
