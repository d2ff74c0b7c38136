//! Which edits are neutral.
ghost use Rattle.std.specs.Prelude.{◌≡◌};
ghost use Rattle.sound_neutral_edits.specs.Neutral as table;

use edit_forms::Edit;

/// Whether an edit is one step of a form that changes no sound. A group never is, whatever its steps.
pub fn is_neutral(edit: &Edit<'_>) -> bool
    ensures { result ≡ table.is_neutral edit.now }
{
    match edit {
        Edit::One(step) => step.is_neutral(),
        Edit::Group(_) => false,
    }
}
