//! The RIFF chunk of a file.
ghost use Rattle.std.specs.Prelude.{◌≡◌};
ghost use Rattle.bank_format.specs.FaultChecks.{Passes};
ghost use Rattle.bank_format.specs.Chunks.{window};
ghost use Rattle.bank_format.specs.ReadChecks.{form_checks};

use sf_base::{front_of, part_of, rest_from, u32_at};

/// The length of a chunk's id and size in bytes.
const HEAD_LENGTH: usize = 8;

/// The length of a form in bytes.
const FORM_LENGTH: usize = 4;

/// Returns the body of a file's RIFF chunk after its form, or the fault given for a file that is not RIFF, is
/// truncated, or has another form.
///
/// The pad byte of the chunk may be missing, and bytes after the chunk are ignored.
#[tactic(auto, unfolding(crate::specs::ReadChecks::form_checks, crate::specs::Chunks::window, crate::specs::Ids::RIFF))]
pub fn window_of<F: Copy>(
    file: &[u8],
    form: [u8; 4],
    not_riff: F,
    truncated: F,
    other_form: F,
) -> Result<&[u8], F>
    ensures { Passes (λ w. w.now) result (form_checks form not_riff truncated other_form file.now) (window file.now) }
{
    if front_of(file, 4) != b"RIFF".as_slice() {
        return Err(not_riff);
    }
    if file.len() < HEAD_LENGTH + FORM_LENGTH {
        return Err(truncated);
    }
    let size = u32_at(file, 4) as usize;
    if size < FORM_LENGTH || file.len() + 1 < HEAD_LENGTH + size {
        return Err(truncated);
    }
    if part_of(file, HEAD_LENGTH, FORM_LENGTH) != form.as_slice() {
        return Err(other_form);
    }
    Ok(rest_from(
        front_of(file, HEAD_LENGTH + size),
        HEAD_LENGTH + FORM_LENGTH,
    ))
}
