//! Whether two banks are equal.
ghost use Rattle.std.specs.Prelude.{◌≡◌, ◌↔◌, IsTrue};
ghost use Rattle.bank_parts.specs.Texts.{text_of};

use crate::owners::same_owners;
use crate::samples::same_samples;
use bank_core::{Bank, InfoId};

/// Whether both banks are equal: the same version, texts, presets, instruments and samples with their points, however
/// the points are split into slices. Allocates nothing.
pub fn are_equal(a: &Bank<'_>, b: &Bank<'_>) -> bool
    ensures { IsTrue result ↔ (a.now ≡ b.now) }
{
    a.minor() == b.minor()
        && same_texts(a, b)
        && same_owners(a.presets(), b.presets())
        && same_owners(a.instruments(), b.instruments())
        && same_samples(a.samples(), b.samples())
}

/// Whether all eight texts have the same bytes.
pub fn same_texts(a: &Bank<'_>, b: &Bank<'_>) -> bool
    ensures { IsTrue result ↔ (a.now.texts ≡ b.now.texts) }
{
    same_text(a, b, InfoId::Engine)
        && same_text(a, b, InfoId::Name)
        && same_text(a, b, InfoId::Date)
        && same_text(a, b, InfoId::Engineers)
        && same_text(a, b, InfoId::Product)
        && same_text(a, b, InfoId::Copyright)
        && same_text(a, b, InfoId::Comment)
        && same_text(a, b, InfoId::Software)
}

/// Whether the texts with this id have the same bytes.
pub fn same_text(a: &Bank<'_>, b: &Bank<'_>, id: InfoId) -> bool
    ensures { IsTrue result ↔ (text_of a.now.texts id ≡ text_of b.now.texts id) }
{
    a.info(id) == b.info(id)
}
