//! Whether the presets of a bank have the same voices after their instruments and samples are renumbered.
ghost use Rattle.std.specs.Prelude.{◌≡◌, ◌<◌, length, true, slice_get};
ghost use Rattle.plan_take.specs.Matches.{AreBoth};
ghost use Rattle.plan_take.specs.RemovingDuplicates.{IsSamePreset, AreSamePresets, KeepsAllVoices};

use crate::comparisons::instruments_match;
use crate::sample_matches::samples_match;
use crate::zone_matches::is_renumbered;
use bank_core::{Bank, Head, Owners};
use bank_equality::SameHead;

/// Whether each note has the same voices in two banks, given the numbers that samples and instruments of the first have
/// in the second.
pub(crate) fn keeps_all_voices(
    from: &Bank<'_>,
    to: &Bank<'_>,
    samples: &[Option<u16>],
    instruments: &[Option<u16>],
) -> bool
    ensures { result ≡ true → KeepsAllVoices from.now to.now }
{
    if !samples_match(from.samples(), to.samples(), samples) {
        return false;
    }
    if !instruments_match(from.instruments(), to.instruments(), instruments, samples) {
        return false;
    }
    are_same_presets(from.presets(), to.presets(), instruments)
}

// Whether two lists have the same presets in the same order, with renumbered targets.
fn are_same_presets(from: &Owners<Head>, to: &Owners<Head>, instruments: &[Option<u16>]) -> bool
    ensures { result ≡ true → AreSamePresets instruments.now from.now to.now }
{
    if from.len() != to.len() {
        return false;
    }
    for i in 0..from.len() {
        if !is_same_preset(from, to, i, instruments) {
            return false;
        }
    }
    true
}

fn is_same_preset(
    from: &Owners<Head>,
    to: &Owners<Head>,
    i: usize,
    instruments: &[Option<u16>],
) -> bool
    requires first { i < length from.now }
    requires second { i < length to.now }
    ensures { result ≡ true → AreBoth (IsSamePreset instruments.now) (slice_get from.now i) (slice_get to.now i) }
{
    from.head(i).is_same(to.head(i)) && is_renumbered(from, i, to, i, instruments)
}
