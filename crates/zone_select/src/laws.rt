//! The laws of selection, and of the sum of linear modulators.
ghost use Rattle.zone_select.specs.Pairs.{SelectedByPairs};
ghost use Rattle.zone_select.specs.Played.{PairsAreSelected, PairsHaveVoices};
ghost use Rattle.zone_select.specs.Summed.{LinearAreSummed, SummedAreLinear, SummedOnce};

/// The law that the voices of a note, zone by zone, are those of its pairs of zones, in order. It does nothing.
#[tactic(auto, using(crate::proofs::PairLaws::selected_by_pairs))]
pub fn selected_by_pairs()
    ensures { SelectedByPairs }
{}

/// The laws that a pair of numbers is one of a note's pairs exactly if both its zones exist and contain the note and,
/// in a valid bank, exactly if it has a voice. It does nothing.
pub fn pairs_have_voices()
    ensures pairs_selected { PairsAreSelected }
    ensures voices { PairsHaveVoices }
{}

/// The laws that the sum over the linear sources covers all linear modulators of a generator, each once. It does
/// nothing.
pub fn linear_modulators_are_summed()
    ensures all { LinearAreSummed }
    ensures linear { SummedAreLinear }
    ensures once { SummedOnce }
{}
