//! The law of the table of an instrument.
ghost use Rattle.kit_of_instrument.specs.Laws.{KitsReadBack};

/// The table of an instrument of a sound bank, with the files of its samples, reads as the zones that notes select.
#[tactic(auto, using(crate::proofs::KitLaws::kits_read_back))]
pub fn kits_read_back()
    ensures { KitsReadBack }
{}
