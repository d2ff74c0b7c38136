//! The laws of neutral edits, over banks and edits as data.
ghost use Rattle.sound_neutral_edits.specs.SameSound.{InversesAreNeutral, NeutralAlike, NeutralPairs, NeutralRender};
ghost use Rattle.sound_neutral_edits.specs.Events.{NeutralBlocks, NeutralFrames};

/// The laws that a neutral edit, which a sound bank accepts, changes no sound. It does nothing.
///
/// Each note has the same voices, in some order; its pairs of zones correspond one to one to those before, each with
/// the same voice; and all notes render identically. For single forms, see the laws `samples_keep_pairs`,
/// `instruments_keep_pairs`, `zones_keep_pairs` and `texts_keep_pairs` of `zone_select`.
pub fn neutral_edits_change_no_sound()
    ensures alike { NeutralAlike }
    ensures pairs { NeutralPairs }
    ensures same { NeutralRender }
{}

/// The laws that neutral edits between note starts and blocks, each of which is accepted in turn, change neither the
/// frames of the note starts nor the blocks of a player, if the bank is sound. It does nothing.
pub fn neutral_edits_change_no_frame()
    ensures heard { NeutralFrames }
    ensures blocks { NeutralBlocks }
{}

/// The law that the inverse of a neutral edit is neutral. It does nothing.
pub fn inverses_are_neutral()
    ensures { InversesAreNeutral }
{}
