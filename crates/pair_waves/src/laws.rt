//! The law of the WAVE files of pairs.
ghost use Rattle.pair_waves.specs.Laws.{PairsReadBack};

/// The WAVE file of a left and a right sample reads back as a stereo recording with the points of both, and the rate,
/// key, correction and loop of the left one.
pub fn pairs_read_back()
    ensures { PairsReadBack }
{}
