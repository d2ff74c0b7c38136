//! Which zones of a bank a note selects (SoundFont 2.04, sections 7 and 9.4), and the parameters of their voices.
#![tactic(auto)]

mod amounts;
mod amplitude;
mod laws;
mod linear;
mod neutral;
mod pairs;
mod parameters;
mod pitches;
mod sample_range;
mod selected_pair;
mod zone_amounts;
mod zones;

pub use laws::{linear_modulators_are_summed, pairs_have_voices, selected_by_pairs};
pub use neutral::{
    instruments_keep_pairs, instruments_keep_sounding, samples_keep_pairs, samples_keep_sounding,
    texts_keep_pairs, texts_keep_sounding, zones_keep_pairs, zones_keep_sounding,
};
pub use pairs::{ZonePairs as Matches, matches};
pub use parameters::{PairParameters as Params, VoiceParameters, params};
pub use zones::zones_in;
