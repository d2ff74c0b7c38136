//! The operators of generators, with the names of the SoundFont standard (version 2.04, sections 8.1.2 and 8.1.3). Each
//! comment gives the unit of the amount.

/// `startAddrsOffset`. Points added to the start of the sample.
pub const START_ADDRS_OFFSET: u16 = 0;

/// `endAddrsOffset`. Points added to the end of the sample.
pub const END_ADDRS_OFFSET: u16 = 1;

/// `startloopAddrsOffset`. Points added to the start of the loop.
pub const STARTLOOP_ADDRS_OFFSET: u16 = 2;

/// `endloopAddrsOffset`. Points added to the end of the loop.
pub const ENDLOOP_ADDRS_OFFSET: u16 = 3;

/// `startAddrsCoarseOffset`. Multiples of 32,768 points added to the start of the sample.
pub const START_ADDRS_COARSE_OFFSET: u16 = 4;

/// `modLfoToPitch`. Cents of pitch at the modulation LFO's full excursion.
pub const MOD_LFO_TO_PITCH: u16 = 5;

/// `vibLfoToPitch`. Cents of pitch at the vibrato LFO's full excursion.
pub const VIB_LFO_TO_PITCH: u16 = 6;

/// `modEnvToPitch`. Cents of pitch at the modulation envelope's full excursion.
pub const MOD_ENV_TO_PITCH: u16 = 7;

/// `initialFilterFc`. The filter's cutoff, in absolute cents (0 is 8.176 Hz).
pub const INITIAL_FILTER_FC: u16 = 8;

/// `initialFilterQ`. The filter's resonance, in centibels above its gain at 0 Hz.
pub const INITIAL_FILTER_Q: u16 = 9;

/// `modLfoToFilterFc`. Cents of cutoff at the modulation LFO's full excursion.
pub const MOD_LFO_TO_FILTER_FC: u16 = 10;

/// `modEnvToFilterFc`. Cents of cutoff at the modulation envelope's full excursion.
pub const MOD_ENV_TO_FILTER_FC: u16 = 11;

/// `endAddrsCoarseOffset`. Multiples of 32,768 points added to the end of the sample.
pub const END_ADDRS_COARSE_OFFSET: u16 = 12;

/// `modLfoToVolume`. Centibels of volume at the modulation LFO's full excursion.
pub const MOD_LFO_TO_VOLUME: u16 = 13;

/// `chorusEffectsSend`. The part sent to the chorus, in 0.1 %.
pub const CHORUS_EFFECTS_SEND: u16 = 15;

/// `reverbEffectsSend`. The part sent to the reverberation, in 0.1 %.
pub const REVERB_EFFECTS_SEND: u16 = 16;

/// `pan`. The position between left (-500) and right (500), in 0.1 %.
pub const PAN: u16 = 17;

/// `delayModLFO`. The time until the modulation LFO starts, in timecents.
pub const DELAY_MOD_LFO: u16 = 21;

/// `freqModLFO`. The modulation LFO's frequency, in absolute cents (0 is 8.176 Hz).
pub const FREQ_MOD_LFO: u16 = 22;

/// `delayVibLFO`. The time until the vibrato LFO starts, in timecents.
pub const DELAY_VIB_LFO: u16 = 23;

/// `freqVibLFO`. The vibrato LFO's frequency, in absolute cents (0 is 8.176 Hz).
pub const FREQ_VIB_LFO: u16 = 24;

/// `delayModEnv`. The time until the modulation envelope's attack, in timecents.
pub const DELAY_MOD_ENV: u16 = 25;

/// `attackModEnv`. The time of the modulation envelope's attack, in timecents.
pub const ATTACK_MOD_ENV: u16 = 26;

/// `holdModEnv`. The time for which the modulation envelope stays at its peak, in timecents.
pub const HOLD_MOD_ENV: u16 = 27;

/// `decayModEnv`. The time of the modulation envelope's decay over its full range, in timecents.
pub const DECAY_MOD_ENV: u16 = 28;

/// `sustainModEnv`. The fall of the modulation envelope below its peak while it is sustained, in 0.1 %.
pub const SUSTAIN_MOD_ENV: u16 = 29;

/// `releaseModEnv`. The time of the modulation envelope's release over its full range, in
/// timecents.
pub const RELEASE_MOD_ENV: u16 = 30;

/// `keynumToModEnvHold`. Timecents by which each key below 60 lengthens the modulation envelope's hold.
pub const KEYNUM_TO_MOD_ENV_HOLD: u16 = 31;

/// `keynumToModEnvDecay`. Timecents by which each key below 60 lengthens the modulation envelope's
/// decay.
pub const KEYNUM_TO_MOD_ENV_DECAY: u16 = 32;

/// `delayVolEnv`. The time until the volume envelope's attack, in timecents.
pub const DELAY_VOL_ENV: u16 = 33;

/// `attackVolEnv`. The time of the volume envelope's attack, in timecents.
pub const ATTACK_VOL_ENV: u16 = 34;

/// `holdVolEnv`. The time for which the volume envelope stays at its peak, in timecents.
pub const HOLD_VOL_ENV: u16 = 35;

/// `decayVolEnv`. The time of the volume envelope's decay over 100 dB, in timecents.
pub const DECAY_VOL_ENV: u16 = 36;

/// `sustainVolEnv`. The fall of the volume envelope below its peak while it is sustained, in centibels.
pub const SUSTAIN_VOL_ENV: u16 = 37;

/// `releaseVolEnv`. The time of the volume envelope's release over 100 dB, in timecents.
pub const RELEASE_VOL_ENV: u16 = 38;

/// `keynumToVolEnvHold`. Timecents by which each key below 60 lengthens the volume envelope's hold.
pub const KEYNUM_TO_VOL_ENV_HOLD: u16 = 39;

/// `keynumToVolEnvDecay`. Timecents by which each key below 60 lengthens the volume envelope's
/// decay.
pub const KEYNUM_TO_VOL_ENV_DECAY: u16 = 40;

/// `instrument`. The number of an instrument, the target of a preset zone. In no map.
pub const INSTRUMENT: u16 = 41;

/// `keyRange`. The lowest and the highest key of the zone, as two bytes.
pub const KEY_RANGE: u16 = 43;

/// `velRange`. The lowest and the highest velocity of the zone, as two bytes.
pub const VEL_RANGE: u16 = 44;

/// `startloopAddrsCoarseOffset`. Multiples of 32,768 points added to the start of the loop.
pub const STARTLOOP_ADDRS_COARSE_OFFSET: u16 = 45;

/// `keynum`. The key played instead of the note's, or -1 for the note's own.
pub const KEYNUM: u16 = 46;

/// `velocity`. The velocity played instead of the note's, or -1 for the note's own.
pub const VELOCITY: u16 = 47;

/// `initialAttenuation`. The attenuation of the sample, in centibels.
pub const INITIAL_ATTENUATION: u16 = 48;

/// `endloopAddrsCoarseOffset`. Multiples of 32,768 points added to the end of the loop.
pub const ENDLOOP_ADDRS_COARSE_OFFSET: u16 = 50;

/// `coarseTune`. Semitones added to the pitch.
pub const COARSE_TUNE: u16 = 51;

/// `fineTune`. Cents added to the pitch, besides the semitones.
pub const FINE_TUNE: u16 = 52;

/// `sampleID`. The number of a sample, the target of an instrument zone. In no map.
pub const SAMPLE_ID: u16 = 53;

/// `sampleModes`. How the loop is played: 0 never, 1 without end, 3 until the key is released.
pub const SAMPLE_MODES: u16 = 54;

/// `scaleTuning`. Cents between adjacent keys.
pub const SCALE_TUNING: u16 = 56;

/// `exclusiveClass`. The number of a class in which a new note ends the others, or 0 for none.
pub const EXCLUSIVE_CLASS: u16 = 57;

/// `overridingRootKey`. The key that plays the sample at its recorded pitch, or -1 for the sample's own.
pub const OVERRIDING_ROOT_KEY: u16 = 58;
