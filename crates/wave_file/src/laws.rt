//! Laws of recordings.
ghost use Rattle.wave_file.specs.Laws.{WavesReadBack};

/// The WAVE file of a sample reads back as a mono recording with its points, rate, key, correction and loop.
pub fn sample_waves_read_back()
    ensures { WavesReadBack }
{}
