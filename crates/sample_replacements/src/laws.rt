//! The laws of replacements.
ghost use Rattle.sample_replacements.specs.Laws.{ReplacingKeeps, RestStays, PitchesStay};

/// The edits of a replacement change only the points, rate, loop, key and correction of the samples concerned; key and
/// correction only if the recording has a pitch.
pub fn replacing_keeps()
    ensures edits { ReplacingKeeps }
    ensures rest { RestStays }
    ensures pitches { PitchesStay }
{}
