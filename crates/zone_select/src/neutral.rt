//! The laws of edits that change no sound.
//!
//! After such an edit each note has the same voices, in some order. Its pairs of zones are the same or, if zones get
//! other numbers, correspond one to one, each with the same voice. The functions do nothing: each law is a contract.
ghost use Rattle.zone_select.specs.Alike.{AreAlike, HavePairsAlike, HaveSamePairs};
ghost use Rattle.zone_select.specs.Neutral.{SampleAdded, SampleRemoved, SampleMoved, SampleRenamed, KindSet};
ghost use Rattle.zone_select.specs.Neutral.{InstrumentAdded, InstrumentRemoved, InstrumentMoved, InstrumentRenamed};
ghost use Rattle.zone_select.specs.Neutral.{ZoneMoved, ZoneSplit, ZoneJoined, InfoSet};

/// Each note has the same voices after a sample is added, removed while no zone targets it, moved to another number
/// (zones follow it), renamed, or given another kind.
pub fn samples_keep_sounding()
    ensures added { SampleAdded AreAlike }
    ensures removed { SampleRemoved AreAlike }
    ensures moved { SampleMoved AreAlike }
    ensures renamed { SampleRenamed AreAlike }
    ensures kind { KindSet AreAlike }
{}

/// Each note has the same voices after an instrument is added, removed while no zone targets it, moved to another
/// number (zones follow it), or renamed.
pub fn instruments_keep_sounding()
    ensures added { InstrumentAdded AreAlike }
    ensures removed { InstrumentRemoved AreAlike }
    ensures moved { InstrumentMoved AreAlike }
    ensures renamed { InstrumentRenamed AreAlike }
{}

/// Each note has the same voices after a zone of a preset or an instrument is moved to another number, split at a key
/// or a velocity of its range, or joined with the next one, if they can be joined and the bank is valid.
pub fn zones_keep_sounding()
    ensures moved { ZoneMoved AreAlike }
    ensures split { ZoneSplit AreAlike }
    ensures joined { ZoneJoined AreAlike }
{}

/// Each note has the same voices after a text is set.
pub fn texts_keep_sounding()
    ensures set { InfoSet AreAlike }
{}

/// Each note selects the same pairs of zones, in the same order, with the same points and parameters, before and after
/// an edit of [`samples_keep_sounding`].
pub fn samples_keep_pairs()
    ensures added { SampleAdded HaveSamePairs }
    ensures removed { SampleRemoved HaveSamePairs }
    ensures moved { SampleMoved HaveSamePairs }
    ensures renamed { SampleRenamed HaveSamePairs }
    ensures kind { KindSet HaveSamePairs }
{}

/// Each note selects the same pairs of zones, in the same order, with the same points and parameters, before and after
/// an edit of [`instruments_keep_sounding`].
pub fn instruments_keep_pairs()
    ensures added { InstrumentAdded HaveSamePairs }
    ensures removed { InstrumentRemoved HaveSamePairs }
    ensures moved { InstrumentMoved HaveSamePairs }
    ensures renamed { InstrumentRenamed HaveSamePairs }
{}

/// The pairs that a note selects before and after an edit of [`zones_keep_sounding`], which renumbers zones, correspond
/// one to one, with the same points and parameters.
pub fn zones_keep_pairs()
    ensures moved { ZoneMoved HavePairsAlike }
    ensures split { ZoneSplit HavePairsAlike }
    ensures joined { ZoneJoined HavePairsAlike }
{}

/// Each note selects the same pairs of zones, in the same order, with the same points and parameters, before and after
/// a text is set.
pub fn texts_keep_pairs()
    ensures set { InfoSet HaveSamePairs }
{}
