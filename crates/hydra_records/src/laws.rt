//! Laws of reading and encoding records.
ghost use Rattle.hydra_records.specs.Fits.{FitsBag, FitsGenerator, FitsInstrumentHead, FitsPresetHead, FitsSampleHead};
ghost use Rattle.hydra_records.specs.Records.{IsLawful};
ghost use Rattle.hydra_records.specs.Encoding.{bag_bytes, bag_of, generator_bytes, generator_of, instrument_head_bytes, instrument_head_of, modulator_bytes, modulator_of, preset_head_bytes, preset_head_of, sample_head_bytes, sample_head_of};
ghost use Rattle.modulators.specs.Modulators.{FitsModulator};

/// The law that each record type reads back from its bytes, a single record and a whole table, and that records read
/// from bytes fit. It does nothing.
#[tactic(auto, using(crate::proofs::RecordTypeLaws::record_types_lawful))]
pub fn records_law()
    ensures preset_heads { IsLawful 38 preset_head_of preset_head_bytes FitsPresetHead }
    ensures bags { IsLawful 4 bag_of bag_bytes FitsBag }
    ensures modulators { IsLawful 10 modulator_of modulator_bytes FitsModulator }
    ensures generators { IsLawful 4 generator_of generator_bytes FitsGenerator }
    ensures instrument_heads { IsLawful 22 instrument_head_of instrument_head_bytes FitsInstrumentHead }
    ensures sample_heads { IsLawful 46 sample_head_of sample_head_bytes FitsSampleHead }
{}
