//! The faults and the counts of reading.
ghost use Rattle.std.specs.Prelude.{◌≡◌};
ghost use Rattle.sf_base.specs.declared.memory.Failure.TheVariants as failures;
ghost use Rattle.bank_format.specs.declared.fault.ReadFault.TheVariants as faults;
ghost use Rattle.bank_format.specs.FaultNames.{number_of, name_of};

use riff_chunks::Truncated;
use sf_base::Failure;
use thiserror::Error;

/// Why a file is rejected: the first check of reading that it fails.
#[derive(Clone, Copy, Debug, PartialEq, Eq, Error)]
pub enum ReadFault {
    #[error("the file does not begin with RIFF")]
    NotRiff = 1,
    #[error("the RIFF form is not sfbk")]
    NotSfbk = 2,
    #[error("a chunk passes the end of what holds it")]
    Truncated = 3,
    #[error("a list of INFO, sdta and pdta is missing")]
    MissingList = 4,
    #[error("ifil or a list of pdta is missing")]
    MissingChunk = 5,
    #[error("the version is not 2")]
    Version = 6,
    #[error("a list of pdta is not whole records long")]
    RecordSize = 7,
    #[error("a list of pdta has no terminal record")]
    NoTerminal = 8,
    #[error("an index falls below the one before it")]
    BagOrder = 9,
    #[error("an index passes the list that it points into")]
    IndexOutside = 10,
    #[error("a zone of a preset names no instrument")]
    BadInstrument = 11,
    #[error("a zone of an instrument names no sample")]
    BadSample = 12,
    #[error("a sample's range is not in the points")]
    SampleRange = 14,
    #[error("a sample is packed")]
    SampleType = 15,
    #[error("a sample is in ROM")]
    RomSample = 16,
    #[error("the points are an odd number of bytes")]
    OddSamples = 17,
    #[error("there are more records or points than a bank can have")]
    TooMany = 18,
}

impl ReadFault {
    /// The number of the fault, as fault lines print it.
    pub fn number(self) -> u8
        ensures { result ≡ number_of self }
    {
        self as u8
    }

    /// The name of the fault, as fault lines print it.
    pub fn name(self) -> &'static str
        ensures { result.now ≡ name_of self }
    {
        match self {
            ReadFault::NotRiff => "NotRiff",
            ReadFault::NotSfbk => "NotSfbk",
            ReadFault::Truncated => "Truncated",
            ReadFault::MissingList => "MissingList",
            ReadFault::MissingChunk => "MissingChunk",
            ReadFault::Version => "Version",
            ReadFault::RecordSize => "RecordSize",
            ReadFault::NoTerminal => "NoTerminal",
            ReadFault::BagOrder => "BagOrder",
            ReadFault::IndexOutside => "IndexOutside",
            ReadFault::BadInstrument => "BadInstrument",
            ReadFault::BadSample => "BadSample",
            ReadFault::SampleRange => "SampleRange",
            ReadFault::SampleType => "SampleType",
            ReadFault::RomSample => "RomSample",
            ReadFault::OddSamples => "OddSamples",
            ReadFault::TooMany => "TooMany",
        }
    }
}

impl From<Truncated> for ReadFault {
    ghost from_gives = { λ _ fault. fault ≡ faults.Truncated };

    fn from(_error: Truncated) -> ReadFault {
        ReadFault::Truncated
    }
}

impl From<ReadFault> for Failure<ReadFault> {
    ghost from_gives = { λ fault failure. failure ≡ failures.Fault fault };

    fn from(fault: ReadFault) -> Failure<ReadFault> {
        Failure::Fault(fault)
    }
}

/// How many parts of a file were dropped or repaired while it was read.
#[derive(Clone, Copy, Debug, PartialEq, Eq)]
pub struct Counts {
    /// Texts that were truncated to their maximum length.
    pub texts: u64,
    /// 1 if the file has a chunk `sm24`, the low-order bytes of 24-bit points, which are dropped.
    pub sm24: u64,
    /// Zones without a target that were dropped.
    pub zones: u64,
    /// Generator records that were dropped.
    pub gens: u64,
    /// Key and velocity ranges that were repaired: ends above 127, or in the wrong order.
    pub ranges: u64,
    /// Loops that were dropped because they are not inside their sample.
    pub loops: u64,
    /// Samples with an unknown type, or with a link to a sample that does not exist, which become mono.
    pub links: u64,
}
