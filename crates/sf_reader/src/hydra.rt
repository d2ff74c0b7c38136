//! The nine record lists of `pdta` (SoundFont 2.04, section 7).
ghost use Rattle.std.specs.Prelude.{◌≡◌, [], ◌∷◌, length, map, nat_le};
ghost use Rattle.std.specs.List.{list_all};
ghost use Rattle.bank_format.specs.FaultChecks.{Passes};
ghost use Rattle.bank_format.specs.Windows.{without_terminal};
ghost use Rattle.bank_format.specs.Chunks.{body_in, or_terminal};
ghost use Rattle.bank_format.specs.ReadChecks.{chunk_check, nine, record_counts, count_checks, all_index_checks};
ghost use Rattle.sf_reader.specs.Hydra.{bodies_in, body_size_checks, tables_from, level_size_checks, level_of, level_index_checks, AreLists};

use crate::indexes::{FirstBag, FirstGenerator, FirstModulator, Index, check_indexes};
use bank_format::ReadFault;
use bank_parts::Head;
use hydra_records::{Bag, Generator, InstrumentHead, PresetHead, Record, SampleHead, Table};
use modulators::Modulator;
use riff_chunks::FirstChunks;
use sf_base::Name20;
use sf_base::limits::RECORDS;
use std::marker::Model;

/// Returns the body of the first chunk with an id, or `MissingChunk`.
pub(crate) fn needed_body<'a>(chunks: &FirstChunks<'a>, id: [u8; 4]) -> Result<&'a [u8], ReadFault>
    ensures { Passes (λ body. body.now) result (chunk_check chunks.now id ∷ []) (body_in id chunks.now) }
{
    chunks.body_of(id).ok_or(ReadFault::MissingChunk)
}

/// The bodies of the four chunks of presets or of instruments.
#[derive(Clone, Copy)]
pub(crate) struct LevelChunks<'a> {
    heads: &'a [u8],
    bags: &'a [u8],
    modulators: &'a [u8],
    generators: &'a [u8],
}

/// The bodies of the nine chunks of `pdta`.
#[derive(Drop)]
pub(crate) struct HydraChunks<'a> {
    presets: LevelChunks<'a>,
    instruments: LevelChunks<'a>,
    samples: &'a [u8],
}

impl<'a> Model for HydraChunks<'a> {
    ghost use Rattle.sf_reader.specs.Hydra.{Bodies};

    ghost Value = { Bodies };

    ghost view = { λ c. record {
      phdr = c.presets.heads.now;
      pbag = c.presets.bags.now;
      pmod = c.presets.modulators.now;
      pgen = c.presets.generators.now;
      inst = c.instruments.heads.now;
      ibag = c.instruments.bags.now;
      imod = c.instruments.modulators.now;
      igen = c.instruments.generators.now;
      shdr = c.samples.now;
    } };
}

impl<'a> HydraChunks<'a> {
    /// Finds the first chunk with each of the nine ids.
    #[tactic(auto, unfolding(crate::specs::Hydra::bodies_in, bank_format::specs::Ids::PHDR, bank_format::specs::Ids::PBAG, bank_format::specs::Ids::PMOD, bank_format::specs::Ids::PGEN, bank_format::specs::Ids::INST, bank_format::specs::Ids::IBAG, bank_format::specs::Ids::IMOD, bank_format::specs::Ids::IGEN, bank_format::specs::Ids::SHDR))]
    pub(crate) fn of(pdta: &FirstChunks<'a>) -> Result<HydraChunks<'a>, ReadFault>
        ensures { Passes (λ bodies. bodies) result (map (chunk_check pdta.now) nine)
            (bodies_in pdta.now) }
    {
        Ok(HydraChunks {
            presets: LevelChunks {
                heads: needed_body(pdta, *b"phdr")?,
                bags: needed_body(pdta, *b"pbag")?,
                modulators: needed_body(pdta, *b"pmod")?,
                generators: needed_body(pdta, *b"pgen")?,
            },
            instruments: LevelChunks {
                heads: needed_body(pdta, *b"inst")?,
                bags: needed_body(pdta, *b"ibag")?,
                modulators: needed_body(pdta, *b"imod")?,
                generators: needed_body(pdta, *b"igen")?,
            },
            samples: needed_body(pdta, *b"shdr")?,
        })
    }

    /// The nine lists of records; the length of each body must be a multiple of its record size.
    #[tactic(auto, unfolding(crate::specs::Hydra::body_size_checks, crate::specs::Hydra::tables_from))]
    pub(crate) fn tables(&self) -> Result<Tables<'a>, ReadFault>
        ensures { Passes (λ tables. tables) result (body_size_checks self.now) (tables_from self.now) }
    {
        Ok(Tables {
            presets: self.presets.tables()?,
            instruments: self.instruments.tables()?,
            samples: Table::over(self.samples).ok_or(ReadFault::RecordSize)?,
        })
    }
}

/// The four lists of presets or of instruments, borrowed from the file.
#[derive(Drop)]
pub(crate) struct LevelTables<'a, H: Record> {
    /// The headers of the presets or of the instruments, and their terminal.
    pub(crate) heads: Table<'a, H>,

    /// The bags, one for each zone, and a terminal.
    pub(crate) bags: Table<'a, Bag>,

    /// The modulators of the bags, and a terminal, which may be missing.
    pub(crate) modulators: Table<'a, Modulator>,

    /// The generators of the bags, and a terminal.
    pub(crate) generators: Table<'a, Generator>,
}

impl<'a> LevelChunks<'a> {
    // The four lists of records; the length of each body must be a multiple of its record size.
    fn tables<H: Record>(&self) -> Result<LevelTables<'a, H>, ReadFault>
        ensures { Passes (λ level. level) result (level_size_checks H.SIZE self.now)
            (level_of H.SIZE H.of_bytes self.now) }
    {
        Ok(LevelTables {
            heads: Table::over(self.heads).ok_or(ReadFault::RecordSize)?,
            bags: Table::over(self.bags).ok_or(ReadFault::RecordSize)?,
            modulators: Table::over(self.modulators).ok_or(ReadFault::RecordSize)?,
            generators: Table::over(self.generators).ok_or(ReadFault::RecordSize)?,
        })
    }
}

impl<'a, H: Record + Copy> LevelTables<'a, H> {
    // The number of modulators; an empty list reads as one zero record.
    fn modulator_count(&self) -> usize
        ensures { result ≡ length (or_terminal self.now.modulators) }
    {
        self.modulators.len().max(1)
    }

    // Checks the bag indexes of headers, and the generator and modulator indexes of bags.
    #[tactic(auto, unfolding(bank_format::specs::ReadChecks::index_checks))]
    fn check_indexes<I: Index<H>>(&self) -> Result<(), ReadFault>
        ensures { Passes (λ u. u) result (level_index_checks (map I.index self.now.heads) self.now) tt }
    {
        check_indexes::<H, I>(&self.heads, self.bags.len())?;
        check_indexes::<Bag, FirstGenerator>(&self.bags, self.generators.len())?;
        check_indexes::<Bag, FirstModulator>(&self.bags, self.modulator_count())
    }
}

/// The nine lists of records. An empty list of modulators reads as one zero record.
#[derive(Drop)]
pub(crate) struct Tables<'a> {
    presets: LevelTables<'a, PresetHead>,
    instruments: LevelTables<'a, InstrumentHead>,
    samples: Table<'a, SampleHead>,
}

impl<'a> Model for Tables<'a> {
    ghost use Rattle.bank_format.specs.Tables as nine_lists;
    ghost use Rattle.bank_format.specs.Chunks.{or_terminal};

    ghost Value = { nine_lists.Tables };

    ghost view = { λ t. record {
      phdr = t.presets.heads;
      pbag = t.presets.bags;
      pmod = or_terminal t.presets.modulators;
      pgen = t.presets.generators;
      inst = t.instruments.heads;
      ibag = t.instruments.bags;
      imod = or_terminal t.instruments.modulators;
      igen = t.instruments.generators;
      shdr = t.samples;
    } };
}

impl<'a> Tables<'a> {
    /// The four lists of the presets.
    pub(crate) fn presets(&self) -> &LevelTables<'a, PresetHead>
        ensures { AreLists result.now self.now.phdr self.now.pbag self.now.pgen self.now.pmod }
    {
        &self.presets
    }

    /// The four lists of the instruments.
    pub(crate) fn instruments(&self) -> &LevelTables<'a, InstrumentHead>
        ensures { AreLists result.now self.now.inst self.now.ibag self.now.igen self.now.imod }
    {
        &self.instruments
    }

    /// The headers of the samples, and their terminal.
    pub(crate) fn samples(&self) -> &Table<'a, SampleHead>
        ensures { result.now ≡ self.now.shdr }
    {
        &self.samples
    }

    // The number of records in each of the nine lists.
    fn counts(&self) -> [usize; 9]
        ensures { result ≡ record_counts self.now }
    {
        [
            self.presets.heads.len(),
            self.presets.bags.len(),
            self.presets.modulator_count(),
            self.presets.generators.len(),
            self.instruments.heads.len(),
            self.instruments.bags.len(),
            self.instruments.modulator_count(),
            self.instruments.generators.len(),
            self.samples.len(),
        ]
    }

    /// Checks that each of the nine lists has a terminal, and none has too many records.
    #[tactic(auto, using(crate::proofs::CheckLaws::same_fault), unfolding(bank_format::specs::ReadChecks::count_checks))]
    pub(crate) fn check_counts(&self) -> Result<(), ReadFault>
        ensures { Passes (λ u. u) result (count_checks self.now) tt }
    {
        let counts = self.counts();
        if !all_at_least(1, &counts) {
            return Err(ReadFault::NoTerminal);
        }
        if !all_at_most(RECORDS, &counts) {
            return Err(ReadFault::TooMany);
        }
        Ok(())
    }

    /// Checks that the indexes of each list are non-decreasing and inside the list that they refer to.
    pub(crate) fn check_indexes(&self) -> Result<(), ReadFault>
        ensures { Passes (λ u. u) result (all_index_checks self.now) tt }
    {
        self.presets.check_indexes::<FirstBag<Head>>()?;
        self.instruments.check_indexes::<FirstBag<Name20>>()
    }
}

/// The number of headers without the terminal.
pub(crate) fn row_count<H: Record>(heads: &Table<H>) -> usize
    ensures { result ≡ length (without_terminal heads.now) }
{
    heads.len().saturating_sub(1)
}

// Whether each count is at least `least`.
fn all_at_least(least: usize, counts: &[usize]) -> bool
    ensures { result ≡ list_all (λ count. nat_le least count) counts.now }
{
    counts.iter().all(|count| *count >= least)
}

// Whether each count is at most `most`.
fn all_at_most(most: usize, counts: &[usize]) -> bool
    ensures { result ≡ list_all (λ count. nat_le count most) counts.now }
{
    counts.iter().all(|count| *count <= most)
}
