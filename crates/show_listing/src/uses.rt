//! How often the instruments and the samples of a bank are used.
ghost use Rattle.std.specs.Prelude.{◌≡◌, slice_index, Some, None, IfOk, if◌then◌else◌};
ghost use Rattle.std.specs.Option.{option_copied, option_map};
ghost use Rattle.base_outputs.specs.Output.{Puts};
ghost use Rattle.show_listing.specs.Uses.{UsageCounts, usage_counts_in};
ghost use Rattle.show_listing.specs.Details.{uses_line, sample_uses_line};

use crate::counting::{links, tally, targets};
use crate::pieces::{number_piece, word_piece};
use bank_core::Bank;
use base_outputs::Output;
use script_tokens::put_line;
use sf_base::OutOfMemory;
use std::alloc::Global;
use std::io::Write;
use std::marker::Model;

/// How many zones target each instrument and each sample, and how many other samples link to each sample.
pub(crate) struct Uses {
    instruments: Vec<u64>,
    samples: Vec<u64>,
    links: Vec<u64>,
}

// Not derived: a derived drop is inlined, and proved, wherever a value is dropped; this one is a call.
impl Drop for Uses {
    fn drop(self) {
        let Uses {
            instruments: _,
            samples: _,
            links: _,
        } = self;
    }
}

impl Model for Uses {
    ghost use Rattle.show_listing.specs.Uses.{UsageCounts};

    ghost Value = { UsageCounts };

    ghost view = { λ uses. record { instruments = uses.instruments.items; samples = uses.samples.items; links = uses.links.items } };
}

impl Uses {
    /// Counts the uses in a bank, in one pass over its zones and one over its samples.
    pub(crate) fn of(alloc: Global, bank: &Bank<'_>) -> Result<Uses, OutOfMemory>
        ensures { IfOk result (λ uses. uses ≡ usage_counts_in bank.now) }
    {
        let instruments = instrument_uses(alloc, bank)?;
        let samples = sample_uses(alloc, bank)?;
        let links = sample_links(alloc, bank)?;
        Ok(Uses {
            instruments,
            samples,
            links,
        })
    }
}

/// Counts the uses in a bank, if they are requested.
pub(crate) fn requested_uses(
    alloc: Global,
    bank: &Bank<'_>,
    requested: bool,
) -> Result<Option<Uses>, OutOfMemory>
    ensures { IfOk result (λ uses. uses ≡ (if requested then Some (usage_counts_in bank.now) else None)) }
{
    if requested {
        Ok(Some(Uses::of(alloc, bank)?))
    } else {
        Ok(None)
    }
}

fn instrument_uses(alloc: Global, bank: &Bank<'_>) -> Result<Vec<u64>, OutOfMemory>
    ensures { IfOk result (λ counts. counts.items ≡ (usage_counts_in bank.now).instruments) }
{
    let found = targets(alloc, bank.presets())?;
    tally(alloc, bank.instruments().len(), found.as_slice())
}

fn sample_uses(alloc: Global, bank: &Bank<'_>) -> Result<Vec<u64>, OutOfMemory>
    ensures { IfOk result (λ counts. counts.items ≡ (usage_counts_in bank.now).samples) }
{
    let found = targets(alloc, bank.instruments())?;
    tally(alloc, bank.samples().len(), found.as_slice())
}

fn sample_links(alloc: Global, bank: &Bank<'_>) -> Result<Vec<u64>, OutOfMemory>
    ensures { IfOk result (λ counts. counts.items ≡ (usage_counts_in bank.now).links) }
{
    let found = links(alloc, bank.samples())?;
    tally(alloc, bank.samples().len(), found.as_slice())
}

/// Returns the uses of instruments, if uses were requested.
pub(crate) fn of_instruments(uses: Option<&Uses>) -> Option<&[u64]>
    ensures { option_copied result ≡ option_map (λ (u : UsageCounts). u.instruments) (option_copied uses.entry) }
{
    match uses {
        Some(uses) => Some(uses.instruments.as_slice()),
        None => None,
    }
}

/// Writes the line with the uses of a member of a list, if uses were requested.
#[tactic(auto, using(base_outputs::proofs::OutputLaws::puts_nothing))]
pub(crate) fn put_uses<W: Write>(
    word: &[u8],
    number: usize,
    uses: Option<&[u64]>,
    output: &mut Output<'_, W>,
)
    ensures { Puts W.contents output.old output.new (uses_line word.now number (option_copied uses.entry)) }
{
    if let Some(counts) = uses {
        let pieces = [
            word_piece(word),
            number_piece(number as u64),
            word_piece(b"zones"),
            number_piece(times(counts, number)),
        ];
        put_line(b"uses", &pieces, output);
    }
}

/// Writes the line with the uses of a sample by zones and by other samples, if uses were requested.
#[tactic(auto, using(base_outputs::proofs::OutputLaws::puts_nothing))]
pub(crate) fn put_sample_uses<W: Write>(
    number: usize,
    uses: Option<&Uses>,
    output: &mut Output<'_, W>,
)
    ensures { Puts W.contents output.old output.new (sample_uses_line number (option_copied uses.entry)) }
{
    if let Some(uses) = uses {
        let pieces = [
            word_piece(b"sample"),
            number_piece(number as u64),
            word_piece(b"zones"),
            number_piece(times(uses.samples.as_slice(), number)),
            word_piece(b"links"),
            number_piece(times(uses.links.as_slice(), number)),
        ];
        put_line(b"uses", &pieces, output);
    }
}

// The count of a number; 0 if it has none.
fn times(counts: &[u64], number: usize) -> u64
    ensures { result ≡ slice_index counts.now number }
{
    counts.get(number).copied().unwrap_or(0)
}
