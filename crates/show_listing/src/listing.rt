//! The lines of a listing.
ghost use Rattle.std.specs.Prelude.{◌≡◌, ◌<◌, length, slice_get, Option, IfSome, IfOk};
ghost use Rattle.std.specs.Option.{option_copied};
ghost use Rattle.base_outputs.specs.Output.{Puts};
ghost use Rattle.show_listing.specs.Listing.{listing, bank_line, counts_line, lines_from};
ghost use Rattle.show_listing.specs.Details.{owner_lines, sample_lines, listing_with, detailed_listing, listing_text};

use crate::members::{ListedHead, put_sample};
use crate::pieces::{number_piece, word_piece};
use crate::points::point_count;
use crate::uses::{Uses, of_instruments, put_sample_uses, put_uses, requested_uses};
use crate::zones::put_zones;
use bank_core::{Bank, Owners, Sample};
use bank_format::Counts;
use base_outputs::Output;
use base_texts::Text;
use script_tokens::put_line;
use sf_base::OutOfMemory;
use std::alloc::Global;
use std::io::Write;

/// What a listing contains besides a line for each preset, instrument and sample.
#[derive(Clone, Copy, Debug, PartialEq, Eq)]
pub struct Details {
    /// A line for each zone, and for each global zone that isn't empty.
    pub zones: bool,
    /// A line for each instrument and sample: how many zones target it, and how many other samples link to a sample.
    pub uses: bool,
}

/// The listing of a bank: a line for the bank, one for the counts of what the reader dropped or repaired, and one for
/// each preset, instrument and sample, followed by its details. Names are written as literals of edit scripts.
#[derive(Drop)]
pub struct Listing<'t, 'a> {
    bank: &'t Bank<'a>,
    counts: &'t Counts,
    zones: bool,
    uses: Option<Uses>,
}

impl<'t, 'a> Listing<'t, 'a> {
    /// The listing without details.
    pub fn plain(bank: &'t Bank<'a>, counts: &'t Counts) -> Listing<'t, 'a>
        ensures { listing_text result ≡ listing bank.now counts.now }
    {
        Listing {
            bank,
            counts,
            zones: false,
            uses: None,
        }
    }

    /// The listing with details after each member's line: how often it is used, and then its zones, in the form of
    /// scripts. Counting uses allocates.
    pub fn detailed(
        alloc: Global,
        bank: &'t Bank<'a>,
        counts: &'t Counts,
        details: Details,
    ) -> Result<Listing<'t, 'a>, OutOfMemory>
        ensures { IfOk result (λ text. listing_text text ≡ detailed_listing details bank.now counts.now) }
    {
        let uses = requested_uses(alloc, bank, details.uses)?;
        Ok(Listing {
            bank,
            counts,
            zones: details.zones,
            uses,
        })
    }
}

impl Text for Listing<'_, '_> {
    ghost bytes = { listing_text };

    fn put<W: Write>(&self, output: &mut Output<'_, W>) {
        put_lines(
            self.bank,
            self.counts,
            self.zones,
            self.uses.as_ref(),
            output,
        );
    }
}

// Writes the lines of a bank, with those of zones and of uses if requested.
fn put_lines<W: Write>(
    bank: &Bank<'_>,
    counts: &Counts,
    zones: bool,
    uses: Option<&Uses>,
    output: &mut Output<'_, W>,
)
    ensures { Puts W.contents output.old output.new (listing_with zones (option_copied uses.entry) bank.now counts.now) }
{
    put_bank(bank, output);
    put_counts(counts, output);
    put_owners(bank.presets(), zones, None, output);
    put_owners(bank.instruments(), zones, of_instruments(uses), output);
    put_samples(bank.samples(), uses, output);
}

// Writes the line of the bank.
#[tactic(auto, unfolding(crate::specs::Listing::bank_line))]
fn put_bank<W: Write>(bank: &Bank<'_>, output: &mut Output<'_, W>)
    ensures { Puts W.contents output.old output.new (bank_line bank.now) }
{
    let pieces = [
        number_piece(u64::from(bank.minor())),
        word_piece(b"presets"),
        number_piece(bank.presets().len() as u64),
        word_piece(b"instruments"),
        number_piece(bank.instruments().len() as u64),
        word_piece(b"samples"),
        number_piece(bank.samples().len() as u64),
        word_piece(b"points"),
        number_piece(point_count(bank)),
    ];
    put_line(b"bank", &pieces, output);
}

// Writes the line of the counts.
#[tactic(auto, unfolding(crate::specs::Listing::counts_line))]
fn put_counts<W: Write>(counts: &Counts, output: &mut Output<'_, W>)
    ensures { Puts W.contents output.old output.new (counts_line counts.now) }
{
    let pieces = [
        word_piece(b"texts"),
        number_piece(counts.texts),
        word_piece(b"sm24"),
        number_piece(counts.sm24),
        word_piece(b"zones"),
        number_piece(counts.zones),
        word_piece(b"gens"),
        number_piece(counts.gens),
        word_piece(b"ranges"),
        number_piece(counts.ranges),
        word_piece(b"loops"),
        number_piece(counts.loops),
        word_piece(b"links"),
        number_piece(counts.links),
    ];
    put_line(b"counts", &pieces, output);
}

// Writes the lines of presets or of instruments.
#[tactic(auto, using(base_outputs::proofs::OutputLaws::putting_start))]
fn put_owners<H: ListedHead, W: Write>(
    owners: &Owners<H>,
    zones: bool,
    uses: Option<&[u64]>,
    output: &mut Output<'_, W>,
)
    ensures { Puts W.contents output.old output.new (lines_from (owner_lines H.line H.word (option_copied uses.entry) zones) 0 owners.now) }
{
    for number in 0..owners.len() {
        put_owner(owners, number, zones, uses, output);
    }
}

// Writes the lines of owner `i`, which exists.
fn put_owner<H: ListedHead, W: Write>(
    owners: &Owners<H>,
    i: usize,
    zones: bool,
    uses: Option<&[u64]>,
    output: &mut Output<'_, W>,
)
    requires { i < length owners.now }
    ensures { IfSome (slice_get owners.now i) (λ x. Puts W.contents output.old output.new (owner_lines H.line H.word (option_copied uses.entry) zones i x)) }
{
    let zone_count = owners.zone_count(i) as u64;
    owners.head(i).put(i as u64, zone_count, output);
    put_uses(H::word(), i, uses, output);
    put_zones(owners, i, zones, output);
}

// Writes the lines of all samples.
#[tactic(auto, using(base_outputs::proofs::OutputLaws::putting_start))]
fn put_samples<W: Write>(samples: &[Sample<'_>], uses: Option<&Uses>, output: &mut Output<'_, W>)
    ensures { Puts W.contents output.old output.new (lines_from (sample_lines (option_copied uses.entry)) 0 samples.now) }
{
    for (number, sample) in samples.iter().enumerate() {
        put_sample_lines(number, sample, uses, output);
    }
}

// Writes the lines of a sample.
#[tactic(auto, using(base_outputs::proofs::OutputLaws::puts_then))]
fn put_sample_lines<W: Write>(
    number: usize,
    sample: &Sample<'_>,
    uses: Option<&Uses>,
    output: &mut Output<'_, W>,
)
    ensures { Puts W.contents output.old output.new (sample_lines (option_copied uses.entry) number sample.now) }
{
    put_sample(number as u64, sample, output);
    put_sample_uses(number, uses, output);
}
