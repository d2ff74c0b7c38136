//! Whether parts are a valid bank.
ghost use Rattle.std.specs.Prelude.{◌≡◌, ◌↔◌, IsTrue, IfSome, is_some};
ghost use Rattle.std.specs.Bool.{OnTrue};
ghost use Rattle.std.specs.List.{AllByRecursion};
ghost use Rattle.sf_base.specs.Names.{IsName, IsText};
ghost use Rattle.bank_parts.specs.Valid.{IsPreset, IsInstrument, IsLoop, IsLink, IsSample, AreTexts, IsValid};
ghost use Rattle.bank_parts.specs.Fits.{FitTexts, FitsHead, FitsOwner, FitsSample, FitsLoop, FitsKind, Fits};
ghost use Rattle.bank_validity.specs.Limits.{totals_of};

use crate::totals::{Totals, totals_of};
use bank_parts::{Head, Kind, Owners, Parts, Sample, Texts};
use sf_base::Name20;
use sf_base::limits::{COMMENT_LENGTH, TEXT_LENGTH};

/// Whether the parts are a valid bank: texts and names are well formed, generators are allowed at their level, ranges
/// are valid, each target and link is the number of a member, each loop lies in its sample, and no list is longer
/// than a file can hold. Allocates nothing.
pub fn is_valid(parts: &Parts<'_>) -> bool
    ensures valid { IsTrue result ↔ IsValid parts.now }
    ensures fits { OnTrue result (Fits parts.now) }
{
    valid_totals(parts).is_some()
}

/// The totals of the parts, if they are a valid bank. Allocates nothing.
#[tactic(auto, using(crate::proofs::LimitLaws::limits_of, crate::proofs::LimitLaws::no_limit_of))]
pub fn valid_totals(parts: &Parts<'_>) -> Option<Totals>
    ensures valid { IsTrue (is_some result) ↔ IsValid parts.now }
    ensures fits { OnTrue (is_some result) (Fits parts.now) }
    ensures value { IfSome result (λ totals. totals ≡ totals_of parts.now) }
{
    let _minor = parts.minor;
    let totals = totals_of(parts);
    let is_valid = are_texts(&parts.texts)
        && are_presets(&parts.presets, parts.instruments.len())
        && are_instruments(&parts.instruments, parts.samples.len())
        && are_samples(parts.samples.as_slice(), parts.samples.len())
        && totals.broken().is_none();
    if is_valid { Some(totals) } else { None }
}

// ---- texts and names

fn are_texts(texts: &Texts<'_>) -> bool
    ensures valid { IsTrue result ↔ AreTexts texts.now }
    ensures fits { OnTrue result (FitTexts texts.now) }
{
    !texts.engine.bytes().is_empty()
        && is_text(texts.engine.bytes(), TEXT_LENGTH)
        && is_text(texts.name.bytes(), TEXT_LENGTH)
        && is_text(texts.date.bytes(), TEXT_LENGTH)
        && is_text(texts.engineers.bytes(), TEXT_LENGTH)
        && is_text(texts.product.bytes(), TEXT_LENGTH)
        && is_text(texts.copyright.bytes(), TEXT_LENGTH)
        && is_text(texts.comment.bytes(), COMMENT_LENGTH)
        && is_text(texts.software.bytes(), TEXT_LENGTH)
}

fn is_text(bytes: &[u8], most: usize) -> bool
    ensures { IsTrue result ↔ IsText most bytes.now }
{
    bytes.len() <= most && !bytes.contains(&0)
}

// ---- presets, instruments and samples; a `Name20` is always a valid name, and the ranges of fields hold by type

fn are_presets(presets: &Owners<Head>, instruments: usize) -> bool
    ensures valid { IsTrue result ↔ AllByRecursion (IsPreset instruments) presets.now }
    ensures fits { OnTrue result (AllByRecursion (FitsOwner FitsHead) presets.now) }
{
    presets.are_valid(instruments)
}

fn are_instruments(instruments: &Owners<Name20>, samples: usize) -> bool
    ensures valid { IsTrue result ↔ AllByRecursion (IsInstrument samples) instruments.now }
    ensures fits { OnTrue result (AllByRecursion (FitsOwner IsName) instruments.now) }
{
    instruments.are_valid(samples)
}

fn are_samples(samples: &[Sample<'_>], count: usize) -> bool
    ensures valid { IsTrue result ↔ AllByRecursion (IsSample count) samples.now }
    ensures fits { OnTrue result (AllByRecursion FitsSample samples.now) }
{
    samples.iter().all(|sample| is_sample(sample, count))
}

fn is_sample(sample: &Sample<'_>, samples: usize) -> bool
    ensures valid { IsTrue result ↔ IsSample samples sample.now }
    ensures fits { OnTrue result (FitsSample sample.now) }
{
    let _name = sample.name.bytes();
    let _rate = sample.rate;
    let _key = sample.key;
    let _correction = sample.correction;
    is_loop(sample.looped, sample.points.len()) && is_link(sample.kind, samples)
}

fn is_loop(looped: Option<(u32, u32)>, points: usize) -> bool
    ensures valid { IsTrue result ↔ IsLoop points looped }
    ensures fits { FitsLoop looped }
{
    match looped {
        Some((start, end)) => start < end && end as usize <= points,
        None => true,
    }
}

fn is_link(kind: Kind, samples: usize) -> bool
    ensures valid { IsTrue result ↔ IsLink samples kind }
    ensures fits { FitsKind kind }
{
    match kind {
        Kind::Mono => true,
        Kind::Right(link) | Kind::Left(link) | Kind::Linked(link) => (link as usize) < samples,
    }
}
