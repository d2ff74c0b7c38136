//! `Bank`, which is always sound, and how it is made and read.
ghost use Rattle.std.specs.Prelude.{◌≡◌, slice_get, IfOk, IfErr, OnOk};
ghost use Rattle.std.specs.Option.{option_copied};
ghost use Rattle.bank_parts.specs.Texts.{text_of};
ghost use Rattle.bank_parts.specs.Owners.{head_at};
ghost use Rattle.bank_changes.specs.Members.{member_count, head_of, instrument_name_of};
ghost use Rattle.bank_parts.specs.Valid.{IsValid};
ghost use Rattle.bank_parts.specs.Fits.{Fits};
ghost use Rattle.bank_parts.specs.Sound.{IsSound};
ghost use Rattle.bank_validity.specs.Limits.{totals_of};
ghost use Rattle.bank_core.specs.Faults.{IsPartsFault};

use crate::fault::PartsFault;
use bank_changes::List;
use bank_parts::{Head, InfoId, OwnerHead, Owners, Parts, Sample, copy_parts};
use bank_validity::{Totals, totals_of, totals_with, valid_totals};
use sf_base::{Name20, OutOfMemory};
use std::alloc::Global;
use std::marker::Model;

/// A sound bank: valid, with each number, name and text in the range of its field. It borrows the bytes of the file
/// and of the script's pool.
pub struct Bank<'a> {
    pub(crate) parts: Parts<'a>,
    // The points of all samples, with the zero points after each, so that no edit has to count them. All other totals
    // are lengths of lists.
    pub(crate) points: usize,
}

// Not derived: a derived drop is expanded at each exit of every function that holds a bank; this one is a call.
impl Drop for Bank<'_> {
    fn drop(self) {
        let Bank {
            parts: _,
            points: _,
        } = self;
    }
}

impl<'a> Model for Bank<'a> {
    ghost use Rattle.std.specs.Prelude.{◌≡◌};
    ghost use Rattle.bank_parts.specs.declared.parts.Parts.{Parts};
    ghost use Rattle.bank_parts.specs.Sound.{IsSound};
    ghost use Rattle.bank_parts.specs.Valid.{point_total};
    ghost use Rattle.generators.specs.contracts.gen_map.GenMap as gens;
    ghost use Rattle.std.specs.Coded.{codes};

    ghost Value = { Parts };

    ghost coded = { Prim.hlevel (codes, gens.the_row.coded) };

    ghost view = { λ bank. bank.parts };

    ghost invariant = { λ bank. IsSound bank.parts × (bank.points ≡ point_total bank.parts.samples) };
}

impl<'a> Bank<'a> {
    /// Returns the bank of these parts, which must be sound. It counts their records and allocates nothing.
    pub fn from_sound_parts(parts: Parts<'a>) -> Bank<'a>
        requires { IsSound parts }
        ensures { result ≡ parts.entry }
    {
        let totals = totals_of(&parts);
        Bank::with_totals(parts, totals)
    }

    // The bank of these parts, which are sound and have these totals.
    #[tactic(auto, unfolding(bank_validity::specs::Limits::totals_of))]
    pub(crate) fn with_totals(parts: Parts<'a>, totals: Totals) -> Bank<'a>
        requires sound { IsSound parts }
        requires totals { totals ≡ totals_of parts }
        ensures { result ≡ parts.entry }
    {
        let points = totals.points;
        Bank { parts, points }
    }

    /// Returns the bank of these parts if they are valid. It uses the lists of the parts, so it allocates nothing and
    /// never returns `PartsFault::OutOfMemory`; `alloc` is not used.
    pub fn from_parts(alloc: Global, parts: Parts<'a>) -> Result<Bank<'a>, PartsFault>
        ensures value { IfOk result (λ bank. bank ≡ parts.entry) }
        ensures sound { OnOk result (IsSound parts.entry) }
        ensures fault { IfErr result (λ fault. IsPartsFault parts.entry fault) }
    {
        let _ = alloc;
        match valid_totals(&parts) {
            Some(totals) => Ok(Bank::with_totals(parts, totals)),
            None => Err(PartsFault::Invalid),
        }
    }

    /// Returns an equal bank in memory of its own, or `OutOfMemory`. Points and texts are borrowed again, not copied.
    pub fn copy(&self, alloc: Global) -> Result<Bank<'a>, OutOfMemory>
        ensures { IfOk result (λ copy. copy ≡ self.now) }
    {
        let parts = copy_parts(alloc, &self.parts)?;
        Ok(Bank {
            parts,
            points: self.points,
        })
    }

    /// The minor version of the format.
    pub fn minor(&self) -> u16
        ensures { result ≡ self.now.minor }
    {
        self.parts.minor
    }

    /// The bytes of the text with this id.
    pub fn info(&self, id: InfoId) -> &'a [u8]
        ensures value { result.now ≡ text_of self.now.texts id }
        ensures valid { IsValid self.now }
        ensures fits { Fits self.now }
    {
        self.parts.texts.get(id)
    }

    /// The presets, in order.
    pub fn presets(&self) -> &Owners<Head>
        ensures value { result.now ≡ self.now.presets }
        ensures valid { IsValid self.now }
        ensures fits { Fits self.now }
    {
        &self.parts.presets
    }

    /// The instruments, in order.
    pub fn instruments(&self) -> &Owners<Name20>
        ensures value { result.now ≡ self.now.instruments }
        ensures valid { IsValid self.now }
        ensures fits { Fits self.now }
    {
        &self.parts.instruments
    }

    /// The samples, in order.
    pub fn samples(&self) -> &[Sample<'a>]
        ensures value { result.now ≡ self.now.samples }
        ensures valid { IsValid self.now }
        ensures fits { Fits self.now }
    {
        self.parts.samples.as_slice()
    }

    /// The sample with this number; none if there is no such sample.
    pub fn sample(&self, number: u32) -> Option<&Sample<'a>>
        ensures { option_copied result ≡ slice_get self.now.samples number }
    {
        self.parts.samples.get(number as usize)
    }

    /// The length of a list.
    pub fn count(&self, list: List) -> usize
        ensures { result ≡ member_count self.now list }
    {
        match list {
            List::Presets => self.parts.presets.len(),
            List::Instruments => self.parts.instruments.len(),
            List::Samples => self.parts.samples.len(),
        }
    }

    /// The lengths of the lists in a file. It counts nothing.
    pub fn totals(&self) -> Totals
        ensures value { result ≡ totals_of self.now }
        ensures sound { IsSound self.now }
    {
        totals_with(&self.parts, self.points)
    }

    /// The law that the bank is sound, and so within the limits. It does nothing.
    pub fn soundness(&self)
        ensures { IsSound self.now }
    {
        let _points = self.points;
    }

    /// The head of the preset with this number; none if there is no such preset.
    pub fn head(&self, preset: u32) -> Option<Head>
        ensures { result ≡ head_of self.now preset }
    {
        head_in(&self.parts.presets, preset)
    }

    /// The name of the instrument with this number; none if there is no such instrument.
    pub fn inst_name(&self, instrument: u32) -> Option<Name20>
        ensures { result ≡ instrument_name_of self.now instrument }
    {
        head_in(&self.parts.instruments, instrument)
    }
}

fn head_in<H: OwnerHead>(owners: &Owners<H>, number: u32) -> Option<H>
    ensures { result ≡ head_at owners.now number }
{
    let number = number as usize;
    if number >= owners.len() {
        return None;
    }
    Some(*owners.head(number))
}
