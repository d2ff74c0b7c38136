//! Samples of a bank that are equal but for their names.
use crate::existing_samples::{alike_samples, form_of};
use crate::member_index::MemberIndex;
use crate::names::Names;
use crate::numbers::{number_of, renumbered_kind, set_number};
use bank_core::{Kind, Sample};
use diff_orders::{EMPTY_KEY, with_number};
use sf_base::OutOfMemory;
use std::alloc::Global;

/// For each sample the number of the first one that is equal, whatever its name. Links are equal if they lead to samples
/// that are equal except for their own links.
pub(crate) fn first_equal_samples(
    alloc: Global,
    samples: &[Sample<'_>],
) -> Result<Vec<Option<u16>>, OutOfMemory> {
    let forms = sample_forms(alloc, samples)?;
    let forms = forms.as_slice();
    let mut keys = Vec::with_capacity(alloc, forms.len())?;
    for form in forms {
        keys.push(key_of(form))?;
    }
    let index = MemberIndex::new(alloc, keys.as_slice())?;
    numbers_of(alloc, forms, &index)
}

// What equal samples have in common.
#[derive(Clone, Copy, PartialEq, Eq)]
struct SampleForm {
    // the number of the first sample that is equal except for its link
    alike: Option<u16>,
    // its kind with such a number as link
    kind: Kind,
}

fn sample_forms(alloc: Global, samples: &[Sample<'_>]) -> Result<Vec<SampleForm>, OutOfMemory> {
    let numbers = first_alike(alloc, samples)?;
    let numbers = numbers.as_slice();
    let mut forms = Vec::with_capacity(alloc, samples.len())?;
    for (i, sample) in samples.iter().enumerate() {
        forms.push(SampleForm {
            alike: number_of(numbers, i),
            kind: renumbered_kind(numbers, sample.kind),
        })?;
    }
    Ok(forms)
}

// For each sample the number of the first one that is equal except for its name and the number of its link.
fn first_alike(alloc: Global, samples: &[Sample<'_>]) -> Result<Vec<Option<u16>>, OutOfMemory> {
    let needed = vec![in alloc; true; samples.len()]?;
    let mut numbers = alike_samples(alloc, samples, samples, needed.as_slice(), Names::Ignored)?;
    for i in 0..samples.len() {
        if number_of(numbers.as_slice(), i).is_none() {
            set_number(numbers.as_mut_slice(), i, u16::try_from(i).ok());
        }
    }
    Ok(numbers)
}

fn key_of(form: &SampleForm) -> u64 {
    let key = with_number(EMPTY_KEY, form.alike.unwrap_or(0).into());
    let key = with_number(key, form_of(form.kind));
    with_number(key, form.kind.link().unwrap_or(0).into())
}

// For each sample the number of the first one with its form.
fn numbers_of(
    alloc: Global,
    forms: &[SampleForm],
    index: &MemberIndex,
) -> Result<Vec<Option<u16>>, OutOfMemory> {
    let mut numbers = Vec::with_capacity(alloc, forms.len())?;
    for (i, form) in forms.iter().enumerate() {
        let number = match index.first(key_of(form)) {
            Some(first) if forms.get(first) == Some(form) => first,
            _ => i,
        };
        numbers.push(u16::try_from(number).ok())?;
    }
    Ok(numbers)
}
