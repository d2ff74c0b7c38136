//! Copies of banks and their parts, in memory of their own. Points and texts are not copied, but borrowed again.
ghost use Rattle.std.specs.Prelude.{◌≡◌, IfOk};

use crate::parts::{GlobalZone, Parts, Sample, Zone, ZoneOwner};
use crate::texts::Texts;
use bank_linked_members::LinkedMembers;
use base_numbered_lists::NumberedList;
use modulators::Modulator;
use sf_base::{BorrowedBytes, OutOfMemory};
use std::alloc::Global;

/// Values in the lists of a bank, which can be copied.
pub trait TryClone: Sized {
    /// Returns an equal value in memory of its own, or `OutOfMemory`. Points and texts are borrowed again, not
    /// copied.
    fn try_clone(&self, alloc: Global) -> Result<Self, OutOfMemory>
        ensures { IfOk result (λ copy. copy ≡ self.now) };
}

impl TryClone for Zone {
    fn try_clone(&self, alloc: Global) -> Result<Zone, OutOfMemory> {
        Ok(Zone {
            target: self.target,
            gens: self.gens.copy(alloc)?,
            mods: copy_mods(alloc, &self.mods)?,
        })
    }
}

impl<H: Copy> TryClone for ZoneOwner<H> {
    fn try_clone(&self, alloc: Global) -> Result<ZoneOwner<H>, OutOfMemory> {
        Ok(ZoneOwner {
            head: self.head,
            global: copy_global(alloc, &self.global)?,
            zones: copy_list(alloc, &self.zones)?,
        })
    }
}

impl<'a> TryClone for Sample<'a> {
    fn try_clone(&self, alloc: Global) -> Result<Sample<'a>, OutOfMemory> {
        Ok(Sample {
            name: self.name,
            points: self.points.copy(alloc)?,
            looped: self.looped,
            rate: self.rate,
            key: self.key,
            correction: self.correction,
            kind: self.kind,
        })
    }
}

/// Returns an equal bank in memory of its own, or `OutOfMemory`.
pub fn copy_parts<'a>(alloc: Global, parts: &Parts<'a>) -> Result<Parts<'a>, OutOfMemory>
    ensures { IfOk result (λ copy. copy ≡ parts.now) }
{
    Ok(Parts {
        minor: parts.minor,
        texts: copy_texts(&parts.texts),
        presets: parts.presets.copy(alloc)?,
        instruments: parts.instruments.copy(alloc)?,
        samples: LinkedMembers::from_vec(copy_members(alloc, parts.samples.as_slice())?),
    })
}

fn copy_texts<'a>(texts: &Texts<'a>) -> Texts<'a>
    ensures { result ≡ texts.now }
{
    Texts {
        engine: BorrowedBytes::new(texts.engine.bytes()),
        name: BorrowedBytes::new(texts.name.bytes()),
        date: BorrowedBytes::new(texts.date.bytes()),
        engineers: BorrowedBytes::new(texts.engineers.bytes()),
        product: BorrowedBytes::new(texts.product.bytes()),
        copyright: BorrowedBytes::new(texts.copyright.bytes()),
        comment: BorrowedBytes::new(texts.comment.bytes()),
        software: BorrowedBytes::new(texts.software.bytes()),
    }
}

/// Returns a list of equal members, or `OutOfMemory`.
pub(crate) fn copy_list<T: TryClone + Drop>(
    alloc: Global,
    list: &NumberedList<T>,
) -> Result<NumberedList<T>, OutOfMemory>
    ensures { IfOk result (λ copy. copy ≡ list.now) }
{
    Ok(NumberedList::from_vec(copy_members(alloc, list.as_slice())?))
}

fn copy_members<T: TryClone + Drop>(alloc: Global, members: &[T]) -> Result<Vec<T>, OutOfMemory>
    ensures { IfOk result (λ copies. copies.items ≡ members.now) }
{
    let mut copies = Vec::with_capacity(alloc, members.len())?;
    for member in members {
        copies.push(member.try_clone(alloc)?)?;
    }
    Ok(copies)
}

fn copy_global(alloc: Global, global: &GlobalZone) -> Result<GlobalZone, OutOfMemory>
    ensures { IfOk result (λ copy. copy ≡ global.now) }
{
    Ok(GlobalZone {
        gens: global.gens.copy(alloc)?,
        mods: copy_mods(alloc, &global.mods)?,
    })
}

fn copy_mods(
    alloc: Global,
    mods: &NumberedList<Modulator>,
) -> Result<NumberedList<Modulator>, OutOfMemory>
    ensures { IfOk result (λ copy. copy ≡ mods.now) }
{
    let copies = Vec::from_slice(alloc, mods.as_slice())?;
    Ok(NumberedList::from_vec(copies))
}
