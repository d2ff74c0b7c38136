//! A bank from the flat lists of a file.
ghost use Rattle.std.specs.Prelude.{◌≡◌, List, MatchOption, IfSome};
ghost use Rattle.std.specs.List.{AllByRecursion};
ghost use Rattle.generators.specs.Levels.{target_operator};
ghost use Rattle.bank_parts.specs.declared.parts.ZoneOwner.{ZoneOwner};
ghost use Rattle.bank_parts.specs.declared.parts.Parts.{Parts as AnyParts};
ghost use Rattle.bank_parts.specs.Bagged.{IsPlainOwner};
ghost use Rattle.bank_parts.specs.Sound.{IsSound};
ghost use Rattle.bank_core.specs.Heads.{AreFlatOf};
ghost use Rattle.bank_core.specs.Flat.{IsFlatOf};

use crate::bank::Bank;
use crate::flat_heads::FlatHeads;
use bank_linked_members::LinkedMembers;
use bank_parts::{Head, OwnerHead, Owners, Parts, Sample, Texts};
use bank_validity::valid_totals;
use flat_records::Recs;
use sf_base::Name20;

/// The lists of a bank as in a file (SoundFont 2.04, sections 7.2 to 7.10), with their terminals. The samples already
/// have their points and links.
#[derive(Drop)]
pub struct Flat<'a> {
    /// The minor version of the format (the major version is 2).
    pub minor: u16,
    pub texts: Texts<'a>,
    pub preset_heads: FlatHeads<Head>,
    pub inst_heads: FlatHeads<Name20>,
    pub preset: Recs,
    pub inst: Recs,
    pub samples: LinkedMembers<Sample<'a>>,
}

impl<'a> Bank<'a> {
    /// Returns the bank with these lists, or none if no sound bank has them: an index decreases or exceeds the end of
    /// its list, a terminal is wrong, a bag is empty, a bag after the first of an owner has no target, operators are
    /// out of order or repeated, or the bank would not be valid. Allocates nothing.
    pub fn from_flat(flat: Flat<'a>) -> Option<Bank<'a>>
        ensures { MatchOption result ((b : AnyParts) → IsSound b → ¬ IsFlatOf flat.entry b) (λ bank. IsFlatOf flat.entry bank) }
    {
        let Flat {
            minor,
            texts,
            preset_heads,
            inst_heads,
            preset,
            inst,
            samples,
        } = flat;
        let Some(presets) = owners_of(preset_heads, preset) else {
            return None;
        };
        let Some(instruments) = owners_of(inst_heads, inst) else {
            return None;
        };
        let parts = Parts {
            minor,
            texts,
            presets,
            instruments,
            samples,
        };
        let Some(totals) = valid_totals(&parts) else {
            return None;
        };
        Some(Bank::with_totals(parts, totals))
    }

    /// Returns the bank with these lists, which must be those of a sound bank. It counts the points, and checks and
    /// allocates nothing.
    pub fn from_sound_flat(flat: Flat<'a>) -> Bank<'a>
        ghost bank: { AnyParts }
        requires sound { IsSound bank }
        requires lists { IsFlatOf flat bank }
        ensures { result ≡ bank }
    {
        let Flat {
            minor,
            texts,
            preset_heads,
            inst_heads,
            preset,
            inst,
            samples,
        } = flat;
        let (preset_heads, preset_bags) = preset_heads.into_lists();
        let presets = Owners::from_sound_flat(preset_heads, preset_bags, preset);
        let (inst_heads, inst_bags) = inst_heads.into_lists();
        let instruments = Owners::from_sound_flat(inst_heads, inst_bags, inst);
        Bank::from_sound_parts(Parts {
            minor,
            texts,
            presets,
            instruments,
            samples,
        })
    }
}

// The presets or instruments with these heads and records; none if there are no such owners, or if one of their maps
// has the operator of targets.
fn owners_of<H: OwnerHead>(heads: FlatHeads<H>, recs: Recs) -> Option<Owners<H>>
    ensures lists { MatchOption result
        ((owners : List (ZoneOwner H)) → AllByRecursion (IsPlainOwner (target_operator H.LEVEL)) owners
        → ¬ AreFlatOf H.LEVEL heads recs owners)
        (λ owners. AreFlatOf H.LEVEL heads recs owners) }
    ensures plain { IfSome result (λ owners. AllByRecursion (IsPlainOwner (target_operator H.LEVEL)) owners) }
{
    let (heads, first_bags) = heads.into_lists();
    Owners::from_flat(heads, first_bags, recs)
}
