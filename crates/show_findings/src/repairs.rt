//! The edits that repair findings.
ghost use Rattle.std.specs.Prelude.{◌≡◌, ◌++◌, codes};
ghost use Rattle.bank_changes.specs.declared.members.Place.TheVariants as place;
ghost use Rattle.base_outputs.specs.Output.{Puts};
ghost use Rattle.std.specs.Fmt.{signed_decimal};
ghost use Rattle.show_findings.specs.Texts.{numbered, owner_text, place_text};
ghost use Rattle.show_findings.specs.Repairs.{mono_text, linking, link_repair, kind_of_sample, repair};

use crate::finding::Finding;
use crate::texts::{put_number, put_numbered, put_owner, put_place, put_signed};
use bank_core::{Bank, Kind, Owner, Place};
use base_outputs::Output;
use std::io::Write;

/// Writes the edit that repairs a finding, if there is one.
#[tactic(auto, unfolding(crate::specs::Repairs::repair), using(base_outputs::proofs::OutputLaws::puts_nothing))]
pub(crate) fn put_repair<W: Write>(bank: &Bank<'_>, finding: Finding, output: &mut Output<'_, W>)
    ensures { Puts W.contents output.old output.new (repair bank.now finding) }
{
    match finding {
        Finding::HiddenPreset { preset, .. } => {
            put_numbered(b"; repair: remove-preset ", preset, output);
        }
        Finding::UnusedInstrument { instrument } => {
            put_numbered(b"; repair: remove-inst ", instrument, output);
        }
        Finding::UnusedSample { sample } => {
            put_numbered(b"; repair: remove-sample ", sample, output);
        }
        Finding::UnselectableZone { owner, zone } => put_zone_removal(owner, zone, output),
        Finding::OverriddenGenerator { owner, operator } => put_clearing(owner, operator, output),
        Finding::OutsideRange {
            owner,
            place,
            operator,
            nearest,
            ..
        } => put_setting(owner, place, operator, nearest, output),
        Finding::OneSidedLink { sample, other } => put_linking(bank, sample, other, output),
        Finding::SilentKeys { .. }
        | Finding::ShortLoop { .. }
        | Finding::ClickingLoop { .. }
        | Finding::UnusualRate { .. }
        | Finding::ClippedSample { .. }
        | Finding::SilentSample { .. }
        | Finding::OffsetSample { .. }
        | Finding::EqualSample { .. } => {}
    }
}

fn put_zone_removal<W: Write>(owner: Owner, zone: u32, output: &mut Output<'_, W>)
    ensures { Puts W.contents output.old output.new (codes "; repair: remove-zone " ++ (owner_text owner ++ place_text (place.Zone zone))) }
{
    output.put(b"; repair: remove-zone ");
    put_owner(owner, output);
    put_place(Place::Zone(zone), output);
}

fn put_clearing<W: Write>(owner: Owner, operator: u16, output: &mut Output<'_, W>)
    ensures { Puts W.contents output.old output.new (codes "; repair: clear-gen " ++ (owner_text owner ++ numbered (codes " global ") operator)) }
{
    output.put(b"; repair: clear-gen ");
    put_owner(owner, output);
    put_numbered(b" global ", u32::from(operator), output);
}

fn put_setting<W: Write>(
    owner: Owner,
    place: Place,
    operator: u16,
    amount: i32,
    output: &mut Output<'_, W>,
)
    ensures { Puts W.contents output.old output.new (codes "; repair: set-gen " ++ (owner_text owner ++ (place_text place ++ (numbered (codes " ") operator ++ (codes " " ++ signed_decimal amount))))) }
{
    output.put(b"; repair: set-gen ");
    put_owner(owner, output);
    put_place(place, output);
    put_numbered(b" ", u32::from(operator), output);
    output.put(b" ");
    put_signed(amount, output);
}

fn put_linking<W: Write>(bank: &Bank<'_>, sample: u32, other: u32, output: &mut Output<'_, W>)
    ensures { Puts W.contents output.old output.new (link_repair sample other (kind_of_sample bank.now sample) (kind_of_sample bank.now other)) }
{
    let kind = kind_of_sample(bank, sample);
    put_kinds(sample, other, kind, kind_of_sample(bank, other), output);
}

// Writes the edit that links a mono sample back, or that makes this one mono where the other has another link.
fn put_kinds<W: Write>(
    sample: u32,
    other: u32,
    kind: Option<Kind>,
    other_kind: Option<Kind>,
    output: &mut Output<'_, W>,
)
    ensures { Puts W.contents output.old output.new (link_repair sample other kind other_kind) }
{
    match (kind, other_kind) {
        (Some(Kind::Left(_)), Some(Kind::Mono)) => put_side(other, b" right ", sample, output),
        (Some(Kind::Right(_)), Some(Kind::Mono)) => put_side(other, b" left ", sample, output),
        _ => put_mono(sample, output),
    }
}

fn put_mono<W: Write>(sample: u32, output: &mut Output<'_, W>)
    ensures { Puts W.contents output.old output.new (mono_text sample) }
{
    output.put(b"; repair: set-kind ");
    put_number(sample, output);
    output.put(b" mono");
}

fn put_side<W: Write>(sample: u32, side: &[u8], link: u32, output: &mut Output<'_, W>)
    ensures { Puts W.contents output.old output.new (linking sample side.now link) }
{
    output.put(b"; repair: set-kind ");
    put_number(sample, output);
    put_numbered(side, link, output);
}

fn kind_of_sample(bank: &Bank<'_>, sample: u32) -> Option<Kind>
    ensures { result ≡ kind_of_sample bank.now sample }
{
    Some(bank.sample(sample)?.kind)
}
