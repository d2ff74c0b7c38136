//! Findings, each at its member.
ghost use Rattle.std.specs.Prelude.{◌≡◌};
ghost use Rattle.std.specs.List.{flat_map};
ghost use Rattle.base_outputs.specs.Output.{Puts};
ghost use Rattle.show_page.specs.declared.json.Field.TheVariants.{Number};
ghost use Rattle.show_page.specs.Json.{next_text};
ghost use Rattle.show_page.specs.Findings.{member_text, zone_of_place, zone_of, zone_field, finding_text};

use crate::json::{Field, number, put_next, signed};
use bank_core::Place;
use base_outputs::Output;
use show_findings::{Finding, Member, put_message};
use std::io::Write;

// Writes a line for each finding.
pub(crate) fn put_findings<W: Write>(findings: &[Finding], output: &mut Output<'_, W>)
    ensures { Puts W.contents output.old output.new (flat_map finding_text findings.now) }
{
    for finding in findings {
        put_finding(*finding, output);
    }
}

// Writes the line of a finding.
fn put_finding<W: Write>(finding: Finding, output: &mut Output<'_, W>)
    ensures { Puts W.contents output.old output.new (finding_text finding) }
{
    output.put(b"\n,");
    put_member(finding.member(), output);
    put_zone(zone_of(finding), output);
    output.put(b",\"");
    put_message(finding, output);
    output.put(b"\"]");
}

// Writes the start of a list, with a member.
fn put_member<W: Write>(member: Member, output: &mut Output<'_, W>)
    ensures { Puts W.contents output.old output.new (member_text member) }
{
    match member {
        Member::Preset(preset) => {
            output.put(b"[\"preset\"");
            put_number(preset, output);
        }
        Member::Instrument(instrument) => {
            output.put(b"[\"inst\"");
            put_number(instrument, output);
        }
        Member::Sample(sample) => {
            output.put(b"[\"sample\"");
            put_number(sample, output);
        }
    }
}

// Writes a number after a comma.
fn put_number<W: Write>(member: u32, output: &mut Output<'_, W>)
    ensures { Puts W.contents output.old output.new (next_text (Number member)) }
{
    put_next(&number(u64::from(member)), output);
}

// The zone that a finding is about, if it is about a numbered one.
#[tactic(auto, unfolding(crate::specs::Findings::zone_of))]
fn zone_of(finding: Finding) -> Option<u32>
    ensures { result ≡ zone_of finding }
{
    match finding {
        Finding::UnselectableZone { zone, .. } => Some(zone),
        Finding::OutsideRange { place, .. } => zone_of_place(place),
        _ => None,
    }
}

fn zone_of_place(place: Place) -> Option<u32>
    ensures { result ≡ zone_of_place place }
{
    match place {
        Place::Global => None,
        Place::Zone(zone) => Some(zone),
    }
}

// Writes the number of a zone, or -1, after a comma.
fn put_zone<W: Write>(zone: Option<u32>, output: &mut Output<'_, W>)
    ensures { Puts W.contents output.old output.new (next_text (zone_field zone)) }
{
    put_next(&zone_field(zone), output);
}

fn zone_field<'a>(zone: Option<u32>) -> Field<'a>
    ensures { result ≡ zone_field zone }
{
    match zone {
        Some(zone) => number(u64::from(zone)),
        None => signed(-1),
    }
}
