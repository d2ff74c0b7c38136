//! Pages of an empty bank, and of a bank with every kind of field.

use crate::BankPage;
use bank_core::{
    Bank, GlobalZone, Head, Kind, Owner, Owners, Parts, Sample, Texts, Zone, ZoneOwner,
};
use bank_linked_members::LinkedMembers;
use bank_parts::OwnerHead;
use base_numbered_lists::NumberedList;
use base_texts::write_text;
use generators::GenMap;
use modulators::DEFAULT_VELOCITY;
use sample_view::Points;
use sf_base::{BorrowedBytes, Name20, OutOfMemory};
use show_findings::Finding;
use std::alloc::Global;
use std::test::Fail;

/// The data of a page without members.
const EMPTY: &[u8] = b"[[\"bank\",1,\"EMU8000\",\"\",\"\",\"\",\"\",\"\",\"\",\"\"],
[\"presets\"],
[\"instruments\"],
[\"samples\"],
[\"findings\"]]";

/// The data of a page of a bank with hostile names.
const FULL: &[u8] =
    b"[[\"bank\",4,\"EMU8000\",\"\\u003c/script\\u003e\",\"\",\"\",\"\",\"\",\"\\u000a\\ufffd\",\"\"],
[\"presets\"
,[\"\\u0022\\u005c\\u0026\",128,5,[\"global\",[43,16384]],[0,[52,65535]]]],
[\"instruments\"
,[\"\\u003cb\\u003e'\",[\"global\"],[0,[44,32512],[1282,48,960,0,0]]]],
[\"samples\"
,[\"\\ufffd~\",3,44100,60,-7,4,0,1,2,\"80800000ffff\"]],
[\"findings\"
,[\"inst\",0,0,\": no note selects this zone\"]
,[\"sample\",0,-1,\": unused\"]]]";

// Whether the page of a bank with these parts is valid, and has this data.
fn shows(alloc: Global, parts: Parts<'_>, findings: &[Finding], data: &[u8]) -> Result<bool, Fail> {
    let Ok(bank) = Bank::from_parts(alloc, parts) else {
        return Ok(false);
    };
    let mut out = Vec::new(alloc);
    let text = BankPage {
        bank: &bank,
        findings,
    };
    write_text(&text, &mut out)?;
    let page = out.as_slice();
    let start = b"<!DOCTYPE html>\n";
    let end = b"</script>\n</body>\n</html>\n";
    Ok(page.starts_with(start) && page.ends_with(end) && has(page, data))
}

// Whether the page has these bytes.
fn has(page: &[u8], data: &[u8]) -> bool {
    for start in 0..page.len() {
        if page[start..].starts_with(data) {
            return true;
        }
    }
    false
}

fn texts(name: &'static [u8], comment: &'static [u8]) -> Texts<'static> {
    Texts {
        engine: BorrowedBytes::new(b"EMU8000"),
        name: BorrowedBytes::new(name),
        date: BorrowedBytes::new(b""),
        engineers: BorrowedBytes::new(b""),
        product: BorrowedBytes::new(b""),
        copyright: BorrowedBytes::new(b""),
        comment: BorrowedBytes::new(comment),
        software: BorrowedBytes::new(b""),
    }
}

// The generators of a map with one.
fn one_generator(alloc: Global, operator: u16, amount: u16) -> Result<GenMap, OutOfMemory> {
    let mut gens = GenMap::new(alloc);
    gens.set(operator, amount)?;
    Ok(gens)
}

// One zone with target 0, and one generator.
fn one_zone(alloc: Global, operator: u16, amount: u16) -> Result<Zone, OutOfMemory> {
    Ok(Zone {
        target: 0,
        gens: one_generator(alloc, operator, amount)?,
        mods: NumberedList::new(alloc),
    })
}

// A preset or an instrument with one zone.
fn one_owner<H: OwnerHead>(
    alloc: Global,
    head: H,
    gens: GenMap,
    zone: Zone,
) -> Result<Owners<H>, Fail> {
    let mut zones = Vec::new(alloc);
    zones.push(zone)?;
    let owner = ZoneOwner {
        head,
        global: GlobalZone {
            gens,
            mods: NumberedList::new(alloc),
        },
        zones: NumberedList::from_vec(zones),
    };
    let mut owners = Owners::with_capacity(alloc, 1)?;
    if !owners.has_room_for(&owner) {
        return Err("no room".into());
    }
    owners.push(owner)?;
    Ok(owners)
}

fn presets(alloc: Global) -> Result<Owners<Head>, Fail> {
    let head = Head {
        name: Name20::from_bytes(b"\"\\&")?,
        number: 5,
        bank: 128,
        library: 0,
        genre: 0,
        morphology: 0,
    };
    let gens = one_generator(alloc, 43, 16384)?;
    one_owner(alloc, head, gens, one_zone(alloc, 52, 65535)?)
}

fn instruments(alloc: Global) -> Result<Owners<Name20>, Fail> {
    let mut zone = one_zone(alloc, 44, 32512)?;
    if zone.mods.push(DEFAULT_VELOCITY).is_err() {
        return Err("no room".into());
    }
    one_owner(
        alloc,
        Name20::from_bytes(b"<b>'")?,
        GenMap::new(alloc),
        zone,
    )
}

fn samples(alloc: Global) -> Result<LinkedMembers<Sample<'static>>, Fail> {
    let mut samples = Vec::new(alloc);
    samples.push(Sample {
        name: Name20::from_bytes(b"\xff~")?,
        points: Points::of_slice(alloc, b"\xff\xff\xff\x7f\x00\x80")?,
        looped: Some((1, 2)),
        rate: 44_100,
        key: 60,
        correction: -7,
        kind: Kind::Left(0),
    })?;
    Ok(LinkedMembers::from_vec(samples))
}

#[test]
fn an_empty_bank(rt: HostRuntime) -> Result<(), Fail> {
    let alloc = rt.alloc();
    let parts = Parts {
        minor: 1,
        texts: texts(b"", b""),
        presets: Owners::with_capacity(alloc, 0)?,
        instruments: Owners::with_capacity(alloc, 0)?,
        samples: LinkedMembers::new(alloc),
    };
    assert!(rt; shows(alloc, parts, &[], EMPTY)?);
    Ok(())
}

#[test]
fn hostile_names(rt: HostRuntime) -> Result<(), Fail> {
    let alloc = rt.alloc();
    let parts = Parts {
        minor: 4,
        texts: texts(b"</script>", b"\n\xe9"),
        presets: presets(alloc)?,
        instruments: instruments(alloc)?,
        samples: samples(alloc)?,
    };
    let findings = [
        Finding::UnselectableZone {
            owner: Owner::Inst(0),
            zone: 0,
        },
        Finding::UnusedSample { sample: 0 },
    ];
    assert!(rt; shows(alloc, parts, &findings, FULL)?);
    Ok(())
}
