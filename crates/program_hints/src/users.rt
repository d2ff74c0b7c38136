//! What uses an instrument or a sample.

use crate::numbers::numbered;
use crate::remarks::Remarks;
use crate::source_line::put_printable;
use bank_changes::Owner;
use bank_core::Bank;
use edit_forms::{InstrumentStep, SampleStep, Step};
use sf_base::Name20;

/// The zones of a level that target a member: the first, and how many more there are.
#[derive(Clone, Copy)]
struct Users {
    first: Option<(Owner, u32)>,
    more: u64,
}

/// Says what uses the instrument or the sample that an edit removes.
pub(crate) fn remark_on_users(bank: &Bank<'_>, step: &Step<'_>, remarks: &mut Remarks) {
    match step {
        Step::Instrument(InstrumentStep::RemoveInstrument { instrument }) => {
            remark_on(bank, users_of_instrument(bank, *instrument), remarks);
        }
        Step::Sample(SampleStep::RemoveSample { sample }) => {
            remark_on(bank, users_of_sample(bank, *sample), remarks);
            remark_on_link(bank, *sample, remarks);
        }
        _ => {}
    }
}

fn users_of_instrument(bank: &Bank<'_>, instrument: u32) -> Users {
    let mut users = no_users();
    for preset in 0..numbered(bank.presets().len()) {
        users = with_users_in(bank, Owner::Preset(preset), instrument, users);
    }
    users
}

fn users_of_sample(bank: &Bank<'_>, sample: u32) -> Users {
    let mut users = no_users();
    for instrument in 0..numbered(bank.instruments().len()) {
        users = with_users_in(bank, Owner::Inst(instrument), sample, users);
    }
    users
}

fn no_users() -> Users {
    Users {
        first: None,
        more: 0,
    }
}

// Adds the zones of an owner that target this member.
fn with_users_in(bank: &Bank<'_>, owner: Owner, member: u32, mut users: Users) -> Users {
    let count = numbered(bank.zone_count(owner).unwrap_or(0));
    for zone in 0..count {
        if bank.target(owner, zone).map(u32::from) == Some(member) {
            users = with_user(users, owner, zone);
        }
    }
    users
}

fn with_user(users: Users, owner: Owner, zone: u32) -> Users {
    match users.first {
        Some(_) => Users {
            first: users.first,
            more: users.more.saturating_add(1),
        },
        None => Users {
            first: Some((owner, zone)),
            more: 0,
        },
    }
}

fn remark_on(bank: &Bank<'_>, users: Users, remarks: &mut Remarks) {
    let Some((owner, zone)) = users.first else {
        return;
    };
    remarks.put(b"  Used by ");
    put_owner(bank, owner, remarks);
    remarks.put(b", zone ");
    remarks.put_number(zone);
    if users.more > 0 {
        remarks.put(b", and by other zones: ");
        remarks.put_number(users.more);
    }
    remarks.put(
        b".\n  Change its target by set-target, or remove the zone by remove-zone, before this edit.\n",
    );
}

// Puts an owner by its number and its name.
fn put_owner(bank: &Bank<'_>, owner: Owner, remarks: &mut Remarks) {
    match owner {
        Owner::Preset(number) => {
            let name = bank.head(number).map(|head| head.name);
            put_member(b"preset ", number, name, remarks);
        }
        Owner::Inst(number) => put_member(b"inst ", number, bank.inst_name(number), remarks),
    }
}

fn put_member(level: &[u8], number: u32, name: Option<Name20>, remarks: &mut Remarks) {
    remarks.put(level);
    remarks.put_number(number);
    if let Some(name) = name {
        remarks.put(b" \"");
        put_printable(name.bytes(), remarks);
        remarks.put(b"\"");
    }
}

// Says which other sample links to this one.
fn remark_on_link(bank: &Bank<'_>, sample: u32, remarks: &mut Remarks) {
    for (index, other) in bank.samples().iter().enumerate() {
        let links = other
            .kind
            .link()
            .is_some_and(|link| u32::from(link) == sample);
        if index != sample as usize && links {
            remarks.put(b"  Linked to by ");
            put_member(b"sample ", numbered(index), Some(other.name), remarks);
            remarks.put(b": first write set-kind N mono, with its number as N.\n");
            return;
        }
    }
}
