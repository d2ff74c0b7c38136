//! Makes each call that may return `OutOfMemory`, and checks that a failed call changes nothing.
//!
//! `checks/failed_allocations` runs this program once for each of its allocations, and lets that one fail. After a
//! failure a case compares every value that the call could have changed, makes the same call again, which must
//! succeed, and compares its results. The exit status is 0 if no allocation failed, 6 if one failed and all values
//! are right, and 1 if a value is wrong. One line on standard output states the result.
#![tactic(auto)]

mod bag_changes;
mod banks;
mod flat_tone;
mod generator_maps;
mod neutral;
mod no_allocations;
mod outcome;
mod players;
mod points;
mod sessions;

use crate::banks::{BANK, EDITS, bank_copy, canonical_run, listing_run, playing_run, run_and_undo};
use crate::generator_maps::{generators_copy, generators_set};
use crate::neutral::neutral_calls;
use crate::no_allocations::calls_without_allocations;
use crate::outcome::Outcome;
use crate::players::{player_calls, tone_player_calls};
use crate::points::{points_copy, points_join, points_narrow};
use crate::sessions::{session_calls, tone_session_calls};
use std::process::ExitCode;
use test_inputs::tone;

fn main(rt: HostRuntime) -> ExitCode {
    let alloc = rt.alloc();
    let cases = [
        points_join(alloc),
        points_copy(alloc),
        points_narrow(alloc),
        generators_set(alloc),
        generators_copy(alloc),
        canonical_run(alloc),
        listing_run(alloc),
        playing_run(alloc),
        bank_copy(alloc, BANK),
        bank_copy(alloc, tone().bytes()),
        session_calls(alloc),
        tone_session_calls(alloc),
        player_calls(alloc),
        tone_player_calls(alloc),
        neutral_calls(alloc),
        calls_without_allocations(alloc),
    ];
    let mut outcome = Outcome::Done;
    for case in cases {
        outcome = outcome.and(case);
    }
    for (script, back) in EDITS {
        outcome = outcome.and(run_and_undo(alloc, script, back));
    }
    let (line, status) = match outcome {
        Outcome::Done => ("no allocation failed, and each value is right", 0),
        Outcome::Refused => (
            "an allocation failed: nothing changed, and all later calls were right",
            6,
        ),
        Outcome::Wrong => ("a value is wrong", 1),
    };
    match println!(rt; "{line}") {
        Ok(()) => ExitCode::from(status),
        Err(_) => ExitCode::from(1),
    }
}
