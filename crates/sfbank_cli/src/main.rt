//! The program `sfbank`: passes its arguments and the standard streams to the library, and returns its exit status.
#![tactic(auto)]

use sfbank::{ProgressMeter, Prompted, run_with_arguments};
use std::io::IsTerminal;
use std::process::ExitCode;

fn main(rt: HostRuntime) -> ExitCode {
    let is_typed = rt.stdin().is_terminal();
    let is_watched = rt.stderr().is_terminal();
    let mut input = Prompted::new(rt.stdin(), rt.stderr(), is_typed);
    let (mut output, mut errors) = (rt.stdout(), rt.stderr());
    let mut meter = ProgressMeter::new(rt.alloc(), &rt, rt.stderr(), is_watched);
    ExitCode::from(run_with_arguments(
        &rt,
        &mut input,
        &mut output,
        &mut errors,
        is_watched,
        &mut meter,
    ))
}
