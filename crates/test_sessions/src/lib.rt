//! Tests of sessions, of live sessions line by line, and of edits as values: their text form and copies of their steps.
//! What scripts do is tested by `checks/rows`.
#![tactic(auto)]

#[cfg(test)]
mod answers;
#[cfg(test)]
mod comments;
#[cfg(test)]
mod live_run;
#[cfg(test)]
mod requests;
#[cfg(test)]
mod sessions;
#[cfg(test)]
mod steps;
