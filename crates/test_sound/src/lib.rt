//! Tests of sound and of neutral edits that no run of the program can make: values of the tables and of linear
//! modulators, zone selection, frames of voices, blocks of players and what they report, WAVE files after other output
//! and in writers that fail; which forms of edit are neutral, their inverses, and neutral edits while notes play. Runs
//! of the program are tested by `checks/rows`.
#![tactic(auto)]

#[cfg(test)]
mod failing_plays;
#[cfg(test)]
mod linear;
#[cfg(test)]
mod neutral_forms;
#[cfg(test)]
mod neutral_lines;
#[cfg(test)]
mod neutral_players;
#[cfg(test)]
mod notes;
#[cfg(test)]
mod players;
#[cfg(test)]
mod rendered;
#[cfg(test)]
mod reports;
#[cfg(test)]
mod selection;
#[cfg(test)]
mod single_voices;
#[cfg(test)]
mod started_voices;
#[cfg(test)]
mod tables;
#[cfg(test)]
mod waves;
