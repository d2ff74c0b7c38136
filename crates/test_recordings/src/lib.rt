//! Tests of the points of recordings, against exact fractions, and of the WAVE files of pairs. Imports of whole files are
//! tested by `checks/rows` and `checks/recordings`.
#![tactic(auto)]

#[cfg(test)]
mod channels;
#[cfg(test)]
mod pairs;
#[cfg(test)]
mod samples;
