//! Tests of banks and files that no run of the program can make: getters of `Bank`, banks built from parts and from
//! flat lists, the lower crates, plans, writers that fail, and progress on a terminal. Runs of the program are tested by
//! `checks/rows`.
#![tactic(auto)]

#[cfg(test)]
mod banks;
#[cfg(test)]
mod flat_banks;
#[cfg(test)]
mod folders;
#[cfg(test)]
mod imports;
mod lists;
#[cfg(test)]
mod long_work;
#[cfg(test)]
mod plan_runs;
#[cfg(test)]
mod writers;
