//! Tests of plans: the edits that they find, as a script.
#![tactic(auto)]

#[cfg(test)]
mod copied_members;
#[cfg(test)]
mod edited_banks;
#[cfg(test)]
mod merged_banks;
#[cfg(test)]
mod plans;
#[cfg(test)]
mod played_notes;
#[cfg(test)]
mod removed_duplicates;
#[cfg(test)]
mod taken_presets;
