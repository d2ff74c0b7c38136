//! Plans that add presets of another bank, with their instruments and samples: some of them, or all; and one that
//! removes duplicates of samples and instruments.
#![tactic(auto)]

mod checks;
mod comparisons;
mod equal_instruments;
mod equal_samples;
mod existing_instruments;
mod existing_samples;
mod instruments;
mod joined_owners;
mod joined_samples;
mod member_index;
mod merge;
mod merge_checks;
mod names;
mod needed;
mod neutral_steps;
mod new_targets;
mod numbers;
mod owner_copies;
mod preset_search;
mod presets;
mod remove_duplicates;
mod same_presets;
mod sample_matches;
mod samples;
mod sorted_numbers;
mod take;
mod zone_matches;

pub use checks::check_presets;
pub use merge::Merge;
pub use merge_checks::check_merge;
pub use plan_presets::TakenPreset;
pub use remove_duplicates::RemoveDuplicates;
pub use take::Take;
