//! A bank as one HTML page: its presets, instruments and samples with their pictures, and what is probably a mistake.
#![tactic(auto)]

mod bank_data;
mod columns;
mod findings;
mod json;
mod laws;
mod page;
mod page_body;
mod page_end;
mod page_script;
mod page_start;
mod page_style;
mod samples;
mod zones;

pub use laws::data_has_no_markup;
pub use page::BankPage;

#[cfg(test)]
mod tests;
