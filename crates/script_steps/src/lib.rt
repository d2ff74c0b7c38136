//! Reads and writes one step of the edit script: the word of its form, and its operands.
//!
//! [`step`] reads a step from a line. [`word_of`] is the word of a step's form, and [`put_operands`] writes
//! the operands after it.
//!
//! The forms are
//!
//! - `add-preset P NAME NUMBER BANK LIBRARY GENRE MORPHOLOGY GLOBAL? ZONE*`, `remove-preset P`,
//!   `move-preset I J` and `set-head P NAME NUMBER BANK`;
//! - `add-inst I NAME GLOBAL? ZONE*`, `remove-inst I`, `rename-inst I NAME` and `move-inst I J`;
//! - `add-sample S NAME RATE KEY CORR KIND LOOP POINTS`, `remove-sample S`, `rename-sample S NAME` and
//!   `move-sample I J`;
//! - `trim S F B`, `extend S POINTS POINTS`, `set-loop S LOOP`, `set-kind S KIND` and
//!   `set-tune S RATE KEY CORR`;
//! - `add-zone OWNER K ZONE`, `remove-zone OWNER K`, `move-zone OWNER I J`,
//!   `split-zone OWNER K key|vel M`, `join-zone OWNER K key|vel keep|bare` and
//!   `set-target OWNER K TARGET`;
//! - `set-gen OWNER PLACE OPERATOR AMOUNT`, `clear-gen OWNER PLACE OPERATOR`,
//!   `add-mod OWNER PLACE J MOD`, `remove-mod OWNER PLACE J` and `set-mod OWNER PLACE J MOD`;
//! - `set-info ID TEXT`.
//!
//! `OWNER` is `preset P` or `inst I`, `PLACE` is `global` or the number of a zone, and `MOD` is
//! `SOURCE DEST AMOUNT ASOURCE TRANSFORM`.
#![tactic(auto)]

mod by_word;
mod instruments;
mod members;
mod owners;
mod points;
mod presets;
mod samples;
mod settings;
mod steps;
mod texts;
mod zones;

pub use steps::{put_operands, step, word_of};
