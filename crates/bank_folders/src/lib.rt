//! A bank as a folder: `bank.txt`, a script of the bank without its points, and a WAVE file of 16 bits for each sample.
//!
//! The folder of a bank is written with [`sample_file`], which names the file of a sample, and [`sample_file_names`] names all. It is read in these steps:
//! [`minor_of`] gives the minor version that the script begins with, [`bare_samples`] the samples that its lines add
//! without points, [`points_for`] the points of the file of such a sample, and [`fill`] the lines with these points.
//! [`folders_give_bank`] states that they give back the edits that list the bank.
#![tactic(auto)]

mod bare;
mod file_points;
mod filling;
mod laws;
mod minor;
mod sample_files;

pub use bare::{BareSample, bare_samples};
pub use file_points::points_for;
pub use filling::fill;
pub use laws::{folders_give_bank, sample_files_differ};
pub use minor::minor_of;
pub use sample_files::{sample_file, sample_file_names};
