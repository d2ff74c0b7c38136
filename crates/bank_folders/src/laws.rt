//! The laws of a bank as a folder.
ghost use Rattle.bank_folders.specs.SampleFiles.{SampleFilesDiffer};
ghost use Rattle.bank_folders.specs.Laws.{FoldersGiveBank};

/// The files of samples with different numbers have different names.
pub fn sample_files_differ()
    ensures { SampleFilesDiffer }
{}

/// The text of a sound bank without points is read as lines that add its samples in order, each without points. The
/// WAVE file of each sample gives the points of its line, and the lines filled with them are those that list the bank.
/// The text begins with the bank's minor version.
pub fn folders_give_bank()
    ensures { FoldersGiveBank }
{}
