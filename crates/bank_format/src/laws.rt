//! Theorems about the file format.
ghost use Rattle.std.specs.Prelude.{◌≡◌, ℕ, List, None};
ghost use Rattle.hydra_records.specs.Records.{AreBytes};
ghost use Rattle.bank_parts.specs.declared.parts.Parts.{Parts};
ghost use Rattle.bank_parts.specs.Valid.{IsValid};
ghost use Rattle.bank_parts.specs.Fits.{Fits};
ghost use Rattle.bank_format.specs.Canon.{canon};
ghost use Rattle.bank_format.specs.Indexes.{IndexesAreSums};
ghost use Rattle.bank_format.specs.FlatTables.{TablesAreFlat};
ghost use Rattle.bank_format.specs.Chunks.{window};
ghost use Rattle.bank_format.specs.Reading.{content_in, no_counts};
ghost use Rattle.bank_format.specs.ReadChecks.{fault_of, ReadsAs};

/// The canonical file of a valid bank reads as that bank, with all counts zero.
pub fn canonical_files_read_back()
    ensures { (b : Parts) → IsValid b → Fits b → ReadsAs (canon b) b no_counts }
{}

/// The bank read from a file is valid, and its numbers, names and texts are in the ranges of their fields.
pub fn read_banks_are_valid()
    ensures valid { (file : List ℕ) → AreBytes file → fault_of file ≡ None → IsValid (content_in (window file)).bank }
    ensures fits { (file : List ℕ) → AreBytes file → Fits (content_in (window file)).bank }
{}

/// Each index in the tables of a bank is a sum over the bank's own lists: a header counts the bags of the headers
/// before it, a bag the generators and modulators of the zones before it.
pub fn indexes_are_sums()
    ensures { (b : Parts) → IndexesAreSums b }
{}

/// The tables of a bank are the flat lists of its presets and instruments, record by record.
pub fn tables_are_flat_lists()
    ensures { (b : Parts) → TablesAreFlat b }
{}
