//! What is probably a mistake in a bank, from bytes to bytes, and the page of a bank.
ghost use Rattle.std.specs.Prelude.{◌≡◌, ◌==◌, length};
ghost use Rattle.sfbank.specs.Findings.{IsPage, ListsFindings, ReadsChecked, RunsSome};

use crate::reading::read_bank;
use crate::writing::write_one;
use bank_core::Bank;
use file_host::Which;
use program_reports::RunFault;
use show_findings::{Finding, FindingLines, findings_of};
use show_page::BankPage;
use std::alloc::Global;
use std::io::Write;

/// Reads the file, writes a line for each thing in its bank that is probably a mistake to `out`, and flushes `out`.
///
/// Where the file has a fault or an allocation fails, nothing is written. A fault of the writer (`Which::Out`) has the
/// number of bytes written.
pub fn check_run<W: Write>(alloc: Global, file: &[u8], out: &mut W) -> Result<(), RunFault>
    // The outcome is the fault of the file, else a line for each finding.
    ensures runs { RunsSome ListsFindings (W.contents out.old) (W.contents out.new) file.now result }
{
    match read_checked(alloc, file) {
        Ok(checked) => write_one(Which::Out, &checked.lines(), out),
        Err(fault) => Err(fault),
    }
}

/// Reads the file, writes its bank as an HTML page to `out`, and flushes `out`. The page shows each finding at its place.
///
/// Where the file has a fault or an allocation fails, nothing is written. A fault of the writer (`Which::Out`) has the
/// number of bytes written.
pub fn page_run<W: Write>(alloc: Global, file: &[u8], out: &mut W) -> Result<(), RunFault>
    // The outcome is the fault of the file, else the page of its bank and its findings.
    ensures runs { RunsSome IsPage (W.contents out.old) (W.contents out.new) file.now result }
{
    match read_checked(alloc, file) {
        Ok(checked) => write_one(Which::Out, &checked.page(), out),
        Err(fault) => Err(fault),
    }
}

/// A bank with its findings.
pub(crate) struct CheckedBank<'a> {
    bank: Bank<'a>,
    findings: Vec<Finding>,
}

// Not derived: a derived drop is inlined, and proved, wherever a value is dropped; this one is a call.
impl Drop for CheckedBank<'_> {
    fn drop(self) {
        let CheckedBank {
            bank: _,
            findings: _,
        } = self;
    }
}

impl<'a> CheckedBank<'a> {
    /// Whether nothing was found.
    pub(crate) fn is_clean(&self) -> bool
        ensures { result ≡ (length self.now.findings.items == 0) }
    {
        self.findings.is_empty()
    }

    /// A line for each finding.
    pub(crate) fn lines(&self) -> FindingLines<'_, 'a>
        ensures bank { result.bank.now ≡ self.now.bank }
        ensures findings { result.findings.now ≡ self.now.findings.items }
    {
        FindingLines {
            bank: &self.bank,
            findings: self.findings.as_slice(),
        }
    }

    /// The page of the bank.
    pub(crate) fn page(&self) -> BankPage<'_, 'a>
        ensures bank { result.bank.now ≡ self.now.bank }
        ensures findings { result.findings.now ≡ self.now.findings.items }
    {
        BankPage {
            bank: &self.bank,
            findings: self.findings.as_slice(),
        }
    }
}

/// Reads a file as a bank, and finds what is probably a mistake in it.
pub(crate) fn read_checked(alloc: Global, file: &[u8]) -> Result<CheckedBank<'_>, RunFault>
    ensures { ReadsChecked (λ checked. (checked.bank, checked.findings.items)) file.now result }
{
    match read_bank(alloc, file) {
        Ok((bank, _counts)) => match findings_of(alloc, &bank) {
            Ok(findings) => Ok(CheckedBank { bank, findings }),
            Err(_) => Err(RunFault::Memory),
        },
        Err(fault) => Err(fault),
    }
}
