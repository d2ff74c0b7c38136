//! The page of a bank.
ghost use Rattle.std.specs.Prelude.{◌≡◌};
ghost use Rattle.base_outputs.specs.Output.{Puts};
ghost use Rattle.show_page.specs.Page.{page};

use crate::bank_data::put_data;
use crate::page_body::BODY;
use crate::page_end::END;
use crate::page_script::SCRIPT;
use crate::page_start::START;
use crate::page_style::STYLE;
use bank_core::Bank;
use base_outputs::Output;
use base_texts::Text;
use show_findings::Finding;
use std::io::Write;

/// A bank as an HTML page, which needs no other file: the presets by their numbers, the instruments and the samples,
/// with key maps, zones and waveforms, links between them, and the findings at their members.
///
/// What the bank holds is data of the page's script, which only shows it: nothing in it is read as markup. Bytes other
/// than printable ASCII are shown as replacement characters.
#[derive(Clone, Copy)]
pub struct BankPage<'t, 'a> {
    pub bank: &'t Bank<'a>,
    /// What is shown at the members that they are about.
    pub findings: &'t [Finding],
}

impl Text for BankPage<'_, '_> {
    ghost bytes = { λ p. page p.bank.now p.findings.now };

    fn put<W: Write>(&self, output: &mut Output<'_, W>) {
        output.put(START);
        output.put(STYLE);
        output.put(BODY);
        put_data(self.bank, self.findings, output);
        output.put(SCRIPT);
        output.put(END);
    }
}
