//! The data of a page.
ghost use Rattle.base_outputs.specs.Output.{Puts};
ghost use Rattle.show_page.specs.Json.{more};
ghost use Rattle.show_page.specs.Data.{bank_fields, page_data};

use crate::findings::put_findings;
use crate::json::{number, put_more, text};
use crate::samples::put_samples;
use crate::zones::put_owners;
use bank_core::{Bank, InfoId};
use base_outputs::Output;
use show_findings::Finding;
use std::io::Write;

// Writes the data of a bank and its findings.
pub(crate) fn put_data<W: Write>(bank: &Bank<'_>, findings: &[Finding], output: &mut Output<'_, W>)
    ensures { Puts W.contents output.old output.new (page_data bank.now findings.now) }
{
    output.put(b"[[\"bank\"");
    put_bank(bank, output);
    output.put(b"],\n[\"presets\"");
    put_owners(bank.presets(), output);
    output.put(b"],\n[\"instruments\"");
    put_owners(bank.instruments(), output);
    output.put(b"],\n[\"samples\"");
    put_samples(bank.samples(), output);
    output.put(b"],\n[\"findings\"");
    put_findings(findings, output);
    output.put(b"]]");
}

// Writes the version and the texts of a bank.
fn put_bank<W: Write>(bank: &Bank<'_>, output: &mut Output<'_, W>)
    ensures { Puts W.contents output.old output.new (more (bank_fields bank.now)) }
{
    let fields = [
        number(u64::from(bank.minor())),
        text(bank.info(InfoId::Engine)),
        text(bank.info(InfoId::Name)),
        text(bank.info(InfoId::Date)),
        text(bank.info(InfoId::Engineers)),
        text(bank.info(InfoId::Product)),
        text(bank.info(InfoId::Copyright)),
        text(bank.info(InfoId::Comment)),
        text(bank.info(InfoId::Software)),
    ];
    put_more(&fields, output);
}
