//! The list `pdta`: the nine lists of records (SoundFont 2.04, section 7).
ghost use Rattle.std.specs.Prelude.{◌≡◌};
ghost use Rattle.base_outputs.specs.Output.{Puts};
ghost use Rattle.riff_chunks.specs.Encoding.{encode};
ghost use Rattle.bank_format.specs.Canon.{pdta};
ghost use Rattle.bank_format.specs.Ids.{PDTA};
ghost use Rattle.bank_format.specs.Tables.{tables_of};
ghost use Rattle.sf_writer.specs.Lists.{list_bytes};
ghost use Rattle.sf_writer.specs.Sizes.{AreSizes};

use crate::chunks::put_form_head;
use crate::owner_heads::{put_inst, put_phdr};
use crate::sample_heads::put_shdr;
use crate::sizes::Sizes;
use crate::zone_lists::put_zone_lists;
use bank_core::Bank;
use base_outputs::Output;
use riff_chunks::LIST_ID;
use std::io::Write;

// Puts the list `pdta`.
pub(crate) fn put_pdta<W: Write>(output: &mut Output<'_, W>, bank: &Bank<'_>, sizes: Sizes)
    requires { AreSizes bank.now sizes }
    ensures { Puts W.contents output.old output.new (list_bytes PDTA (pdta (tables_of bank.now))) }
{
    put_form_head(output, LIST_ID, *b"pdta", sizes.pdta);
    put_lists(output, bank, sizes);
}

// Puts the nine lists.
fn put_lists<W: Write>(output: &mut Output<'_, W>, bank: &Bank<'_>, sizes: Sizes)
    requires { AreSizes bank.now sizes }
    ensures { Puts W.contents output.old output.new (encode (pdta (tables_of bank.now))) }
{
    put_phdr(output, bank, sizes.phdr);
    put_zone_lists(output, bank.presets(), sizes.presets);
    put_inst(output, bank, sizes.inst);
    put_zone_lists(output, bank.instruments(), sizes.instruments);
    put_shdr(output, bank, sizes.shdr);
}
