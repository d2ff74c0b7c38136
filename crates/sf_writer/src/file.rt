//! The whole file: the RIFF form `sfbk` with its three lists.
ghost use Rattle.std.specs.Prelude.{◌≡◌, ◌++◌, length};
ghost use Rattle.base_outputs.specs.Output.{Puts};
ghost use Rattle.base_outputs.specs.Writing.{Writes};
ghost use Rattle.riff_chunks.specs.Encoding.{encode};
ghost use Rattle.bank_format.specs.Canon.{canon, lists};
ghost use Rattle.sf_writer.specs.Sizes.{AreSizes};

use crate::chunks::{HEAD_SIZE, put_form_head};
use crate::info::put_info;
use crate::points::put_sdta;
use crate::records::put_pdta;
use crate::sizes::Sizes;
use bank_core::Bank;
use base_outputs::{Output, WriteFault};
use base_texts::Text;
use std::io::Write;

/// The canonical file of a bank.
///
/// It has the lists `INFO`, `sdta` and `pdta`: the version, the engine, the name, and each other text that is not empty;
/// the points of each sample, followed by 46 zero points; and the nine lists of records.
#[derive(Clone, Copy)]
pub struct BankFile<'t, 'a>(pub &'t Bank<'a>);

impl Text for BankFile<'_, '_> {
    ghost bytes = { λ file. canon file.0.now };

    fn put<W: Write>(&self, output: &mut Output<'_, W>) {
        let sizes = Sizes::of(self.0);
        put_form_head(output, *b"RIFF", *b"sfbk", sizes.file);
        put_lists(output, self.0, sizes);
    }
}

/// Writes the bank's canonical file to a writer. It does not flush.
///
/// It fails if the writer returns an error or accepts no bytes; the fault has the number of bytes written before,
/// which is less than the length of the file. There is no retry.
pub fn write<W: Write>(bank: &Bank<'_>, out: &mut W) -> Result<(), WriteFault>
    ensures { Writes (W.contents out.old) (W.contents out.new) (canon bank.now) result }
{
    let mut output = Output::to(out);
    BankFile(bank).put(&mut output);
    output.end()?;
    Ok(())
}

/// Returns the length of the bank's canonical file in bytes. It allocates nothing.
#[tactic(auto, using(crate::proofs::FileLaws::file_size))]
pub fn encoded_len(bank: &Bank<'_>) -> u64
    ensures { result ≡ length (canon bank.now) }
{
    u64::from(HEAD_SIZE) + u64::from(Sizes::of(bank).file)
}

// Puts the three lists.
fn put_lists<W: Write>(output: &mut Output<'_, W>, bank: &Bank<'_>, sizes: Sizes)
    requires { AreSizes bank.now sizes }
    ensures { Puts W.contents output.old output.new (encode (lists bank.now)) }
{
    put_info(output, bank, sizes.info);
    put_sdta(output, bank, sizes.sdta, sizes.smpl);
    put_pdta(output, bank, sizes);
}
