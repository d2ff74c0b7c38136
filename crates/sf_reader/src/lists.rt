//! The lists INFO, sdta and pdta in the RIFF chunk of a file.
ghost use Rattle.std.specs.Prelude.{◌≡◌};
ghost use Rattle.bank_format.specs.FaultChecks.{Passes};
ghost use Rattle.bank_format.specs.ReadChecks.{list_checks};
ghost use Rattle.sf_reader.specs.Lists.{chunks_in_lists};

use bank_format::ReadFault;
use riff_chunks::{FirstChunks, is_whole, list_of};
use std::marker::Model;

/// The chunks of `INFO` that are read: the version, and the eight texts.
const INFO_IDS: &[[u8; 4]] = &[
    *b"ifil", *b"isng", *b"INAM", *b"ICRD", *b"IENG", *b"IPRD", *b"ICOP", *b"ICMT", *b"ISFT",
];

/// The chunks of `sdta` that are read: the points, and the low-order bytes of 24-bit points.
const SDTA_IDS: &[[u8; 4]] = &[*b"smpl", *b"sm24"];

/// The chunks of `pdta`: the nine lists of records.
const PDTA_IDS: &[[u8; 4]] = &[
    *b"phdr", *b"pbag", *b"pmod", *b"pgen", *b"inst", *b"ibag", *b"imod", *b"igen", *b"shdr",
];

/// The three lists of a file, each with its chunks (SoundFont 2.04, section 4).
#[derive(Drop)]
pub(crate) struct Lists<'a> {
    pub(crate) info: FirstChunks<'a>,
    pub(crate) sdta: FirstChunks<'a>,
    pub(crate) pdta: FirstChunks<'a>,
}

impl<'a> Model for Lists<'a> {
    ghost use Rattle.sf_reader.specs.Lists.{ListChunks};

    ghost Value = { ListChunks };

    ghost view = { λ lists. record { info = lists.info; sdta = lists.sdta; pdta = lists.pdta } };
}

/// Finds the first list of each form in the body of the RIFF chunk, and the first chunk of each id in it.
#[tactic(auto, unfolding(crate::specs::Lists::chunks_in_lists, bank_format::specs::ReadChecks::list_checks, bank_format::specs::Chunks::list_window, bank_format::specs::Ids::INFO, bank_format::specs::Ids::SDTA, bank_format::specs::Ids::PDTA))]
pub(crate) fn lists_of(window: &[u8]) -> Result<Lists, ReadFault>
    ensures { Passes (λ lists. lists) result (list_checks window.now) (chunks_in_lists window.now) }
{
    if !is_whole(window) {
        return Err(ReadFault::Truncated);
    }
    let info = list_of(window, *b"INFO").ok_or(ReadFault::MissingList)?;
    let sdta = list_of(window, *b"sdta").ok_or(ReadFault::MissingList)?;
    let pdta = list_of(window, *b"pdta").ok_or(ReadFault::MissingList)?;
    Ok(Lists {
        info: FirstChunks::over(info, INFO_IDS)?,
        sdta: FirstChunks::over(sdta, SDTA_IDS)?,
        pdta: FirstChunks::over(pdta, PDTA_IDS)?,
    })
}
