//! The terminal of the list of samples (SoundFont 2.04, section 7.10).
ghost use Rattle.std.specs.Prelude.{◌≡◌};
ghost use Rattle.bank_format.specs.Tables.{sample_end};

use hydra_records::SampleHead;

// The terminal record of `shdr`.
#[tactic(auto, unfolding(bank_format::specs::Ids::EOS))]
pub(crate) fn sample_end() -> SampleHead
    ensures { result ≡ sample_end }
{
    SampleHead {
        name: *b"EOS\0\0\0\0\0\0\0\0\0\0\0\0\0\0\0\0\0",
        start: 0,
        end: 0,
        loop_start: 0,
        loop_end: 0,
        rate: 0,
        key: 0,
        correction: 0,
        link: 0,
        kind: 0,
    }
}
