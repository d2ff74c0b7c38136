//! The bodies of the chunks that are read.
ghost use Rattle.std.specs.Prelude.{◌≡◌, [], ◌∷◌, None};
ghost use Rattle.std.specs.Option.{option_copied, option_or};
ghost use Rattle.riff_chunks.specs.Finding.{first_body};
ghost use Rattle.wave_file.specs.Kept.{bodies_in, kept, or_else};

/// The first bodies of the chunks that are read.
#[derive(Clone, Copy)]
pub(crate) struct FirstBodies<'a> {
    pub(crate) format: Option<&'a [u8]>,
    pub(crate) frames: Option<&'a [u8]>,
    pub(crate) sampler: Option<&'a [u8]>,
}

impl<'a> FirstBodies<'a> {
    pub(crate) fn none() -> FirstBodies<'a>
        ensures { kept result ≡ bodies_in [] }
    {
        FirstBodies {
            format: None,
            frames: None,
            sampler: None,
        }
    }

    /// Keeps the body of a chunk if it is the first of its id.
    #[tactic(auto, unfolding(crate::specs::Wave::FORMAT, crate::specs::Wave::DATA, crate::specs::SampleWave::SAMPLER))]
    pub(crate) fn keep(&mut self, id: [u8; 4], body: &'a [u8])
        ensures { kept self.new ≡ or_else (kept self.old) (bodies_in (record { id = id; body = body.now } ∷ [])) }
    {
        self.format = first_of(self.format, *b"fmt ", id, body);
        self.frames = first_of(self.frames, *b"data", id, body);
        self.sampler = first_of(self.sampler, *b"smpl", id, body);
    }
}

// The first body of a wanted id: the one found before, or else this one.
fn first_of<'a>(
    before: Option<&'a [u8]>,
    wanted: [u8; 4],
    id: [u8; 4],
    body: &'a [u8],
) -> Option<&'a [u8]>
    ensures { option_copied result ≡
        option_or (option_copied before.entry) (first_body wanted (record { id = id; body = body.now } ∷ [])) }
{
    if before.is_none() && id == wanted {
        Some(body)
    } else {
        before
    }
}
