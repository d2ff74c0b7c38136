//! Buffers of a voice.

// The most frames that are computed in one pass.
pub(crate) const LONGEST: usize = 1024;

/// Buffers in which a voice computes up to 1,024 frames in one pass.
///
/// Their contents don't affect any result, so one workspace serves all voices in turn.
#[derive(Drop)]
pub struct Workspace {
    pub(crate) stages: Stages,
    // The frames before panning.
    pub(crate) run: [i16; LONGEST],
}

// Intermediate values of each frame: a word of two points, and two gains.
#[derive(Drop)]
pub(crate) struct Stages {
    pub(crate) words: [u32; LONGEST],
    pub(crate) levels: [u16; LONGEST],
    pub(crate) others: [u16; LONGEST],
}

impl Workspace {
    /// Creates a workspace of 10,240 bytes, all zero. It allocates nothing.
    pub fn new() -> Workspace {
        Workspace {
            stages: Stages {
                words: [0; LONGEST],
                levels: [0; LONGEST],
                others: [0; LONGEST],
            },
            run: [0; LONGEST],
        }
    }
}
