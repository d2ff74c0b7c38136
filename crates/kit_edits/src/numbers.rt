//! The numbers of a kit's samples.

/// A recording, by the numbers of its samples in the bank.
#[derive(Debug, Clone, Copy)]
pub(crate) struct Numbered {
    /// The number of the left sample, or of the only one.
    pub(crate) left: u16,
    /// The number of the right sample, or of the only one.
    pub(crate) right: u16,
    pub(crate) is_stereo: bool,
    pub(crate) is_looped: bool,
}
