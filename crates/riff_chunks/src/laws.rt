//! Laws of walking and encoding, as functions that do nothing: the law is the contract.
ghost use Rattle.riff_chunks.specs.Laws.{WalkIsUnique, EncodedAreFound, EncodedReadBack, UnpaddedAreFound};

/// A window has exactly one list of items, and `walk` computes it.
pub fn walk_is_unique()
    ensures { WalkIsUnique }
{}

/// Encoded chunks are found again in order, whatever follows them.
pub fn encoded_chunks_are_found()
    ensures found { EncodedAreFound }
    ensures read_back { EncodedReadBack }
{}

/// A last chunk without its pad byte is found. If its size is one too large, it is found if it is a list, and a fault
/// otherwise.
pub fn unpadded_chunks_are_found()
    ensures { UnpaddedAreFound }
{}
