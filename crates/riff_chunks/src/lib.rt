//! The chunks of RIFF files: walking a window of a file, finding chunks in it, and writing them.
//!
//! A chunk is an id of four bytes, the size of its body as a little-endian 32-bit number, the body, and one pad byte if
//! the size is odd (SoundFont 2.04, section 3).
#![tactic(auto)]

mod chunks;
mod finding;
mod first;
mod head;
mod laws;

pub use chunks::{Chunks, LIST_ID, Truncated};
pub use finding::{is_whole, list_of};
pub use first::FirstChunks;
pub use head::ChunkWriter;
pub use laws::{encoded_chunks_are_found, unpadded_chunks_are_found, walk_is_unique};
