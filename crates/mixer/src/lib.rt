//! The sum of voices: a player of notes that start as it plays, and all frames of a list of notes.
//!
//! Both return 16-bit values, left and right interleaved, 44,100 frames a second.
#![tactic(auto)]

mod ahead;
mod blocks;
mod laws;
mod measuring;
mod player;
mod playing;
mod rendering;

pub use laws::{
    alike_banks_render_the_same, alike_edits_change_no_frame, blocks_are_heard, order_is_free,
    presses_are_heard, recordings_are_heard, splits_are_free, stops_are_least,
};
pub use player::Player;
pub use playing::Release;
pub use rendering::{render, render_with_progress};
