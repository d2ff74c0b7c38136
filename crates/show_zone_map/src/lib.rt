//! A picture of the keys and velocities for which notes select the zones of a preset or an instrument.
#![tactic(auto)]

mod laws;
mod legend;
mod map;
pub mod marks;
mod rectangle;
mod sample_set;
mod shapes;

pub use laws::{labels_are_apart, rectangles_select};
pub use map::ZoneMap;
pub use rectangle::{Area, Rectangle, zone_rectangle};
