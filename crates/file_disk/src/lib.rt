//! Files on a device, which does one system call at a time: read by pieces, and saved by way of new files that are put
//! in place once they are written.
#![tactic(auto)]

mod bank;
mod descriptor;
mod device;
mod disk;
mod identity;
mod keeping;
mod names;
mod new_file;
mod pair;
mod reading;
mod resolving;
mod saving;
mod stream;
mod system;
mod target;

pub use device::Device;
pub use disk::Disk;
pub use stream::SystemStream;
pub use system::System;
pub use target::{StoredFile, Target};
