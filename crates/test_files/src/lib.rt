//! Tests of files: a host in memory, disks over devices that fail at each call, checks of outputs, and the program on such
//! a device, without arguments and on a terminal. Runs on real files are tested by `checks/saving`.
#![tactic(auto)]

#[cfg(test)]
mod disk;
#[cfg(test)]
mod host;
#[cfg(test)]
mod memory_device;
#[cfg(test)]
mod outputs;
#[cfg(test)]
mod program;
#[cfg(test)]
mod texts;
