//! The program's commands, and the request that its words make.
#![tactic(auto)]

mod commands;
mod explain;
mod folders;
mod kits;
mod names;
mod paths;
mod plans;
mod presets;
mod recordings;
mod words;

pub use explain::{Topic, asks_for_explanations};
pub use kits::{KitPaths, KitSource, NewPreset};
pub use names::recording_name;
pub use plans::{CopyPaths, KeepPaths, Kept, MergePaths, PlanPaths, TakePaths, TidyPaths, Zones};
pub use recordings::{ImportPaths, ReplacePaths, WaveAllPaths, WavePaths};
pub use words::{
    ApplyOnlyPaths, ApplyPaths, CanonPaths, CheckPaths, DiffPaths, Drawn, Forms, LivePaths,
    MapPaths, NewBank, PackPaths, PagePaths, PlayPaths, Request, ScriptPaths, ShowPaths,
    UnpackPaths, request_of,
};
