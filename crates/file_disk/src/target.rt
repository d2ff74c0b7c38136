//! What a path leads to.

/// What a path leads to, with all links followed.
#[derive(Drop)]
pub enum Target {
    /// A file that stores what is written, or nothing yet.
    Stores(StoredFile),
    /// A pipe, a device, an open descriptor, or what can't be resolved.
    InPlace,
}

/// A file that stores what is written, or nothing yet.
#[derive(Drop)]
pub struct StoredFile {
    /// Its path, which is no link.
    pub path: String,
    /// Whether there is a file.
    pub is_there: bool,
}
