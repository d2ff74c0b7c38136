//! What a path leads to.

use crate::names::folder_of;
use std::alloc::AllocError;
use std::fs;
use std::io::{Error, ErrorKind};
use std::rt::Files;

/// The most links that are followed; Linux has the same limit.
const MOST_LINKS: usize = 40;

/// The descriptor number of the standard output.
const STANDARD_OUTPUT: i32 = 1;

/// The folder of the process's open descriptors.
const OWN_DESCRIPTORS: &str = "/proc/self/fd";

/// What a path leads to, with all links followed.
#[derive(Drop)]
pub(crate) enum Resolved {
    /// A regular file, at this path.
    Regular(String),
    /// No file, at this path. Its folder may be missing too.
    Nothing(String),
    /// An open descriptor of this process, by its number.
    Descriptor(i32),
    /// Anything else, such as a device or a pipe, and whatever can't be resolved.
    Other,
}

/// Resolves a path. A failed allocation is the only error.
pub(crate) fn resolve<R: Files + AllocGlobal>(rt: &R, path: &str) -> Result<Resolved, AllocError> {
    let mut path = String::from_str(rt.alloc(), path)?;
    for _ in 0..MOST_LINKS {
        match look_at(rt, path)? {
            Lookup::Found(found) => return Ok(found),
            Lookup::LinkTo(next) => path = next,
        }
    }
    Ok(Resolved::Other)
}

/// One step of resolving a path: a link to another path, or what it leads to.
#[derive(Drop)]
enum Lookup {
    LinkTo(String),
    Found(Resolved),
}

fn look_at<R: Files + AllocGlobal>(rt: &R, path: String) -> Result<Lookup, AllocError> {
    if let Some(folder) = real_path(rt, folder_of(path.as_str()))? {
        if is_below_proc(folder.as_str()) {
            return Ok(Lookup::Found(in_proc(rt, folder.as_str(), path.as_str())?));
        }
    }
    match fs::symlink_metadata(rt, path.as_str()) {
        Ok(found) if found.is_symlink() => link_at(rt, path.as_str()),
        Ok(found) if found.is_file() => Ok(Lookup::Found(Resolved::Regular(path))),
        // (an empty path can't name a file)
        Err(error) if error.kind() == ErrorKind::NotFound && !path.is_empty() => {
            Ok(Lookup::Found(Resolved::Nothing(path)))
        }
        _ => Ok(Lookup::Found(Resolved::Other)),
    }
}

/// Reads the link at a path.
fn link_at<R: Files + AllocGlobal>(rt: &R, path: &str) -> Result<Lookup, AllocError> {
    let Some(link) = if_found(fs::read_link(rt, path))? else {
        return Ok(Lookup::Found(Resolved::Other));
    };
    let link = link.into_string();
    if link.as_str().starts_with('/') {
        return Ok(Lookup::LinkTo(link));
    }
    let mut next = String::from_str(rt.alloc(), folder_of(path))?;
    next.push_str("/")?;
    next.push_str(link.as_str())?;
    Ok(Lookup::LinkTo(next))
}

/// Resolves a path in a folder below /proc: a descriptor of this process, or anything else.
fn in_proc<R: Files + AllocGlobal>(
    rt: &R,
    folder: &str,
    path: &str,
) -> Result<Resolved, AllocError> {
    let Some(own) = real_path(rt, OWN_DESCRIPTORS)? else {
        return Ok(Resolved::Other);
    };
    match name_of(path).parse::<i32>() {
        Ok(number) if own.as_str() == folder => Ok(Resolved::Descriptor(number)),
        _ => Ok(Resolved::Other),
    }
}

fn is_below_proc(folder: &str) -> bool {
    folder == "/proc" || folder.starts_with("/proc/")
}

/// The path of a folder without links, or `None` if the system can't find it.
fn real_path<R: Files + AllocGlobal>(rt: &R, folder: &str) -> Result<Option<String>, AllocError> {
    match if_found(fs::canonicalize(rt, folder))? {
        Some(path) => Ok(Some(path.into_string())),
        None => Ok(None),
    }
}

/// Turns errors into `None`, except a failed allocation.
fn if_found<T: Drop>(found: Result<T, Error>) -> Result<Option<T>, AllocError> {
    match found {
        Ok(found) => Ok(Some(found)),
        Err(error) if error.kind() == ErrorKind::OutOfMemory => Err(AllocError),
        Err(_) => Ok(None),
    }
}

/// The last component of a path.
pub(crate) fn name_of(path: &str) -> &str {
    match path.rsplit_once('/') {
        Some((_, name)) => name,
        None => path,
    }
}

/// Whether a path has the name of a temporary file, which is never written as an output.
pub(crate) fn is_temporary(path: &str) -> bool {
    match name_of(path).rsplit_once('-') {
        Some(("sfbank-new" | "sfbank-old", number)) => number.parse::<u64>().is_ok(),
        _ => false,
    }
}

/// Whether a path leads to the standard output. That is written as a stream, so that later writes follow in order: a
/// descriptor that is opened again by its path has a position of its own.
pub(crate) fn is_standard_output<R: Files + AllocGlobal>(
    rt: &R,
    path: &str,
) -> Result<bool, AllocError> {
    Ok(matches!(resolve(rt, path)?, Resolved::Descriptor(STANDARD_OUTPUT)))
}
