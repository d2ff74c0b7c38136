//! Whether two paths lead to one file.

use crate::names::folder_of;
use crate::resolving::{Resolved, name_of, resolve};
use std::alloc::AllocError;
use std::fs;
use std::os::unix::fs::MetadataExt;
use std::rt::Files;

/// The bits of `st_mode` that hold the file type (`S_IFMT`), and the type of character devices such as /dev/null, which
/// store nothing that is written to them.
const TYPE_BITS: u32 = 0o170000;

const CHARACTER_DEVICE: u32 = 0o020000;

/// Whether two paths lead to one file that is no character device. Where there is no file, it is one if the paths are
/// equal, or the same name in one folder.
pub(crate) fn is_one_file<R: Files + AllocGlobal>(
    rt: &R,
    one: &str,
    other: &str,
) -> Result<bool, AllocError> {
    match (identity_of(rt, one), identity_of(rt, other)) {
        (Some(one), Some(other)) => Ok(one == other && !one.is_character_device),
        (None, None) => Ok(one == other || is_one_new_file(rt, one, other)?),
        _ => Ok(false),
    }
}

/// Whether two paths without a file are the same name in the same existing folder, once links are followed. If the
/// folder does not exist, creating the file is a write fault later.
fn is_one_new_file<R: Files + AllocGlobal>(
    rt: &R,
    one: &str,
    other: &str,
) -> Result<bool, AllocError> {
    match (resolve(rt, one)?, resolve(rt, other)?) {
        (Resolved::Nothing(one), Resolved::Nothing(other)) => {
            let (one, other) = (one.as_str(), other.as_str());
            let is_one_name = name_of(one) == name_of(other);
            Ok(is_one_name && is_one_folder(rt, folder_of(one), folder_of(other)))
        }
        _ => Ok(false),
    }
}

/// Whether two paths lead to the same existing folder.
fn is_one_folder<R: Files>(rt: &R, one: &str, other: &str) -> bool {
    match (identity_of(rt, one), identity_of(rt, other)) {
        (Some(one), Some(other)) => one == other,
        _ => false,
    }
}

/// The identity of a file: the same for each of its names.
#[derive(Clone, Copy, PartialEq, Eq)]
struct FileIdentity {
    device: u64,
    number: u64,
    is_character_device: bool,
}

fn identity_of<R: Files>(rt: &R, path: &str) -> Option<FileIdentity> {
    match fs::metadata(rt, path) {
        Ok(found) => Some(FileIdentity {
            device: found.dev(),
            number: found.ino(),
            is_character_device: found.mode() & TYPE_BITS == CHARACTER_DEVICE,
        }),
        Err(_) => None,
    }
}
