//! Whether there is a bank at a path.
ghost use Rattle.std.specs.Prelude.{◌≡◌, IfOk};
ghost use Rattle.file_host.specs.Checks.{HasBank};
ghost use Rattle.file_disk.specs.Heads.{BeginsAt};

use crate::device::Device;
use crate::target::Target;
use file_host::begins_as_bank;
use std::alloc::AllocError;

/// The length of the header of a bank: `RIFF`, a length of four bytes, `sfbk`.
const HEAD: usize = 12;

/// Whether there is a regular file at a path that begins as a bank does.
pub(crate) fn has_bank<D: Device>(device: &mut D, path: &str) -> Result<bool, AllocError>
    ensures found { IfOk result (HasBank (D.world device.old) path.now) }
    ensures stays { D.world device.new ≡ D.world device.old }
{
    match device.resolve(path)? {
        Target::Stores(file) => Ok(begins_at(device, file.path.as_str())),
        Target::InPlace => Ok(false),
    }
}

// Whether the file at a path begins as a bank does.
fn begins_at<D: Device>(device: &mut D, path: &str) -> bool
    ensures found { BeginsAt (D.world device.old) path.now result }
    ensures stays { D.world device.new ≡ D.world device.old }
{
    let mut head = [0; HEAD];
    device.read_head(path, &mut head) && begins_as_bank(&head)
}
