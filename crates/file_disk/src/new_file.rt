//! A new file that is written, and a pipe or a device that is written in place.
ghost use Rattle.std.specs.Prelude.{◌≡◌, Ok, Some, None, false, OnOk, string_bytes};
ghost use Rattle.std.specs.Option.{option_map};
ghost use Rattle.std.proofs.Props.{props};
ghost use Rattle.base_outputs.specs.Writing.{Delivers};
ghost use Rattle.file_host.specs.World.{with_file};
ghost use Rattle.file_disk.specs.Devices.{IsOpen};
ghost use Rattle.file_disk.specs.Frames.{Frame, IsEmptyAt, known_at};
ghost use Rattle.file_disk.specs.Crashes.{IsBeside, Since};

use crate::device::Device;
use base_outputs::{Output, WriteFault};
use base_texts::Text;
use std::io;
use std::io::Write;
use std::marker::{Brand, PhantomData};

/// The world before a text is written, and the path that is written to, which a call picks.
pub(crate) trait Before {
    ghost use Rattle.std.specs.Prelude.{List, ℕ, Option};
    ghost use Rattle.file_host.specs.World.{World};

    ghost before: { Option World };

    ghost path: { List ℕ };

    // What a crash left then, and what one might have left so far.
    ghost durable: { Option World };

    ghost past: { World → Type 0 };
}

impl Before for Brand {
    ghost use Rattle.std.specs.Prelude.{[], None};

    ghost before = { None };

    ghost path = { [] };

    ghost durable = { None };

    ghost past = { λ left. ⊥ };
}

// A new file that is written; all else is as it was before. It owns the device, since a generic writer may be swapped for
// another: whatever is known of the world then holds of that one's device.
struct NewFile<D: Device, K: Before> {
    device: D,
    of: PhantomData<K>,
    ghost open: { IsOpen (D.world device) (D.output device) (Some K.path) } by { Prim.hlevel props },
    ghost frame: { Frame K.before (D.world device) K.path } by { Prim.hlevel props },
    ghost left: { Frame K.durable (D.durable device) K.path } by { Prim.hlevel props },
    ghost crash: { Since K.past (D.past device) (IsBeside K.durable K.path) } by { Prim.hlevel props },
}

impl<D: Device, K: Before> Write for NewFile<D, K> {
    ghost contents = { λ file. known_at (D.world file.device) K.path };

    fn write(&mut self, bytes: &[u8]) -> io::Result<usize> {
        self.device.append(bytes)
    }

    fn flush(&mut self) -> io::Result<()> {
        Ok(())
    }
}

// Writes a text to the new file at a path, which is open and empty, and returns the number of its bytes. If that fails,
// some of them may be written. The path is a `String` since a call whose callee takes a `&str` picks no ghost members.
pub(crate) fn write_new<D: Device, T: Text, K: Before>(
    device: D,
    path: &String,
    text: &T,
) -> (D, Result<u64, WriteFault>)
    requires path { string_bytes path.now ≡ K.path }
    requires before { D.world device ≡ K.before }
    requires open { IsOpen (D.world device) (D.output device) (Some (string_bytes path.now)) }
    requires empty { IsEmptyAt (D.world device) (string_bytes path.now) }
    requires left { D.durable device ≡ K.durable }
    requires past { (left : _) → D.past device left → K.past left }
    ensures written { OnOk result.1 (D.world result.0 ≡ option_map (with_file (string_bytes path.now) (Ok (T.bytes text.now))) (D.world device)) }
    ensures frame { Frame (D.world device) (D.world result.0) (string_bytes path.now) }
    ensures open { IsOpen (D.world result.0) (D.output result.0) (Some (string_bytes path.now)) }
    ensures left { Frame K.durable (D.durable result.0) (string_bytes path.now) }
    ensures crash { Since K.past (D.past result.0) (IsBeside K.durable (string_bytes path.now)) }
{
    let _ = path;
    let mut file = NewFile::<D, K> {
        device,
        of: PhantomData,
    };
    let answer = put_whole(text, &mut file);
    let NewFile { device, of: _ } = file;
    (device, answer)
}

// Writes a text, flushes, and returns the number of its bytes.
fn put_whole<T: Text, W: Write>(text: &T, out: &mut W) -> Result<u64, WriteFault>
    ensures { Delivers (W.contents out.old) (W.contents out.new) (T.bytes text.now) result }
{
    let mut output = Output::to(out);
    text.put(&mut output);
    output.deliver()
}

// A pipe or a device that is written; the world stays as it was before.
struct InPlace<D: Device, K: Before> {
    device: D,
    of: PhantomData<K>,
    ghost open: { D.output device ≡ None } by { Prim.hlevel props },
    ghost clean: { D.is_dirty device ≡ false } by { Prim.hlevel props },
    ghost stays: { D.world device ≡ K.before } by { Prim.hlevel props },
}

impl<D: Device, K: Before> Write for InPlace<D, K> {
    ghost contents = { λ file. None };

    fn write(&mut self, bytes: &[u8]) -> io::Result<usize> {
        let device = &mut self.device;
        device.append(bytes)
    }

    fn flush(&mut self) -> io::Result<()> {
        Ok(())
    }
}

// Writes a text to a pipe or a device that is open.
pub(crate) fn write_in_place<D: Device, T: Text, K: Before>(
    device: D,
    text: &T,
) -> (D, Result<u64, WriteFault>)
    requires open { D.output device ≡ None }
    requires before { D.world device ≡ K.before }
    requires clean { D.is_dirty device ≡ false }
    ensures stays { D.world result.0 ≡ K.before }
    ensures clean { D.is_dirty result.0 ≡ false }
{
    let mut file = InPlace::<D, K> {
        device,
        of: PhantomData,
    };
    let answer = put_whole(text, &mut file);
    let InPlace { device, of: _ } = file;
    (device, answer)
}
