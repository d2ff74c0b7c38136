//! Files on a device.
ghost use Rattle.std.specs.Prelude.{◌≡◌, IfErr, IfOk, OnErr, OnOk};
ghost use Rattle.std.specs.Option.{option_map};
ghost use Rattle.file_host.specs.World.{IsMade, with_folder_there, with_pair, with_text};
ghost use Rattle.file_host.specs.Saving.{Counts, CountsPair, PairFails, SaveFails};
ghost use Rattle.file_disk.specs.Devices.{world_in};
ghost use Rattle.file_disk.specs.Crashes.{FromKnown, LeavesFolder, LeavesPair, LeavesText, Since, past_in};

use crate::bank::has_bank;
use crate::device::Device;
use crate::pair::save_both;
use crate::reading::read_file;
use crate::saving::save_text;
use base_outputs::WriteFault;
use base_texts::Text;
use file_host::{Host, InputFault, PairFault};
use sf_base::Failure;
use std::alloc::{AllocError, Global};
use std::io::ErrorKind;

/// Files on a device. A text is written to a new file in the folder of its path, which is put in place once it is written,
/// and synced if it replaces a file; a pipe, a device or a descriptor is written in place.
#[derive(Drop)]
pub struct Disk<D> {
    alloc: Global,
    // The device, which is moved out while a text is saved.
    device: Option<D>,
    // How many bytes of its text the last save wrote that failed by a write fault; none if that was making a folder.
    written: u64,
}

impl<D: Device + Drop> Disk<D> {
    /// The files on a device.
    pub fn new(alloc: Global, device: D) -> Disk<D>
        ensures { world_in D.world result.device ≡ D.world device }
    {
        Disk {
            alloc,
            device: Some(device),
            written: 0,
        }
    }

    /// Returns the device.
    pub fn device(&self) -> Option<&D> {
        self.device.as_ref()
    }
}

impl<D: Device + Drop> Host for Disk<D> {
    ghost world = { λ disk. world_in D.world disk.device };

    ghost written = { λ disk. disk.written };

    type Stream = D::Stream;

    fn read(&mut self, alloc: Global, path: &str) -> Result<Vec<u8>, Failure<InputFault>> {
        match &mut self.device {
            Some(device) => read_file(alloc, device, path),
            None => Err(Failure::OutOfMemory),
        }
    }

    // After a crash at any moment, a file that was there holds its old bytes or the whole text.
    fn save<T: Text>(&mut self, path: &str, text: &T) -> Result<(), Failure<WriteFault>>
        ensures saved { OnOk result (world_in D.world self.new.device ≡ option_map (with_text path.now (T.bytes text.now)) (world_in D.world self.old.device)) }
        ensures failed { IfErr result (SaveFails (world_in D.world self.old.device) (world_in D.world self.new.device) path.now (T.bytes text.now)) }
        ensures counted { IfErr result (Counts self.new.written) }
        ensures crash { Since (past_in D.past self.old.device) (past_in D.past self.new.device) (FromKnown (LeavesText path.now (T.bytes text.now)) (world_in D.durable self.old.device)) }
    {
        let Some(device) = self.device.take() else {
            return Err(Failure::OutOfMemory);
        };
        let (device, answer) = save_text(self.alloc, device, path, text);
        self.device = Some(device);
        if let Err(Failure::Fault(fault)) = answer {
            self.written = fault.written;
        }
        answer
    }

    // After a crash at any moment, a file that was there for the text holds its old bytes or the whole text, and then the
    // undo script is whole.
    fn save_pair<U: Text, T: Text>(
        &mut self,
        undo_path: &str,
        undo: &U,
        path: &str,
        text: &T,
    ) -> Result<(), PairFault>
        ensures saved { OnOk result (world_in D.world self.new.device ≡ option_map (with_pair undo_path.now (U.bytes undo.now) path.now (T.bytes text.now)) (world_in D.world self.old.device)) }
        ensures failed { IfErr result (PairFails (world_in D.world self.old.device) (world_in D.world self.new.device) undo_path.now (U.bytes undo.now) path.now (T.bytes text.now)) }
        ensures counted { IfErr result (CountsPair self.new.written) }
        ensures crash { Since (past_in D.past self.old.device) (past_in D.past self.new.device) (FromKnown (LeavesPair undo_path.now (U.bytes undo.now) path.now (T.bytes text.now)) (world_in D.durable self.old.device)) }
    {
        let Some(device) = self.device.take() else {
            return Err(PairFault::OutOfMemory);
        };
        let (used, answer) = save_both(self.alloc, device, undo_path, undo, path, text);
        self.device = Some(used);
        if let Err(PairFault::Write(_, written)) = answer {
            self.written = written;
        }
        answer
    }

    // After a crash at any moment, all is as it was, or the folder is made.
    fn make_folder(&mut self, path: &str) -> Result<bool, Failure<WriteFault>>
        ensures made { OnOk result (world_in D.world self.new.device ≡ option_map (with_folder_there path.now) (world_in D.world self.old.device)) }
        ensures is_new { IfOk result (IsMade (world_in D.world self.old.device) path.now) }
        ensures stays { OnErr result (world_in D.world self.new.device ≡ world_in D.world self.old.device) }
        ensures counted { IfErr result (Counts self.new.written) }
        ensures crash { Since (past_in D.past self.old.device) (past_in D.past self.new.device) (FromKnown (LeavesFolder path.now) (world_in D.durable self.old.device)) }
    {
        let Some(device) = &mut self.device else {
            return Err(Failure::OutOfMemory);
        };
        match device.make_folder(path) {
            Ok(is_made) => Ok(is_made),
            Err(_) => {
                self.written = 0;
                Err(Failure::Fault(WriteFault { written: 0 }))
            }
        }
    }

    fn is_one_file(&mut self, one: &str, other: &str) -> Result<bool, AllocError> {
        match &mut self.device {
            Some(device) => device.is_one_file(one, other),
            None => Err(AllocError),
        }
    }

    fn has_bank(&mut self, path: &str) -> Result<bool, AllocError> {
        match &mut self.device {
            Some(device) => has_bank(device, path),
            None => Err(AllocError),
        }
    }

    fn is_output(&mut self, path: &str) -> Result<bool, AllocError> {
        match &mut self.device {
            Some(device) => device.is_output(path),
            None => Err(AllocError),
        }
    }

    fn open_stream(&mut self, path: &str) -> Result<D::Stream, AllocError> {
        match &mut self.device {
            Some(device) => device.open_stream(path),
            None => Err(AllocError),
        }
    }

    fn last_error(&self) -> Option<ErrorKind> {
        match &self.device {
            Some(device) => device.last_error(),
            None => None,
        }
    }
}
