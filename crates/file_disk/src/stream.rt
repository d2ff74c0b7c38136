//! A file of a real system that is written as a stream.

use crate::descriptor::Descriptor;
use crate::resolving::{Resolved, resolve};
use std::alloc::AllocError;
use std::fs::File;
use std::io;
use std::io::Write;
use std::rt::Files;

/// A file that its first write or flush opens: a descriptor of the program, such as `/dev/stdout`, is written from its
/// position, and anything else is created or truncated.
#[derive(Drop)]
pub struct SystemStream<'a, R: Files> {
    rt: &'a R,
    path: String,
    descriptor: Option<Descriptor>,
    file: Option<R::File>,
}

impl<'a, R: Files + AllocGlobal> SystemStream<'a, R> {
    /// The stream at a path. All memory that it needs is allocated here.
    pub(crate) fn new(rt: &'a R, path: &str) -> Result<SystemStream<'a, R>, AllocError> {
        let descriptor = match resolve(rt, path)? {
            Resolved::Descriptor(number) => Some(Descriptor::new(rt, number)?),
            _ => None,
        };
        Ok(SystemStream {
            rt,
            path: String::from_str(rt.alloc(), path)?,
            descriptor,
            file: None,
        })
    }
}

impl<R: Files> SystemStream<'_, R> {
    /// The open file, which is opened if it isn't open yet.
    fn opened(&mut self) -> io::Result<R::File> {
        if let Some(file) = self.file.take() {
            return Ok(file);
        }
        match &mut self.descriptor {
            Some(descriptor) => descriptor.open(self.rt, self.path.as_str()),
            None => File::create(self.rt, self.path.as_str()),
        }
    }
}

impl<R: Files> Write for SystemStream<'_, R> {
    fn write(&mut self, bytes: &[u8]) -> io::Result<usize> {
        let mut file = self.opened()?;
        let answer = file.write(bytes);
        self.file = Some(file);
        answer
    }

    fn flush(&mut self) -> io::Result<()> {
        let mut file = self.opened()?;
        let answer = file.flush();
        self.file = Some(file);
        answer
    }
}
