// The system as a disk: each of the four calls is one call of the library. What it tells of the
// bytes is nothing, so that no clause speaks of what these bodies ask of the system.
ghost use Rattle.std.specs.Prelude.{None};

use crate::disk::{Disk, DiskFile};
use std::fs::{self, Metadata};
use std::io::{self, Read, Seek, SeekFrom};
use std::rt;

/// The file system: relative names stand in the folder that the program runs in.
#[derive(Drop)]
pub struct SystemDisk<'a, R> {
    rt: &'a R,
}

impl<'a, R> SystemDisk<'a, R> {
    /// The files that this runtime reaches.
    pub fn new(rt: &'a R) -> Self {
        SystemDisk { rt }
    }
}

/// An open file of the library.
#[derive(Drop)]
pub struct SystemFile<F> {
    inner: F,
}

impl<F: Read + Seek> DiskFile for SystemFile<F> {
    ghost bytes = { λ _. None };

    ghost left = { λ _. None };

    fn start_at(&mut self, at: u64) -> io::Result<()> {
        self.inner.seek(SeekFrom::Start(at))?;
        Ok(())
    }

    fn read(&mut self, into: &mut [u8]) -> io::Result<usize> {
        self.inner.read(into)
    }
}

impl<R: rt::Files> Disk for SystemDisk<'_, R> {
    type File = SystemFile<R::File>;

    ghost holds = { λ _. None };

    fn look(&self, name: &str) -> io::Result<Metadata> {
        fs::metadata(self.rt, name)
    }

    fn open(&self, name: &str) -> io::Result<SystemFile<R::File>> {
        Ok(SystemFile {
            inner: fs::open(self.rt, name)?,
        })
    }
}
