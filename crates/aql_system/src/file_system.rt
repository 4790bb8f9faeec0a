// The system's files by name, which count their faults and tell the bytes that the disk tells.
ghost use Rattle.std.specs.Prelude.{◌≡◌, ◌-◌, ◌^◌, ◌≤◌, ◌↔◌, IfOk, IfSome, IsTrue, length, take};
ghost use Rattle.std.proofs.Props.{props};
ghost use Rattle.std.specs.Io.KnownBytes.{Consumes};
ghost use Rattle.aql_outside.specs.Contents.{GivesAt};
ghost use Rattle.aql_system.specs.Filling.{GivesNext, GivesFrom, StandsWhere};
ghost use Rattle.aql_system.specs.Looking.{SaysAbsent, told_under};

use crate::disk::{Disk, DiskFile};
use crate::opened::{OpenedFile, open_file};
use aql_outside::{Failed, Files};
use std::io::{self, ErrorKind};

/// The file system as files by name: relative names stand in the folder that the program runs in.
/// What is no regular file, as a folder, a pipe or a device, has no size: it fails before it is
/// opened. The file that was read last stays open until another is read, a size is asked for or a
/// call fails.
#[derive(Drop)]
pub struct FileSystem<D: Disk> {
    disk: D,
    faults: u64,
    latest: Option<OpenedFile<D::File>>,
    ghost counted: { faults ≤ 2 ^ 64 - 1 },
    ghost of_disk: { IfSome latest (λ o. o.len ≤ 255
        → D.File.bytes o.file
        ≡ told_under (D.holds disk) (take o.len o.name)) } by { Prim.hlevel props },
    ghost stands: { IfSome latest (λ o.
        StandsWhere (D.File.bytes o.file) o.at (D.File.left o.file)) } by { Prim.hlevel props },
}

impl<D: Disk> FileSystem<D> {
    /// The files of this disk, with no fault yet.
    pub fn new(disk: D) -> Self
        ensures disk { result.disk ≡ disk }
        ensures faults { result.faults ≡ 0 }
    {
        FileSystem {
            disk,
            faults: 0,
            latest: None,
        }
    }

    /// How many calls have failed, in a counter that stays at its end.
    pub fn faults(&self) -> u64
        ensures { result ≡ self.now.faults }
    {
        self.faults
    }

    // The open file of a name: the one that was read last, where it is that, and else one that is
    // opened once that is closed.
    fn take_open(&mut self, name: &str) -> io::Result<OpenedFile<D::File>>
        ensures bytes { IfOk result (λ o.
            D.File.bytes o.file ≡ told_under (D.holds self.old.disk) name.now) }
        ensures name { IfOk result (λ o. o.len ≤ 255 → take o.len o.name ≡ name.now) }
        ensures stands { IfOk result (λ o.
            StandsWhere (D.File.bytes o.file) o.at (D.File.left o.file)) }
        ensures faults { self.new.faults ≡ self.old.faults }
        ensures disk { self.new.disk ≡ self.old.disk }
    {
        match self.latest.take() {
            Some(file) if file.has(name) => Ok(file),
            before => {
                drop(before);
                open_file(&self.disk, name)
            }
        }
    }

    // Reads a file from an offset on, and keeps it open where that goes well.
    fn read_open(&mut self, name: &str, at: u64, into: &mut [u8]) -> io::Result<usize>
        ensures bound { IfOk result (λ count. count ≤ length into.new) }
        ensures given { GivesFrom (told_under (D.holds self.old.disk) name.now) at result into.new }
        ensures faults { self.new.faults ≡ self.old.faults }
        ensures disk { self.new.disk ≡ self.old.disk }
    {
        let mut file = self.take_open(name)?;
        let count = file.read_from(at, into)?;
        self.latest = Some(file);
        Ok(count)
    }
}

impl<D: Disk + Drop> Files for FileSystem<D> {
    ghost holds = { λ s. D.holds s.disk };

    ghost faults = { λ s. s.faults };

    ghost quiet = { Unit {0} };

    ghost counted = { λ s. s.counted };

    fn size(&mut self, name: &str) -> Result<Option<u64>, Failed> {
        self.latest = None;
        match self.disk.look(name) {
            Ok(found) if found.is_file() => Ok(Some(found.len())),
            Err(error) if names_no_file(error.kind()) => Ok(None),
            _ => {
                self.faults = self.faults.saturating_add(1);
                Err(Failed)
            }
        }
    }

    fn read_at(&mut self, name: &str, at: u64, into: &mut [u8]) -> Result<usize, Failed> {
        match self.read_open(name, at, into) {
            Ok(count) => Ok(count),
            Err(_) => {
                self.faults = self.faults.saturating_add(1);
                Err(Failed)
            }
        }
    }
}

// Whether the system looked and no file has the name: there is none, or a part of the name that should be
// a folder is none, or no file can have a name so long.
fn names_no_file(kind: ErrorKind) -> bool
    ensures { IsTrue result ↔ SaysAbsent kind }
{
    matches!(
        kind,
        ErrorKind::NotFound | ErrorKind::NotADirectory | ErrorKind::InvalidFilename
    )
}

/// Reads until the piece is full or a read gives nothing, and answers how many bytes were read. An
/// error of the reader is answered at once; what was read before it stands in the piece.
pub fn read_full<R: DiskFile>(reader: &mut R, into: &mut [u8]) -> io::Result<usize>
    ensures bound { IfOk result (λ count. count ≤ length into.new) }
    ensures next { GivesNext (R.left reader.old) result into.new }
    ensures consumed { IfOk result (λ count.
        Consumes (R.left reader.old) (R.left reader.new) (take count into.new)) }
    ensures kept { R.bytes reader.new ≡ R.bytes reader.old }
{
    let mut count = 0;
    'reads: while count < into.len() {
        let given = reader.read(&mut into[count..])?;
        if given == 0 {
            return Ok(count);
        }
        count += given;
    }
    Ok(count)
}
