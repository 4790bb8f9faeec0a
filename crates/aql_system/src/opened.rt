// A file that is open, with its name.
ghost use Rattle.std.specs.Prelude.{◌≡◌, ◌≤◌, OnOk, IfOk, IsTrue, length, take};
ghost use Rattle.aql_system.specs.Filling.{GivesFrom, StandsAt, StandsWhere};
ghost use Rattle.aql_system.specs.Looking.{told_under};

use crate::disk::{Disk, DiskFile};
use crate::file_system::read_full;
use std::io;

/// The most bytes of a name that is kept. A file with a longer one is opened for each read.
const LONGEST: usize = 255;

/// An open file, the first bytes of its name, as many as the name has where it is kept whole, and the
/// offset at which its next read begins, where that is known. A file of which a call failed is not
/// used any more.
#[derive(Drop)]
pub(crate) struct OpenedFile<F> {
    name: [u8; LONGEST],
    len: usize,
    file: F,
    at: Option<u64>,
}

/// Opens the file of a name.
pub(crate) fn open_file<D: Disk>(disk: &D, name: &str) -> io::Result<OpenedFile<D::File>>
    ensures bytes { IfOk result (λ o.
        D.File.bytes o.file ≡ told_under (D.holds disk.now) name.now) }
    ensures name { IfOk result (λ o. o.len ≤ 255 → take o.len o.name ≡ name.now) }
    ensures stands { IfOk result (λ o.
        StandsWhere (D.File.bytes o.file) o.at (D.File.left o.file)) }
{
    let file = disk.open(name)?;
    let (kept, len) = kept_name(name);
    Ok(OpenedFile {
        name: kept,
        len,
        file,
        at: Some(0),
    })
}

impl<F: DiskFile> OpenedFile<F> {
    /// Whether this is the file of the name.
    pub fn has(&self, name: &str) -> bool
        ensures kept { IsTrue result → self.now.len ≤ 255 }
        ensures same { IsTrue result → take self.now.len self.now.name ≡ name.now }
    {
        self.len <= LONGEST && &self.name[..self.len] == name.as_bytes()
    }

    /// Reads from an offset on, until the piece is full or a read gives nothing.
    pub(crate) fn read_from(&mut self, at: u64, into: &mut [u8]) -> io::Result<usize>
        requires { StandsWhere (F.bytes self.old.file) self.old.at (F.left self.old.file) }
        ensures bound { IfOk result (λ count. count ≤ length into.new) }
        ensures given { GivesFrom (F.bytes self.old.file) at result into.new }
        ensures stands { OnOk result
            (StandsWhere (F.bytes self.new.file) self.new.at (F.left self.new.file)) }
        ensures bytes { F.bytes self.new.file ≡ F.bytes self.old.file }
        ensures name { self.new.name ≡ self.old.name }
        ensures len { self.new.len ≡ self.old.len }
    {
        self.go_to(at)?;
        let count = read_full(&mut self.file, into)?;
        self.at = at.checked_add(count as u64);
        Ok(count)
    }

    // Has the next read begin at an offset. Where the piece before ended there it does already.
    fn go_to(&mut self, at: u64) -> io::Result<()>
        requires { StandsWhere (F.bytes self.old.file) self.old.at (F.left self.old.file) }
        ensures there { OnOk result (StandsAt (F.bytes self.new.file) at (F.left self.new.file)) }
        ensures bytes { F.bytes self.new.file ≡ F.bytes self.old.file }
        ensures name { self.new.name ≡ self.old.name }
        ensures len { self.new.len ≡ self.old.len }
    {
        if self.at == Some(at) {
            return Ok(());
        }
        self.file.start_at(at)
    }
}

// The bytes of a name and how many, where they are few enough, and else a count that no name has.
fn kept_name(name: &str) -> ([u8; LONGEST], usize)
    ensures { result.1 ≤ 255 → take result.1 result.0 ≡ name.now }
{
    let mut kept = [0u8; LONGEST];
    let len = name.len();
    if len > LONGEST {
        return (kept, LONGEST + 1);
    }
    kept[..len].copy_from_slice(name.as_bytes());
    (kept, len)
}
