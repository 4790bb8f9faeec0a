// What is asked of the files beneath: four calls, each with what it means where the bytes are told.
ghost use Rattle.std.specs.Prelude.{◌≡◌, List, ℕ, Option, OnOk, IfOk, IfErr};
ghost use Rattle.std.specs.Io.{ReadsAtMost};
ghost use Rattle.std.specs.Io.KnownBytes.{ReadConsumes};
ghost use Rattle.std.specs.IoError.{error_kind};
ghost use Rattle.aql_outside.specs.Contents.{Content};
ghost use Rattle.aql_system.specs.Filling.{StandsAt};
ghost use Rattle.aql_system.specs.Looking.{SaysOf, LacksWhere, told_under};

use std::fs::Metadata;
use std::io;

/// A file that is open for reading.
pub trait DiskFile {
    /// All its bytes, where they are told.
    ghost bytes: { Self → Option (List ℕ) };

    /// Those that the next reads give, where they are told.
    ghost left: { Self → Option (List ℕ) };

    /// Has the next read begin at an offset in bytes, which may lie past the end.
    fn start_at(&mut self, at: u64) -> io::Result<()>
        ensures there { OnOk result (StandsAt (bytes self.old) at (left self.new)) }
        ensures kept { bytes self.new ≡ bytes self.old };

    /// Gives the next bytes, at most as many as the piece has. `Ok(0)` for a piece that isn't empty
    /// is the end.
    fn read(&mut self, into: &mut [u8]) -> io::Result<usize>
        ensures bound { ReadsAtMost result into.new }
        ensures given { ReadConsumes (left self.old) (left self.new) result into.new }
        ensures kept { bytes self.new ≡ bytes self.old };
}

/// Files by name, which no call changes.
pub trait Disk {
    type File: DiskFile + Drop;

    /// The bytes of the files by name, where they are told.
    ghost holds: { Self → Option Content };

    /// What has the name: its kind and its length.
    fn look(&self, name: &str) -> io::Result<Metadata>
        ensures found { IfOk result (SaysOf (holds self.now) name.now) }
        ensures lacks { IfErr result (λ e.
            LacksWhere (holds self.now) name.now (error_kind e)) };

    /// Opens the file of a name for reading from its first byte on.
    fn open(&self, name: &str) -> io::Result<Self::File>
        ensures bytes { IfOk result (λ f.
            Self.File.bytes f ≡ told_under (holds self.now) name.now) }
        ensures begins { IfOk result (λ f. StandsAt (Self.File.bytes f) 0 (Self.File.left f)) };
}
