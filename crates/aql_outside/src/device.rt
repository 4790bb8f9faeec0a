// The traits of the devices that bytes come from and go to.
ghost use Rattle.std.specs.Prelude.{◌≡◌, ◌-◌, ◌^◌, ◌≤◌, List, ℕ, Option};
ghost use Rattle.std.specs.Io.{ReadsAtMost, WritesAtMost};
ghost use Rattle.std.specs.Io.KnownBytes.{ReadConsumes, WriteAppends};
ghost use Rattle.aql_outside.specs.Causes.{HasCause, TakesSome};
ghost use Rattle.aql_outside.specs.Contents.{Content, TellsSize, GivesAt};

/// The device failed, and its count of faults rose in this call.
#[derive(Clone, Copy, Debug, PartialEq, Eq)]
pub struct Failed;

/// Bytes that are read once, from the first on.
pub trait Source {
    /// The bytes not yet given, where the source tells them.
    ghost left: { Self → Option (List ℕ) };

    /// How many calls have failed, in a counter that stays at its end.
    ghost faults: { Self → ℕ };

    /// That a call which ends well leaves the count of faults as it was, where that is promised.
    ghost quiet: { Type 0 } = { ⊥ };

    /// Gives the next bytes, at most as many as the piece has. `Ok(0)` for a piece that isn't empty
    /// is the end. A call that fails gives nothing.
    fn read(&mut self, into: &mut [u8]) -> Result<usize, Failed>
        ensures bound { ReadsAtMost result into.new }
        ensures bytes { ReadConsumes (left self.old) (left self.new) result into.new }
        ensures cause { HasCause quiet (faults self.old) (faults self.new) result };

    /// The count fits 64 bits.
    ghost counted: { (s : Self) → faults s ≤ 2 ^ 64 - 1 };
}

/// Bytes that are taken, one piece behind the other.
pub trait Sink {
    /// The bytes taken, where the sink tells them.
    ghost holds: { Self → Option (List ℕ) };

    /// How many calls have failed, in a counter that stays at its end.
    ghost faults: { Self → ℕ };

    /// That a call which ends well leaves the count of faults as it was, where that is promised.
    ghost quiet: { Type 0 } = { ⊥ };

    /// Takes the first bytes of a piece, at least one where it isn't empty. A call that fails takes
    /// nothing.
    fn write(&mut self, from: &[u8]) -> Result<usize, Failed>
        ensures bound { WritesAtMost result from.now }
        ensures progress { TakesSome result from.now }
        ensures bytes { WriteAppends (holds self.old) (holds self.new) result from.now }
        ensures cause { HasCause quiet (faults self.old) (faults self.new) result };

    /// The count fits 64 bits.
    ghost counted: { (s : Self) → faults s ≤ 2 ^ 64 - 1 };
}

/// Files by name, which no call changes.
pub trait Files {
    /// The bytes under each name, where the files tell them.
    ghost holds: { Self → Option Content };

    /// How many calls have failed, in a counter that stays at its end.
    ghost faults: { Self → ℕ };

    /// That a call which ends well leaves the count of faults as it was, where that is promised.
    ghost quiet: { Type 0 } = { ⊥ };

    /// The length of a file in bytes, `None` where there is no file of the name.
    fn size(&mut self, name: &str) -> Result<Option<u64>, Failed>
        ensures told { TellsSize (holds self.old) name.now result }
        ensures kept { holds self.new ≡ holds self.old }
        ensures cause { HasCause quiet (faults self.old) (faults self.new) result };

    /// Gives the bytes of a file from the offset `at` on, at most as many as the piece has, none
    /// past the end or where there is no file of the name.
    fn read_at(&mut self, name: &str, at: u64, into: &mut [u8]) -> Result<usize, Failed>
        ensures bound { ReadsAtMost result into.new }
        ensures told { GivesAt (holds self.old) name.now at result into.new }
        ensures kept { holds self.new ≡ holds self.old }
        ensures cause { HasCause quiet (faults self.old) (faults self.new) result };

    /// The count fits 64 bits.
    ghost counted: { (s : Self) → faults s ≤ 2 ^ 64 - 1 };
}
