// Sources in memory.
ghost use Rattle.std.specs.Prelude.{◌≡◌, ◌≤◌, ◌<◌, ◌-◌, ◌^◌, ◌↔◌, [], ℕ, length, vec_len, drop, take, min, Some, IsErr, IfOk, OnErr, is_err, if◌then◌else◌};
ghost use Rattle.std.specs.Io.{ReadsAtMost};
ghost use Rattle.std.specs.Io.KnownBytes.{ReadConsumes};
ghost use Rattle.aql_outside.specs.Causes.{HasCause};

use crate::copying::copy_front;
use crate::counter::Counter;
use crate::{Failed, Source};

/// A source of bytes in memory, of which some calls fail.
#[derive(Drop)]
pub struct MemSource {
    content: Vec<u8>,
    given: usize,
    calls: Counter,
    ghost within: { given ≤ vec_len content },
}

impl MemSource {
    ghost use Rattle.aql_outside.specs.Calls.{no_calls};
    ghost use Rattle.aql_outside.specs.Memory.{source_left, source_calls};

    /// The calls whose numbers, from 1, are in the list fail. Takes no memory.
    pub fn new(content: Vec<u8>, fails: Vec<u64>) -> Self
        ensures left { source_left result ≡ content.items }
        ensures calls { source_calls result ≡ no_calls fails.items [] }
    {
        let pieces = Vec::new(*fails.allocator());
        MemSource::cut(content, pieces, fails)
    }

    /// Each call in turn gives at most its number in `pieces`, 0 counting as 1, and the calls past
    /// the end of that list as much as fits. Takes no memory.
    pub fn cut(content: Vec<u8>, pieces: Vec<u64>, fails: Vec<u64>) -> Self
        ensures left { source_left result ≡ content.items }
        ensures calls { source_calls result ≡ no_calls fails.items pieces.items }
    {
        MemSource {
            content,
            given: 0,
            calls: Counter::new(fails, pieces),
        }
    }

    /// How many calls have failed.
    pub fn faults(&self) -> u64
        ensures { result ≡ (source_calls self.now).failed }
    {
        self.calls.failures()
    }
}

impl Source for MemSource {
    ghost use Rattle.std.specs.Prelude.{◌≡◌, ◌↔◌, length, Some, IsErr, IfOk, OnErr, is_err, drop};
    ghost use Rattle.std.specs.Io.{ReadsAtMost};
    ghost use Rattle.std.specs.Io.KnownBytes.{ReadConsumes};
    ghost use Rattle.aql_outside.specs.Calls.{after_call, NextFails};
    ghost use Rattle.aql_outside.specs.Memory.{source_left, source_calls, read_count, CountsFaults};

    ghost left = { λ s. Some (source_left s) };

    ghost faults = { λ s. (source_calls s).failed };

    ghost quiet = { Unit {0} };

    ghost counted = { λ s. s.calls.counted };

    fn read(&mut self, into: &mut [u8]) -> Result<usize, Failed>
        ensures bound { ReadsAtMost result into.new }
        ensures bytes { ReadConsumes (Some (source_left self.old)) (Some (source_left self.new))
            result into.new }
        ensures cause { CountsFaults (source_calls self.old) (source_calls self.new) result }
        ensures calls { source_calls self.new ≡ after_call (source_calls self.old) (is_err result) }
        ensures fails { IsErr result ↔ NextFails (source_calls self.old) }
        ensures count { IfOk result (λ n. n ≡ read_count self.old (length into.old)) }
        ensures rest { IfOk result (λ n. drop n into.new ≡ drop n into.old) }
        ensures refused { OnErr result (into.new ≡ into.old) }
    {
        let fails = self.calls.next_fails();
        let most = self.calls.next_piece(into.len());
        self.calls.count(fails);
        if fails {
            return Err(Failed);
        }
        let count = copy_front(&self.content[self.given..], into, most);
        self.given += count;
        Ok(count)
    }
}

/// A source of bytes in memory that never fails.
#[derive(Drop)]
pub struct SureSource {
    content: Vec<u8>,
    given: usize,
    ghost within: { given ≤ vec_len content },
}

impl SureSource {
    ghost use Rattle.aql_outside.specs.Memory.{sure_source_left};

    /// Takes no memory.
    pub fn new(content: Vec<u8>) -> Self
        ensures { sure_source_left result ≡ content.items }
    {
        SureSource { content, given: 0 }
    }
}

impl Source for SureSource {
    ghost use Rattle.std.specs.Prelude.{◌≡◌, ◌-◌, ◌^◌, length, min, Some, IsOk, IfOk, drop};
    ghost use Rattle.std.specs.Io.{ReadsAtMost};
    ghost use Rattle.std.specs.Io.KnownBytes.{ReadConsumes};
    ghost use Rattle.std.proofs.Common.{arith};
    ghost use Rattle.aql_outside.specs.Causes.{HasCause};
    ghost use Rattle.aql_outside.specs.Memory.{sure_source_left};

    ghost left = { λ s. Some (sure_source_left s) };

    ghost faults = { λ _. 0 };

    ghost quiet = { Unit {0} };

    ghost counted = { λ _. Prim.omega arith };

    fn read(&mut self, into: &mut [u8]) -> Result<usize, Failed>
        ensures bound { ReadsAtMost result into.new }
        ensures bytes { ReadConsumes (Some (sure_source_left self.old))
            (Some (sure_source_left self.new)) result into.new }
        ensures cause { HasCause (Unit {0}) 0 0 result }
        ensures sure { IsOk result }
        ensures count { IfOk result
            (λ n. n ≡ min (length into.old) (length (sure_source_left self.old))) }
        ensures rest { IfOk result (λ n. drop n into.new ≡ drop n into.old) }
    {
        let count = copy_front(&self.content[self.given..], into, usize::MAX);
        self.given += count;
        Ok(count)
    }
}
