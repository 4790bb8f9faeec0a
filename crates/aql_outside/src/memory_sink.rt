// Sinks in memory.
ghost use Rattle.std.specs.Prelude.{◌≡◌, ◌≤◌, [], vec_len};

use crate::copying::write_over;
use crate::counter::Counter;
use crate::{Failed, Sink};

/// A sink that writes over a list of bytes from the front. Some calls fail, and so does a write of
/// a piece that isn't empty once the list is used up.
#[derive(Drop)]
pub struct MemSink {
    room: Vec<u8>,
    taken: usize,
    calls: Counter,
    ghost within: { taken ≤ vec_len room },
}

impl MemSink {
    ghost use Rattle.aql_outside.specs.Calls.{no_calls};
    ghost use Rattle.aql_outside.specs.Memory.{sink_bytes, sink_room, sink_calls};

    /// The calls whose numbers, from 1, are in the list fail. Takes no memory.
    pub fn new(room: Vec<u8>, fails: Vec<u64>) -> Self
        ensures bytes { sink_bytes result ≡ [] }
        ensures room { sink_room result ≡ vec_len room }
        ensures calls { sink_calls result ≡ no_calls fails.items [] }
    {
        let pieces = Vec::new(*fails.allocator());
        MemSink::cut(room, pieces, fails)
    }

    /// Each call in turn takes at most its number in `pieces`, 0 counting as 1, and the calls past
    /// the end of that list as much as fits. Takes no memory.
    pub fn cut(room: Vec<u8>, pieces: Vec<u64>, fails: Vec<u64>) -> Self
        ensures bytes { sink_bytes result ≡ [] }
        ensures room { sink_room result ≡ vec_len room }
        ensures calls { sink_calls result ≡ no_calls fails.items pieces.items }
    {
        MemSink {
            room,
            taken: 0,
            calls: Counter::new(fails, pieces),
        }
    }

    /// The bytes that were taken.
    pub fn written_bytes(&self) -> &[u8]
        ensures { result.now ≡ sink_bytes self.now }
    {
        &self.room[..self.taken]
    }

    /// How many calls have failed.
    pub fn faults(&self) -> u64
        ensures { result ≡ (sink_calls self.now).failed }
    {
        self.calls.failures()
    }
}

impl Sink for MemSink {
    ghost use Rattle.std.specs.Prelude.{◌≡◌, ◌-◌, ◌↔◌, length, Some, IsErr, IfOk, OnErr, is_err};
    ghost use Rattle.std.specs.Io.{WritesAtMost};
    ghost use Rattle.std.specs.Io.KnownBytes.{WriteAppends};
    ghost use Rattle.aql_outside.specs.Causes.{TakesSome};
    ghost use Rattle.aql_outside.specs.Calls.{after_call};
    ghost use Rattle.aql_outside.specs.Memory.{sink_bytes, sink_room, sink_calls, write_count, WriteFails, CountsFaults};

    ghost holds = { λ s. Some (sink_bytes s) };

    ghost faults = { λ s. (sink_calls s).failed };

    ghost quiet = { Unit {0} };

    ghost counted = { λ s. s.calls.counted };

    fn write(&mut self, from: &[u8]) -> Result<usize, Failed>
        ensures bound { WritesAtMost result from.now }
        ensures progress { TakesSome result from.now }
        ensures bytes { WriteAppends (Some (sink_bytes self.old)) (Some (sink_bytes self.new))
            result from.now }
        ensures cause { CountsFaults (sink_calls self.old) (sink_calls self.new) result }
        ensures calls { sink_calls self.new ≡ after_call (sink_calls self.old) (is_err result) }
        ensures fails { IsErr result ↔ WriteFails self.old from.now }
        ensures count { IfOk result (λ n. n ≡ write_count self.old (length from.now)) }
        ensures room { IfOk result (λ n. sink_room self.new ≡ sink_room self.old - n) }
        ensures refused { OnErr result (sink_room self.new ≡ sink_room self.old) }
    {
        let fails = self.calls.next_fails() || (self.taken == self.room.len() && !from.is_empty());
        let most = self.calls.next_piece(from.len());
        self.calls.count(fails);
        if fails {
            return Err(Failed);
        }
        let count = write_over(&mut self.room, self.taken, from, most);
        self.taken += count;
        Ok(count)
    }
}

/// A sink that takes every piece whole, keeps nothing and tells nothing.
#[derive(Clone, Copy, Debug, Default)]
pub struct SureSink;

impl SureSink {
    /// Takes no memory.
    pub fn new() -> Self {
        SureSink
    }
}

impl Sink for SureSink {
    ghost use Rattle.std.specs.Prelude.{◌≡◌, length, None, IsOk, IfOk};
    ghost use Rattle.std.specs.Io.{WritesAtMost};
    ghost use Rattle.std.specs.Io.KnownBytes.{WriteAppends};
    ghost use Rattle.std.proofs.Common.{arith};
    ghost use Rattle.aql_outside.specs.Causes.{HasCause, TakesSome};

    ghost holds = { λ _. None };

    ghost faults = { λ _. 0 };

    ghost quiet = { Unit {0} };

    ghost counted = { λ _. Prim.omega arith };

    fn write(&mut self, from: &[u8]) -> Result<usize, Failed>
        ensures bound { WritesAtMost result from.now }
        ensures progress { TakesSome result from.now }
        ensures bytes { WriteAppends None None result from.now }
        ensures cause { HasCause (Unit {0}) 0 0 result }
        ensures sure { IsOk result }
        ensures whole { IfOk result (λ n. n ≡ length from.now) }
    {
        Ok(from.len())
    }
}
