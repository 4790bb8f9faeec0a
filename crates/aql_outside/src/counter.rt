// Counting the calls on an object in memory.
ghost use Rattle.std.specs.Prelude.{◌≡◌, ◌-◌, ◌^◌, ◌≤◌, ◌<◌, ◌↔◌, IsTrue};

/// The calls on an object: which of them fail, the most bytes of each, and how many were made and
/// failed.
#[derive(Drop)]
pub struct Counter {
    fails: Vec<u64>,
    pieces: Vec<u64>,
    made: u64,
    failed: u64,
    ghost counted: { failed ≤ 2 ^ 64 - 1 },
}

impl Counter {
    ghost use Rattle.aql_outside.specs.Calls.{no_calls, after_call, NextFails, next_piece};
    ghost use Rattle.aql_outside.specs.Memory.{counted_calls};

    /// A counter without calls: the calls of these numbers are to fail, and each gives or takes at
    /// most its piece.
    pub fn new(fails: Vec<u64>, pieces: Vec<u64>) -> Self
        ensures { counted_calls result ≡ no_calls fails.items pieces.items }
    {
        Counter {
            fails,
            pieces,
            made: 0,
            failed: 0,
        }
    }

    /// How many calls failed.
    pub fn failures(&self) -> u64
        ensures { result ≡ (counted_calls self.now).failed }
    {
        self.failed
    }

    /// Whether the next call is one of those that fail.
    pub(crate) fn next_fails(&self) -> bool
        ensures { IsTrue result ↔ NextFails (counted_calls self.now) }
    {
        match self.made.checked_add(1) {
            Some(number) => self.fails.contains(&number),
            None => false,
        }
    }

    /// The most bytes that the next call gives or takes of so many.
    pub(crate) fn next_piece(&self, length: usize) -> usize
        ensures most { result ≡ next_piece (counted_calls self.now) length }
        ensures within { result ≤ length }
        ensures some { 0 < length → 0 < result }
    {
        match self.pieces.get(self.made as usize) {
            Some(most) => ((*most).max(1) as usize).min(length),
            None => length,
        }
    }

    /// Counts a call.
    pub fn count(&mut self, fails: bool)
        ensures { counted_calls self.new ≡ after_call (counted_calls self.old) fails }
    {
        self.made = self.made.saturating_add(1);
        if fails {
            self.failed = self.failed.saturating_add(1);
        }
    }
}
