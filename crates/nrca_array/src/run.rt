//! Numbers that stand in bytes a step apart.

ghost use Rattle.std.specs.Prelude.{◌≡◌, ◌<◌, ◌≤◌, slice_index, Some, MatchOption};
ghost use Rattle.nrca_array.specs.declared.run.RunError.TheVariants as errors;
ghost use Rattle.nrca_array.specs.Packing.{greatest};
ghost use Rattle.nrca_array.specs.Runs.{IsWidth, IsWhole, run_numbers, AreBelow, IsFirstFrom};

use crate::bytes::first_big;
use aql_value::Memory;

/// So many numbers, each in so many bytes, the highest first; the first stands at the start of the
/// bytes, and each other a step behind the one before it.
#[derive(Clone, Copy)]
pub struct Run<'a> {
    pub bytes: &'a [u8],
    pub size: usize,
    pub step: usize,
    pub count: usize,
}

/// Why the numbers of a run are not appended.
#[derive(Clone, Copy, Debug, Drop, PartialEq, Eq)]
pub enum RunError {
    /// The number at this place is the first that reaches the limit.
    Reached { at: usize },
    Memory,
}

impl From<Memory> for RunError {
    ghost from_gives = { λ _ e. e ≡ errors.Memory };

    fn from(_: Memory) -> RunError {
        RunError::Memory
    }
}

impl Run<'_> {
    /// A number by its place.
    pub fn get(self, at: usize) -> u64
        requires size { IsWidth self.size }
        requires whole { IsWhole self }
        requires within { at < self.count }
        ensures { result ≡ slice_index (run_numbers self.entry) at }
    {
        first_big(self.size, &self.bytes[at * self.step..])
    }

    /// The place of the first number that reaches the limit, where there is one. None of the
    /// numbers passes `most`.
    pub(crate) fn first_from(self, limit: Option<u64>, most: u64) -> Option<usize>
        requires size { IsWidth self.size }
        requires whole { IsWhole self }
        requires most { greatest (run_numbers self) ≤ most }
        ensures { MatchOption result (AreBelow limit (run_numbers self.entry))
            (IsFirstFrom limit (run_numbers self.entry)) }
    {
        match limit {
            Some(least) => {
                if most < least {
                    None
                } else {
                    self.first_at_least(least)
                }
            }
            None => None,
        }
    }

    /// The same where nothing is known of the numbers.
    pub(crate) fn first_reached(self, limit: Option<u64>) -> Option<usize>
        requires size { IsWidth self.size }
        requires whole { IsWhole self }
        ensures { MatchOption result (AreBelow limit (run_numbers self.entry))
            (IsFirstFrom limit (run_numbers self.entry)) }
    {
        match limit {
            Some(least) => self.first_at_least(least),
            None => None,
        }
    }

    // The place of the first number that is not below another, where there is one.
    fn first_at_least(self, least: u64) -> Option<usize>
        requires size { IsWidth self.size }
        requires whole { IsWhole self }
        ensures { MatchOption result (AreBelow (Some least) (run_numbers self.entry))
            (IsFirstFrom (Some least) (run_numbers self.entry)) }
    {
        for k in 0..self.count {
            if self.get(k) >= least {
                return Some(k);
            }
        }
        None
    }
}
