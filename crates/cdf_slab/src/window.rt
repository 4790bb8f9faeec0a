//! A piece of a file, in memory that is used again.

ghost use Rattle.std.specs.Prelude.{◌≡◌, ◌+◌, ◌-◌, ◌^◌, ◌≤◌, ◌<◌, length, OnOk, IsTrue};

use cdf_header::CdfFault;
use std::alloc::Global;

/// The bytes of a file from an offset on that were read last, so many at the front of the memory,
/// and whether fewer came than were asked.
#[derive(Drop)]
pub(crate) struct Window {
    pub at: u64,
    pub count: usize,
    pub memory: Vec<u8>,
    pub short: bool,
    ghost filled: { count ≤ length memory.items },
}

impl Window {
    ghost use Rattle.std.specs.Prelude.{List, ℕ, drop};
    ghost use Rattle.cdf_slab.specs.Run.{HoldsRun};
    ghost use Rattle.cdf_slab.specs.Window.{window_bytes, IsPiece, HasBytes};

    /// No bytes.
    pub fn new(alloc: Global) -> Window
        ensures { (bytes : List ℕ) → IsPiece bytes result }
    {
        Window {
            at: 0,
            count: 0,
            memory: Vec::new(alloc),
            short: false,
        }
    }

    /// Whether a number of so many bytes at an offset stands in the piece.
    pub fn has(&self, place: u64, size: u64) -> bool
        ensures yes { IsTrue result → HasBytes self.now place size }
        ensures no { HasBytes self.now place size → IsTrue result }
    {
        if place < self.at {
            return false;
        }
        match (place - self.at).checked_add(size) {
            None => false,
            Some(to) => to <= self.count as u64,
        }
    }

    /// The bytes of the piece from an offset on.
    pub(crate) fn bytes_from(&self, place: u64) -> &[u8]
        requires behind { self.now.at ≤ place }
        requires within { place ≤ self.now.at + self.now.count }
        ensures { result.now ≡ drop (place - self.now.at) (window_bytes self.now) }
    {
        &self.memory[(place - self.at) as usize..self.count]
    }

    /// How many numbers of so many bytes, a step apart from an offset on, stand in the piece, at
    /// most so many.
    pub fn many(&self, place: u64, size: u64, step: u64, most: u64) -> u64
        requires size { 1 ≤ size }
        requires holds { HasBytes self.now place size }
        requires some { 1 ≤ most }
        ensures some { 1 ≤ result }
        ensures most { result ≤ most }
        ensures near { 2 ≤ result → step < 2 ^ 64 - 1 }
        ensures run { HoldsRun self.now place size step result }
    {
        let room = self.count as u64 - (place - self.at) - size;
        most.min(room / step.max(1) + 1)
    }

    /// Makes the memory long enough for so many bytes.
    pub fn make_room(&mut self, room: usize) -> Result<(), CdfFault>
        ensures { OnOk result (room ≤ length self.new.memory.items) }
    {
        if self.memory.len() < room {
            self.memory.resize(room, 0)?;
        }
        Ok(())
    }
}
