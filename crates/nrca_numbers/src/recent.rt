//! The numbers that a block added last.

ghost use Rattle.std.specs.Prelude.{◌≡◌, ℕ, ◌%◌, ◌⊎◌, ◌↔◌, IsTrue};
ghost use Rattle.nrca_numbers.specs.Recent.{IsRecent};

/// Numbers, each in the slot that its remainder by 128 tells. What stands in another slot than its
/// own is none of them: so an empty slot holds 0, and where it is the slot of 0, it holds 1.
#[derive(Drop)]
pub(crate) struct Recent {
    slots: [u64; 128],
}

impl Recent {
    /// No numbers.
    pub(crate) fn new() -> Recent
        ensures { (n : ℕ) → ¬ IsRecent result.slots n }
    {
        let mut slots = [0u64; 128];
        slots[0] = 1;
        Recent { slots }
    }

    /// Whether a number is among them.
    pub(crate) fn holds(&self, n: u64) -> bool
        ensures { IsTrue result ↔ IsRecent self.now.slots n }
    {
        self.slots[slot(n)] == n
    }

    /// One number more, in place of what stood in its slot.
    pub(crate) fn put(&mut self, n: u64)
        ensures there { IsRecent self.new.slots n }
        ensures others { (m : ℕ) → IsRecent self.new.slots m → (n ≡ m) ⊎ IsRecent self.old.slots m }
    {
        self.slots[slot(n)] = n;
    }
}

fn slot(n: u64) -> usize
    ensures { result ≡ n % 128 }
{
    (n % 128) as usize
}
