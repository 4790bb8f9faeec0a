ghost use Rattle.std.specs.Prelude.{◌≡◌, ◌<◌, ◌^◌, IfOk};
ghost use Rattle.aql_value.specs.Lists.{Every};

use aql_value::Memory;
use std::alloc::Global;
use std::marker::Model;

/// A way down a term: at each node the number of a part, counted from 0 in the order written. The parts of a term that is
/// rewritten are fewer than 2^32; a plan can have thousands of rewritings at thousands of levels, and keeps a path for each.
#[derive(Drop)]
pub struct Path(pub Vec<u32>);

impl Model for Path {
    ghost use Rattle.std.specs.Prelude.{List, ℕ};

    ghost Value = { List ℕ };

    ghost view = { λ p. p.0.items };
}

impl Path {
    /// The way with these numbers, in no more memory than they take.
    pub fn from_numbers(alloc: Global, numbers: &[u64]) -> Result<Path, Memory>
        requires small { Every (λ i. i < 2 ^ 32) numbers.now }
        ensures { IfOk result (λ p. p ≡ numbers.now) }
    {
        let mut path = Vec::with_capacity(alloc, numbers.len())?;
        for i in numbers {
            path.push(*i as u32)?;
        }
        Ok(Path(path))
    }
}

/// The rules of the rewriting.
#[derive(Clone, Copy, Debug, PartialEq, Eq)]
pub enum Rule {
    B1,
    K1,
    I1,
    I2,
    L1,
    L2,
    L3,
    P1,
    P2,
    S1,
    S2,
    S3,
    S4,
    S5,
    S6,
    S7,
    S8,
    S9,
    A1,
    A2,
    A3,
    A4,
    A5,
    A6,
    A7,
    C1,
    C2,
    C3,
    C4,
    N1,
    N2,
}

/// One rewriting: the rule and the place where it was applied.
#[derive(Drop)]
pub struct Step {
    pub rule: Rule,
    pub path: Path,
}

/// The rewritings that led to a term, the first one first.
#[derive(Drop)]
pub struct Trace(pub Vec<Step>);

impl Model for Trace {
    ghost use Rattle.std.specs.Prelude.{List};
    ghost use Rattle.nrca_term.specs.declared.trace.Step.{Step};

    ghost Value = { List Step };

    ghost view = { λ t. t.0.items };
}
