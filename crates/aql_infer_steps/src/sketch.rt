//! Types under way: what an earlier position has stands in them as a reference.

ghost use Rattle.std.specs.Prelude.{◌≡◌, IfOk};
ghost use Rattle.aql_ty.specs.Types as types;
ghost use Rattle.aql_infer_steps.specs.View.{sketch_type, sketch_types};

use crate::positions::Positions;
use aql_ty::ty::Ty;
use aql_value::Memory;
use std::alloc::Global;

/// A part of what a position has: the type of a value, or that of a macro's argument or result.
#[derive(Clone, Copy, PartialEq, Eq, Hash, Drop)]
pub enum Part {
    Value,
    Argument,
    Result,
}

/// That part of what the position of that number has, counted from 0, with each variable's number raised by `first`.
#[derive(Clone, Copy, PartialEq, Eq, Hash, Drop)]
pub struct Instance {
    pub position: usize,
    pub part: Part,
    pub first: u64,
}

/// A type in whose place an instance of what a position has can stand. A copy of an instance or of a variable costs nothing.
#[derive(Drop)]
#[cycle(sketch)]
pub enum Sketch {
    Plain(Ty),
    Tuple(Sketches),
    SetOf(Box<Sketch>),
    ArrayOf { rank: u64, cell: Box<Sketch> },
    Instance(Instance),
}

/// A list of types under way.
#[derive(Drop)]
#[cycle(sketch)]
pub struct Sketches {
    pub items: Vec<Sketch>,
}

/// What a declaration has, under way.
#[derive(Drop)]
pub enum Draft {
    Value(Sketch),
    Macro { argument: Sketch, result: Sketch },
}

impl Sketch {
    /// An equal type.
    #[cycle(copy)]
    #[tactic(auto, using(crate::proofs::Sketching::sketch_row_is))]
    pub fn copy(&self, alloc: Global, positions: &Positions) -> Result<Sketch, Memory>
        ensures { IfOk result
            (λ made. sketch_type positions.now made ≡ sketch_type positions.now self.now) }
    {
        match self {
            Sketch::Plain(t) => {
                let t = t.copy(alloc)?;
                Ok(Sketch::Plain(t))
            }
            Sketch::Tuple(ts) => {
                let items = copy_all(alloc, &ts.items, positions)?;
                Ok(tuple_of(items, positions))
            }
            Sketch::SetOf(t) => {
                let t = t.copy(alloc, positions)?;
                Ok(Sketch::SetOf(Box::new(alloc, t)?))
            }
            Sketch::ArrayOf { rank, cell } => {
                let cell = cell.copy(alloc, positions)?;
                Ok(Sketch::ArrayOf {
                    rank: *rank,
                    cell: Box::new(alloc, cell)?,
                })
            }
            Sketch::Instance(i) => Ok(Sketch::Instance(*i)),
        }
    }
}

#[cycle(copy)]
#[tactic(auto, using(crate::proofs::Sketching::sketch_steps))]
fn copy_all(alloc: Global, ts: &[Sketch], positions: &Positions) -> Result<Vec<Sketch>, Memory>
    ensures { IfOk result
        (λ made. sketch_types positions.now made.items ≡ sketch_types positions.now ts.now) }
{
    let mut made = Vec::new(alloc);
    for t in ts {
        let copied = t.copy(alloc, positions)?;
        made.push(copied)?;
    }
    Ok(made)
}

/// The tuple type of these parts.
#[tactic(auto, using(crate::proofs::Sketching::sketch_row_is))]
pub fn tuple_of(items: Vec<Sketch>, positions: &Positions) -> Sketch
    ensures { sketch_type positions.now result
        ≡ types.product (sketch_types positions.now items.items) }
{
    Sketch::Tuple(Sketches { items })
}
