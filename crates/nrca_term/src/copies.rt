//! Copies of terms.

ghost use Rattle.std.specs.Prelude.{◌≡◌, IfOk, OnOk};
ghost use Rattle.nrca_term.specs.Hollow.{bottoms, hollow};
ghost use Rattle.nrca_term.specs.Nodes.{bottom_term};
ghost use Rattle.nrca_term.specs.View.{term_of, terms_of};

use crate::{Core, Terms};
use aql_value::Memory;
use std::alloc::Global;

impl Core {
    /// An equal term.
    pub fn copy(&self, alloc: Global) -> Result<Core, Memory>
        ensures { IfOk result (λ c. term_of c ≡ term_of self.now) }
    {
        let mut whole = Core::Bottom;
        copy_in(alloc, self, &mut whole)?;
        Ok(whole)
    }
}

/// Drops a term. A call of its own, so that a term is let go in frames of its own.
#[inline(never)]
pub fn discard(_term: Core) {}

// In place, so that a level of the recursion keeps little on the stack.
#[cycle(copy)]
fn copy_in(alloc: Global, from: &Core, to: &mut Core) -> Result<(), Memory>
    ensures { OnOk result (term_of to.new ≡ term_of from.now) }
{
    put_shell(alloc, from, to)?;
    fill_parts(alloc, from, to)
}

// Copies each part into its place.
#[cycle(copy)]
fn fill_parts(alloc: Global, from: &Core, to: &mut Core) -> Result<(), Memory>
    requires { term_of to.old ≡ hollow (term_of from.now) }
    ensures { OnOk result (term_of to.new ≡ term_of from.now) }
{
    let mut part = Core::Bottom;
    for i in 0..from.parts() {
        match from.part(i) {
            Some(source) => match copy_in(alloc, source, &mut part) {
                Ok(()) => to.exchange(i, &mut part),
                Err(error) => {
                    discard(part);
                    return Err(error);
                }
            },
            None => unreachable!(),
        }
    }
    discard(part);
    Ok(())
}

#[inline(never)]
fn put_shell(alloc: Global, from: &Core, to: &mut Core) -> Result<(), Memory>
    ensures { OnOk result (term_of to.new ≡ hollow (term_of from.now)) }
{
    *to = shell(alloc, from)?;
    Ok(())
}

// The node of a term, with Bottom in the place of each part.
#[inline(never)]
#[tactic(auto, using(crate::proofs::Filling::shells))]
fn shell(alloc: Global, from: &Core) -> Result<Core, Memory>
    ensures { IfOk result (λ c. term_of c ≡ hollow (term_of from.now)) }
{
    match from {
        Core::Var(i) => Ok(Core::Var(*i)),
        Core::Global(n) => Ok(Core::Global(*n)),
        Core::Nat(n) => Ok(Core::Nat(*n)),
        Core::Bool(b) => Ok(Core::Bool(*b)),
        Core::Text(s) => Ok(Core::Text(s.copy(alloc)?)),
        Core::Bottom => Ok(Core::Bottom),
        Core::Let(_, _) => Ok(Core::Let(hole(alloc)?, hole(alloc)?)),
        Core::If(_, _, _) => Ok(Core::If(hole(alloc)?, hole(alloc)?, hole(alloc)?)),
        Core::Default(_, _) => Ok(Core::Default(hole(alloc)?, hole(alloc)?)),
        Core::Tuple(ts) => Ok(Core::Tuple(holes(alloc, ts)?)),
        Core::Proj { at, of, part: _ } => Ok(Core::Proj {
            at: *at,
            of: *of,
            part: hole(alloc)?,
        }),
        Core::Arith(op, _, _) => Ok(Core::Arith(*op, hole(alloc)?, hole(alloc)?)),
        Core::Compare(op, _, _) => Ok(Core::Compare(*op, hole(alloc)?, hole(alloc)?)),
        Core::Empty => Ok(Core::Empty),
        Core::Single(_) => Ok(Core::Single(hole(alloc)?)),
        Core::Union(_, _) => Ok(Core::Union(hole(alloc)?, hole(alloc)?)),
        Core::BigUnion { over: _, body: _ } => Ok(Core::BigUnion {
            over: hole(alloc)?,
            body: hole(alloc)?,
        }),
        Core::Sum { over: _, body: _ } => Ok(Core::Sum {
            over: hole(alloc)?,
            body: hole(alloc)?,
        }),
        Core::Gen(_) => Ok(Core::Gen(hole(alloc)?)),
        Core::Get(_) => Ok(Core::Get(hole(alloc)?)),
        Core::Tab { bounds, body: _ } => Ok(Core::Tab {
            bounds: holes(alloc, bounds)?,
            body: hole(alloc)?,
        }),
        Core::Sub { array: _, at } => Ok(Core::Sub {
            array: hole(alloc)?,
            at: holes(alloc, at)?,
        }),
        Core::Dim { rank, array: _ } => Ok(Core::Dim {
            rank: *rank,
            array: hole(alloc)?,
        }),
        Core::Index { rank, pairs: _ } => Ok(Core::Index {
            rank: *rank,
            pairs: hole(alloc)?,
        }),
        Core::Literal { dims, cells } => Ok(Core::Literal {
            dims: holes(alloc, dims)?,
            cells: holes(alloc, cells)?,
        }),
    }
}

fn hole(alloc: Global) -> Result<Box<Core>, Memory>
    ensures { IfOk result (λ b. term_of b.value ≡ bottom_term) }
{
    let boxed = Box::new(alloc, Core::Bottom)?;
    Ok(boxed)
}

fn holes(alloc: Global, terms: &Terms) -> Result<Terms, Memory>
    ensures { IfOk result (λ ts. terms_of ts ≡ bottoms terms.now) }
{
    let mut all = Vec::new(alloc);
    for _term in &terms.0 {
        all.push(Core::Bottom)?;
    }
    Ok(Terms(all))
}
