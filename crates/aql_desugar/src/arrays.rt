//! Loops over the indices of arrays.

ghost use Rattle.std.specs.Prelude.{◌≡◌, ℕ, ◌+◌, ◌-◌, ◌≤◌, length, take, OnOk, IfOk};
ghost use Rattle.aql_syntax.specs.View.{pats_of};
ghost use Rattle.nrca_term.specs.Nodes.{let_term};
ghost use Rattle.nrca_term.specs.View.{term_of};
ghost use Rattle.aql_desugar_spec.specs.Start as start_term;
ghost use Rattle.aql_desugar_spec.specs.Start.{under, bound_axes, axes_term, loops_term, cell_term};
ghost use Rattle.aql_desugar.specs.Names.{missing_term, binders_in, knowns_in, Enters};

use crate::matches::{Missing, add_numbers, enter_past, wrap};
use crate::names::enter;
use crate::nodes::{big_union, dim, generate, let_in, proj, sub};
use crate::positions::Earlier;
use aql_syntax::ast::Pattern;
use aql_value::made::both;
use aql_value::{Memory, Str};
use nrca_term::Core;
use std::alloc::Global;

// Dimension j, counted from 1, of the array in variable `at`.
#[tactic(auto, using(crate::proofs::Looping::dimensions))]
fn dimension(alloc: Global, rank: u64, j: u64, at: u64) -> Result<Core, Memory>
    ensures { IfOk result (λ c. term_of c ≡ start_term.dimension rank j at) }
{
    let all = dim(alloc, rank, Ok(Core::Var(at)))?;
    if rank == 1 {
        return Ok(all);
    }
    let made = proj(alloc, j, rank, Ok(all))?;
    Ok(made)
}

// Loops over the dimensions of the array in variable j, from the one with j before it on.
#[tactic(auto, using(crate::proofs::Looping::looping))]
fn loops(alloc: Global, j: u64, rank: u64, inside: Core) -> Result<Core, Memory>
    requires { j ≤ rank }
    ensures { IfOk result (λ c. term_of c ≡ start_term.loops_term (rank - j) j rank
        (term_of inside)) }
{
    if j == rank {
        return Ok(inside);
    }
    let bound = dimension(alloc, rank, j + 1, j);
    let (bound, body) = both(bound, loops(alloc, j + 1, rank, inside))?;
    big_union(alloc, generate(alloc, Ok(bound)), Ok(body))
}

// The cell at the index of `rank` numbers under `added` further variables.
fn cell(alloc: Global, rank: u64, added: u64) -> Result<Core, Memory>
    ensures { IfOk result (λ c. term_of c ≡ start_term.cell_term rank added) }
{
    let mut at = Vec::new(alloc);
    let mut left = rank;
    while left > 0 {
        left -= 1;
        let number = add_numbers(added, left)?;
        at.push(Core::Var(number))?;
    }
    let array = add_numbers(added, rank)?;
    sub(alloc, Ok(Core::Var(array)), Ok(at))
}

/// Puts on `n` variables without a name.
pub(crate) fn hide(names: &mut Vec<Option<&Str>>, n: usize) -> Result<(), Memory>
    ensures inside { OnOk result (Enters (under n) names.old.items names.new.items) }
    ensures around { OnOk result (take (length names.old.items) names.new.items ≡ names.old.items) }
{
    for i in 0..n {
        let _ = i;
        names.push(None)?;
    }
    Ok(())
}

/// Puts on the variables inside the matches of the parts of an index.
pub(crate) fn enter_axes<'a>(
    ps: &'a [Pattern],
    names: &mut Vec<Option<&'a Str>>,
) -> Result<(), Memory>
    ensures inside { OnOk result (Enters (bound_axes (pats_of ps.now)) names.old.items
        names.new.items) }
    ensures around { OnOk result (take (length names.old.items) names.new.items ≡ names.old.items) }
{
    for p in ps {
        enter(p, names)?;
    }
    Ok(())
}

// The matches of the numbers of an index, which stand under `added` further variables.
fn wrap_axes<'a>(
    alloc: Global,
    ps: &'a [Pattern],
    earlier: &Earlier,
    names: &mut Vec<Option<&'a Str>>,
    added: u64,
    inside: Core,
    other: Missing,
) -> Result<Core, Memory>
    ensures made { IfOk result (λ c. (base : ℕ) → term_of c ≡ axes_term (pats_of ps.now)
        (knowns_in earlier.now) (binders_in names.old.items base) added (term_of inside)
        (missing_term other)) }
    ensures kept { OnOk result (names.new.items ≡ names.old.items) }
{
    match ps.split_first() {
        None => Ok(inside),
        Some((p, rest)) => {
            let mark = names.len();
            let (deeper, inside) = both(enter_past(p, names, added), Ok(inside))?;
            let inside = wrap_axes(alloc, rest, earlier, names, deeper, inside, other)?;
            names.truncate(mark);
            let (at, inside) = both(add_numbers(added, rest.len() as u64), Ok(inside))?;
            let made = wrap(alloc, p, earlier, names, at, inside, other)?;
            Ok(made)
        }
    }
}

/// The loops over the array whose index parts match ps, around the term of each of its cells. The names from `low` on are
/// those of the `added` variables that `enter_axes` has put on, and are taken off.
pub fn walk<'a>(
    alloc: Global,
    ps: &'a [Pattern],
    earlier: &Earlier,
    names: &mut Vec<Option<&'a Str>>,
    low: usize,
    added: u64,
    body: Core,
) -> Result<Core, Memory>
    ensures made { IfOk result (λ c. (base : ℕ) → term_of c ≡ loops_term (length ps.now) 0
        (length ps.now) (axes_term (pats_of ps.now) (knowns_in earlier.now)
        (binders_in (take low names.old.items) base) 0 (let_term (cell_term (length ps.now) added)
        (term_of body)) (missing_term Missing.Empty))) }
    ensures kept { OnOk result (names.new.items ≡ take low names.old.items) }
{
    let rank = ps.len() as u64;
    names.truncate(low);
    let (found, body) = both(cell(alloc, rank, added), Ok(body))?;
    let bound = let_in(alloc, Ok(found), Ok(body))?;
    let axes = wrap_axes(alloc, ps, earlier, names, 0, bound, Missing::Empty)?;
    let walked = loops(alloc, 0, rank, axes)?;
    Ok(walked)
}
