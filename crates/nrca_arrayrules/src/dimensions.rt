//! Dimensions of a tabulation and of a constant literal.

ghost use Rattle.std.specs.Prelude.{true, ◌≡◌, ◌↔◌, IsTrue};
ghost use Rattle.nrca_term.specs.View.{term_of, terms_of};
ghost use Rattle.nrca_term.specs.Rules.{sizes_term};
ghost use Rattle.nrca_term.specs.declared.trace.Rule.TheVariants.{A3, A6};
ghost use Rattle.nrca_rule_laws.specs.Fitting.{RuleFits, IsRight};
ghost use Rattle.nrca_arrayrules.specs.Constants.{IsConstantArray};

use nrca_term::{Core, Terms, cell_count};
use std::mem;

/// Whether the term is the dimensions of a tabulation, at its own rank.
pub fn fits_a3(term: &Core) -> bool
    ensures { RuleFits A3 result (term_of term.now) }
{
    match term {
        Core::Dim { rank, array } => match &**array {
            Core::Tab { bounds, body: _ } => *rank == bounds.0.len() as u64,
            _ => false,
        },
        _ => false,
    }
}

/// The bounds: one number, or a tuple.
pub fn a3(term: Core) -> Core
    requires { RuleFits A3 true (term_of term) }
    ensures { IsRight A3 (term_of term) (term_of result) }
{
    match term {
        Core::Dim { rank: _, array } => match Box::into_inner(array) {
            Core::Tab { bounds, body: _ } => {
                let all = sizes(bounds);
                all
            }
            _ => unreachable!(),
        },
        _ => unreachable!(),
    }
}

/// Whether the term is the dimensions, at its own rank, of a literal array whose dimensions are numbers and whose cells are
/// as many as these say.
pub fn fits_a6(term: &Core) -> bool
    ensures { RuleFits A6 result (term_of term.now) }
{
    match term {
        Core::Dim { rank, array } => match &**array {
            Core::Literal { dims, cells } => {
                let constant = is_constant(*rank, dims, cells);
                constant
            }
            _ => false,
        },
        _ => false,
    }
}

/// The dimensions of the literal: one number, or a tuple.
pub fn a6(term: Core) -> Core
    requires { RuleFits A6 true (term_of term) }
    ensures { IsRight A6 (term_of term) (term_of result) }
{
    match term {
        Core::Dim { rank: _, array } => match Box::into_inner(array) {
            Core::Literal { dims, cells: _ } => {
                let all = sizes(dims);
                all
            }
            _ => unreachable!(),
        },
        _ => unreachable!(),
    }
}

// Sizes as dimensions are given: one number, or a tuple.
pub(crate) fn sizes(bounds: Terms) -> Core
    ensures { term_of result ≡ sizes_term (terms_of bounds) }
{
    let mut bounds = bounds;
    if bounds.0.len() == 1 {
        let only = mem::replace(&mut bounds.0[0], Core::Bottom);
        only
    } else {
        Core::Tuple(bounds)
    }
}

// Whether the dimensions are numbers, as many as the rank, and the cells as many as their product.
pub(crate) fn is_constant(rank: u64, dims: &Terms, cells: &Terms) -> bool
    ensures { IsTrue result ↔ IsConstantArray rank (terms_of dims.now) (terms_of cells.now) }
{
    match cell_count(dims) {
        Some(product) => {
            let constant = agree(rank, dims.0.len() as u64, product, cells.0.len() as u64);
            constant
        }
        None => false,
    }
}

// Whether rank and dimensions, and product and cells, are equally many.
fn agree(rank: u64, count: u64, product: u128, cells: u64) -> bool
    ensures { IsTrue result ↔ ((rank ≡ count) × (product ≡ cells)) }
{
    rank == count && product == cells as u128
}
