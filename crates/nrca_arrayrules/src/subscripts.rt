//! Constant subscripts of constant literals.

ghost use Rattle.std.specs.Prelude.{true, ◌≡◌, ◌↔◌, IsTrue, length};
ghost use Rattle.nrca_term.specs.View.{term_of, terms_of};
ghost use Rattle.nrca_term.specs.declared.trace.Rule.TheVariants.{A5};
ghost use Rattle.nrca_rule_laws.specs.Fitting.{RuleFits, IsRight};
ghost use Rattle.nrca_arrayrules.specs.Constants.{AreConstant, IsOffset, IsCell, AreBelow};

use crate::dimensions::is_constant;
use nrca_term::{Core, Terms, cell_count};
use std::mem;

/// Whether the term is a subscript, by as many numbers as there are dimensions, of a literal array
/// whose dimensions are numbers and whose cells are as many as these say.
pub fn fits_a5(term: &Core) -> bool
    ensures { RuleFits A5 result (term_of term.now) }
{
    match term {
        Core::Sub { array, at } => match &**array {
            Core::Literal { dims, cells } => {
                let constant = is_constant_subscript(dims, cells, at);
                constant
            }
            _ => false,
        },
        _ => false,
    }
}

/// The cell, or Bottom where the index is not below the dimensions. That the other cells are
/// defined belongs to the condition.
pub fn a5(term: Core) -> Core
    requires { RuleFits A5 true (term_of term) }
    ensures { IsRight A5 (term_of term) (term_of result) }
{
    match term {
        Core::Sub { array, at } => match Box::into_inner(array) {
            Core::Literal { dims, cells } => {
                let cell = cell_at(&dims, cells, &at);
                cell
            }
            _ => unreachable!(),
        },
        _ => unreachable!(),
    }
}

// Whether dimensions and indices are numbers, equally many, and the cells as many as these say.
// Indices have a product exactly where they are numbers.
fn is_constant_subscript(dims: &Terms, cells: &Terms, at: &Terms) -> bool
    ensures { IsTrue result ↔ AreConstant dims.now cells.now at.now }
{
    match cell_count(at) {
        Some(_) => {
            let constant = is_constant(at.0.len() as u64, dims, cells);
            constant
        }
        None => false,
    }
}

// The cell at the index, or Bottom where it is not below the dimensions.
fn cell_at(dims: &Terms, cells: Terms, at: &Terms) -> Core
    requires { AreConstant dims.now cells at.now }
    ensures { IsCell (terms_of dims.now) (terms_of cells) (terms_of at.now) (term_of result) }
{
    let mut cells = cells;
    match literal_offset(dims, at) {
        Some(p) => {
            let cell = mem::replace(&mut cells.0[p as usize], Core::Bottom);
            cell
        }
        None => Core::Bottom,
    }
}

/// The offset of the index in row-major order, or 2^128-1 where it is larger. None where it is not
/// below the dimensions, or where one of them is no number.
pub fn literal_offset(dims: &Terms, at: &Terms) -> Option<u128>
    requires { length (terms_of dims.now) ≡ length (terms_of at.now) }
    ensures { IsOffset (terms_of dims.now) (terms_of at.now) result }
{
    let mut offset: u128 = 0;
    for j in 0..dims.0.len() {
        match index_below(&dims.0[j], &at.0[j]) {
            Some((d, i)) => offset = offset.saturating_mul(d).saturating_add(i),
            None => return None,
        }
    }
    Some(offset)
}

// Both numbers, where the second is below the first.
fn index_below(dim: &Core, at: &Core) -> Option<(u128, u128)>
    ensures { AreBelow (term_of dim.now) (term_of at.now) result }
{
    match dim.number() {
        Some(d) => match at.number() {
            Some(i) => { if i < d { Some((d, i)) } else { None } }
            None => None,
        },
        None => None,
    }
}
