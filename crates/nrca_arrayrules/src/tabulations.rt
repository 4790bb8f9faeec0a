//! Tabulations that are an array again.

ghost use Rattle.std.specs.Prelude.{true, ◌≡◌, ◌↔◌, ◌≤◌, IsTrue};
ghost use Rattle.nrca_term.specs.Term.{Term};
ghost use Rattle.nrca_term.specs.Nodes.{variable};
ghost use Rattle.nrca_term.specs.Rules.{index_variables};
ghost use Rattle.nrca_term.specs.View.{term_of, terms_of};
ghost use Rattle.nrca_term.specs.declared.trace.Rule.TheVariants.{A2};
ghost use Rattle.nrca_rule_laws.specs.Fitting.{RuleFits, IsRight};
ghost use Rattle.nrca_arrayrules.specs.Whole.{IsWhole, IsSame, AreDimensions, IsDimension, IsDimOf};
ghost use Rattle.nrca_arrayrules.specs.Whole.{IsComponentOf, IsDimensionOf};

use nrca_subst::same_shifted;
use nrca_term::{Core, Terms};
use std::mem;

/// Whether the term tabulates an array at its own indices, in order, below its own dimensions.
pub fn fits_a2(term: &Core) -> bool
    ensures { RuleFits A2 result (term_of term.now) }
{
    match term {
        Core::Tab { bounds, body } => {
            let whole = is_whole(bounds, body);
            whole
        }
        _ => false,
    }
}

/// The array.
pub fn a2(term: Core) -> Core
    requires { RuleFits A2 true (term_of term) }
    ensures { IsRight A2 (term_of term) (term_of result) }
{
    match term {
        Core::Tab { bounds, body: _ } => {
            let mut bounds = bounds;
            let first = mem::replace(&mut bounds.0[0], Core::Bottom);
            let array = measured_array(first);
            array
        }
        _ => unreachable!(),
    }
}

// Whether the bounds are the dimensions of one array in order, and the body is this array at as
// many variables in order.
fn is_whole(bounds: &Terms, body: &Core) -> bool
    ensures { IsTrue result ↔ IsWhole (terms_of bounds.now) (term_of body.now) }
{
    match body {
        Core::Sub { array, at } => {
            let same = is_same(bounds, array, at);
            same
        }
        _ => false,
    }
}

// Whether the bounds are the dimensions of one array in order, what is subscripted is this array
// under as many variables, and the indices are these in order.
fn is_same(bounds: &Terms, array: &Core, at: &Terms) -> bool
    ensures { IsTrue result ↔ IsSame (terms_of bounds.now) (term_of array.now) (terms_of at.now) }
{
    let rank = bounds.0.len() as u64;
    let indices = are_indices(at, rank);
    let dimensions = are_dimensions(bounds, array);
    let same = all(rank, indices, dimensions);
    same
}

// Whether there is a dimension, and both tests hold.
fn all(rank: u64, indices: bool, dimensions: bool) -> bool
    ensures { IsTrue result ↔ ((1 ≤ rank) × IsTrue indices × IsTrue dimensions) }
{
    1 <= rank && indices && dimensions
}

// Whether the terms are the variables of an index of this rank in order.
fn are_indices(at: &Terms, rank: u64) -> bool
    ensures { IsTrue result ↔ (terms_of at.now ≡ index_variables rank) }
{
    if at.0.len() as u64 != rank {
        return false;
    }
    for j in 0..at.0.len() {
        if !is_variable(&at.0[j], rank - 1 - j as u64) {
            return false;
        }
    }
    true
}

// Whether the term is the variable of this number.
fn is_variable(term: &Core, number: u64) -> bool
    ensures { IsTrue result ↔ (term_of term.now ≡ variable number) }
{
    match term {
        Core::Var(i) => *i == number,
        _ => false,
    }
}

// Whether each bound is a dimension, by its place, of the array that stands under the bounds' own
// variables.
fn are_dimensions(bounds: &Terms, array: &Core) -> bool
    ensures { IsTrue result ↔ AreDimensions (terms_of bounds.now) (term_of array.now) }
{
    let rank = bounds.0.len() as u64;
    for j in 0..bounds.0.len() {
        if !is_dimension(&bounds.0[j], rank, j as u64 + 1, array) {
            return false;
        }
    }
    true
}

// Whether the term is dimension j, counted from 1, of this array, whose rank it is.
fn is_dimension(term: &Core, rank: u64, j: u64, array: &Core) -> bool
    ensures { IsTrue result ↔ IsDimension rank j (term_of array.now) (term_of term.now) }
{
    if rank == 1 {
        let only = is_dim_of(term, rank, array);
        only
    } else {
        let component = is_component_of(term, rank, j, array);
        component
    }
}

// Whether the term is component j of the dimensions of this array.
fn is_component_of(term: &Core, rank: u64, j: u64, array: &Core) -> bool
    ensures { IsTrue result ↔ IsComponentOf rank j (term_of array.now) (term_of term.now) }
{
    match term {
        Core::Proj { at, of, part } => {
            if *at != j || *of != rank {
                return false;
            }
            let dim = is_dim_of(part, rank, array);
            dim
        }
        _ => false,
    }
}

// Whether the term is the dimensions of this array, which stands under as many variables more.
fn is_dim_of(term: &Core, rank: u64, array: &Core) -> bool
    ensures { IsTrue result ↔ IsDimOf rank (term_of array.now) (term_of term.now) }
{
    match term {
        Core::Dim {
            rank: own,
            array: inner,
        } => {
            if *own != rank {
                return false;
            }
            let same = same_shifted(inner, rank, array);
            same
        }
        _ => false,
    }
}

// The array whose dimension the term is.
fn measured_array(dimension: Core) -> Core
    requires { (a : Term) × IsDimensionOf a (term_of dimension) }
    ensures { IsDimensionOf (term_of result) (term_of dimension) }
{
    match dimension {
        Core::Dim { rank: _, array } => Box::into_inner(array),
        Core::Proj { at: _, of: _, part } => match Box::into_inner(part) {
            Core::Dim { rank: _, array } => Box::into_inner(array),
            _ => unreachable!(),
        },
        _ => unreachable!(),
    }
}
