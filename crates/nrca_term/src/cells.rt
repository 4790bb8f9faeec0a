//! The number of cells that dimensions say which are written as numbers.

ghost use Rattle.nrca_term.specs.View.{terms_of};
ghost use Rattle.nrca_term.specs.Cells.{CountsCells};

use crate::term::Terms;

/// The product of the dimensions, or 2^128-1 where it is larger. None where one of them is no number.
pub fn cell_count(dims: &Terms) -> Option<u128>
    ensures { CountsCells (terms_of dims.now) result }
{
    let mut all: u128 = 1;
    for i in 0..dims.0.len() {
        match dims.0[i].number() {
            Some(n) => all = all.saturating_mul(n),
            None => return None,
        }
    }
    Some(all)
}
