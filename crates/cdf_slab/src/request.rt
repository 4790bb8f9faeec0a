//! What is asked for of a variable.

ghost use Rattle.std.specs.Prelude.{◌≡◌, ◌≤◌, length};
ghost use Rattle.aql_value.specs.Indices.{product};
ghost use Rattle.cdf_slab.specs.Slab.{most_cells};

/// For each dimension the first index, how many and how far apart; and whether the cells are pairs
/// of whether a number is below 0 and how far it is from 0.
#[derive(Clone, Copy)]
pub(crate) struct Request<'a> {
    pub start: &'a [u128],
    pub count: &'a [u128],
    pub stride: &'a [u128],
    pub signed: bool,
    ghost some: { 1 ≤ length start.now },
    ghost few: { length start.now ≤ 8 },
    ghost counts: { length count.now ≡ length start.now },
    ghost strides: { length stride.now ≡ length start.now },
    ghost cells: { product count.now ≤ most_cells },
}
