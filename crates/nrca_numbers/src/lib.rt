//! Numbers, truth values and small sets that terms are, found without values of their own, turns or faults: for the bodies of loops,
//! which are mostly arithmetic. Nothing is answered where a term is of another form or undefined; so whoever calls evaluates it then
//! as any other.
//!
//! `quick` answers the number of one term, `few` its set of at most one number or pair of numbers of 64 bits: read `single.rt` beside
//! `specs/Quick.antt`, then `naturals.rt`, and `sets.rt` beside `specs/Few.antt`. `numbers`, `few_each` and what stands in `runs` and
//! `added` do so for a block of members at once, by one loop a node over vectors: read `specs/Blocks.antt` with `columns.rt`, the
//! variables of a block, then `blocks.rt`, and `lanes.rt`, the loops over vectors, which take arithmetic of 64 bits from `small`.
#![tactic(auto)]

mod added;
mod blocks;
mod choices;
mod columns;
mod comparing;
mod lanes;
mod lending;
mod naturals;
mod recent;
mod runs;
mod sets;
mod single;
pub mod small;

pub use added::{add_cells, add_sets, sum_all};
pub use blocks::numbers;
pub use choices::chosen_branch;
pub use columns::Columns;
pub use lending::{Lent, lent_part, lent_value};
pub use runs::{cells_run, few_run, in_blocks, numbers_run};
pub use sets::{AtMostOne, Small, few, members_and_few};
pub use single::{quick, quick_test};
