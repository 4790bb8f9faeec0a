//! What the forms of core terms that evaluate all their parts and bind nothing make of their
//! parts' values.
//!
//! `strict` answers the value and the turns of such a form exactly, and Spent exactly where the
//! turns pass the budget (`Applies` of `nrca_loops`). Of `index` the pairs that members are can be
//! read a run at a time: `index_run` reads a run, `join_pairs` joins runs that follow each other,
//! by the laws in `specs/Laws/Index.antt`, and `index_pairs` makes the array of them; of packed pairs (`packed_pairs`)
//! `index_packed` makes it packed, without regrouping. No term within a term is evaluated here.
//!
//! Read `specs/Made.antt`, `Indexing` and `Packed`; then `forms.rt`, `operations.rt`, `index.rt`, `runs.rt` and `boxes.rt`.
#![tactic(auto)]

mod boxes;
mod forms;
mod index;
mod operations;
mod runs;

pub use boxes::{
    cell_boxed, copy_boxed, dim_boxed, strict_boxed, value_cell_boxed, value_dim_boxed,
};
pub use forms::{one_part, strict};
pub use index::{Indexed, index_pairs, index_run, join_pairs};
pub use operations::{numbers, sum_of, table_of, union_of};
pub use runs::{index_packed, packed_pairs};
