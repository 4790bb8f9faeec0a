//! What an evaluation of core terms is made of: the values that it stands among, and runs of the
//! members or cells of a loop. `lookup` and `lend_value` answer what a variable holds; `members_below` and
//! its kin the members of a loop, and `Members` each of them by its number. `sum_and` and its kin add
//! one member or cell to what a run came to; `joined_sums` and its kin join runs that follow each
//! other, by the laws in `specs/Laws/Run.antt`. Answers that take turns stand within a budget
//! (`Within` in `specs/Within.antt`), and those of an evaluation are `Evaluates`, in
//! `specs/Evaluates.antt`. No term within a term is evaluated here.
//!
//! Read `specs/Within.antt`, `Values`, `Evaluates`, `Runs`, `Parts`; then `env.rt`, `members.rt`, `walk.rt`,
//! `runs.rt`, `joins.rt`, `boxes.rt` and `done.rt`.
#![tactic(auto)]

mod boxes;
mod done;
mod env;
mod joins;
mod members;
mod runs;
mod walk;

pub use boxes::{from_box, keep_part, parts_kept, to_box, truth_kept};
pub use done::{Counted, Done, join_done};
pub use env::{Env, Globals, index_variable, lend_value, position, variable};
pub use joins::{join_sums, joined_cells, joined_sets, joined_sums, merge_sets};
pub use members::{
    Members, Next, as_members, members_below, members_of_both, natural, row_of, set_of, truth,
};
pub use runs::{cells_and, into_value, set_index, sum_and, with_cell, zeros};
pub use walk::Sides;

// Outcomes of positions and members may be sent to another thread, and lent to several.
fn crosses_threads<T: Send + Sync>(_value: &T) {}

fn globals_cross_threads(globals: &Globals) {
    crosses_threads(globals);
}

// Variables may be lent to several.
fn values_cross_threads(env: &Env) {
    crosses_threads(&env);
}

fn members_cross_threads(members: &Members) {
    crosses_threads(members);
}
