//! Core terms: nameless terms that the rewriting and the evaluator work on, and their meaning.
//! A contract sees a `Core` as the pure term `term_of` of it (`specs/View.antt`): a form and its
//! parts. The layers above use that `weight` is the weight, `place` the part at a path, a copy an
//! equal term, and each constant a value of the language (`constants`); and the definitions in
//! `specs/`: value, type, turns, places, rules, normal terms. Read `term`, `trace`, then
//! `specs/Term.antt`, `View`, `Meaning`, `Turns`, `Typing`, `Places`, `Subst`, `Rules`, `Valid`;
//! then `access`, `form`, `places`, `weights`, `copies`, `boxes`, `cells`, `validity`.
#![tactic(auto)]

mod access;
mod boxes;
mod cells;
mod copies;
mod form;
mod places;
mod term;
mod trace;
mod validity;
mod weights;

pub use boxes::{open, put};
pub use cells::cell_count;
pub use copies::discard;
pub use form::{Form, Strict};
pub use places::place;
pub use term::{Core, Terms};
pub use trace::{Path, Rule, Step, Trace};
pub use validity::constants;
pub use weights::weight;
