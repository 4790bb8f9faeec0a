//! The places of a script's parts, and the furthest token that a reading of it looks at: what a fault is shown by.
//!
//! `locate` is the one call. It goes over the tokens by the grammar and makes no trees: of each expression and pattern it
//! keeps the first and the last token and how many parts stand in it, and of a script that has no reading the furthest
//! token and what was looked for there. Its clause, `ArePlaces`, says that all of these lie among the tokens; wanting
//! memory is the one refusal. That the furthest token is the first at which no script goes on is only tested.
//!
//! Read `specs/Places`, then `places`; `symbol` and `rules` are the grammar, and `walk` goes by them.
#![tactic(auto)]

mod levels;
mod places;
mod rules;
mod scope;
mod symbol;
mod walk;
mod word;

pub use places::{Part, Places, locate};
pub use scope::Scope;
pub use symbol::Symbol;
pub use word::Word;
