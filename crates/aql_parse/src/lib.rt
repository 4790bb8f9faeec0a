//! The parser: from the tokens of a script to its declarations.
//!
//! `script` answers exactly the one reading that the grammar has, and else names the first declaration that has none:
//! its contract is `Parsed`. Each function beneath it is one of the functions on lists of `aql_parse_spec`, or a part of
//! one, whose laws tie them to the grammar: over the words of a script it gives what that gives over their lexemes.
//!
//! Read `scripts` first, then `declarations`; then `words`, `patterns`, `readers`, `forms` and `parts`, which read no
//! expression, with `specs/Words`, `Forms` and `Parts`; then `constructs`, `primaries` and `lists`, which read up to the
//! next expression and go on behind it, with `specs/Constructs`; and last the one recursion, in `expressions`.
#![tactic(auto)]

mod constructs;
mod declarations;
mod expressions;
mod fault;
mod forms;
mod lists;
mod parts;
mod patterns;
mod primaries;
mod readers;
mod refusal;
mod scripts;
mod words;

pub use fault::ParseFault;
pub use scripts::script;
