//! The words of the command line: `aql [--workers N] [--budget N] [--plan] [--sample N] [--motion] [--graph]`.
//!
//! `read_words` answers the options that the words ask for, exactly `options_of words`, and blames the words only
//! where the command has no reading of them. What a reading is, `clap` says of simple commands: a request for
//! help or for a version is none, nor is a word given twice.
//!
//! Read `specs/Words.antt` first, then `words.rt`; `command.rt` makes the command.
#![tactic(auto)]

mod command;
mod fault;
mod words;

pub use aql_value::{MOST_BUDGET, MOST_WORKERS};
pub use command::MOST_SAMPLE;
pub use fault::WordFault;
pub use words::{Options, read_words};
