//! The surface language: its trees, tokens and grammar, and what its queries mean.
//!
//! `size` and `levels` measure a declaration with every macro put in place; `walk` measures one expression over what is kept
//! of the declarations before it, by the sums of `counts`, for these calls and for the layers above; the copies are equal
//! trees; `build` and `nodes` make trees of parts; `name` of a declaration is what it binds, and `declaration_at` the one of
//! a number. All else is definitions: read `specs/Tree`, `specs/Lexis`, `specs/Scan`, `specs/Grammar` for the text,
//! `specs/Typing` for types, `specs/Matching`, `specs/Denotation`, `specs/Work` for values and turns, `specs/Script` for
//! whole scripts, and `specs/Size`, `specs/Kept`. `laws` says what follows from them.
#![tactic(auto)]

pub mod ast;
pub mod build;
pub mod copies;
pub mod counts;
pub mod laws;
mod names;
pub mod nodes;
pub mod positions;
pub mod sign;
pub mod sizes;
pub mod token;
pub mod walk;
