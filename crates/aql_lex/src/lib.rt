//! The lexer: from the bytes of a script to its tokens.
//!
//! `tokens` answers exactly the tokens of the lexis (`AreTokens`), as long as the scan of them stays at most 400:
//! its contract is `Lexed`, and the laws of `laws` say that it fixes the answer. Read `lexer` first, then `ends`,
//! `signs` and `scan`; `specs/Lexed` and `specs/Texts` are what a reader has to believe.
#![tactic(auto)]

pub mod bytes;
pub mod ends;
pub mod fault;
pub mod laws;
pub mod lexer;
pub mod scan;
pub mod signs;
