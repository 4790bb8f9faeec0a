//! The places of a script.
ghost use Rattle.std.specs.Prelude.{IfOk, OnOk, length};
ghost use Rattle.aql_places.specs.Places.{ArePlaces, IsWithin};

use crate::scope::Scope;
use crate::symbol::Symbol;
use crate::walk::{Walk, run, start};
use crate::word::{Word, words_of};
use aql_syntax::token::Token;
use aql_value::Memory;
use std::alloc::Global;

/// An expression or a pattern of a script: its tokens from `from` up to `to`, and how many expressions and patterns stand
/// in it, itself among them. Parentheses around one belong to none.
#[derive(Clone, Copy, Debug)]
pub struct Part {
    pub from: u64,
    pub to: u64,
    pub count: u64,
}

/// What the grammar finds in a script. `words` says what each token is, and `parts` has the expressions and the patterns in
/// the order of the text, each behind those that stand in it. `scopes` has the patterns that bind names, in the order of the
/// text.
///
/// `furthest` is the last token that the reading looked at, or the number of tokens where it looked behind them all, and
/// `reached` has each symbol that was looked for there. `whole` says whether the tokens were all read: where they were not,
/// no script goes on with the furthest token.
#[derive(Drop)]
pub struct Places {
    pub words: Vec<Word>,
    pub parts: Vec<Part>,
    pub scopes: Vec<Scope>,
    pub furthest: u64,
    pub reached: Vec<Symbol>,
    pub whole: bool,
}

/// The places of the parts of a script, which has these tokens and these bytes.
pub fn locate(alloc: Global, tokens: &[Token], source: &[u8]) -> Result<Places, Memory>
    ensures { IfOk result (ArePlaces (length tokens.now)) }
{
    let words = words_of(alloc, tokens, source)?;
    let (walk, whole) = walked(alloc, &words)?;
    Ok(Places {
        words,
        parts: walk.parts,
        scopes: walk.scopes,
        furthest: walk.furthest,
        reached: walk.reached,
        whole,
    })
}

// The walk over the words of a script, and whether it has read them all.
fn walked(alloc: Global, words: &[Word]) -> Result<(Walk, bool), Memory>
    ensures { IfOk result (λ x. IsWithin (length words.now) x.0) }
{
    let mut walk = start(alloc);
    let whole = run(words, &mut walk)?;
    Ok((walk, whole))
}
