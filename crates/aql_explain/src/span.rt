//! Where in the script a fault stands.
ghost use Rattle.std.specs.Prelude.{IfOk, IfSome};
ghost use Rattle.aql_explain.specs.Place.{IsPlaceIn};

use crate::cause::Cause;
use crate::place::{Place, line_end, place_at};
use aql_lex::fault::LexFault;
use aql_lex::lexer::tokens;
use aql_script::ScriptFault;
use aql_syntax::token::{Token, TokenKind};
use aql_value::Memory;
use std::alloc::Global;

// How far the tokens were gone over: the declaration that is reached, the brackets that are open in it, and of the
// declaration that is looked for the first and the last byte, where one of its tokens was met.
#[derive(Clone, Copy)]
struct Reached {
    declaration: u64,
    open: u64,
    from: Option<u64>,
    to: u64,
}

/// The place of a fault: the byte or the token that its line tells, or the first line of its declaration.
pub(crate) fn place_of(alloc: Global, script: &[u8], cause: &Cause) -> Result<Option<Place>, Memory>
    ensures { IfOk result (λ o. IfSome o (IsPlaceIn script.now)) }
{
    match cause {
        Cause::Script { fault } => match *fault {
            ScriptFault::Text { at } => Ok(place_at(script, at, text_end(script, at))),
            ScriptFault::Deep { at } => Ok(place_at(script, at, at.saturating_add(1))),
            ScriptFault::Syntax { declaration: _ } => Ok(None),
            ScriptFault::Type { declaration } => declaration_place(alloc, script, declaration),
            ScriptFault::Large { declaration } => declaration_place(alloc, script, declaration),
            ScriptFault::Memory => Ok(None),
        },
        Cause::Turns { declaration } => declaration_place(alloc, script, *declaration),
        Cause::Cells { declaration, .. } => declaration_place(alloc, script, *declaration),
        Cause::File { declaration, .. } => declaration_place(alloc, script, *declaration),
        Cause::Table { declaration, .. } => declaration_place(alloc, script, *declaration),
        Cause::Device { declaration } => declaration_place(alloc, script, *declaration),
    }
}

// Where the mark ends under a byte at which no token begins: for a string at the end of its line, for a comment behind
// its two signs, else behind the byte.
fn text_end(script: &[u8], at: u64) -> u64 {
    if at >= script.len() as u64 {
        return at;
    }
    match script[at as usize] {
        b'"' => line_end(script, at),
        b'(' => at.saturating_add(2),
        _ => at.saturating_add(1),
    }
}

// The first line of a declaration, counted from 1.
fn declaration_place(alloc: Global, script: &[u8], n: u64) -> Result<Option<Place>, Memory>
    ensures { IfOk result (λ o. IfSome o (IsPlaceIn script.now)) }
{
    match tokens(alloc, script) {
        Ok(found) => Ok(first_line(script, &found, n)),
        Err(LexFault::Memory) => Err(Memory),
        Err(_) => Ok(None),
    }
}

// The bytes of declaration n up to its end or that of its first line.
fn first_line(script: &[u8], found: &[Token], n: u64) -> Option<Place>
    ensures { IfSome result (IsPlaceIn script.now) }
{
    let reached = reach(script, found, n);
    let from = reached.from?;
    if from > script.len() as u64 {
        return None;
    }
    let end = line_end(script, from);
    place_at(script, from, reached.to.min(end))
}

/// The tokens from declaration n on.
pub(crate) fn from_declaration<'a>(script: &[u8], found: &'a [Token], n: u64) -> &'a [Token] {
    let mut reached = Reached {
        declaration: 1,
        open: 0,
        from: None,
        to: 0,
    };
    let mut rest = found;
    while let Some((token, behind)) = rest.split_first() {
        if reached.declaration >= n {
            return rest;
        }
        reached = step(reached, script, token, n);
        rest = behind;
    }
    rest
}

// Goes over the tokens of a script.
fn reach(script: &[u8], found: &[Token], n: u64) -> Reached {
    let mut reached = Reached {
        declaration: 1,
        open: 0,
        from: None,
        to: 0,
    };
    let mut rest = found;
    while let Some((token, behind)) = rest.split_first() {
        reached = step(reached, script, token, n);
        rest = behind;
    }
    reached
}

// Behind one more token. A semicolon outside of brackets ends a declaration.
fn step(reached: Reached, script: &[u8], token: &Token, n: u64) -> Reached {
    let (from, to) = if reached.declaration == n {
        (Some(reached.from.unwrap_or(token.from)), token.to)
    } else {
        (reached.from, reached.to)
    };
    let (declaration, open) = match sign_of(script, token) {
        b'(' | b'[' | b'{' => (reached.declaration, reached.open.saturating_add(1)),
        b')' | b']' | b'}' => (reached.declaration, reached.open.saturating_sub(1)),
        b';' if reached.open == 0 => (reached.declaration.saturating_add(1), 0),
        _ => (reached.declaration, reached.open),
    };
    Reached {
        declaration,
        open,
        from,
        to,
    }
}

// The first byte of a sign, 0 of any other token.
fn sign_of(script: &[u8], token: &Token) -> u8 {
    match token.kind {
        TokenKind::Sign => {
            if token.from < script.len() as u64 {
                script[token.from as usize]
            } else {
                0
            }
        }
        _ => 0,
    }
}
