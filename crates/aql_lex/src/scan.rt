//! The scan over the tokens, which bounds how deep a reading of them goes.

ghost use Rattle.std.specs.Prelude.{◌≡◌, ◌≤◌, sum, IfOk, Bool, Some, None};
ghost use Rattle.aql_syntax.specs.Scan as table;
ghost use Rattle.aql_syntax.specs.Scan.{push_counter, pop_counter, increment, reset, scan_sign, no_counters};
ghost use Rattle.aql_lex.specs.Texts.{text_of};
ghost use Rattle.aql_lex.specs.Scanning.{counters_of, sign_said, after_sign, deep_from, Scans};

use crate::signs::sign_of;
use aql_syntax::sign::Sign;
use aql_syntax::token::{Token, TokenKind};
use std::alloc::{AllocFailed, Global};

/// The counters of the scan: the top one, those below it, the lowest first, and the sum of them all.
#[derive(Drop)]
pub struct Counters {
    pub top: u64,
    pub below: Vec<u64>,
    pub total: u64,
}

/// The bytes of the script where a token stands.
#[tactic(auto, using(crate::proofs::Counting::clamped))]
pub fn text_at(script: &[u8], token: Token) -> &[u8]
    ensures { result.now ≡ text_of script.now token }
{
    let end = script.len() as u64;
    let from = token.from.min(end);
    let to = token.to.min(end).max(from);
    &script[from as usize..to as usize]
}

/// Where the first token begins after which the scan passes 400.
pub(crate) fn first_deep(
    alloc: Global,
    tokens: &[Token],
    script: &[u8],
) -> Result<Option<u64>, AllocFailed<u64>>
    ensures { IfOk result (λ o. o ≡ deep_from script.now no_counters tokens.now) }
{
    let mut counters = Counters {
        top: 0,
        below: Vec::new(alloc),
        total: 0,
    };
    let mut left = tokens;
    while let Some((token, later)) = left.split_first() {
        counters = scan_token(counters, sign_at(script, *token))?;
        if counters.total > 400 {
            return Ok(Some(token.from));
        }
        left = later;
    }
    Ok(None)
}

// The reserved word or sign that a token is.
fn sign_at(script: &[u8], token: Token) -> Option<Sign>
    ensures { result ≡ sign_said token.kind (text_of script.now token) }
{
    match token.kind {
        TokenKind::Name => None,
        TokenKind::Number => None,
        TokenKind::Text => None,
        TokenKind::Reserved => sign_of(text_at(script, token)),
        TokenKind::Sign => sign_of(text_at(script, token)),
    }
}

// The counters after a token.
fn scan_token(counters: Counters, sign: Option<Sign>) -> Result<Counters, AllocFailed<u64>>
    requires adds { sum (counters_of counters) ≡ counters.total }
    requires low { counters.total ≤ 400 }
    ensures { IfOk result (λ c. Scans c (after_sign sign (counters_of counters))) }
{
    match sign {
        None => Ok(counters),
        Some(sign) => {
            if opens(sign) {
                push(counters)
            } else if closes(sign) {
                Ok(pop(counters))
            } else if raises(sign) {
                Ok(raise(counters))
            } else if resets(sign) {
                Ok(clear(counters))
            } else {
                Ok(counters)
            }
        }
    }
}

// 1 more on top, and then a new counter.
fn push(counters: Counters) -> Result<Counters, AllocFailed<u64>>
    requires adds { sum (counters_of counters) ≡ counters.total }
    requires low { counters.total ≤ 400 }
    ensures { IfOk result (λ c. Scans c (push_counter (counters_of counters))) }
{
    let Counters { top, below, total } = counters;
    let mut below = below;
    below.push(top + 1)?;
    Ok(Counters {
        top: 0,
        below,
        total: total + 1,
    })
}

// Without the top counter, where more than one is there.
fn pop(counters: Counters) -> Counters
    requires adds { sum (counters_of counters) ≡ counters.total }
    requires low { counters.total ≤ 400 }
    ensures { Scans result (pop_counter (counters_of counters)) }
{
    let Counters { top, below, total } = counters;
    let mut below = below;
    match below.pop() {
        Some(next) => Counters {
            top: next,
            below,
            total: total - top,
        },
        None => Counters { top, below, total },
    }
}

// 1 more on top.
fn raise(counters: Counters) -> Counters
    requires adds { sum (counters_of counters) ≡ counters.total }
    requires low { counters.total ≤ 400 }
    ensures { Scans result (increment (counters_of counters)) }
{
    let Counters { top, below, total } = counters;
    Counters {
        top: top + 1,
        below,
        total: total + 1,
    }
}

// 0 on top.
fn clear(counters: Counters) -> Counters
    requires adds { sum (counters_of counters) ≡ counters.total }
    requires low { counters.total ≤ 400 }
    ensures { Scans result (reset (counters_of counters)) }
{
    let Counters { top, below, total } = counters;
    Counters {
        top: 0,
        below,
        total: total - top,
    }
}

fn opens(sign: Sign) -> bool
    ensures { result ≡ table.opens sign }
{
    match sign {
        Sign::Open | Sign::OpenBrace | Sign::OpenBracket | Sign::Let => true,
        _ => false,
    }
}

fn closes(sign: Sign) -> bool
    ensures { result ≡ table.closes sign }
{
    match sign {
        Sign::Close | Sign::CloseBrace | Sign::CloseBracket | Sign::End => true,
        _ => false,
    }
}

fn raises(sign: Sign) -> bool
    ensures { result ≡ table.raises sign }
{
    match sign {
        Sign::If | Sign::Not | Sign::Val | Sign::Fn | Sign::Bang | Sign::And | Sign::Or => true,
        Sign::Union | Sign::Default | Sign::Plus | Sign::Minus | Sign::Star => true,
        Sign::Slash | Sign::Percent | Sign::Equal | Sign::Unequal | Sign::Less => true,
        Sign::LessEqual | Sign::Greater | Sign::GreaterEqual => true,
        _ => false,
    }
}

fn resets(sign: Sign) -> bool
    ensures { result ≡ table.resets sign }
{
    match sign {
        Sign::Comma | Sign::Semicolon | Sign::Bar => true,
        _ => false,
    }
}
