//! From bytes to tokens.

ghost use Rattle.std.specs.Prelude.{◌≡◌, ◌<◌, length, MatchOption, Option, Some, None, if◌then◌else◌};
ghost use Rattle.aql_syntax.specs.declared.token.TokenKind.TheVariants as kinds;
ghost use Rattle.aql_syntax.specs.Signs.{is_word};
ghost use Rattle.aql_lex.specs.Lexed.{Covered, Lexed};
ghost use Rattle.aql_lex.specs.Lexing.{word, paren, other_sign, found_at};

use crate::bytes::{digit, letter, space};
use crate::ends::{after_comment, after_digits, after_name, after_string};
use crate::fault::LexFault;
use crate::scan::first_deep;
use crate::signs::{sign_at, word_of};
use aql_syntax::sign::Sign;
use aql_syntax::token::{Token, TokenKind};
use std::alloc::Global;

/// The tokens of a script.
///
/// A text fault stands at the first byte where neither a blank nor a token begins, and comes first. A script that has
/// tokens is deep at the first token after which the scan passes 400.
pub fn tokens(alloc: Global, script: &[u8]) -> Result<Vec<Token>, LexFault>
    ensures { Lexed result script.now }
{
    match token_list(alloc, script) {
        Err(fault) => Err(fault),
        Ok(found) => match first_deep(alloc, &found, script)? {
            None => Ok(found),
            Some(at) => Err(LexFault::Deep { at }),
        },
    }
}

/// What stands at the front of the bytes: a blank, a name, number or string, a reserved word or sign.
#[derive(Clone, Copy)]
pub enum Item {
    Blank,
    Said(TokenKind),
    Mark(Sign),
}

// The blank or token at the front, and what follows it.
#[tactic(auto, unfolding(crate::specs::Lexing::found_at))]
fn first_item(bytes: &[u8]) -> Option<(Item, &[u8])>
    ensures { MatchOption result (found_at bytes.now ≡ None) (λ x. found_at bytes.now ≡ Some
        (x.0, x.1.now)) }
{
    let (first, behind) = bytes.split_first()?;
    let first = *first;
    if letter(first) {
        return Some(word_at(bytes, after_name(behind)));
    }
    if digit(first) {
        let rest = after_digits((first - b'0') as u128, behind)?;
        return Some((Item::Said(TokenKind::Number), rest));
    }
    if space(first) {
        return Some((Item::Blank, behind));
    }
    match first {
        b'"' => {
            let rest = after_string(behind)?;
            Some((Item::Said(TokenKind::Text), rest))
        }
        b'(' => after_open(behind),
        _ => {
            let (sign, rest) = sign_at(bytes)?;
            Some((Item::Mark(sign), rest))
        }
    }
}

// The name or reserved word before the rest.
fn word_at<'a>(bytes: &[u8], rest: &'a [u8]) -> (Item, &'a [u8])
    requires { length rest.now < length bytes.now }
    ensures { word bytes.now rest.now ≡ Some (result.0, result.1.now) }
{
    let text = &bytes[..bytes.len() - rest.len()];
    match word_of(text) {
        Some(sign) => (Item::Mark(sign), rest),
        None => (Item::Said(TokenKind::Name), rest),
    }
}

// What a parenthesis begins.
fn after_open(bytes: &[u8]) -> Option<(Item, &[u8])>
    ensures { MatchOption result (paren bytes.now ≡ None)
        (λ x. paren bytes.now ≡ Some (x.0, x.1.now)) }
{
    match bytes.split_first() {
        Some((first, behind)) if *first == b'*' => {
            let rest = after_comment(behind)?;
            Some((Item::Blank, rest))
        }
        _ => Some((Item::Mark(Sign::Open), bytes)),
    }
}

// The tokens of a script, without the scan of them.
fn token_list(alloc: Global, script: &[u8]) -> Result<Vec<Token>, LexFault>
    ensures { Covered result script.now }
{
    let total = script.len() as u64;
    let mut found = Vec::new(alloc);
    let mut rest = script;
    while !rest.is_empty() {
        let from = total - rest.len() as u64;
        match first_item(rest) {
            Some((Item::Blank, behind)) => {
                rest = behind;
            }
            Some((Item::Said(kind), behind)) => {
                let to = total - behind.len() as u64;
                found.push(Token { kind, from, to })?;
                rest = behind;
            }
            Some((Item::Mark(sign), behind)) => {
                let to = total - behind.len() as u64;
                let kind = kind_of(sign);
                found.push(Token { kind, from, to })?;
                rest = behind;
            }
            None => return Err(LexFault::Text { at: from }),
        }
    }
    Ok(found)
}

fn kind_of(sign: Sign) -> TokenKind
    ensures { result ≡ (if is_word sign then kinds.Reserved else kinds.Sign) }
{
    match sign {
        Sign::Open | Sign::Close | Sign::OpenBrace | Sign::CloseBrace | Sign::OpenBracket =>
            TokenKind::Sign,
        Sign::CloseBracket | Sign::Comma | Sign::Semicolon | Sign::Colon | Sign::Bar =>
            TokenKind::Sign,
        Sign::Bang | Sign::Backslash | Sign::Underscore | Sign::Equal => TokenKind::Sign,
        Sign::DoubleEqual | Sign::FatArrow | Sign::Arrow | Sign::Less => TokenKind::Sign,
        Sign::LessEqual | Sign::Greater | Sign::GreaterEqual | Sign::Unequal => TokenKind::Sign,
        Sign::Plus | Sign::Minus | Sign::Star | Sign::Slash | Sign::Percent => TokenKind::Sign,
        _ => TokenKind::Reserved,
    }
}
