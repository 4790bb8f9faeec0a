//! Tokens with what they say.

ghost use Rattle.std.specs.Prelude.{◌≡◌, ◌<◌, ◌+◌, ◌*◌, ◌^◌, IfOk, MatchOption, Some, None, [], ◌∷◌};
ghost use Rattle.aql_syntax.specs.Lexis.{hex_value};
ghost use Rattle.aql_lex.specs.Texts.{text_of, digits_value, string_bytes, within};
ghost use Rattle.aql_parse_spec.specs.SignNumbers.{same_sign};
ghost use Rattle.aql_parse_spec.specs.Parsing.{after};
ghost use Rattle.aql_parse.specs.Words.{string_of, lexemes, GivesReading};

use crate::refusal::Refusal;
use aql_lex::scan::text_at;
use aql_syntax::sign::Sign;
use aql_syntax::token::Token;
use aql_value::{Memory, Str};
use std::alloc::Global;

/// What a token says: a name or a string by its token, a number, a reserved word or sign.
#[derive(Clone, Copy)]
pub enum Word {
    Name(Token),
    Text(Token),
    Number(u128),
    Mark(Sign),
}

/// The first word and those after it.
pub fn next(words: &[Word]) -> Option<(Word, &[Word])>
    ensures { MatchOption result (words.now ≡ []) (λ x. words.now ≡ x.0 ∷ x.1.now) }
{
    match words.split_first() {
        Some((first, rest)) => Some((*first, rest)),
        None => None,
    }
}

/// Whether two signs are one.
pub(crate) fn is_sign(a: Sign, b: Sign) -> bool
    ensures { result ≡ same_sign a b }
{
    a == b
}

/// The words behind that sign, where it stands first.
#[tactic(auto, unfolding(aql_parse_spec::specs::Parsing::after))]
pub(crate) fn skip_sign<'a>(source: &[u8], words: &'a [Word], sign: Sign) -> Option<&'a [Word]>
    ensures { MatchOption result (after sign (lexemes source.now words.now) ≡ None)
        (λ x. after sign (lexemes source.now words.now) ≡ Some (lexemes source.now x.now)) }
{
    match next(words) {
        Some((Word::Mark(found), rest)) => {
            if is_sign(found, sign) {
                Some(rest)
            } else {
                None
            }
        }
        _ => None,
    }
}

/// The words behind that sign, which is to stand first.
pub fn expect<'a>(source: &[u8], words: &'a [Word], sign: Sign) -> Result<&'a [Word], Refusal>
    ensures { GivesReading (λ x. lexemes source.now x.now) result
        (after sign (lexemes source.now words.now)) }
{
    match skip_sign(source, words, sign) {
        Some(rest) => Ok(rest),
        None => Err(Refusal::Syntax),
    }
}

/// A name.
pub(crate) fn name_in(alloc: Global, source: &[u8], token: Token) -> Result<Str, Memory>
    ensures { IfOk result (λ s. s ≡ text_of source.now token) }
{
    let mut bytes = Vec::new(alloc);
    bytes.extend_from_slice(text_at(source, token))?;
    Ok(Str { bytes })
}

/// The bytes that a string stands for.
pub(crate) fn string_in(alloc: Global, source: &[u8], token: Token) -> Result<Str, Memory>
    ensures { IfOk result (λ s. s ≡ string_of (text_of source.now token)) }
{
    match text_at(source, token).split_first() {
        Some((_, text)) => unescape(alloc, text),
        None => Ok(Str {
            bytes: Vec::new(alloc),
        }),
    }
}

/// What may come next in a string.
#[derive(Clone, Copy)]
pub enum Spot {
    Within,
    Escape,
    High,
    Low(u8),
}

// The bytes before the closing quote, each escape as the byte that it stands for.
#[tactic(auto, using(crate::proofs::Strings::spelled))]
fn unescape(alloc: Global, text: &[u8]) -> Result<Str, Memory>
    ensures { IfOk result (λ s. s ≡ string_bytes within text.now) }
{
    let mut bytes = Vec::new(alloc);
    let mut spot = Spot::Within;
    let mut rest = text;
    while let Some((first, behind)) = rest.split_first() {
        let first = *first;
        match spot {
            Spot::Within => {
                if first == b'"' {
                    return Ok(Str { bytes });
                }
                if first == b'\\' {
                    spot = Spot::Escape;
                } else {
                    bytes.push(first)?;
                }
            }
            Spot::Escape => {
                if first == b'x' {
                    spot = Spot::High;
                } else {
                    bytes.push(first)?;
                    spot = Spot::Within;
                }
            }
            Spot::High => {
                spot = Spot::Low(digit_value(first));
            }
            Spot::Low(high) => {
                bytes.push(((16 * high as u64 + digit_value(first) as u64) % 256) as u8)?;
                spot = Spot::Within;
            }
        }
        rest = behind;
    }
    Ok(Str { bytes })
}

// The value of a hexadecimal digit.
fn digit_value(byte: u8) -> u8
    ensures { result ≡ hex_value byte }
{
    if byte >= b'0' && byte <= b'9' {
        byte - b'0'
    } else if byte >= b'A' && byte <= b'F' {
        byte - 55
    } else {
        byte.saturating_sub(87)
    }
}

/// The number that digits make, where 128 bits hold it.
#[tactic(auto, using(aql_lex::specs::Laws::Text::digits_grow))]
pub(crate) fn number_in(text: &[u8]) -> u128
    ensures { digits_value 0 text.now < 2 ^ 128 → result ≡ digits_value 0 text.now }
{
    let mut value = 0;
    let mut rest = text;
    while let Some((first, behind)) = rest.split_first() {
        if *first < b'0' || *first > b'9' {
            return value;
        }
        value = more(value, (*first - b'0') as u128);
        rest = behind;
    }
    value
}

// One more digit.
fn more(value: u128, digit: u128) -> u128
    ensures { 10 * value + digit < 2 ^ 128 → result ≡ 10 * value + digit }
{
    value.saturating_mul(10).saturating_add(digit)
}
