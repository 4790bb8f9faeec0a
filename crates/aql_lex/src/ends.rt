//! What follows a name, a number, a string, a comment.

ghost use Rattle.std.specs.Prelude.{◌≡◌, ◌<◌, ◌≤◌, ◌^◌, length, MatchOption, IfSome, Some, None, false};
ghost use Rattle.aql_syntax.specs.Lexis.{is_digit, is_name_byte};
ghost use Rattle.aql_lex.specs.Lexing.{munch_rest, string_rest, inside, escaped, comment_rest};
ghost use Rattle.aql_lex.specs.Texts.{digits_value};

use crate::bytes::{digit, hex_digit, name_byte, plain};

/// What follows the letters, digits and marks of a name.
pub(crate) fn after_name(bytes: &[u8]) -> &[u8]
    ensures rest { result.now ≡ munch_rest is_name_byte bytes.now }
    ensures shorter { length result.now ≤ length bytes.now }
{
    let mut rest = bytes;
    while let Some((first, behind)) = rest.split_first() {
        if !name_byte(*first) {
            return rest;
        }
        rest = behind;
    }
    rest
}

/// What follows a number's digits, if 128 bits hold it.
#[tactic(auto, using(crate::specs::Laws::Text::digits_grow))]
pub(crate) fn after_digits(start: u128, bytes: &[u8]) -> Option<&[u8]>
    ensures value { MatchOption result (2 ^ 128 ≤ digits_value start bytes.now)
        (λ _. digits_value start bytes.now < 2 ^ 128) }
    ensures rest { IfSome result (λ r. r.now ≡ munch_rest is_digit bytes.now) }
{
    let mut value = start;
    let mut rest = bytes;
    while let Some((first, behind)) = rest.split_first() {
        if !digit(*first) {
            return Some(rest);
        }
        value = value.checked_mul(10)?.checked_add((*first - b'0') as u128)?;
        rest = behind;
    }
    Some(rest)
}

/// What follows a string's closing quote.
pub(crate) fn after_string(bytes: &[u8]) -> Option<&[u8]>
    ensures { MatchOption result (string_rest inside bytes.now ≡ None)
        (λ r. string_rest inside bytes.now ≡ Some r.now) }
{
    let mut rest = bytes;
    while let Some((first, behind)) = rest.split_first() {
        match *first {
            b'"' => return Some(behind),
            b'\\' => rest = after_escape(behind)?,
            _ => {
                if !plain(*first) {
                    return None;
                }
                rest = behind;
            }
        }
    }
    None
}

// What follows an escape's characters.
fn after_escape(bytes: &[u8]) -> Option<&[u8]>
    ensures place { MatchOption result (string_rest escaped bytes.now ≡ None)
        (λ r. string_rest escaped bytes.now ≡ string_rest inside r.now) }
    ensures shorter { MatchOption result (Unit {0}) (λ r. length r.now < length bytes.now) }
{
    let (first, behind) = bytes.split_first()?;
    match *first {
        b'"' | b'\\' => Some(behind),
        b'x' => {
            let (high, behind) = behind.split_first()?;
            let (low, behind) = behind.split_first()?;
            if hex_digit(*high) && hex_digit(*low) {
                Some(behind)
            } else {
                None
            }
        }
        _ => None,
    }
}

/// What follows a comment's first star and parenthesis.
pub(crate) fn after_comment(bytes: &[u8]) -> Option<&[u8]>
    ensures { MatchOption result (comment_rest false bytes.now ≡ None)
        (λ r. comment_rest false bytes.now ≡ Some r.now) }
{
    let mut star = false;
    let mut rest = bytes;
    while let Some((first, behind)) = rest.split_first() {
        if star && *first == b')' {
            return Some(behind);
        }
        star = *first == b'*';
        rest = behind;
    }
    None
}
