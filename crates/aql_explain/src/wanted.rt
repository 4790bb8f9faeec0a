//! What is wanted where a declaration has no reading, and what stands there.

use crate::place::place_at;
use crate::sentence::{push_number, push_words};
use crate::view::{View, closes, here, opener, reaches, text_of, wants, wants_operator};
use aql_places::{Symbol, Word};
use aql_syntax::sign::Sign;
use aql_syntax::token::TokenKind;
use aql_value::Memory;

/// The most bytes of a token that are shown in a sentence.
const SHOWN: usize = 40;

// The words and signs that may be wanted, but for those that begin an expression or a pattern, in the order of a sentence.
const LISTED: [Sign; 24] = [
    Sign::Then,
    Sign::Else,
    Sign::Using,
    Sign::At,
    Sign::Fn,
    Sign::Val,
    Sign::In,
    Sign::End,
    Sign::Backslash,
    Sign::Equal,
    Sign::FatArrow,
    Sign::Arrow,
    Sign::DoubleEqual,
    Sign::Less,
    Sign::Colon,
    Sign::Bang,
    Sign::Bar,
    Sign::Comma,
    Sign::Semicolon,
    Sign::Open,
    Sign::Close,
    Sign::CloseBrace,
    Sign::OpenBracket,
    Sign::CloseBracket,
];

/// Says what is wanted, what stands there, and what is still open.
pub(crate) fn push_wanted(view: &View, text: &mut Vec<u8>) -> Result<(), Memory> {
    if reaches(view, Symbol::Application) {
        push_words(b"an expression", text)?;
    } else if reaches(view, Symbol::Pattern) {
        push_words(b"a pattern", text)?;
    } else if reaches(view, Symbol::Name) {
        push_words(b"a name", text)?;
    } else {
        if wants_operator(view) {
            push_words(b"an operator or ", text)?;
        }
        push_signs(view, text)?;
    }
    push_words(b" is wanted here, and ", text)?;
    push_found(view, text)?;
    push_words(b" stands here", text)?;
    push_open(view, text)
}

// The signs that are wanted: `a`, `b` or `c`.
fn push_signs(view: &View, text: &mut Vec<u8>) -> Result<(), Memory> {
    let mut left = LISTED.iter().filter(|sign| is_listed(view, **sign)).count();
    let mut is_first = true;
    for sign in LISTED.iter() {
        if is_listed(view, *sign) {
            if !is_first && left > 1 {
                push_words(b", ", text)?;
            } else if !is_first {
                push_words(b" or ", text)?;
            }
            push_words(spelled(*sign), text)?;
            is_first = false;
            left = left.saturating_sub(1);
        }
    }
    Ok(())
}

// `!` goes with the operators.
fn is_listed(view: &View, sign: Sign) -> bool {
    wants(view, sign) && !(sign == Sign::Bang && wants_operator(view))
}

fn spelled(sign: Sign) -> &'static [u8] {
    match sign {
        Sign::Then => b"`then`",
        Sign::Else => b"`else`",
        Sign::Using => b"`using`",
        Sign::At => b"`at`",
        Sign::Fn => b"`fn`",
        Sign::Val => b"`val`",
        Sign::In => b"`in`",
        Sign::End => b"`end`",
        Sign::Backslash => b"`\\`",
        Sign::Equal => b"`=`",
        Sign::FatArrow => b"`=>`",
        Sign::Arrow => b"`<-`",
        Sign::DoubleEqual => b"`==`",
        Sign::Less => b"`<`",
        Sign::Colon => b"`:`",
        Sign::Bang => b"`!`",
        Sign::Bar => b"`|`",
        Sign::Comma => b"`,`",
        Sign::Semicolon => b"`;`",
        Sign::Open => b"`(`",
        Sign::Close => b"`)`",
        Sign::CloseBrace => b"`}`",
        Sign::OpenBracket => b"`[`",
        Sign::CloseBracket => b"`]`",
        _ => b"another sign",
    }
}

// The token that stands there.
fn push_found(view: &View, text: &mut Vec<u8>) -> Result<(), Memory> {
    let token = match view.tokens.get(view.at) {
        None => return push_words(b"the end of the script", text),
        Some(token) => *token,
    };
    let bytes = text_of(view, token);
    let is_short = bytes.len() <= SHOWN;
    match token.kind {
        TokenKind::Text => push_words(b"a string", text),
        TokenKind::Number if !is_short => push_words(b"a number", text),
        TokenKind::Name if !is_short => push_words(b"a name", text),
        TokenKind::Number => push_quoted(b"the number ", bytes, text),
        TokenKind::Name => push_quoted(b"the name ", bytes, text),
        TokenKind::Reserved => push_quoted(b"the word ", bytes, text),
        TokenKind::Sign => push_quoted(b"", bytes, text),
    }
}

/// A token, quoted, behind words.
pub(crate) fn push_quoted(words: &[u8], bytes: &[u8], text: &mut Vec<u8>) -> Result<(), Memory> {
    push_words(words, text)?;
    push_words(b"`", text)?;
    push_words(bytes, text)?;
    push_words(b"`", text)
}

// What is still open, where the token at fault ends something or is the end.
fn push_open(view: &View, text: &mut Vec<u8>) -> Result<(), Memory> {
    let is_end = match here(view) {
        None => true,
        Some(Word::Mark(sign)) => sign == Sign::Semicolon || (closes(sign) && sign != Sign::Else),
        _ => false,
    };
    if !is_end || reaches(view, Symbol::Application) || reaches(view, Symbol::Pattern) {
        return Ok(());
    }
    match opener(view) {
        None => Ok(()),
        Some(k) => push_opener(view, k, text),
    }
}

// Where that token opened what is still open.
fn push_opener(view: &View, k: usize, text: &mut Vec<u8>) -> Result<(), Memory> {
    if let Some(token) = view.tokens.get(k) {
        if let Some(place) = place_at(view.script, token.from, token.to) {
            push_quoted(b"; ", text_of(view, *token), text)?;
            push_words(b" of ", text)?;
            push_number(place.line, text)?;
            push_words(b":", text)?;
            push_number(place.column, text)?;
            return push_words(b" is open", text);
        }
    }
    Ok(())
}
