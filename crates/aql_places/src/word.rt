//! Tokens as the rules see them.
ghost use Rattle.std.specs.Prelude.{◌≡◌, IfOk, length};

use aql_lex::scan::text_at;
use aql_lex::signs::sign_of;
use aql_syntax::sign::Sign;
use aql_syntax::token::{Token, TokenKind, strip_front};
use aql_value::Memory;
use std::alloc::Global;

/// What a token is to the rules. A number and a string are constants.
#[derive(Clone, Copy, Debug, PartialEq, Eq)]
pub enum Word {
    Name,
    Reader,
    Constant,
    Mark(Sign),
}

/// What each token is.
pub(crate) fn words_of(alloc: Global, tokens: &[Token], source: &[u8]) -> Result<Vec<Word>, Memory>
    ensures { IfOk result (λ ws. length ws.items ≡ length tokens.now) }
{
    let mut words = Vec::new(alloc);
    let mut left = tokens;
    while let Some((token, later)) = left.split_first() {
        words.push(word_of(*token, source))?;
        left = later;
    }
    Ok(words)
}

// What a token is. A reserved word or sign that no sign is spelled as is taken for a name: the lexer gives none.
fn word_of(token: Token, source: &[u8]) -> Word {
    match token.kind {
        TokenKind::Number | TokenKind::Text => Word::Constant,
        TokenKind::Name => {
            if is_reader(text_at(source, token)) {
                Word::Reader
            } else {
                Word::Name
            }
        }
        TokenKind::Reserved | TokenKind::Sign => match sign_of(text_at(source, token)) {
            Some(sign) => Word::Mark(sign),
            None => Word::Name,
        },
    }
}

// Whether a name is that of a reader.
fn is_reader(name: &[u8]) -> bool {
    if let Some(rest) = strip_front(b"NETCDF", name) {
        return match rest {
            [b'1'..=b'8'] => true,
            [b'Z' | b'S', b'1'..=b'8'] => true,
            _ => false,
        };
    }
    match strip_front(b"CSV", name) {
        Some([b'H', letters @ ..]) => are_kinds(letters),
        Some(letters) => are_kinds(letters),
        None => false,
    }
}

// Whether these are the letters of 1 to 8 fields.
fn are_kinds(letters: &[u8]) -> bool {
    letters.len() > 0 && letters.len() <= 8 && letters.iter().all(|b| *b == b'N' || *b == b'S')
}
