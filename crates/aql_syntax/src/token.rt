//! Tokens, and bytes at the front of others.

ghost use Rattle.std.specs.Prelude.{◌≡◌, MatchOption, Some, None};
ghost use Rattle.aql_syntax.specs.Lexis as lexis;

/// A token: its kind and the bytes from `from` up to `to` of the script.
#[derive(Clone, Copy, Debug)]
pub struct Token {
    pub kind: TokenKind,
    pub from: u64,
    pub to: u64,
}

/// Which reserved word or sign a token is, is told by its bytes.
#[derive(Clone, Copy, Debug, PartialEq, Eq)]
pub enum TokenKind {
    Name,
    Number,
    Text,
    Reserved,
    Sign,
}

/// What follows these bytes, where they stand at the front.
pub fn strip_front<'a>(prefix: &[u8], bytes: &'a [u8]) -> Option<&'a [u8]>
    ensures { MatchOption result (lexis.behind prefix.now bytes.now ≡ None)
        (λ r. lexis.behind prefix.now bytes.now ≡ Some r.now) }
{
    let mut left = prefix;
    let mut rest = bytes;
    while let Some((wanted, later)) = left.split_first() {
        let (first, others) = rest.split_first()?;
        if *first != *wanted {
            return None;
        }
        left = later;
        rest = others;
    }
    Some(rest)
}
