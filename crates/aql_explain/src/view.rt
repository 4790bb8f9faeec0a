//! What stands about the token at which a declaration has no reading.

use aql_lex::scan::text_at;
use aql_places::{Places, Symbol, Word};
use aql_syntax::sign::Sign;
use aql_syntax::token::Token;

/// The tokens of a script from a declaration on that has no reading, the first token with which no script goes on, and what
/// was looked for there.
#[derive(Clone, Copy)]
pub(crate) struct View<'a> {
    pub script: &'a [u8],
    pub tokens: &'a [Token],
    pub words: &'a [Word],
    pub reached: &'a [Symbol],
    pub at: usize,
}

impl<'a> View<'a> {
    pub(crate) fn new(script: &'a [u8], tokens: &'a [Token], places: &'a Places) -> View<'a> {
        View {
            script,
            tokens,
            words: &places.words,
            reached: &places.reached,
            at: places.furthest as usize,
        }
    }
}

/// The word there.
pub(crate) fn here(view: &View) -> Option<Word> {
    view.words.get(view.at).copied()
}

/// The word behind it.
pub(crate) fn next(view: &View) -> Option<Word> {
    view.words.get(view.at.saturating_add(1)).copied()
}

/// The word before it, none where it is the first of its declaration.
pub(crate) fn before(view: &View) -> Option<Word> {
    view.words.get(view.at.checked_sub(1)?).copied()
}

/// The token before it.
pub(crate) fn token_before(view: &View) -> Option<Token> {
    view.tokens.get(view.at.checked_sub(1)?).copied()
}

/// The bytes of a token.
pub(crate) fn text_of<'a>(view: &View<'a>, token: Token) -> &'a [u8] {
    text_at(view.script, token)
}

/// Whether that sign is looked for there.
pub(crate) fn wants(view: &View, sign: Sign) -> bool {
    view.reached.iter().any(|symbol| seeks(*symbol, sign))
}

/// Whether that symbol is looked for there.
pub(crate) fn reaches(view: &View, symbol: Symbol) -> bool {
    view.reached.iter().any(|found| *found == symbol)
}

/// Whether that symbol is looked for there, and nothing else.
pub(crate) fn wants_only(view: &View, symbol: Symbol) -> bool {
    reaches(view, symbol)
        && view
            .reached
            .iter()
            .all(|found| *found == symbol || is_silent(*found))
}

/// Whether an operator is looked for there, or a subscript.
pub(crate) fn wants_operator(view: &View) -> bool {
    reaches(view, Symbol::Subscripts) || reaches(view, Symbol::Factors)
}

// Whether a symbol looks for that sign, and none that begins an expression or goes on with one.
fn seeks(symbol: Symbol, sign: Sign) -> bool {
    match symbol {
        Symbol::Mark(found) => found == sign,
        Symbol::Named => sign == Sign::Bang,
        Symbol::Enclosed => sign == Sign::Fn,
        Symbol::Braced => sign == Sign::CloseBrace,
        Symbol::Members | Symbol::Bracketed => sign == Sign::Bar,
        Symbol::Cells => sign == Sign::CloseBracket,
        Symbol::Bindings => sign == Sign::Val,
        Symbol::From => sign == Sign::Arrow || sign == Sign::DoubleEqual,
        Symbol::Grouped | Symbol::Expressions | Symbol::OneMore | Symbol::OneMoreBound => {
            sign == Sign::Comma
        }
        Symbol::Qualifiers | Symbol::Patterned | Symbol::Patterns => sign == Sign::Comma,
        _ => false,
    }
}

// Whether a symbol looks at no word, since there is one rule for it.
fn is_silent(symbol: Symbol) -> bool {
    match symbol {
        Symbol::Script | Symbol::Function | Symbol::Bound | Symbol::Enough => true,
        Symbol::Or | Symbol::And | Symbol::Comparison | Symbol::Union => true,
        Symbol::Sum | Symbol::Product | Symbol::Qualifier => true,
        _ => false,
    }
}

/// The token that opened what is still open there, the innermost: a bracket, `let`, or `if` without its `else`.
pub(crate) fn opener(view: &View) -> Option<usize> {
    let mut depth: u64 = 0;
    for k in (0..view.at).rev() {
        match view.words.get(k) {
            Some(Word::Mark(sign)) if closes(*sign) => {
                depth = depth.saturating_add(1);
            }
            Some(Word::Mark(sign)) if opens(*sign) => {
                if depth == 0 {
                    return Some(k);
                }
                depth = depth.saturating_sub(1);
            }
            _ => (),
        }
    }
    None
}

fn opens(sign: Sign) -> bool {
    match sign {
        Sign::Open | Sign::OpenBrace | Sign::OpenBracket | Sign::Let | Sign::If => true,
        _ => false,
    }
}

/// Whether a sign closes what another opened.
pub(crate) fn closes(sign: Sign) -> bool {
    match sign {
        Sign::Close | Sign::CloseBrace | Sign::CloseBracket | Sign::End | Sign::Else => true,
        _ => false,
    }
}
