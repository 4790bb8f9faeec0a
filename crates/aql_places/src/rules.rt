//! The rules of the grammar: which symbols stand for a symbol, by the one word that comes next.
//!
//! Each is a rule of the grammar, where what several rules begin with is read once. Operators associate to the left: what
//! is left behind the first side goes on with the whole as the first side. A qualifier alone is tried in two ways.

use crate::levels::{declaration, is_operator, level, operator};
use crate::symbol::{Symbol, Symbol as S};
use crate::word::Word;
use aql_syntax::sign::Sign;

/// The symbols that stand for that symbol, where that word comes next; nothing where none do.
pub(crate) fn rule(symbol: Symbol, here: Option<Word>) -> Option<&'static [Symbol]> {
    if is_operator(symbol) {
        return match operator(symbol, here) {
            Some(symbols) => Some(symbols),
            None => Some(&[]),
        };
    }
    match symbol {
        S::Script => match here {
            None => Some(&[]),
            _ => Some(&[S::Declaration, S::Mark(Sign::Semicolon), S::Script]),
        },
        S::Declaration => Some(declaration(here)),
        S::Application => application(here),
        S::Function => Some(&[
            S::Mark(Sign::Fn),
            S::Lambda,
            S::Mark(Sign::Close),
            S::Mark(Sign::Bang),
            S::Application,
            S::End,
        ]),
        S::Lambda => Some(&[
            S::Pattern,
            S::Mark(Sign::FatArrow),
            S::Binds,
            S::Seen,
            S::Expression,
            S::Unseen,
        ]),
        S::Bound => Some(&[
            S::Mark(Sign::Backslash),
            S::Name,
            S::Mark(Sign::Less),
            S::Binds,
            S::Expression,
        ]),
        S::Row => Some(&[
            S::Qualifier,
            S::Qualifiers,
            S::Mark(Sign::CloseBrace),
            S::UnseenRow,
        ]),
        S::Bounds => Some(&[
            S::Bound,
            S::OneMoreBound,
            S::OneMoreBound,
            S::OneMoreBound,
            S::OneMoreBound,
            S::OneMoreBound,
            S::OneMoreBound,
            S::OneMoreBound,
            S::Enough,
            S::UnseenRow,
        ]),
        S::Pattern => pattern(here),
        S::Qualifier => Some(qualifier(here)),
        S::Enough => match here {
            Some(Word::Mark(Sign::Comma)) => None,
            _ => Some(&[]),
        },
        _ => match level(symbol, here) {
            Some(symbols) => Some(symbols),
            None => by_mark(symbol, here),
        },
    }
}

// An application, or what subscripts may follow.
fn application(here: Option<Word>) -> Option<&'static [Symbol]> {
    match here? {
        Word::Name | Word::Reader => Some(&[S::Next, S::Named]),
        Word::Constant => Some(&[S::Next, S::End, S::Subscripts]),
        Word::Mark(sign) => marked(sign),
    }
}

fn marked(sign: Sign) -> Option<&'static [Symbol]> {
    match sign {
        Sign::True | Sign::False => Some(&[S::Next, S::End, S::Subscripts]),
        Sign::Summap => Some(&[S::Next, S::Mark(Sign::Open), S::Function]),
        Sign::Open => Some(&[S::Next, S::Enclosed]),
        Sign::OpenBrace => Some(&[S::Next, S::Braced, S::End, S::Subscripts]),
        Sign::OpenBracket => Some(&[
            S::Next,
            S::Mark(Sign::OpenBracket),
            S::Expression,
            S::Bracketed,
            S::Mark(Sign::CloseBracket),
            S::Mark(Sign::CloseBracket),
            S::End,
            S::Subscripts,
        ]),
        Sign::Let => Some(&[
            S::Next,
            S::Mark(Sign::Val),
            S::Pattern,
            S::Mark(Sign::Equal),
            S::Binds,
            S::Expression,
            S::Seen,
            S::Bindings,
            S::Mark(Sign::In),
            S::Expression,
            S::Mark(Sign::End),
            S::Unseen,
            S::End,
            S::Subscripts,
        ]),
        _ => {
            if is_head(sign) {
                Some(&[S::Next, S::Mark(Sign::Bang), S::Application, S::End])
            } else {
                None
            }
        }
    }
}

// Whether that word is applied.
fn is_head(sign: Sign) -> bool {
    match sign {
        Sign::Gen | Sign::Get | Sign::Len => true,
        Sign::Dim1 | Sign::Dim2 | Sign::Dim3 | Sign::Dim4 => true,
        Sign::Dim5 | Sign::Dim6 | Sign::Dim7 | Sign::Dim8 => true,
        Sign::Index1 | Sign::Index2 | Sign::Index3 | Sign::Index4 => true,
        Sign::Index5 | Sign::Index6 | Sign::Index7 | Sign::Index8 => true,
        _ => false,
    }
}

fn pattern(here: Option<Word>) -> Option<&'static [Symbol]> {
    match here? {
        Word::Name | Word::Reader | Word::Constant => Some(&[S::Next, S::End]),
        Word::Mark(Sign::True | Sign::False | Sign::Underscore) => Some(&[S::Next, S::End]),
        Word::Mark(Sign::Backslash) => Some(&[S::Next, S::Name, S::End]),
        Word::Mark(Sign::Open) => Some(&[S::Next, S::Pattern, S::Patterned]),
        _ => None,
    }
}

// A generator or a match: where these words are none, it is a test.
fn qualifier(here: Option<Word>) -> &'static [Symbol] {
    match here {
        Some(Word::Mark(Sign::OpenBracket)) => &[
            S::Next,
            S::Pattern,
            S::Mark(Sign::Colon),
            S::Pattern,
            S::Mark(Sign::CloseBracket),
            S::Mark(Sign::Arrow),
            S::Settled,
            S::Binds,
            S::Expression,
            S::Seen,
        ],
        _ => &[
            S::Pattern,
            S::From,
            S::Settled,
            S::Binds,
            S::Expression,
            S::Seen,
        ],
    }
}

// What goes on with one sign, or else in another way.
fn by_mark(symbol: Symbol, here: Option<Word>) -> Option<&'static [Symbol]> {
    match here {
        Some(Word::Mark(sign)) => match with_mark(symbol, sign) {
            Some(symbols) => Some(symbols),
            None => without_mark(symbol),
        },
        _ => without_mark(symbol),
    }
}

fn with_mark(symbol: Symbol, sign: Sign) -> Option<&'static [Symbol]> {
    match (symbol, sign) {
        (S::Named, Sign::Bang) => Some(&[S::Next, S::Application, S::End]),
        (S::Enclosed, Sign::Fn) => Some(&[S::Function]),
        (S::Grouped, Sign::Comma) => Some(&[
            S::Next,
            S::Expression,
            S::Expressions,
            S::Mark(Sign::Close),
            S::End,
        ]),
        (S::Braced, Sign::CloseBrace) => Some(&[S::Next]),
        (S::Members, Sign::Bar) => Some(&[S::Next, S::Row]),
        (S::Bracketed, Sign::Bar) => Some(&[S::Next, S::Bounds]),
        (S::Cells, Sign::CloseBracket) => Some(&[]),
        (S::Bindings, Sign::Val) => Some(&[
            S::Next,
            S::Pattern,
            S::Mark(Sign::Equal),
            S::Binds,
            S::Expression,
            S::Seen,
            S::Bindings,
        ]),
        (S::Subscripts, Sign::OpenBracket) => Some(&[
            S::Next,
            S::Expression,
            S::OneMore,
            S::OneMore,
            S::OneMore,
            S::OneMore,
            S::OneMore,
            S::OneMore,
            S::OneMore,
            S::Enough,
            S::Mark(Sign::CloseBracket),
            S::End,
            S::Subscripts,
        ]),
        (S::Expressions, Sign::Comma) => Some(&[S::Next, S::Expression, S::Expressions]),
        (S::OneMore, Sign::Comma) => Some(&[S::Next, S::Expression]),
        (S::OneMoreBound, Sign::Comma) => Some(&[S::Next, S::Bound]),
        (S::Qualifiers, Sign::Comma) => Some(&[S::Next, S::Qualifier, S::Qualifiers]),
        (S::From, Sign::Arrow | Sign::DoubleEqual) => Some(&[S::Next]),
        (S::Patterned, Sign::Comma) => Some(&[
            S::Next,
            S::Pattern,
            S::Patterns,
            S::Mark(Sign::Close),
            S::End,
        ]),
        (S::Patterns, Sign::Comma) => Some(&[S::Next, S::Pattern, S::Patterns]),
        _ => None,
    }
}

fn without_mark(symbol: Symbol) -> Option<&'static [Symbol]> {
    match symbol {
        S::Named => Some(&[S::End, S::Subscripts]),
        S::Enclosed => Some(&[S::Expression, S::Grouped, S::Subscripts]),
        S::Grouped | S::Patterned => Some(&[S::Mark(Sign::Close)]),
        S::Braced => Some(&[S::Expression, S::Members]),
        S::Members => Some(&[S::Expressions, S::Mark(Sign::CloseBrace)]),
        S::Bracketed => Some(&[
            S::OneMore,
            S::OneMore,
            S::OneMore,
            S::OneMore,
            S::OneMore,
            S::OneMore,
            S::OneMore,
            S::Enough,
            S::Mark(Sign::Semicolon),
            S::Cells,
        ]),
        S::Cells => Some(&[S::Expression, S::Expressions]),
        S::From => None,
        _ => Some(&[]),
    }
}
