//! The rules of declarations, and of expressions down to the operators.

use crate::symbol::{Symbol, Symbol as S};
use crate::word::Word;
use aql_syntax::sign::Sign;

/// The symbols that stand for a declaration that begins with that word.
pub(crate) fn declaration(here: Option<Word>) -> &'static [Symbol] {
    match here {
        Some(Word::Mark(Sign::Val)) => &[
            S::Next,
            S::Mark(Sign::Backslash),
            S::Name,
            S::Mark(Sign::Equal),
            S::Expression,
        ],
        Some(Word::Mark(Sign::Macro)) => &[
            S::Next,
            S::Mark(Sign::Backslash),
            S::Name,
            S::Mark(Sign::Equal),
            S::Mark(Sign::Fn),
            S::Lambda,
        ],
        Some(Word::Mark(Sign::Readval)) => &[
            S::Next,
            S::Mark(Sign::Backslash),
            S::Name,
            S::Mark(Sign::Using),
            S::Reader,
            S::Mark(Sign::At),
            S::Expression,
        ],
        _ => &[S::Expression],
    }
}

/// The symbols that stand for an expression, or for a level of it, that begins with that word; nothing of another symbol.
pub(crate) fn level(symbol: Symbol, here: Option<Word>) -> Option<&'static [Symbol]> {
    match symbol {
        S::Expression => match here {
            Some(Word::Mark(Sign::If)) => Some(&[
                S::Next,
                S::Expression,
                S::Mark(Sign::Then),
                S::Expression,
                S::Mark(Sign::Else),
                S::Expression,
                S::End,
            ]),
            _ => Some(&[S::Or, S::Otherwise]),
        },
        S::Or => Some(&[S::And, S::Ors]),
        S::And => Some(&[S::Not, S::Ands]),
        S::Not => match here {
            Some(Word::Mark(Sign::Not)) => Some(&[S::Next, S::Not, S::End]),
            _ => Some(&[S::Comparison]),
        },
        S::Comparison => Some(&[S::Union, S::Compared]),
        S::Union => Some(&[S::Sum, S::Unions]),
        S::Sum => Some(&[S::Product, S::Terms]),
        S::Product => Some(&[S::Application, S::Factors]),
        _ => None,
    }
}

/// The symbols that stand behind the first side of an operator of that level: none where another word stands there.
pub(crate) fn operator(symbol: Symbol, here: Option<Word>) -> Option<&'static [Symbol]> {
    let sign = match here {
        Some(Word::Mark(sign)) => sign,
        _ => return None,
    };
    match (symbol, sign) {
        (S::Otherwise, Sign::Default) => Some(&[S::Next, S::Expression, S::End]),
        (S::Ors, Sign::Or) => Some(&[S::Next, S::And, S::End, S::Ors]),
        (S::Ands, Sign::And) => Some(&[S::Next, S::Not, S::End, S::Ands]),
        (
            S::Compared,
            Sign::Equal
            | Sign::Unequal
            | Sign::Less
            | Sign::LessEqual
            | Sign::Greater
            | Sign::GreaterEqual,
        ) => Some(&[S::Next, S::Union, S::End]),
        (S::Unions, Sign::Union) => Some(&[S::Next, S::Sum, S::End, S::Unions]),
        (S::Terms, Sign::Plus | Sign::Minus) => Some(&[S::Next, S::Product, S::End, S::Terms]),
        (S::Factors, Sign::Star | Sign::Slash | Sign::Percent) => {
            Some(&[S::Next, S::Application, S::End, S::Factors])
        }
        _ => None,
    }
}

/// Whether that is what is left behind the first side of an operator.
pub(crate) fn is_operator(symbol: Symbol) -> bool {
    match symbol {
        S::Otherwise | S::Ors | S::Ands | S::Compared | S::Unions | S::Terms | S::Factors => true,
        _ => false,
    }
}
