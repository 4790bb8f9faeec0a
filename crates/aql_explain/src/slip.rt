//! Slips of syntax that are known: what was meant is told where the tokens show it.

use crate::view::{
    View, before, closes, here, next, opener, reaches, text_of, token_before, wants, wants_only,
    wants_operator,
};
use aql_places::{Symbol, Word};
use aql_syntax::sign::Sign;
use aql_syntax::token::{Token, TokenKind};

/// A slip, and how its mark differs from the token at fault.
#[derive(Clone, Copy)]
pub(crate) enum Slip {
    /// It has a sentence of its own.
    Known(&'static [u8]),
    /// It has one, and is two tokens long.
    Pair(&'static [u8]),
    /// The declaration before it has no end.
    Unended,
    /// A reserved word stands where a name is wanted.
    Reserved(Token),
    /// Behind that word its argument is wanted.
    Unapplied(Token),
    /// Nothing is open that it closes.
    Unopened(Token),
    /// No slip that is known.
    Other,
}

/// The slip that the tokens show.
pub(crate) fn slip_of(view: &View) -> Slip {
    if let Some(slip) = of_lists(view) {
        return slip;
    }
    if let Some(slip) = of_names(view) {
        return slip;
    }
    if let Some(slip) = of_functions(view) {
        return slip;
    }
    if let Some(slip) = of_signs(view) {
        return slip;
    }
    if let Some(slip) = of_arrays(view) {
        return slip;
    }
    match of_ends(view) {
        Some(slip) => slip,
        None => Slip::Other,
    }
}

fn is_mark(word: Option<Word>, sign: Sign) -> bool {
    word == Some(Word::Mark(sign))
}

fn is_name(word: Option<Word>) -> bool {
    word == Some(Word::Name) || word == Some(Word::Reader)
}

fn token_here(view: &View) -> Option<Token> {
    view.tokens.get(view.at).copied()
}

fn of_lists(view: &View) -> Option<Slip> {
    if is_mark(here(view), Sign::Comma) && reaches(view, Symbol::Enough) {
        return Some(Slip::Known(b"at most 8 indices, bounds or dimensions"));
    }
    if reaches(view, Symbol::Reader) {
        return Some(Slip::Known(
            b"a reader is `NETCDF1` to `NETCDF8`, with `Z` or `S` before the digit, or `CSV` or `CSVH` and letters `N` and `S`",
        ));
    }
    None
}

// Where a name is bound.
fn of_names(view: &View) -> Option<Slip> {
    let is_binder = wants_only(view, Symbol::Mark(Sign::Backslash));
    if is_binder && is_name(here(view)) {
        return Some(Slip::Known(b"a name is bound with a backslash"));
    }
    if is_binder || wants_only(view, Symbol::Name) {
        let token = token_here(view)?;
        if token.kind == TokenKind::Reserved {
            return Some(Slip::Reserved(token));
        }
    }
    if wants_only(view, Symbol::Mark(Sign::Val)) {
        return Some(Slip::Known(b"behind `let` stands `val`"));
    }
    None
}

// Functions, and what is applied.
fn of_functions(view: &View) -> Option<Slip> {
    if wants_only(view, Symbol::Mark(Sign::Fn)) && is_mark(before(view), Sign::Equal) {
        return Some(Slip::Known(
            b"behind the `=` of a macro stands `fn`, a pattern, `=>` and its body",
        ));
    }
    if is_mark(here(view), Sign::Fn) && reaches(view, Symbol::Application) {
        return Some(Slip::Known(b"a function is no value: it is declared by `macro`"));
    }
    if wants_only(view, Symbol::Mark(Sign::Bang)) {
        if is_mark(before(view), Sign::Close) {
            return Some(Slip::Known(
                b"a function is applied where it stands: `(fn P => e)!argument`",
            ));
        }
        return Some(Slip::Unapplied(token_before(view)?));
    }
    if is_mark(here(view), Sign::Comma) && is_function(view, opener(view)) {
        return Some(Slip::Known(
            b"a function is no value and no argument: it is applied where it stands, or declared by `macro`",
        ));
    }
    if is_mark(here(view), Sign::Open) && reaches(view, Symbol::Named) && touches(view) {
        return Some(Slip::Known(b"application is `f!x`, a cell is `a[i]`"));
    }
    None
}

// Whether `fn` stands behind that token.
fn is_function(view: &View, open: Option<usize>) -> bool {
    match open {
        Some(k) => is_mark(view.words.get(k.saturating_add(1)).copied(), Sign::Fn),
        None => false,
    }
}

// Whether nothing stands between the token at fault and the one before it.
fn touches(view: &View) -> bool {
    match (token_before(view), token_here(view)) {
        (Some(a), Some(b)) => a.to == b.from,
        _ => false,
    }
}

// Operators.
fn of_signs(view: &View) -> Option<Slip> {
    if let Some(slip) = of_equal_signs(view) {
        return Some(slip);
    }
    let is_operand = reaches(view, Symbol::Application);
    match here(view)? {
        Word::Mark(Sign::Minus) if is_operand => Some(Slip::Known(
            b"there are no numbers below 0, and `0-1` is 0: take pairs of a sign and a number",
        )),
        Word::Mark(Sign::If) if is_operand => Some(Slip::Known(
            b"behind an operator `if` stands in parentheses",
        )),
        Word::Mark(Sign::Not) if is_operand => Some(Slip::Known(
            b"behind a tighter operator `not` stands in parentheses",
        )),
        Word::Mark(Sign::Star) if is_mark(before(view), Sign::Star) => {
            Some(Slip::Known(b"there is no power: write a product"))
        }
        Word::Mark(Sign::Bar) if is_mark(next(view), Sign::Bar) => {
            Some(Slip::Pair(b"`or` is a word"))
        }
        Word::Mark(Sign::Colon) if reaches(view, Symbol::Members) => Some(Slip::Known(
            b"in braces `|` stands before the qualifiers",
        )),
        Word::Mark(Sign::In) if reaches(view, Symbol::From) => {
            Some(Slip::Known(b"a generator is `\\x <- s`"))
        }
        _ => None,
    }
}

// Comparisons, and signs with `=`.
fn of_equal_signs(view: &View) -> Option<Slip> {
    let is_operand = reaches(view, Symbol::Application);
    match here(view)? {
        Word::Mark(Sign::Equal) if is_operand && is_mark(before(view), Sign::Equal) => {
            Some(Slip::Known(b"equal is `=`"))
        }
        Word::Mark(Sign::Equal) if is_operand && is_mark(before(view), Sign::Bang) => {
            Some(Slip::Known(b"unequal is `<>`"))
        }
        Word::Mark(Sign::DoubleEqual) => Some(Slip::Known(
            b"equal is `=`; `==` stands in qualifiers alone, behind a pattern",
        )),
        Word::Mark(Sign::Bang) if is_mark(next(view), Sign::Equal) => {
            Some(Slip::Known(b"unequal is `<>`"))
        }
        Word::Mark(Sign::Colon) if is_mark(next(view), Sign::Equal) && wants(view, Sign::Equal) => {
            Some(Slip::Pair(b"a name is bound by `=`"))
        }
        Word::Mark(sign) if compares(sign) && is_compared(view) => {
            Some(Slip::Known(b"one comparison at a time"))
        }
        _ => None,
    }
}

// Whether an operator may stand here, and none that compares: a comparison has been read.
fn is_compared(view: &View) -> bool {
    reaches(view, Symbol::Factors) && !reaches(view, Symbol::Compared)
}

fn compares(sign: Sign) -> bool {
    match sign {
        Sign::Equal | Sign::Unequal | Sign::Less => true,
        Sign::LessEqual | Sign::Greater | Sign::GreaterEqual => true,
        _ => false,
    }
}

// Arrays and their indices.
fn of_arrays(view: &View) -> Option<Slip> {
    let open = opener(view)?;
    if !is_mark(view.words.get(open).copied(), Sign::OpenBracket) {
        return None;
    }
    let lacks_bracket = wants_only(view, Symbol::Mark(Sign::OpenBracket));
    let lacks_dimensions = is_mark(here(view), Sign::CloseBracket) && wants(view, Sign::Semicolon);
    if lacks_bracket || lacks_dimensions {
        return Some(Slip::Known(b"an array is written with its dimensions, `[[3; 1, 2, 3]]`"));
    }
    if is_mark(here(view), Sign::Comma) && wants(view, Sign::Colon) {
        return Some(Slip::Known(b"an index of several parts is a tuple"));
    }
    None
}

// Ends of declarations, and what stands where an operator may.
fn of_ends(view: &View) -> Option<Slip> {
    if wants(view, Sign::Semicolon) && opener(view).is_none() && ends(view) {
        return Some(Slip::Unended);
    }
    if is_name(before(view)) && wants_operator(view) && begins_argument(here(view)) {
        return Some(Slip::Known(b"nothing stands between these two: application is `f!x`"));
    }
    match here(view)? {
        Word::Mark(sign) if closes(sign) && sign != Sign::Else => {
            if wants_operator(view) && opener(view).is_none() {
                Some(Slip::Unopened(token_here(view)?))
            } else {
                None
            }
        }
        _ => None,
    }
}

// Whether what comes is no part of the declaration: its word begins another, or it stands in another line.
fn ends(view: &View) -> bool {
    match here(view) {
        None => true,
        Some(Word::Mark(Sign::Val | Sign::Macro | Sign::Readval)) => true,
        _ => match (token_before(view), token_here(view)) {
            (Some(a), Some(b)) => has_line_end(view.script, a.to, b.from),
            _ => false,
        },
    }
}

// Whether a line ends in these bytes of a script.
fn has_line_end(script: &[u8], from: u64, to: u64) -> bool {
    let end = (to as usize).min(script.len());
    let start = (from as usize).min(end);
    script[start..end].iter().any(|byte| *byte == b'\n')
}

// Whether a word begins an argument, and none that an operator or a bracket begins.
fn begins_argument(word: Option<Word>) -> bool {
    match word {
        Some(Word::Name | Word::Reader | Word::Constant) => true,
        Some(Word::Mark(Sign::OpenBrace | Sign::Gen | Sign::Get | Sign::Len)) => true,
        Some(Word::Mark(Sign::True | Sign::False)) => true,
        _ => false,
    }
}
