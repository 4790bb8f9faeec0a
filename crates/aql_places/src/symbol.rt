//! The symbols of the grammar.

use aql_syntax::sign::Sign;

/// A symbol of the rules: a token, a part of a script, or what is left of one behind a part of it.
#[derive(Clone, Copy, Debug, PartialEq, Eq)]
pub enum Symbol {
    /// That reserved word or sign.
    Mark(Sign),
    /// A name.
    Name,
    /// The name of a reader.
    Reader,
    /// The token that stands there, whichever it is.
    Next,
    /// The end of a part.
    End,
    /// What is read so far begins a generator or a match, and no test.
    Settled,
    /// The names of the pattern that was read are bound.
    Binds,
    /// The names of the last pattern are seen from here on.
    Seen,
    /// No name that was bound since the part began is seen from here on.
    Unseen,
    /// The same, and the names are seen in what stands before the bar.
    UnseenRow,
    Script,
    Declaration,
    Expression,
    /// `default` and an expression, or nothing.
    Otherwise,
    Or,
    Ors,
    And,
    Ands,
    Not,
    Comparison,
    /// A sign that compares and the other side, or nothing.
    Compared,
    Union,
    Unions,
    Sum,
    Terms,
    Product,
    Factors,
    Application,
    /// Behind a name: its argument, or nothing.
    Named,
    /// `fn`, a pattern, `=>`, an expression, `)`, `!` and the argument.
    Function,
    /// A pattern, `=>` and an expression.
    Lambda,
    /// Behind `(`.
    Enclosed,
    /// Behind the first expression in parentheses.
    Grouped,
    /// Behind `{`.
    Braced,
    /// Behind the first expression in braces.
    Members,
    /// Behind the first expression in double brackets.
    Bracketed,
    /// The bounds of a tabulation.
    Bounds,
    Cells,
    Bindings,
    Subscripts,
    /// Commas, each with an expression.
    Expressions,
    /// At most one comma with an expression.
    OneMore,
    Bound,
    /// At most one comma with a bound.
    OneMoreBound,
    /// The end of a list that has eight items at most.
    Enough,
    /// The qualifiers of a comprehension.
    Row,
    Qualifier,
    Qualifiers,
    /// `<-` or `==`.
    From,
    Pattern,
    /// Behind the first pattern in parentheses.
    Patterned,
    Patterns,
}
