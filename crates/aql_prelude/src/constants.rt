//! Trees that are constants: their parts stand behind references, where the trees of the language own them.
//!
//! They have the forms of which the prelude is made, and no other. The definitions `tree_of_constant` and the like say which tree each is.

use aql_syntax::nodes::{Operation, Operator};

/// A pattern.
pub(crate) enum ConstPattern<'a> {
    Any,
    Bind(&'a [u8]),
    Name(&'a [u8]),
    Pair(&'a ConstPattern<'a>, &'a ConstPattern<'a>),
    Triple(&'a ConstPattern<'a>, &'a ConstPattern<'a>, &'a ConstPattern<'a>),
}

/// An expression.
#[cycle(constant)]
pub(crate) enum ConstExpr<'a> {
    Name(&'a [u8]),
    Nat(u128),
    Empty,
    /// A tuple of two parts.
    Pair(&'a ConstExpr<'a>, &'a ConstExpr<'a>),
    Operator(Operator, &'a ConstExpr<'a>, &'a ConstExpr<'a>),
    Operation(Operation, &'a ConstExpr<'a>),
    Not(&'a ConstExpr<'a>),
    If(&'a ConstExpr<'a>, &'a ConstExpr<'a>, &'a ConstExpr<'a>),
    /// A macro applied.
    Apply(&'a [u8], &'a ConstExpr<'a>),
    /// The sum of a body over a set.
    Sum(ConstPattern<'a>, &'a ConstExpr<'a>, &'a ConstExpr<'a>),
    /// A comprehension of one qualifier.
    Comp(&'a ConstExpr<'a>, &'a ConstQual<'a>),
    /// A comprehension of two.
    CompOfTwo(&'a ConstExpr<'a>, &'a ConstQual<'a>, &'a ConstQual<'a>),
    /// A tabulation of one index, below its bound.
    Tab(&'a ConstExpr<'a>, &'a [u8], &'a ConstExpr<'a>),
    /// A tabulation of two, each before its bound.
    TabOfTwo(&'a ConstExpr<'a>, &'a [u8], &'a ConstExpr<'a>, &'a [u8], &'a ConstExpr<'a>),
    /// A cell of an array of one dimension.
    Cell(&'a ConstExpr<'a>, &'a ConstExpr<'a>),
    /// A cell of an array of two.
    CellOfTwo(&'a ConstExpr<'a>, &'a ConstExpr<'a>, &'a ConstExpr<'a>),
}

/// A qualifier.
#[cycle(constant)]
pub(crate) enum ConstQual<'a> {
    From(ConstPattern<'a>, &'a ConstExpr<'a>),
    /// The index, the cell and the array that they are of.
    Cells(ConstPattern<'a>, ConstPattern<'a>, &'a ConstExpr<'a>),
    Test(&'a ConstExpr<'a>),
}

/// The declaration of a macro.
pub(crate) struct ConstMacro<'a> {
    pub(crate) name: &'a [u8],
    pub(crate) pattern: ConstPattern<'a>,
    pub(crate) body: ConstExpr<'a>,
}
