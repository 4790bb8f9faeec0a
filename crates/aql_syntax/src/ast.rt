//! Expressions, patterns, qualifiers and declarations.

use aql_value::{ArithOp, CompareOp, Str};

/// An expression. Parentheses around one expression have no variant.
#[derive(Drop)]
#[cycle(ast)]
pub enum Expr {
    Nat(u128),
    Bool(bool),
    Text(Str),
    Name(Str),
    /// A tuple of two or more parts.
    Row(Exprs),
    Empty,
    /// A set of one or more members.
    Members(Exprs),
    Comp {
        head: Box<Expr>,
        quals: Quals,
    },
    Tab {
        body: Box<Expr>,
        binds: Binds,
    },
    Literal {
        dims: Exprs,
        cells: Exprs,
    },
    Let {
        binds: Lets,
        body: Box<Expr>,
    },
    Sub {
        array: Box<Expr>,
        at: Exprs,
    },
    If(Box<Expr>, Box<Expr>, Box<Expr>),
    And(Box<Expr>, Box<Expr>),
    Or(Box<Expr>, Box<Expr>),
    Not(Box<Expr>),
    Compare(CompareOp, Box<Expr>, Box<Expr>),
    Arith(ArithOp, Box<Expr>, Box<Expr>),
    Union(Box<Expr>, Box<Expr>),
    Gen(Box<Expr>),
    Get(Box<Expr>),
    Len(Box<Expr>),
    Dim {
        rank: u64,
        array: Box<Expr>,
    },
    Index {
        rank: u64,
        pairs: Box<Expr>,
    },
    /// The application of a macro.
    Apply {
        name: Str,
        argument: Box<Expr>,
    },
    /// The application of a function written in place.
    Fun {
        pattern: Pattern,
        body: Box<Expr>,
        argument: Box<Expr>,
    },
    SumMap {
        pattern: Pattern,
        body: Box<Expr>,
        over: Box<Expr>,
    },
    Default(Box<Expr>, Box<Expr>),
}

/// A list of expressions.
#[derive(Drop)]
#[cycle(ast)]
pub struct Exprs {
    pub items: Vec<Expr>,
}

/// A qualifier of a comprehension: a generator over a set, one over an array, a match, or a test.
#[derive(Drop)]
#[cycle(ast)]
pub enum Qual {
    From {
        pattern: Pattern,
        over: Expr,
    },
    Cells {
        index: Pattern,
        cell: Pattern,
        over: Expr,
    },
    Match {
        pattern: Pattern,
        of: Expr,
    },
    Test(Expr),
}

/// The qualifiers of a comprehension, from left to right.
#[derive(Drop)]
#[cycle(ast)]
pub struct Quals {
    pub items: Vec<Qual>,
}

/// An index of a tabulation and its bound.
#[derive(Drop)]
#[cycle(ast)]
pub struct Bind {
    pub name: Str,
    pub bound: Expr,
}

/// The indices of a tabulation, the first the outermost.
#[derive(Drop)]
#[cycle(ast)]
pub struct Binds {
    pub items: Vec<Bind>,
}

/// One binding of a let.
#[derive(Drop)]
#[cycle(ast)]
pub struct LetBind {
    pub pattern: Pattern,
    pub expr: Expr,
}

/// The bindings of a let, nested in order.
#[derive(Drop)]
#[cycle(ast)]
pub struct Lets {
    pub items: Vec<LetBind>,
}

/// A pattern. Parentheses around one pattern have no variant.
#[derive(Drop)]
#[cycle(pattern)]
pub enum Pattern {
    Bind(Str),
    Any,
    Nat(u128),
    Bool(bool),
    Text(Str),
    Name(Str),
    Row(Patterns),
}

/// A list of patterns.
#[derive(Drop)]
#[cycle(pattern)]
pub struct Patterns {
    pub items: Vec<Pattern>,
}

/// A declaration. A bare expression binds `it`.
#[derive(Drop)]
pub enum Decl {
    Val {
        name: Str,
        expr: Expr,
    },
    Macro {
        name: Str,
        pattern: Pattern,
        body: Expr,
    },
    Read {
        name: Str,
        reader: Reader,
        expr: Expr,
    },
    Bare {
        expr: Expr,
    },
}

/// Declarations in order.
#[derive(Drop)]
pub struct Decls {
    pub items: Vec<Decl>,
}

/// How a file is read: `NETCDFk`, `NETCDFZk`, `NETCDFSk`, or a file of records.
#[derive(Drop)]
pub enum Reader {
    Plain { rank: u64 },
    Signed { rank: u64 },
    Strided { rank: u64 },
    Csv(CsvReader),
}

/// `CSV` or `CSVH`, followed by a letter for each field.
#[derive(Drop)]
pub struct CsvReader {
    pub header: bool,
    pub kinds: Kinds,
}

/// The kinds of a record's fields, 1 to 8.
#[derive(Drop)]
pub struct Kinds {
    pub items: Vec<Kind>,
}

/// A field is a number, `N`, or a string, `S`.
#[derive(Clone, Copy, Debug, PartialEq, Eq)]
pub enum Kind {
    Number,
    Bytes,
}
