//! The 24 macros as constants, each under its text.

use crate::constants::ConstExpr::{
    self, Apply, Cell, CellOfTwo, Comp, CompOfTwo, Empty, If, Name, Nat, Not, Pair, Sum, Tab,
    TabOfTwo,
};
use crate::constants::{ConstMacro, ConstPattern, ConstQual};
use aql_syntax::nodes::{Operation, Operator};
use aql_value::{ArithOp, CompareOp};

/// The macros, in order.
pub(crate) const MACROS: [ConstMacro<'static>; 24] = [
    FST, SND, ISEMPTY, MEMBER, COUNT, TOTAL, INTER, MINUS, SUBSET, PRODUCT, FLATTEN, LEAST,
    GREATEST, MIN2, MAX2, RANGE, DOMAIN, CELLS, GRAPH, REVERSE, SUBSEQ, APPEND, TRANSPOSE, ZIP,
];

const A: ConstExpr<'static> = Name(b"a");

const B: ConstExpr<'static> = Name(b"b");

const I: ConstExpr<'static> = Name(b"i");

const J: ConstExpr<'static> = Name(b"j");

const S: ConstExpr<'static> = Name(b"s");

const T: ConstExpr<'static> = Name(b"t");

const X: ConstExpr<'static> = Name(b"x");

const Y: ConstExpr<'static> = Name(b"y");

const ONE: ConstExpr<'static> = Nat(1);

const LENGTH: Operation = Operation::Dim(1);

const LENGTH_OF_A: ConstExpr<'static> = ConstExpr::Operation(LENGTH, &A);

const LENGTH_OF_B: ConstExpr<'static> = ConstExpr::Operation(LENGTH, &B);

const EQUAL: Operator = Operator::Compare(CompareOp::Equal);

const LESS: Operator = Operator::Compare(CompareOp::Less);

const GREATER: Operator = Operator::Compare(CompareOp::Greater);

const PLUS: Operator = Operator::Arith(ArithOp::Add);

const MINUS_SIGN: Operator = Operator::Arith(ArithOp::Monus);

const BIND_A: ConstPattern<'static> = ConstPattern::Bind(b"a");

const BIND_I: ConstPattern<'static> = ConstPattern::Bind(b"i");

const BIND_S: ConstPattern<'static> = ConstPattern::Bind(b"s");

const BIND_T: ConstPattern<'static> = ConstPattern::Bind(b"t");

const BIND_X: ConstPattern<'static> = ConstPattern::Bind(b"x");

const BIND_Y: ConstPattern<'static> = ConstPattern::Bind(b"y");

const BIND_A_AND_B: ConstPattern<'static> = ConstPattern::Pair(&BIND_A, &ConstPattern::Bind(b"b"));

const BIND_S_AND_T: ConstPattern<'static> = ConstPattern::Pair(&BIND_S, &BIND_T);

const X_OF_S: ConstQual<'static> = ConstQual::From(BIND_X, &S);

const Y_OF_S: ConstQual<'static> = ConstQual::From(BIND_Y, &S);

// macro \fst = fn (\x,_) => x;
const FST: ConstMacro<'static> = ConstMacro {
    name: b"fst",
    pattern: ConstPattern::Pair(&BIND_X, &ConstPattern::Any),
    body: X,
};

// macro \snd = fn (_,\y) => y;
const SND: ConstMacro<'static> = ConstMacro {
    name: b"snd",
    pattern: ConstPattern::Pair(&ConstPattern::Any, &BIND_Y),
    body: Y,
};

// macro \isempty = fn \s => s = {};
const ISEMPTY: ConstMacro<'static> = ConstMacro {
    name: b"isempty",
    pattern: BIND_S,
    body: ConstExpr::Operator(EQUAL, &S, &Empty),
};

// macro \member = fn (\x,\s) => not ({1 | x <- s} = {});
const MEMBER: ConstMacro<'static> = ConstMacro {
    name: b"member",
    pattern: ConstPattern::Pair(&BIND_X, &BIND_S),
    body: Not(&ConstExpr::Operator(
        EQUAL,
        &Comp(&ONE, &ConstQual::From(ConstPattern::Name(b"x"), &S)),
        &Empty,
    )),
};

// macro \count = fn \s => summap(fn _ => 1)!(s);
const COUNT: ConstMacro<'static> = ConstMacro {
    name: b"count",
    pattern: BIND_S,
    body: Sum(ConstPattern::Any, &ONE, &S),
};

// macro \total = fn \s => summap(fn \x => x)!(s);
const TOTAL: ConstMacro<'static> = ConstMacro {
    name: b"total",
    pattern: BIND_S,
    body: Sum(BIND_X, &X, &S),
};

// macro \inter = fn (\s,\t) => {x | \x <- s, x <- t};
const INTER: ConstMacro<'static> = ConstMacro {
    name: b"inter",
    pattern: BIND_S_AND_T,
    body: CompOfTwo(&X, &X_OF_S, &ConstQual::From(ConstPattern::Name(b"x"), &T)),
};

// macro \minus = fn (\s,\t) => {x | \x <- s, not (member!(x,t))};
const MINUS: ConstMacro<'static> = ConstMacro {
    name: b"minus",
    pattern: BIND_S_AND_T,
    body: CompOfTwo(
        &X,
        &X_OF_S,
        &ConstQual::Test(&Not(&Apply(b"member", &Pair(&X, &T)))),
    ),
};

// macro \subset = fn (\s,\t) => minus!(s,t) = {};
const SUBSET: ConstMacro<'static> = ConstMacro {
    name: b"subset",
    pattern: BIND_S_AND_T,
    body: ConstExpr::Operator(EQUAL, &Apply(b"minus", &Pair(&S, &T)), &Empty),
};

// macro \product = fn (\s,\t) => {(x,y) | \x <- s, \y <- t};
const PRODUCT: ConstMacro<'static> = ConstMacro {
    name: b"product",
    pattern: BIND_S_AND_T,
    body: CompOfTwo(&Pair(&X, &Y), &X_OF_S, &ConstQual::From(BIND_Y, &T)),
};

// macro \flatten = fn \s => {x | \t <- s, \x <- t};
const FLATTEN: ConstMacro<'static> = ConstMacro {
    name: b"flatten",
    pattern: BIND_S,
    body: CompOfTwo(
        &X,
        &ConstQual::From(BIND_T, &S),
        &ConstQual::From(BIND_X, &T),
    ),
};

// macro \least = fn \s => get!({x | \x <- s, {1 | \y <- s, y < x} = {}});
const LEAST: ConstMacro<'static> = ConstMacro {
    name: b"least",
    pattern: BIND_S,
    body: ConstExpr::Operation(
        Operation::Get,
        &CompOfTwo(
            &X,
            &X_OF_S,
            &ConstQual::Test(&ConstExpr::Operator(
                EQUAL,
                &CompOfTwo(
                    &ONE,
                    &Y_OF_S,
                    &ConstQual::Test(&ConstExpr::Operator(LESS, &Y, &X)),
                ),
                &Empty,
            )),
        ),
    ),
};

// macro \greatest = fn \s => get!({x | \x <- s, {1 | \y <- s, y > x} = {}});
const GREATEST: ConstMacro<'static> = ConstMacro {
    name: b"greatest",
    pattern: BIND_S,
    body: ConstExpr::Operation(
        Operation::Get,
        &CompOfTwo(
            &X,
            &X_OF_S,
            &ConstQual::Test(&ConstExpr::Operator(
                EQUAL,
                &CompOfTwo(
                    &ONE,
                    &Y_OF_S,
                    &ConstQual::Test(&ConstExpr::Operator(GREATER, &Y, &X)),
                ),
                &Empty,
            )),
        ),
    ),
};

// macro \min2 = fn (\a,\b) => if a < b then a else b;
const MIN2: ConstMacro<'static> = ConstMacro {
    name: b"min2",
    pattern: BIND_A_AND_B,
    body: If(&ConstExpr::Operator(LESS, &A, &B), &A, &B),
};

// macro \max2 = fn (\a,\b) => if a < b then b else a;
const MAX2: ConstMacro<'static> = ConstMacro {
    name: b"max2",
    pattern: BIND_A_AND_B,
    body: If(&ConstExpr::Operator(LESS, &A, &B), &B, &A),
};

// macro \range = fn (\a,\b) => {a+i | \i <- gen!(b-a)};
const RANGE: ConstMacro<'static> = ConstMacro {
    name: b"range",
    pattern: BIND_A_AND_B,
    body: Comp(
        &ConstExpr::Operator(PLUS, &A, &I),
        &ConstQual::From(
            BIND_I,
            &ConstExpr::Operation(Operation::Gen, &ConstExpr::Operator(MINUS_SIGN, &B, &A)),
        ),
    ),
};

// macro \domain = fn \a => gen!(len!a);
const DOMAIN: ConstMacro<'static> = ConstMacro {
    name: b"domain",
    pattern: BIND_A,
    body: ConstExpr::Operation(Operation::Gen, &LENGTH_OF_A),
};

// macro \cells = fn \a => {x | [_:\x] <- a};
const CELLS: ConstMacro<'static> = ConstMacro {
    name: b"cells",
    pattern: BIND_A,
    body: Comp(&X, &ConstQual::Cells(ConstPattern::Any, BIND_X, &A)),
};

// macro \graph = fn \a => {(i,x) | [\i:\x] <- a};
const GRAPH: ConstMacro<'static> = ConstMacro {
    name: b"graph",
    pattern: BIND_A,
    body: Comp(&Pair(&I, &X), &ConstQual::Cells(BIND_I, BIND_X, &A)),
};

// macro \reverse = fn \a => [[a[len!a-i-1] | \i<len!a]];
const REVERSE: ConstMacro<'static> = ConstMacro {
    name: b"reverse",
    pattern: BIND_A,
    body: Tab(
        &Cell(
            &A,
            &ConstExpr::Operator(
                MINUS_SIGN,
                &ConstExpr::Operator(MINUS_SIGN, &LENGTH_OF_A, &I),
                &ONE,
            ),
        ),
        b"i",
        &LENGTH_OF_A,
    ),
};

// macro \subseq = fn (\a,\s,\n) => [[a[s+i] | \i<n]];
const SUBSEQ: ConstMacro<'static> = ConstMacro {
    name: b"subseq",
    pattern: ConstPattern::Triple(&BIND_A, &BIND_S, &ConstPattern::Bind(b"n")),
    body: Tab(
        &Cell(&A, &ConstExpr::Operator(PLUS, &S, &I)),
        b"i",
        &Name(b"n"),
    ),
};

// macro \append = fn (\a,\b) => [[if i < len!a then a[i] else b[i-len!a] | \i<len!a+len!b]];
const APPEND: ConstMacro<'static> = ConstMacro {
    name: b"append",
    pattern: BIND_A_AND_B,
    body: Tab(
        &If(
            &ConstExpr::Operator(LESS, &I, &LENGTH_OF_A),
            &Cell(&A, &I),
            &Cell(&B, &ConstExpr::Operator(MINUS_SIGN, &I, &LENGTH_OF_A)),
        ),
        b"i",
        &ConstExpr::Operator(PLUS, &LENGTH_OF_A, &LENGTH_OF_B),
    ),
};

// macro \transpose = fn \a => [[a[j,i] | \i<snd!(dim_2!a), \j<fst!(dim_2!a)]];
const TRANSPOSE: ConstMacro<'static> = ConstMacro {
    name: b"transpose",
    pattern: BIND_A,
    body: TabOfTwo(
        &CellOfTwo(&A, &J, &I),
        b"i",
        &Apply(b"snd", &ConstExpr::Operation(Operation::Dim(2), &A)),
        b"j",
        &Apply(b"fst", &ConstExpr::Operation(Operation::Dim(2), &A)),
    ),
};

// macro \zip = fn (\a,\b) => [[(a[i],b[i]) | \i<min2!(len!a,len!b)]];
const ZIP: ConstMacro<'static> = ConstMacro {
    name: b"zip",
    pattern: BIND_A_AND_B,
    body: Tab(
        &Pair(&Cell(&A, &I), &Cell(&B, &I)),
        b"i",
        &Apply(b"min2", &Pair(&LENGTH_OF_A, &LENGTH_OF_B)),
    ),
};
