use aql_value::{ArithOp, CompareOp, Str};

/// A list of terms.
#[cycle(core)]
#[derive(Drop)]
pub struct Terms(pub Vec<Core>);

/// A term without names: variable i is the i-th from the innermost binder around it.
///
/// `Let`, `BigUnion` and `Sum` bind one variable in their last part. `Tab` binds one for each
/// bound, the last index being variable 0. `Global(n)` is position n. `Proj` counts from 1.
#[cycle(core)]
#[derive(Drop)]
pub enum Core {
    Var(u64),
    Global(u64),
    Nat(u128),
    Bool(bool),
    Text(Str),
    Bottom,
    Let(Box<Core>, Box<Core>),
    If(Box<Core>, Box<Core>, Box<Core>),
    Default(Box<Core>, Box<Core>),
    Tuple(Terms),
    Proj { at: u64, of: u64, part: Box<Core> },
    Arith(ArithOp, Box<Core>, Box<Core>),
    Compare(CompareOp, Box<Core>, Box<Core>),
    Empty,
    Single(Box<Core>),
    Union(Box<Core>, Box<Core>),
    BigUnion { over: Box<Core>, body: Box<Core> },
    Sum { over: Box<Core>, body: Box<Core> },
    Gen(Box<Core>),
    Get(Box<Core>),
    Tab { bounds: Terms, body: Box<Core> },
    Sub { array: Box<Core>, at: Terms },
    Dim { rank: u64, array: Box<Core> },
    Index { rank: u64, pairs: Box<Core> },
    Literal { dims: Terms, cells: Terms },
}

// A `Core` may be sent to another thread, and lent to several.
fn crosses_threads<T: Send + Sync>(_term: &T) {}

fn core_crosses_threads(term: &Core) {
    crosses_threads(term);
}
