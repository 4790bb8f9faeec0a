ghost use Rattle.std.specs.Prelude.{◌≡◌};
ghost use Rattle.aql_value.specs.Meaning.{datum};
ghost use Rattle.aql_value.specs.Order.{datum_cmp};
ghost use Rattle.aql_value.specs.Ops.{arith_by, compare_by};

use crate::arith::{add, monus, mul, quotient, remainder};
use crate::order::compare;
use crate::value::Value;
use std::cmp::Ordering;

/// An operation on two naturals. `Monus` is the difference, or 0 where it would be negative.
#[derive(Clone, Copy, Debug, PartialEq, Eq)]
pub enum ArithOp {
    Add,
    Monus,
    Mul,
    Quotient,
    Remainder,
}

/// A comparison of two values by their order.
#[derive(Clone, Copy, Debug, PartialEq, Eq)]
pub enum CompareOp {
    Equal,
    Unequal,
    Less,
    LessEqual,
    Greater,
    GreaterEqual,
}

impl ArithOp {
    /// The number, or none where the operation is undefined.
    pub fn apply(self, a: u128, b: u128) -> Option<u128>
        ensures { result ≡ arith_by self a b }
    {
        match self {
            ArithOp::Add => add(a, b),
            ArithOp::Monus => Some(monus(a, b)),
            ArithOp::Mul => mul(a, b),
            ArithOp::Quotient => quotient(a, b),
            ArithOp::Remainder => remainder(a, b),
        }
    }
}

impl CompareOp {
    /// Whether the comparison holds of two values.
    pub fn holds(self, a: &Value, b: &Value) -> bool
        ensures { result ≡ compare_by self (datum_cmp (datum a.now) (datum b.now)) }
    {
        let order = compare(a, b);
        match self {
            CompareOp::Equal => order == Ordering::Equal,
            CompareOp::Unequal => order != Ordering::Equal,
            CompareOp::Less => order == Ordering::Less,
            CompareOp::LessEqual => order != Ordering::Greater,
            CompareOp::Greater => order == Ordering::Greater,
            CompareOp::GreaterEqual => order != Ordering::Less,
        }
    }
}
