//! Operations on constants.

ghost use Rattle.std.specs.Prelude.{true, ◌≡◌, ◌↔◌, IsTrue};
ghost use Rattle.std.specs.Option.{option_map};
ghost use Rattle.aql_value.specs.Meaning.{datum};
ghost use Rattle.nrca_term.specs.View.{term_of, terms_of};
ghost use Rattle.nrca_term.specs.Nodes.{number, empty_term};
ghost use Rattle.nrca_term.specs.declared.trace.Rule.TheVariants.{K1};
ghost use Rattle.nrca_term.specs.Rules.{number_or_bottom};
ghost use Rattle.nrca_rule_laws.specs.Fitting.{RuleFits, IsRight};
ghost use Rattle.nrca_setrules.specs.Constants.{AreNumbers, AreAlike, constant_of, Computes, Compares};
ghost use Rattle.nrca_setrules.specs.Constants.{IsMisshapen};

use aql_value::{ArithOp, CompareOp, Value};
use nrca_term::{Core, Terms, cell_count};

/// Whether the term is an operation on two numbers, a comparison of two numbers, truth values or
/// strings, the numbers below 0, the member of the empty set, or a literal array whose dimensions
/// are numbers and whose cells are not as many as these say.
pub fn fits_k1(term: &Core) -> bool
    ensures { RuleFits K1 result (term_of term.now) }
{
    match term {
        Core::Arith(_, left, right) => {
            let constant = are_numbers(left, right);
            constant
        }
        Core::Compare(_, left, right) => {
            let constant = are_alike(left, right);
            constant
        }
        Core::Gen(bound) => {
            let zero = is_zero(bound);
            zero
        }
        Core::Get(set) => {
            let empty = is_empty(set);
            empty
        }
        Core::Literal { dims, cells } => {
            let wrong = is_misshapen(dims, cells);
            wrong
        }
        _ => false,
    }
}

/// What the operation makes of its constants: Bottom where it is undefined, as the member of the
/// empty set and such a literal are.
pub fn k1(term: Core) -> Core
    requires { RuleFits K1 true (term_of term) }
    ensures { IsRight K1 (term_of term) (term_of result) }
{
    match term {
        Core::Arith(op, left, right) => {
            let number = compute(op, &left, &right);
            number
        }
        Core::Compare(op, left, right) => {
            let truth = compare_constants(op, Box::into_inner(left), Box::into_inner(right));
            truth
        }
        Core::Gen(_) => Core::Empty,
        Core::Get(_) => Core::Bottom,
        Core::Literal { dims: _, cells: _ } => Core::Bottom,
        _ => unreachable!(),
    }
}

// Whether both terms are numbers.
fn are_numbers(left: &Core, right: &Core) -> bool
    ensures { IsTrue result ↔ AreNumbers (term_of left.now) (term_of right.now) }
{
    match left {
        Core::Nat(_) => match right {
            Core::Nat(_) => true,
            _ => false,
        },
        _ => false,
    }
}

// Whether both terms are numbers, or truth values, or strings.
fn are_alike(left: &Core, right: &Core) -> bool
    ensures { IsTrue result ↔ AreAlike (term_of left.now) (term_of right.now) }
{
    match left {
        Core::Nat(_) => match right {
            Core::Nat(_) => true,
            _ => false,
        },
        Core::Bool(_) => match right {
            Core::Bool(_) => true,
            _ => false,
        },
        Core::Text(_) => match right {
            Core::Text(_) => true,
            _ => false,
        },
        _ => false,
    }
}

// Whether the term is the number 0.
fn is_zero(term: &Core) -> bool
    ensures { IsTrue result ↔ (term_of term.now ≡ number 0) }
{
    match term {
        Core::Nat(0) => true,
        _ => false,
    }
}

// Whether the term is the empty set.
fn is_empty(term: &Core) -> bool
    ensures { IsTrue result ↔ (term_of term.now ≡ empty_term) }
{
    match term {
        Core::Empty => true,
        _ => false,
    }
}

// Whether the dimensions are numbers, and the cells not as many as their product.
fn is_misshapen(dims: &Terms, cells: &Terms) -> bool
    ensures { IsTrue result ↔ IsMisshapen (terms_of dims.now) (terms_of cells.now) }
{
    match cell_count(dims) {
        Some(product) => {
            let wrong = differ(product, cells.0.len() as u64);
            wrong
        }
        None => false,
    }
}

// Whether product and cells are not equally many.
fn differ(product: u128, cells: u64) -> bool
    ensures { IsTrue result ↔ (product ≡ cells → ⊥) }
{
    product != cells as u128
}

// What the operation makes of two numbers: Bottom where it is undefined, and of other terms.
fn compute(op: ArithOp, left: &Core, right: &Core) -> Core
    ensures { Computes op (term_of left.now) (term_of right.now) (term_of result) }
{
    match left.number() {
        Some(m) => match right.number() {
            Some(n) => {
                let number = op.apply(m, n);
                as_number(number)
            }
            None => Core::Bottom,
        },
        None => Core::Bottom,
    }
}

// The number as a term, and Bottom for none.
fn as_number(number: Option<u128>) -> Core
    ensures { term_of result ≡ number_or_bottom number }
{
    match number {
        Some(n) => Core::Nat(n),
        None => Core::Bottom,
    }
}

// Whether the comparison holds of two constants; Bottom of other terms.
fn compare_constants(op: CompareOp, left: Core, right: Core) -> Core
    ensures { Compares op (term_of left) (term_of right) (term_of result) }
{
    match constant(left) {
        Some(a) => match constant(right) {
            Some(b) => {
                let truth = op.holds(&a, &b);
                Core::Bool(truth)
            }
            None => Core::Bottom,
        },
        None => Core::Bottom,
    }
}

// The value of a number, a truth value or a string.
fn constant(term: Core) -> Option<Value>
    ensures { option_map datum result ≡ constant_of (term_of term) }
{
    match term {
        Core::Nat(n) => Some(Value::Nat(n)),
        Core::Bool(b) => Some(Value::Bool(b)),
        Core::Text(s) => Some(Value::Text(s)),
        _ => None,
    }
}
