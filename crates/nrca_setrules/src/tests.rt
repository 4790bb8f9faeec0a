//! Tests and defaults.

ghost use Rattle.std.specs.Prelude.{true};
ghost use Rattle.nrca_term.specs.View.{term_of};
ghost use Rattle.nrca_term.specs.declared.trace.Rule.TheVariants.{I1, I2, N1, N2};
ghost use Rattle.nrca_rule_laws.specs.Fitting.{RuleFits, IsRight};

use nrca_term::{Core, open, put};

/// Whether the term is an `if` whose test is a truth value.
pub fn fits_i1(term: &Core) -> bool
    ensures { RuleFits I1 result (term_of term.now) }
{
    match term {
        Core::If(test, _, _) => match **test {
            Core::Bool(_) => true,
            _ => false,
        },
        _ => false,
    }
}

/// The branch that the test takes.
pub fn i1(term: Core) -> Core
    requires { RuleFits I1 true (term_of term) }
    ensures { IsRight I1 (term_of term) (term_of result) }
{
    match term {
        Core::If(test, yes, no) => match Box::into_inner(test) {
            Core::Bool(true) => Box::into_inner(yes),
            Core::Bool(false) => Box::into_inner(no),
            _ => unreachable!(),
        },
        _ => unreachable!(),
    }
}

/// Whether the term is a big union or a sum over an `if` whose second branch is the empty set.
pub fn fits_i2(term: &Core) -> bool
    ensures { RuleFits I2 result (term_of term.now) }
{
    match term {
        Core::BigUnion { over, body: _ } => match &**over {
            Core::If(_, _, other) => match **other {
                Core::Empty => true,
                _ => false,
            },
            _ => false,
        },
        Core::Sum { over, body: _ } => match &**over {
            Core::If(_, _, other) => match **other {
                Core::Empty => true,
                _ => false,
            },
            _ => false,
        },
        _ => false,
    }
}

/// The `if` around the loop, whose second branch is what the loop is over the empty set.
pub fn i2(term: Core) -> Core
    requires { RuleFits I2 true (term_of term) }
    ensures { IsRight I2 (term_of term) (term_of result) }
{
    match term {
        Core::BigUnion { over, body } => {
            let (room, chosen) = open(over);
            match chosen {
                Core::If(test, members, other) => {
                    let inner = put(
                        room,
                        Core::BigUnion {
                            over: members,
                            body,
                        },
                    );
                    let none = put(other, Core::Empty);
                    Core::If(test, inner, none)
                }
                _ => unreachable!(),
            }
        }
        Core::Sum { over, body } => {
            let (room, chosen) = open(over);
            match chosen {
                Core::If(test, members, other) => {
                    let inner = put(
                        room,
                        Core::Sum {
                            over: members,
                            body,
                        },
                    );
                    let none = put(other, Core::Nat(0));
                    Core::If(test, inner, none)
                }
                _ => unreachable!(),
            }
        }
        _ => unreachable!(),
    }
}

/// Whether the term is a default whose first part is Bottom.
pub fn fits_n1(term: &Core) -> bool
    ensures { RuleFits N1 result (term_of term.now) }
{
    match term {
        Core::Default(first, _) => match **first {
            Core::Bottom => true,
            _ => false,
        },
        _ => false,
    }
}

/// The second part.
pub fn n1(term: Core) -> Core
    requires { RuleFits N1 true (term_of term) }
    ensures { IsRight N1 (term_of term) (term_of result) }
{
    match term {
        Core::Default(_, second) => Box::into_inner(second),
        _ => unreachable!(),
    }
}

/// Whether the term is a default. That its first part is defined belongs to the condition.
pub fn fits_n2(term: &Core) -> bool
    ensures { RuleFits N2 result (term_of term.now) }
{
    match term {
        Core::Default(_, _) => true,
        _ => false,
    }
}

/// The first part.
pub fn n2(term: Core) -> Core
    requires { RuleFits N2 true (term_of term) }
    ensures { IsRight N2 (term_of term) (term_of result) }
{
    match term {
        Core::Default(first, _) => Box::into_inner(first),
        _ => unreachable!(),
    }
}
