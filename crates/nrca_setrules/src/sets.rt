//! Loops over sets, unions, and the member of a set.

ghost use Rattle.std.specs.Prelude.{true};
ghost use Rattle.nrca_term.specs.View.{term_of};
ghost use Rattle.nrca_term.specs.declared.trace.Rule.TheVariants.{S1, S2, S3, S4, S5, S6, S7, S8, S9};
ghost use Rattle.nrca_rule_laws.specs.Fitting.{RuleFits, IsSmallPart, IsRight};

use crate::boxes::shift_body;
use nrca_term::{Core, open, put};

/// Whether the term is a big union over the empty set.
pub fn fits_s1(term: &Core) -> bool
    ensures { RuleFits S1 result (term_of term.now) }
{
    match term {
        Core::BigUnion { over, body: _ } => match **over {
            Core::Empty => true,
            _ => false,
        },
        _ => false,
    }
}

/// The empty set.
pub fn s1(_term: Core) -> Core
    requires { RuleFits S1 true (term_of _term) }
    ensures { IsRight S1 (term_of _term) (term_of result) }
{
    Core::Empty
}

/// Whether the term is a big union over a set of one member.
pub fn fits_s2(term: &Core) -> bool
    ensures { RuleFits S2 result (term_of term.now) }
{
    match term {
        Core::BigUnion { over, body: _ } => match **over {
            Core::Single(_) => true,
            _ => false,
        },
        _ => false,
    }
}

/// The body under a let of the member.
pub fn s2(term: Core) -> Core
    requires { RuleFits S2 true (term_of term) }
    ensures { IsRight S2 (term_of term) (term_of result) }
{
    match term {
        Core::BigUnion { over, body } => match Box::into_inner(over) {
            Core::Single(member) => Core::Let(member, body),
            _ => unreachable!(),
        },
        _ => unreachable!(),
    }
}

/// Whether the term is a big union over a big union.
pub fn fits_s3(term: &Core) -> bool
    ensures { RuleFits S3 result (term_of term.now) }
{
    match term {
        Core::BigUnion { over, body: _ } => match **over {
            Core::BigUnion { over: _, body: _ } => true,
            _ => false,
        },
        _ => false,
    }
}

/// Of the big union with body b over the big union over e of m: the big union over e of the big union over m of b, shifted.
pub fn s3(term: Core) -> Core
    requires fits { RuleFits S3 true (term_of term) }
    requires inside { IsSmallPart (term_of term) }
    ensures { IsRight S3 (term_of term) (term_of result) }
{
    match term {
        Core::BigUnion { over, body } => {
            let (room, inner) = open(over);
            match inner {
                Core::BigUnion {
                    over: outer,
                    body: members,
                } => {
                    let deeper = shift_body(body);
                    let each = put(
                        room,
                        Core::BigUnion {
                            over: members,
                            body: deeper,
                        },
                    );
                    Core::BigUnion {
                        over: outer,
                        body: each,
                    }
                }
                _ => unreachable!(),
            }
        }
        _ => unreachable!(),
    }
}

/// Whether the term is a sum over the empty set.
pub fn fits_s4(term: &Core) -> bool
    ensures { RuleFits S4 result (term_of term.now) }
{
    match term {
        Core::Sum { over, body: _ } => match **over {
            Core::Empty => true,
            _ => false,
        },
        _ => false,
    }
}

/// Zero.
pub fn s4(_term: Core) -> Core
    requires { RuleFits S4 true (term_of _term) }
    ensures { IsRight S4 (term_of _term) (term_of result) }
{
    Core::Nat(0)
}

/// Whether the term is a sum over a set of one member.
pub fn fits_s5(term: &Core) -> bool
    ensures { RuleFits S5 result (term_of term.now) }
{
    match term {
        Core::Sum { over, body: _ } => match **over {
            Core::Single(_) => true,
            _ => false,
        },
        _ => false,
    }
}

/// The body under a let of the member.
pub fn s5(term: Core) -> Core
    requires { RuleFits S5 true (term_of term) }
    ensures { IsRight S5 (term_of term) (term_of result) }
{
    match term {
        Core::Sum { over, body } => match Box::into_inner(over) {
            Core::Single(member) => Core::Let(member, body),
            _ => unreachable!(),
        },
        _ => unreachable!(),
    }
}

/// Whether the term is a big union whose body is the set of its variable alone.
pub fn fits_s6(term: &Core) -> bool
    ensures { RuleFits S6 result (term_of term.now) }
{
    match term {
        Core::BigUnion { over: _, body } => match &**body {
            Core::Single(member) => match **member {
                Core::Var(0) => true,
                _ => false,
            },
            _ => false,
        },
        _ => false,
    }
}

/// The set over which it is.
pub fn s6(term: Core) -> Core
    requires { RuleFits S6 true (term_of term) }
    ensures { IsRight S6 (term_of term) (term_of result) }
{
    match term {
        Core::BigUnion { over, body: _ } => Box::into_inner(over),
        _ => unreachable!(),
    }
}

/// Whether the term is a union with the empty set, on either side.
pub fn fits_s7(term: &Core) -> bool
    ensures { RuleFits S7 result (term_of term.now) }
{
    match term {
        Core::Union(left, right) => match **right {
            Core::Empty => true,
            _ => match **left {
                Core::Empty => true,
                _ => false,
            },
        },
        _ => false,
    }
}

/// The other set; the left one where both are empty.
pub fn s7(term: Core) -> Core
    requires { RuleFits S7 true (term_of term) }
    ensures { IsRight S7 (term_of term) (term_of result) }
{
    match term {
        Core::Union(left, right) => match *right {
            Core::Empty => Box::into_inner(left),
            _ => match *left {
                Core::Empty => Box::into_inner(right),
                _ => unreachable!(),
            },
        },
        _ => unreachable!(),
    }
}

/// Whether the term takes the member of a set of one member.
pub fn fits_s8(term: &Core) -> bool
    ensures { RuleFits S8 result (term_of term.now) }
{
    match term {
        Core::Get(part) => match **part {
            Core::Single(_) => true,
            _ => false,
        },
        _ => false,
    }
}

/// The member.
pub fn s8(term: Core) -> Core
    requires { RuleFits S8 true (term_of term) }
    ensures { IsRight S8 (term_of term) (term_of result) }
{
    match term {
        Core::Get(part) => match Box::into_inner(part) {
            Core::Single(member) => Box::into_inner(member),
            _ => unreachable!(),
        },
        _ => unreachable!(),
    }
}

/// Whether the term is a big union or a sum over a let.
pub fn fits_s9(term: &Core) -> bool
    ensures { RuleFits S9 result (term_of term.now) }
{
    match term {
        Core::BigUnion { over, body: _ } => match **over {
            Core::Let(_, _) => true,
            _ => false,
        },
        Core::Sum { over, body: _ } => match **over {
            Core::Let(_, _) => true,
            _ => false,
        },
        _ => false,
    }
}

/// The let around the loop, whose body is shifted.
pub fn s9(term: Core) -> Core
    requires fits { RuleFits S9 true (term_of term) }
    requires inside { IsSmallPart (term_of term) }
    ensures { IsRight S9 (term_of term) (term_of result) }
{
    match term {
        Core::BigUnion { over, body } => {
            let (room, inner) = open(over);
            match inner {
                Core::Let(bound, members) => {
                    let deeper = shift_body(body);
                    let each = put(
                        room,
                        Core::BigUnion {
                            over: members,
                            body: deeper,
                        },
                    );
                    Core::Let(bound, each)
                }
                _ => unreachable!(),
            }
        }
        Core::Sum { over, body } => {
            let (room, inner) = open(over);
            match inner {
                Core::Let(bound, members) => {
                    let deeper = shift_body(body);
                    let each = put(
                        room,
                        Core::Sum {
                            over: members,
                            body: deeper,
                        },
                    );
                    Core::Let(bound, each)
                }
                _ => unreachable!(),
            }
        }
        _ => unreachable!(),
    }
}
