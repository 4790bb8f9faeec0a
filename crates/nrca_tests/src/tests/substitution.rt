ghost use Rattle.std.specs.Prelude.{◌≡◌, IfOk};
ghost use Rattle.nrca_term.specs.Nodes.{gen_term, sum_term};
ghost use Rattle.nrca_term.specs.View.{term_of};

use crate::tests::same::assert_same;
use aql_value::Memory;
use aql_value::made::{both, make_box, make_boxes};
use nrca_subst::{same, same_shifted, shift, subst, uses};
use nrca_term::Core;
use std::alloc::Global;

fn numbers_below(alloc: Global, number: Core) -> Result<Core, Memory>
    ensures { IfOk result (λ t. term_of t ≡ gen_term (term_of number)) }
{
    Ok(Core::Gen(make_box(alloc, Ok(number))?))
}

fn sum(alloc: Global, number: Core, body: Core) -> Result<Core, Memory>
    ensures { IfOk result (λ t. term_of t ≡ sum_term (gen_term (term_of number)) (term_of body)) }
{
    let (over, body) = make_boxes(alloc, numbers_below(alloc, number), Ok(body))?;
    Ok(Core::Sum { over, body })
}

fn substitute_case(alloc: Global) -> Result<Core, Memory> {
    let term = sum(alloc, Core::Var(0), Core::Var(1))?;
    subst(alloc, term, 0, &Core::Var(0))
}

fn shift_case(alloc: Global) -> Result<Core, Memory> {
    let term = sum(alloc, Core::Var(3), Core::Var(0))?;
    Ok(shift(term, 0, 2))
}

// What is to come of `substitute_case`: the term that is put in below the sum's variable is shifted past it.
fn put_in(alloc: Global) -> Result<Core, Memory> {
    sum(alloc, Core::Var(0), Core::Var(1))
}

// What is to come of `shift_case`: the sum's own variable stays.
fn move_case(alloc: Global) -> Result<Core, Memory> {
    sum(alloc, Core::Var(5), Core::Var(0))
}

fn is_same(made: Result<Core, Memory>, wanted: Result<Core, Memory>) -> Result<bool, Memory> {
    let (made, wanted) = both(made, wanted)?;
    let found = same(&made, &wanted);
    drop(made);
    drop(wanted);
    Ok(found)
}

fn is_same_shifted(
    made: Result<Core, Memory>,
    by: u64,
    wanted: Result<Core, Memory>,
) -> Result<bool, Memory> {
    let (made, wanted) = both(made, wanted)?;
    let found = same_shifted(&made, by, &wanted);
    drop(made);
    drop(wanted);
    Ok(found)
}

fn uses_in(term: Result<Core, Memory>, at: u64) -> Result<u64, Memory> {
    let term = term?;
    let found = uses(&term, at);
    drop(term);
    Ok(found)
}

#[test]
fn the_term_put_in_is_shifted(rt: HostRuntime) {
    let alloc = rt.alloc();
    assert_same(
        &rt,
        is_same(substitute_case(alloc), put_in(alloc)),
        Ok(true),
    );
    assert_same(&rt, uses_in(put_in(alloc), 0), Ok(2));
}

#[test]
fn bound_variables_are_not_shifted(rt: HostRuntime) {
    let found = is_same_shifted(shift_case(rt.alloc()), 0, move_case(rt.alloc()));
    assert_same(&rt, found, Ok(true));
}
