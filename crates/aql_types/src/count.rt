//! Numbers of 32 bits, and how many variables a graph needs, so that each variable of some types is the node of its own number.

ghost use Rattle.std.specs.Prelude.{◌≡◌, IfOk};

use crate::equation::Equation;
use aql_ty::ty::Ty;
use aql_value::Memory;

/// One more than the greatest number of a variable, or 0 where there are none. `Memory` where 32 bits do not hold it.
pub(crate) fn count_variables(work: &[Equation], uses: &[Ty]) -> Result<u32, Memory> {
    let mut least = variable_bound_all(uses);
    for e in work {
        least = least
            .max(variable_bound(&e.left))
            .max(variable_bound(&e.right));
    }
    to_number(least)
}

/// The number in 32 bits. `Memory` where they do not hold it.
pub fn to_number(n: u64) -> Result<u32, Memory>
    ensures { IfOk result (λ i. i ≡ n) }
{
    if n > u32::MAX as u64 {
        return Err(Memory);
    }
    Ok(n as u32)
}

// One more than the greatest number of a variable of a type.
#[cycle(variable_bound)]
fn variable_bound(t: &Ty) -> u64 {
    match t {
        Ty::Nat => 0,
        Ty::Bool => 0,
        Ty::Text => 0,
        Ty::Var(x) => x.saturating_add(1),
        Ty::Tuple(ts) => variable_bound_all(&ts.items),
        Ty::SetOf(t) => variable_bound(t),
        Ty::ArrayOf { rank: _, cell } => variable_bound(cell),
    }
}

#[cycle(variable_bound)]
fn variable_bound_all(ts: &[Ty]) -> u64 {
    let mut least = 0;
    for t in ts {
        least = least.max(variable_bound(t));
    }
    least
}
