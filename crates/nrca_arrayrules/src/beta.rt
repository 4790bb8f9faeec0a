//! Subscripts of a tabulation.

ghost use Rattle.std.specs.Prelude.{true, ◌≡◌, ◌+◌, ◌<◌, ◌^◌, IfOk};
ghost use Rattle.nrca_term.specs.Rules.{lets};
ghost use Rattle.nrca_term.specs.Subst.{top_var};
ghost use Rattle.nrca_term.specs.View.{term_of, terms_of};
ghost use Rattle.nrca_term.specs.declared.trace.Rule.TheVariants.{A1};
ghost use Rattle.nrca_rule_laws.specs.Fitting.{RuleFits, IsSmallPart, IsRight};
ghost use Rattle.nrca_arrayrules.specs.Beta.{IsGuarded, IsTest, IsNamed, MayShift};

use aql_value::{CompareOp, Memory};
use nrca_subst::shift;
use nrca_term::{Core, Terms};
use std::alloc::Global;

/// Whether the term is a subscript of a tabulation by as many indices as it has bounds.
pub fn fits_a1(term: &Core) -> bool
    ensures { RuleFits A1 result (term_of term.now) }
{
    match term {
        Core::Sub { array, at } => match &**array {
            Core::Tab { bounds, body: _ } => bounds.0.len() == at.0.len(),
            _ => false,
        },
        _ => false,
    }
}

/// The body under lets of the indices, behind tests that each is below its bound; Bottom where one
/// is not. That the body is defined over the domain belongs to the condition.
pub fn a1(alloc: Global, term: Core) -> Result<Core, Memory>
    requires fits { RuleFits A1 true (term_of term) }
    requires inside { IsSmallPart (term_of term) }
    ensures { IfOk result (λ t. IsRight A1 (term_of term) (term_of t)) }
{
    match term {
        Core::Sub { array, at } => match Box::into_inner(array) {
            Core::Tab { bounds, body } => {
                let tested = guard(alloc, bounds, Box::into_inner(body))?;
                let right = bind(alloc, at, tested)?;
                Ok(right)
            }
            _ => unreachable!(),
        },
        _ => unreachable!(),
    }
}

// The body behind tests that each of the innermost variables is below its bound.
fn guard(alloc: Global, bounds: Terms, body: Core) -> Result<Core, Memory>
    requires { MayShift (terms_of bounds) }
    ensures { IfOk result (IsGuarded bounds body) }
{
    let rank = bounds.0.len() as u64;
    let mut bounds = bounds;
    let mut inner = body;
    while let Some(bound) = bounds.0.pop() {
        let number = rank - 1 - bounds.0.len() as u64;
        inner = test(alloc, bound, number, rank, inner)?;
    }
    Ok(inner)
}

// The body under lets of the indices, each under the names of those before it.
fn bind(alloc: Global, at: Terms, body: Core) -> Result<Core, Memory>
    requires { MayShift (terms_of at) }
    ensures { IfOk result (λ t. term_of t ≡ lets 0 (terms_of at) (term_of body)) }
{
    let mut at = at;
    let mut inner = body;
    while let Some(index) = at.0.pop() {
        let names = at.0.len() as u64;
        inner = name(alloc, index, names, inner)?;
    }
    Ok(inner)
}

// The term where the variable is below the bound, which is shifted under `rank` names.
fn test(alloc: Global, bound: Core, number: u64, rank: u64, inner: Core) -> Result<Core, Memory>
    requires { top_var (term_of bound) + rank < 2 ^ 64 }
    ensures { IfOk result (IsTest bound number rank inner) }
{
    let left = Box::new(alloc, Core::Var(number))?;
    let right = Box::new(alloc, shift(bound, 0, rank))?;
    let less = Box::new(alloc, Core::Compare(CompareOp::Less, left, right))?;
    let yes = Box::new(alloc, inner)?;
    let no = Box::new(alloc, Core::Bottom)?;
    Ok(Core::If(less, yes, no))
}

// The term under a let of the index, which is shifted under `names` names.
fn name(alloc: Global, index: Core, names: u64, inner: Core) -> Result<Core, Memory>
    requires { top_var (term_of index) + names < 2 ^ 64 }
    ensures { IfOk result (IsNamed index names inner) }
{
    let bound = Box::new(alloc, shift(index, 0, names))?;
    let body = Box::new(alloc, inner)?;
    Ok(Core::Let(bound, body))
}
