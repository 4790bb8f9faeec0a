//! Whether a term is firm, and whether it is sure to have a value.

ghost use Rattle.std.specs.Prelude.{◌≡◌, true, IfOk};
ghost use Rattle.nrca_term.specs.View.{term_of};
ghost use Rattle.nrca_ranges.specs.Context.{IsSmallTerm};
ghost use Rattle.nrca_ranges.specs.Shapes.{firm_at, certain_at, span_at};
ghost use Rattle.nrca_ranges.specs.Spans.{span_of, IsOrdered};
ghost use Rattle.nrca_defined.specs.Defined.{IsDefinedIn};

use aql_value::Memory;
use nrca_ranges::{Ctx, Interval, tell};
use nrca_term::Core;
use std::alloc::Global;

/// Whether a term is firm, and its span.
#[derive(Drop)]
pub struct FirmSpan {
    pub firm: bool,
    pub span: Option<Interval>,
}

/// Whether the term is firm at the place, and its span.
pub fn firmness(alloc: Global, term: &Core, ctx: &Ctx) -> Result<FirmSpan, Memory>
    requires inside { IsSmallTerm ctx.now.depth (term_of term.now) }
    ensures firm { IfOk result (λ f. f.firm ≡ firm_at ctx.now (term_of term.now)) }
    ensures span { IfOk result (λ f. span_of f.span ≡ span_at ctx.now (term_of term.now)) }
    ensures ordered { IfOk result (λ f. IsOrdered f.span) }
{
    let told = tell(alloc, term, ctx)?;
    Ok(FirmSpan {
        firm: told.firm,
        span: told.span,
    })
}

/// Whether the term is sure to have a value at the place. False says nothing of a term that is not firm.
pub fn defined(alloc: Global, term: &Core, ctx: &Ctx) -> Result<bool, Memory>
    requires inside { IsSmallTerm ctx.now.depth (term_of term.now) }
    ensures sound { IfOk result (λ b. b ≡ true → IsDefinedIn ctx.now (term_of term.now)) }
    ensures strong { IfOk result (λ b. firm_at ctx.now (term_of term.now) ≡ true → b ≡ true) }
    ensures exact { IfOk result (λ b. b ≡ certain_at ctx.now (term_of term.now)) }
{
    let told = tell(alloc, term, ctx)?;
    Ok(told.certain)
}
