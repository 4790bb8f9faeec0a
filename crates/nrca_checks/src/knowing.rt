//! How a comparison is known at a place. No call takes memory.

ghost use Rattle.std.specs.Prelude.{◌≡◌, ◌↔◌, IsTrue};
ghost use Rattle.nrca_term.specs.View.{term_of};
ghost use Rattle.nrca_ranges.specs.Context.{known_of, context_of};
ghost use Rattle.nrca_checks.specs.Knowing.{IsKnown, IsKeptFact, IsKnownAs};

use nrca_ranges::{Ctx, Fact, Known};
use nrca_subst::same_shifted;
use nrca_term::Core;

/// How the comparison is literally known: as a fact of a tabulation or of a loop over a generated set,
/// else as a fact of an `If`, else as denied by one.
pub fn literally(ctx: &Ctx, term: &Core) -> Option<Known>
    ensures { IsKnown (context_of ctx.now) (term_of term.now) result }
{
    if is_known(ctx, term, Known::Domain) {
        return Some(Known::Domain);
    }
    if is_known(ctx, term, Known::Test) {
        return Some(Known::Test);
    }
    if is_known(ctx, term, Known::Denied) {
        return Some(Known::Denied);
    }
    None
}

// Whether the term is literally a fact of this kind.
fn is_known(ctx: &Ctx, term: &Core, known: Known) -> bool
    ensures { IsTrue result ↔ IsKnownAs known ctx.now term.now }
{
    for fact in &ctx.facts {
        if is_fact(fact, ctx.depth, term, known) {
            return true;
        }
    }
    false
}

// Whether the term is this fact, shifted to a place with `depth` variables.
fn is_fact(fact: &Fact, depth: u64, term: &Core, known: Known) -> bool
    ensures { IsTrue result ↔ IsKeptFact known depth term.now fact.now }
{
    same_known(fact.known, known)
        && same_shifted(&fact.comparison, depth.saturating_sub(fact.depth), term)
}

fn same_known(a: Known, b: Known) -> bool
    ensures { IsTrue result ↔ (known_of a ≡ known_of b) }
{
    match a {
        Known::Domain => match b {
            Known::Domain => true,
            _ => false,
        },
        Known::Test => match b {
            Known::Test => true,
            _ => false,
        },
        Known::Denied => match b {
            Known::Denied => true,
            _ => false,
        },
    }
}
