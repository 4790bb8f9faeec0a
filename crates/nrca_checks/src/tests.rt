//! Whether a rule fits: exactly on comparisons. The tests take no memory.

ghost use Rattle.nrca_term.specs.View.{term_of};
ghost use Rattle.nrca_term.specs.declared.trace.Rule.TheVariants.{C1, C2, C3, C4};
ghost use Rattle.nrca_rule_laws.specs.Fitting.{RuleFits};
ghost use Rattle.nrca_checks.specs.Comparing.{Compares};

use nrca_term::Core;

/// Whether C1 fits the term.
pub fn fits_c1(term: &Core) -> bool
    ensures fits { RuleFits C1 result (term_of term.now) }
    ensures comparison { Compares result (term_of term.now) }
{
    compares(term)
}

/// Whether C2 fits the term.
pub fn fits_c2(term: &Core) -> bool
    ensures fits { RuleFits C2 result (term_of term.now) }
    ensures comparison { Compares result (term_of term.now) }
{
    compares(term)
}

/// Whether C3 fits the term.
pub fn fits_c3(term: &Core) -> bool
    ensures fits { RuleFits C3 result (term_of term.now) }
    ensures comparison { Compares result (term_of term.now) }
{
    compares(term)
}

/// Whether C4 fits the term.
pub fn fits_c4(term: &Core) -> bool
    ensures fits { RuleFits C4 result (term_of term.now) }
    ensures comparison { Compares result (term_of term.now) }
{
    compares(term)
}

/// Whether the term is a comparison.
pub fn compares(term: &Core) -> bool
    ensures { Compares result (term_of term.now) }
{
    match term {
        Core::Compare(_, _, _) => true,
        _ => false,
    }
}
