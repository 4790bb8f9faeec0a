//! The right side of each rule. None takes memory; the comparison is dropped.

ghost use Rattle.std.specs.Prelude.{◌≡◌, true, false, [], ◌∷◌};
ghost use Rattle.nrca_term.specs.View.{term_of};
ghost use Rattle.nrca_term.specs.Nodes.{truth_term};
ghost use Rattle.nrca_term.specs.Rules.{IsComparison, Redex};
ghost use Rattle.nrca_term.specs.declared.trace.Rule.TheVariants.{C1, C2, C3, C4};
ghost use Rattle.nrca_rule_laws.specs.Fitting.{IsRight};
ghost use Rattle.nrca_checks.specs.Comparing.{the_sides};

use nrca_term::Core;

/// True, in place of a comparison that is a fact of a tabulation or of a loop over a generated set.
pub fn c1(_term: Core) -> Core
    requires { IsComparison (term_of _term) }
    ensures right { IsRight C1 (term_of _term) (term_of result) }
    ensures redex { Redex C1 (term_of _term) (term_of result) [] }
    ensures chosen { term_of result ≡ truth_term true }
{
    Core::Bool(true)
}

/// True, in place of a comparison that is a fact of an `If` in whose first branch it stands.
pub fn c2(_term: Core) -> Core
    requires { IsComparison (term_of _term) }
    ensures right { IsRight C2 (term_of _term) (term_of result) }
    ensures redex { Redex C2 (term_of _term) (term_of result) [] }
    ensures chosen { term_of result ≡ truth_term true }
{
    Core::Bool(true)
}

/// False, in place of a comparison that is denied by an `If` in whose second branch it stands.
pub fn c3(_term: Core) -> Core
    requires { IsComparison (term_of _term) }
    ensures right { IsRight C3 (term_of _term) (term_of result) }
    ensures redex { Redex C3 (term_of _term) (term_of result) [] }
    ensures chosen { term_of result ≡ truth_term false }
{
    Core::Bool(false)
}

/// The truth value that the ranges of its sides give a comparison. Both sides must be defined.
pub fn c4(_term: Core, truth: bool) -> Core
    requires { IsComparison (term_of _term) }
    ensures right { IsRight C4 (term_of _term) (term_of result) }
    ensures redex { Redex C4 (term_of _term) (term_of result) the_sides }
    ensures chosen { term_of result ≡ truth_term truth }
{
    Core::Bool(truth)
}
