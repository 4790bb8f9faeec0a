//! Matches of patterns around terms.

ghost use Rattle.std.specs.Prelude.{◌≡◌, ℕ, ◌+◌, ◌-◌, [], ◌∷◌, ◌++◌, length, take, OnOk, IfOk, None};
ghost use Rattle.aql_syntax.specs.Names as surface_names;
ghost use Rattle.aql_syntax.specs.View.{pat_of, pats_of};
ghost use Rattle.nrca_term.specs.Nodes.{if_term};
ghost use Rattle.nrca_term.specs.View.{term_of};
ghost use Rattle.aql_desugar_spec.specs.Start as start_term;
ghost use Rattle.aql_desugar_spec.specs.Start.{match_term, parts_term, equal_term};
ghost use Rattle.aql_desugar.specs.Names.{binders_of, missing_term, binders_in, knowns_in, Enters};

use crate::names::{enter, index_of};
use crate::nodes::{choose, compare, let_in, proj};
use crate::positions::{Earlier, position_term};
use aql_syntax::ast::Pattern;
use aql_value::made::both;
use aql_value::{CompareOp, Memory, Str};
use nrca_term::Core;
use std::alloc::Global;

/// What stands where a pattern does not match.
#[derive(Clone, Copy)]
pub enum Missing {
    Undefined,
    Empty,
}

pub(crate) fn fallback_term(other: Missing) -> Core
    ensures { term_of result ≡ missing_term other }
{
    match other {
        Missing::Undefined => Core::Bottom,
        Missing::Empty => Core::Empty,
    }
}

/// A number past 64 bits is met by no tree that fits in memory.
pub(crate) fn add_numbers(a: u64, b: u64) -> Result<u64, Memory>
    ensures { IfOk result (λ r. r ≡ a + b) }
{
    match a.checked_add(b) {
        Some(r) => Ok(r),
        None => Err(Memory),
    }
}

/// A name: the variable, else the position.
pub(crate) fn name_term(name: &Str, earlier: &Earlier, names: &[Option<&Str>]) -> Core
    ensures { (base : ℕ) → term_of result ≡ start_term.name_term
        (start_term.index_of name.now (binders_in names.now base))
        (surface_names.find name.now (knowns_in earlier.now)) }
{
    match index_of(names, name) {
        Some(i) => Core::Var(i),
        None => position_term(name, earlier),
    }
}

// Whether variable `at` equals c, and then `inside`.
fn test(alloc: Global, at: u64, c: Core, inside: Core, other: Missing) -> Result<Core, Memory>
    ensures { IfOk result (λ r. term_of r ≡ if_term (equal_term at (term_of c)) (term_of inside)
        (missing_term other)) }
{
    let equal = compare(alloc, CompareOp::Equal, Ok((Core::Var(at), c)));
    choose(alloc, equal, Ok((inside, fallback_term(other))))
}

/// The match of variable `at` around a term in the scope inside the match.
#[cycle(wrap)]
#[tactic(auto, using(crate::proofs::Scoping::entering))]
pub(crate) fn wrap<'a>(
    alloc: Global,
    p: &'a Pattern,
    earlier: &Earlier,
    names: &mut Vec<Option<&'a Str>>,
    at: u64,
    inside: Core,
    other: Missing,
) -> Result<Core, Memory>
    ensures made { IfOk result (λ c. (base : ℕ) → term_of c ≡ match_term (pat_of p.now)
        (knowns_in earlier.now) (binders_in names.old.items base) at (term_of inside)
        (missing_term other)) }
    ensures kept { OnOk result (names.new.items ≡ names.old.items) }
{
    match p {
        Pattern::Bind(_) => let_in(alloc, Ok(Core::Var(at)), Ok(inside)),
        Pattern::Any => Ok(inside),
        Pattern::Nat(n) => test(alloc, at, Core::Nat(*n), inside, other),
        Pattern::Bool(b) => test(alloc, at, Core::Bool(*b), inside, other),
        Pattern::Text(s) => {
            let (text, inside) = both(s.copy(alloc), Ok(inside))?;
            test(alloc, at, Core::Text(text), inside, other)
        }
        Pattern::Name(x) => {
            let named = name_term(x, earlier, names);
            test(alloc, at, named, inside, other)
        }
        Pattern::Row(ps) => {
            let count = ps.items.len() as u64;
            wrap_parts(
                alloc, &ps.items, earlier, names, at, 1, count, inside, other,
            )
        }
    }
}

// The parts of variable `at` from part j on, of n parts.
#[cycle(wrap)]
#[tactic(auto, using(crate::proofs::Scoping::entering))]
fn wrap_parts<'a>(
    alloc: Global,
    ps: &'a [Pattern],
    earlier: &Earlier,
    names: &mut Vec<Option<&'a Str>>,
    at: u64,
    j: u64,
    n: u64,
    inside: Core,
    other: Missing,
) -> Result<Core, Memory>
    ensures made { IfOk result (λ c. (base : ℕ) → term_of c ≡ parts_term (pats_of ps.now)
        (knowns_in earlier.now) (binders_in names.old.items base) at j n (term_of inside)
        (missing_term other)) }
    ensures kept { OnOk result (names.new.items ≡ names.old.items) }
{
    match ps.split_first() {
        None => Ok(inside),
        Some((p, rest)) => {
            let mark = names.len();
            let numbers = both(open_past(p, names, at), add_numbers(j, 1));
            let ((deeper, next), inside) = both(numbers, Ok(inside))?;
            let inside = wrap_parts(alloc, rest, earlier, names, deeper, next, n, inside, other)?;
            let matched = close(alloc, p, earlier, names, mark, inside, other);
            let_in(alloc, proj(alloc, j, n, Ok(Core::Var(at))), matched)
        }
    }
}

/// The match of the variable that the node around it binds, around a term in the scope inside: the names from `mark` on
/// are those that `open` has put on, and are taken off.
#[cycle(wrap)]
#[tactic(auto, using(crate::proofs::Scoping::entering))]
pub fn close<'a>(
    alloc: Global,
    p: &'a Pattern,
    earlier: &Earlier,
    names: &mut Vec<Option<&'a Str>>,
    mark: usize,
    inside: Core,
    other: Missing,
) -> Result<Core, Memory>
    ensures made { IfOk result (λ c. (base : ℕ) → term_of c ≡ match_term (pat_of p.now)
        (knowns_in earlier.now) (None ∷ binders_in (take mark names.old.items) base) 0
        (term_of inside) (missing_term other)) }
    ensures kept { OnOk result (names.new.items ≡ take mark names.old.items) }
{
    names.truncate(mark);
    let (_, inside) = both(hide_one(names), Ok(inside))?;
    let matched = wrap(alloc, p, earlier, names, 0, inside, other)?;
    let _ = names.pop();
    Ok(matched)
}

// Puts on one variable without a name.
fn hide_one(names: &mut Vec<Option<&Str>>) -> Result<(), Memory>
    ensures { OnOk result (names.new.items ≡ names.old.items ++ None ∷ []) }
{
    names.push(None)?;
    Ok(())
}

/// Puts on the variable that is matched and those inside its match.
#[tactic(auto, using(crate::proofs::Scoping::entering))]
pub fn open<'a>(p: &'a Pattern, names: &mut Vec<Option<&'a Str>>) -> Result<(), Memory>
    ensures inside { OnOk result (Enters (λ s. start_term.bind_pattern (pat_of p.now) (None ∷ s))
        names.old.items names.new.items) }
    ensures around { OnOk result (take (length names.old.items) names.new.items ≡ names.old.items) }
{
    names.push(None)?;
    enter(p, names)
}

/// Puts on the variables inside the match of a pattern, and answers the number of variable `at` inside it.
pub(crate) fn enter_past<'a>(
    p: &'a Pattern,
    names: &mut Vec<Option<&'a Str>>,
    at: u64,
) -> Result<u64, Memory>
    ensures inside { OnOk result (Enters (start_term.bind_pattern (pat_of p.now)) names.old.items
        names.new.items) }
    ensures around { OnOk result (take (length names.old.items) names.new.items ≡ names.old.items) }
    ensures number { IfOk result (λ n. n ≡ at + (length names.new.items - length names.old.items)) }
{
    let mark = names.len();
    enter(p, names)?;
    add_numbers(at, (names.len() - mark) as u64)
}

// The same with the variable that is matched.
fn open_past<'a>(p: &'a Pattern, names: &mut Vec<Option<&'a Str>>, at: u64) -> Result<u64, Memory>
    ensures inside { OnOk result (Enters (λ s. start_term.bind_pattern (pat_of p.now) (None ∷ s))
        names.old.items names.new.items) }
    ensures around { OnOk result (take (length names.old.items) names.new.items ≡ names.old.items) }
    ensures number { IfOk result (λ n. n ≡ at + (length names.new.items - length names.old.items)) }
{
    let mark = names.len();
    open(p, names)?;
    add_numbers(at, (names.len() - mark) as u64)
}
