//! The translation of one declaration, within the limits.

ghost use Rattle.std.specs.Prelude.{◌≡◌, ◌≤◌, length, option_map, IsSome, IfOk, IfErr, Some, []};
ghost use Rattle.aql_syntax.specs.View.{tree_of, decl_of, decls_of};
ghost use Rattle.aql_syntax.specs.Size.{AreWithin, IsWithinLimits};
ghost use Rattle.nrca_term.specs.View.{term_of};
ghost use Rattle.aql_desugar_spec.specs.Start as start_term;
ghost use Rattle.aql_desugar.specs.Translation.{query_of, size_in, levels_in, Translates, IsSmallWherePrincipal, IsTranslationFault, IsFaultAt};
ghost use Rattle.aql_desugar.specs.Named.{NameThoseBefore};
ghost use Rattle.aql_desugar.specs.Names.{knowns_in};

use crate::fault::Fault;
use crate::positions::{Earlier, index_names};
use crate::queries::start;
use aql_infer_steps::typed::Typed;
use aql_names::names::Names;
use aql_syntax::ast::{Decl, Decls, Expr};
use aql_syntax::sizes::{MOST_LEVELS, MOST_NODES, measure};
use aql_value::Memory;
use nrca_term::Core;
use std::alloc::Global;

/// The start term of the expression of declaration n, counted from 1; or that the declaration is large, which is tested before
/// anything is built. A macro has no expression. `typed` is what inference answers for the declarations: nothing is read of it,
/// and what is said of weight and types is said where it is that answer.
pub fn translate(alloc: Global, decls: &Decls, typed: &Typed, n: u64) -> Result<Core, Fault>
    requires first { 1 ≤ n }
    requires last { n ≤ length decls.now.items.items }
    requires query { IsSome (query_of (decls_of decls.now.items.items) n) }
    ensures translated { IfOk result (λ c. Translates decls.now typed.now n (term_of c)) }
    ensures small { IfOk result (λ c. IsSmallWherePrincipal decls.now typed.now (term_of c)) }
    ensures within { IfOk result (λ _. IsWithinLimits (decls_of decls.now.items.items) n) }
    ensures fault { IfErr result (IsTranslationFault (decls_of decls.now.items.items) n) }
{
    let _ = typed;
    let at = n as usize - 1;
    match expression(&decls.items[at]) {
        Some(e) => term_after(alloc, e, &decls.items[..at]),
        None => unreachable!(),
    }
}

/// The same of a declaration that is known to be within the limits, so that nothing is measured, over an index of names that
/// begin with those of the declarations before it, so that no look-up walks over them.
pub fn translate_within(
    alloc: Global,
    decls: &Decls,
    names: &Names,
    typed: &Typed,
    n: u64,
) -> Result<Core, Memory>
    requires first { 1 ≤ n }
    requires last { n ≤ length decls.now.items.items }
    requires query { IsSome (query_of (decls_of decls.now.items.items) n) }
    requires named { NameThoseBefore (decls_of decls.now.items.items) n names.now }
    requires within { IsWithinLimits (decls_of decls.now.items.items) n }
    ensures translated { IfOk result (λ c. Translates decls.now typed.now n (term_of c)) }
    ensures small { IfOk result (λ c. IsSmallWherePrincipal decls.now typed.now (term_of c)) }
{
    let _ = typed;
    let at = n as usize - 1;
    match expression(&decls.items[at]) {
        Some(e) => {
            let earlier = Earlier {
                decls: &decls.items[..at],
                names,
            };
            start_after(alloc, e, &earlier)
        }
        None => unreachable!(),
    }
}

// The expression of a declaration that is no macro.
fn expression(d: &Decl) -> Option<&Expr>
    ensures { option_map (λ e. tree_of e.now) result ≡ start_term.query (decl_of d.now) }
{
    match d {
        Decl::Val { name: _, expr } => Some(expr),
        Decl::Macro {
            name: _,
            pattern: _,
            body: _,
        } => None,
        Decl::Read {
            name: _,
            reader: _,
            expr,
        } => Some(expr),
        Decl::Bare { expr } => Some(expr),
    }
}

// The start term of an expression after these declarations, within the limits.
fn term_after(alloc: Global, e: &Expr, earlier: &[Decl]) -> Result<Core, Fault>
    ensures made { IfOk result (λ c. term_of c ≡ start_term.start (tree_of e.now)
        (knowns_in earlier.now) []) }
    ensures within { IfOk result (λ _. AreWithin (size_in e.now earlier.now)
        (levels_in e.now earlier.now)) }
    ensures fault { IfErr result (IsFaultAt (size_in e.now earlier.now)
        (levels_in e.now earlier.now)) }
{
    let counts = measure(e, earlier);
    if counts.size > MOST_NODES || counts.levels > MOST_LEVELS {
        return Err(Fault::Large {
            size: counts.size,
            levels: counts.levels,
        });
    }
    let made = start_unindexed(alloc, e, earlier)?;
    Ok(made)
}

// The start term of an expression after these declarations, whose names are put into an index.
fn start_unindexed(alloc: Global, e: &Expr, decls: &[Decl]) -> Result<Core, Memory>
    ensures { IfOk result (λ c. term_of c ≡ start_term.start (tree_of e.now)
        (knowns_in decls.now) []) }
{
    let names = index_names(alloc, decls)?;
    let earlier = Earlier {
        decls,
        names: &names,
    };
    let made = start_after(alloc, e, &earlier);
    drop(names);
    made
}

// The start term of an expression after these declarations.
fn start_after<'a>(alloc: Global, e: &'a Expr, earlier: &Earlier<'a>) -> Result<Core, Memory>
    ensures { IfOk result (λ c. term_of c ≡ start_term.start (tree_of e.now)
        (knowns_in earlier.now) []) }
{
    let mut names = Vec::new(alloc);
    let made = start(alloc, e, earlier, 0, &mut names)?;
    Ok(made)
}
