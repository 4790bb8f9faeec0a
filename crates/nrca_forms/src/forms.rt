//! What a form that evaluates all its parts and binds nothing makes of their values.

ghost use Rattle.std.specs.Prelude.{◌≡◌, IfOk, Some};
ghost use Rattle.aql_value.specs.Datum.{text, set, nil};
ghost use Rattle.aql_value.specs.Meaning.{datum};
ghost use Rattle.aql_value.specs.Operations.{part_of, get_of, dim_of, arith_of, compare_of, union_of as union_datum, literal_of, only};
ghost use Rattle.aql_value.specs.Strict.{nullary, unary, binary, sub_value, Strict};
ghost use Rattle.nrca_loops.specs.Values.{held_value};
ghost use Rattle.nrca_loops.specs.Parts.{held_values, parts_value, pair_in};
ghost use Rattle.nrca_forms.specs.Made.{IsFreed, Makes, held_pair};
ghost use Rattle.nrca_loops.specs.Evaluates.{Applies, strict_form};

use crate::index::index_set;
use crate::operations::{
    arith, compare, dim, free, gen_set, get, literal, proj, single, sub, tuple, union,
};
use aql_value::{ArithOp, CompareOp, Items, Memory, Str, Value, canon};
use nrca_array::Held;
use nrca_loops::Counted;
use nrca_par::EvalFault;
use nrca_term::Core;
use std::alloc::Global;

/// What a form that evaluates all its parts and binds nothing makes of their values, within what
/// is left of the budget: the value, and the turns beside those of the parts. Undefined and
/// without turns where a part is undefined, and of any other form. The parts of the term are not
/// looked at.
#[tactic(auto, using(crate::proofs::Strictly::no_turns))]
pub fn strict(
    alloc: Global,
    term: &Core,
    parts: Option<Vec<Held>>,
    budget: u64,
) -> Result<Counted<Option<Held>>, EvalFault>
    ensures { Applies held_value budget (strict_form term.now) (parts_value parts) result }
{
    match parts {
        Some(parts) => make_value(alloc, term, parts, budget),
        None => Ok(free(None)),
    }
}

/// The one part: none where there is another number of parts.
#[tactic(auto, using(crate::proofs::Strictly::parts))]
pub fn one_part(parts: Vec<Held>) -> Option<Held>
    ensures { held_value result ≡ only (held_values parts) }
{
    let mut parts = parts;
    if parts.len() == 1 { parts.pop() } else { None }
}

#[tactic(auto, using(crate::proofs::Arities::made_forms))]
fn make_value(
    alloc: Global,
    term: &Core,
    parts: Vec<Held>,
    budget: u64,
) -> Result<Counted<Option<Held>>, EvalFault>
    ensures { Applies held_value budget (strict_form term.now) (Some (held_values parts)) result }
{
    match term {
        Core::Gen(_) => made_gen(alloc, parts, budget),
        Core::Index { rank, pairs: _ } => made_index(alloc, *rank, parts, budget),
        Core::Nat(n) => Ok(free(constant(parts, Value::Nat(*n)))),
        Core::Bool(b) => Ok(free(constant(parts, Value::Bool(*b)))),
        Core::Text(s) => free_value(made_text(alloc, parts, s)),
        Core::Tuple(_) => free_value(tuple(alloc, parts)),
        Core::Proj { at, of, part: _ } => Ok(free(made_proj(parts, *at, *of))),
        Core::Arith(op, _, _) => Ok(free(made_arith(parts, *op))),
        Core::Compare(op, _, _) => free_value(made_comparison(alloc, parts, *op)),
        Core::Empty => free_value(made_empty(alloc, parts)),
        Core::Single(_) => free_value(made_single(alloc, parts)),
        Core::Union(_, _) => free_value(made_union(alloc, parts)),
        Core::Get(_) => free_value(made_get(alloc, parts)),
        Core::Sub { array: _, at: _ } => free_value(made_sub(alloc, parts)),
        Core::Dim { rank, array: _ } => free_value(made_dim(alloc, parts, *rank)),
        Core::Literal { dims, cells: _ } => free_value(made_literal(alloc, dims.0.len(), parts)),
        Core::Bottom => Ok(free(None)),
        Core::Var(_) => Ok(free(None)),
        Core::Global(_) => Ok(free(None)),
        Core::Let(_, _) => Ok(free(None)),
        Core::If(_, _, _) => Ok(free(None)),
        Core::Default(_, _) => Ok(free(None)),
        Core::BigUnion { over: _, body: _ } => Ok(free(None)),
        Core::Sum { over: _, body: _ } => Ok(free(None)),
        Core::Tab { bounds: _, body: _ } => Ok(free(None)),
    }
}

// A value that was made without turns of its own.
fn free_value(value: Result<Option<Held>, Memory>) -> Result<Counted<Option<Held>>, EvalFault>
    ensures { IsFreed value result }
{
    Ok(free(value?))
}

// The two parts: none where there is another number of parts.
#[tactic(auto, using(crate::proofs::Arities::two))]
fn two_parts(parts: Vec<Held>) -> Option<(Held, Held)>
    ensures { held_pair result ≡ pair_in (held_values parts) }
{
    let mut parts = parts;
    if parts.len() != 2 {
        return None;
    }
    match (parts.pop(), parts.pop()) {
        (Some(second), Some(first)) => Some((first, second)),
        _ => unreachable!(),
    }
}

fn constant(parts: Vec<Held>, value: Value) -> Option<Held>
    ensures { held_value result ≡ nullary (Some (datum value)) (held_values parts) }
{
    if parts.is_empty() {
        Some(Held::Value(value))
    } else {
        None
    }
}

fn made_text(alloc: Global, parts: Vec<Held>, bytes: &Str) -> Result<Option<Held>, Memory>
    ensures { IfOk result (λ r. Makes (Strict.text bytes.now) parts r) }
{
    let bytes = bytes.copy(alloc)?;
    Ok(constant(parts, Value::Text(bytes)))
}

fn made_empty(alloc: Global, parts: Vec<Held>) -> Result<Option<Held>, Memory>
    ensures { IfOk result (λ r. held_value r ≡ nullary (Some (set nil)) (held_values parts)) }
{
    let items = Items {
        items: Vec::new(alloc),
    };
    let members = canon(alloc, items)?;
    Ok(constant(parts, Value::Members(members)))
}

#[tactic(auto, using(crate::proofs::Arities::arities))]
fn made_gen(
    alloc: Global,
    parts: Vec<Held>,
    budget: u64,
) -> Result<Counted<Option<Held>>, EvalFault>
    ensures { Applies held_value budget Strict.gen (Some (held_values parts)) result }
{
    match one_part(parts) {
        Some(v) => gen_set(alloc, v, budget),
        None => Ok(free(None)),
    }
}

#[tactic(auto, using(crate::proofs::Arities::arities))]
fn made_index(
    alloc: Global,
    rank: u64,
    parts: Vec<Held>,
    budget: u64,
) -> Result<Counted<Option<Held>>, EvalFault>
    ensures { Applies held_value budget (Strict.index rank) (Some (held_values parts)) result }
{
    match one_part(parts) {
        Some(v) => index_set(alloc, rank, v, budget),
        None => Ok(free(None)),
    }
}

#[tactic(auto, using(crate::proofs::Arities::arities))]
fn made_proj(parts: Vec<Held>, at: u64, of: u64) -> Option<Held>
    ensures { held_value result ≡ unary (part_of at of) (held_values parts) }
{
    match one_part(parts) {
        Some(v) => proj(v, at, of),
        None => None,
    }
}

#[tactic(auto, using(crate::proofs::Arities::arities))]
fn made_single(alloc: Global, parts: Vec<Held>) -> Result<Option<Held>, Memory>
    ensures { IfOk result (λ r. Makes Strict.single parts r) }
{
    match one_part(parts) {
        Some(v) => Ok(Some(single(alloc, v)?)),
        None => Ok(None),
    }
}

#[tactic(auto, using(crate::proofs::Arities::arities))]
fn made_get(alloc: Global, parts: Vec<Held>) -> Result<Option<Held>, Memory>
    ensures { IfOk result (λ r. held_value r ≡ unary get_of (held_values parts)) }
{
    match one_part(parts) {
        Some(v) => get(alloc, v),
        None => Ok(None),
    }
}

#[tactic(auto, using(crate::proofs::Arities::arities))]
fn made_dim(alloc: Global, parts: Vec<Held>, rank: u64) -> Result<Option<Held>, Memory>
    ensures { IfOk result (λ r. held_value r ≡ unary (dim_of rank) (held_values parts)) }
{
    match one_part(parts) {
        Some(v) => {
            let dims = dim(alloc, &v, rank);
            drop(v);
            dims
        }
        None => Ok(None),
    }
}

#[tactic(auto, using(crate::proofs::Arities::arities))]
fn made_arith(parts: Vec<Held>, op: ArithOp) -> Option<Held>
    ensures { held_value result ≡ binary (arith_of op) (held_values parts) }
{
    match two_parts(parts) {
        Some((v, w)) => arith(op, v, w),
        None => None,
    }
}

#[tactic(auto, using(crate::proofs::Arities::arities))]
fn made_comparison(alloc: Global, parts: Vec<Held>, op: CompareOp) -> Result<Option<Held>, Memory>
    ensures { IfOk result (λ r. held_value r ≡ binary (compare_of op) (held_values parts)) }
{
    match two_parts(parts) {
        Some((v, w)) => Ok(Some(compare(alloc, op, v, w)?)),
        None => Ok(None),
    }
}

#[tactic(auto, using(crate::proofs::Arities::arities))]
fn made_union(alloc: Global, parts: Vec<Held>) -> Result<Option<Held>, Memory>
    ensures { IfOk result (λ r. held_value r ≡ binary union_datum (held_values parts)) }
{
    match two_parts(parts) {
        Some((v, w)) => union(alloc, v, w),
        None => Ok(None),
    }
}

fn made_sub(alloc: Global, parts: Vec<Held>) -> Result<Option<Held>, Memory>
    ensures { IfOk result (λ r. held_value r ≡ sub_value (held_values parts)) }
{
    if parts.is_empty() {
        Ok(None)
    } else {
        sub(alloc, parts)
    }
}

#[tactic(auto, using(crate::proofs::Arities::literal_short))]
fn made_literal(alloc: Global, rank: usize, parts: Vec<Held>) -> Result<Option<Held>, Memory>
    ensures { IfOk result (λ r. held_value r ≡ literal_of rank (held_values parts)) }
{
    if parts.len() < rank {
        Ok(None)
    } else {
        literal(alloc, rank, parts)
    }
}
