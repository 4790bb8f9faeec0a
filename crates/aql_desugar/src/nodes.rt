//! Single nodes over their parts.
//!
//! Each call takes its parts as they were made, where memory may have been wanting for one, so that no early end of its
//! caller stands between two of them. `Memory` comes where it was wanting for a part or for the node.

ghost use Rattle.std.specs.Prelude.{◌≡◌, IfOk, IsOkAnd, map, true, false};
ghost use Rattle.nrca_term.specs.Nodes.{text_term, let_term, truth_term, if_term, default_term, tuple_term, proj_term, arith_term, compare_term, empty_term, single_term, union_term, big_union_term, sum_term, gen_term, get_term, tab_term, sub_term, dim_term, index_term, literal_term};
ghost use Rattle.nrca_term.specs.View.{term_of};

use aql_value::made::{both, make_box, make_boxes};
use aql_value::{ArithOp, CompareOp, Memory, Str};
use nrca_term::{Core, Terms};
use std::alloc::Global;

#[tactic(auto, using(nrca_term::specs::Laws::Equations::list_variants))]
fn tuple_of(items: Vec<Core>) -> Core
    ensures { term_of result ≡ tuple_term (map term_of items.items) }
{
    Core::Tuple(Terms(items))
}

#[tactic(auto, using(nrca_term::specs::Laws::Equations::list_variants))]
fn tab_of(bounds: Vec<Core>, body: Box<Core>) -> Core
    ensures { term_of result ≡ tab_term (map term_of bounds.items) (term_of body.value) }
{
    Core::Tab {
        bounds: Terms(bounds),
        body,
    }
}

#[tactic(auto, using(nrca_term::specs::Laws::Equations::list_variants))]
fn sub_of(array: Box<Core>, at: Vec<Core>) -> Core
    ensures { term_of result ≡ sub_term (term_of array.value) (map term_of at.items) }
{
    Core::Sub {
        array,
        at: Terms(at),
    }
}

#[tactic(auto, using(nrca_term::specs::Laws::Equations::list_variants))]
fn literal_of(dims: Vec<Core>, cells: Vec<Core>) -> Core
    ensures { term_of result ≡ literal_term (map term_of dims.items) (map term_of cells.items) }
{
    Core::Literal {
        dims: Terms(dims),
        cells: Terms(cells),
    }
}

// The parts, each in a box of its own.
fn pair_boxed(
    alloc: Global,
    parts: Result<(Core, Core), Memory>,
) -> Result<(Box<Core>, Box<Core>), Memory>
    ensures { IfOk result (λ x. IsOkAnd parts (λ p. p.0 ≡ x.0.value × p.1 ≡ x.1.value)) }
{
    let (a, b) = parts?;
    make_boxes(alloc, Ok(a), Ok(b))
}

/// A string as a term.
pub fn text(s: Result<Str, Memory>) -> Result<Core, Memory>
    ensures { IfOk result (λ c. IsOkAnd s (λ x. term_of c ≡ text_term x)) }
{
    let s = s?;
    Ok(Core::Text(s))
}

/// The value, and the body in which it is the innermost variable.
pub fn let_in(
    alloc: Global,
    a: Result<Core, Memory>,
    b: Result<Core, Memory>,
) -> Result<Core, Memory>
    ensures { IfOk result (λ c. IsOkAnd a
        (λ x. IsOkAnd b (λ y. term_of c ≡ let_term (term_of x) (term_of y)))) }
{
    let (a, b) = make_boxes(alloc, a, b)?;
    Ok(Core::Let(a, b))
}

/// The test, and then the parts for true and for false.
pub fn choose(
    alloc: Global,
    test: Result<Core, Memory>,
    parts: Result<(Core, Core), Memory>,
) -> Result<Core, Memory>
    ensures { IfOk result (λ c. IsOkAnd test
        (λ t. IsOkAnd parts (λ p. term_of c ≡ if_term (term_of t) (term_of p.0) (term_of p.1)))) }
{
    let (test, (a, b)) = both(make_box(alloc, test), pair_boxed(alloc, parts))?;
    Ok(Core::If(test, a, b))
}

/// The body where the test holds, and else the empty set.
pub fn guard(
    alloc: Global,
    test: Result<Core, Memory>,
    body: Result<Core, Memory>,
) -> Result<Core, Memory>
    ensures { IfOk result (λ c. IsOkAnd test
        (λ t. IsOkAnd body (λ b. term_of c ≡ if_term (term_of t) (term_of b) empty_term))) }
{
    choose(alloc, test, both(body, Ok(Core::Empty)))
}

/// The second part where the first is true, and else false.
pub fn conjunction(alloc: Global, parts: Result<(Core, Core), Memory>) -> Result<Core, Memory>
    ensures { IfOk result (λ c. IsOkAnd parts (λ p. term_of c ≡ if_term (term_of p.0) (term_of p.1)
        (truth_term false))) }
{
    let (a, b) = parts?;
    choose(alloc, Ok(a), Ok((b, Core::Bool(false))))
}

/// True where the first part is, and else the second.
pub fn disjunction(alloc: Global, parts: Result<(Core, Core), Memory>) -> Result<Core, Memory>
    ensures { IfOk result (λ c. IsOkAnd parts (λ p. term_of c ≡ if_term (term_of p.0)
        (truth_term true) (term_of p.1))) }
{
    let (a, b) = parts?;
    choose(alloc, Ok(a), Ok((Core::Bool(true), b)))
}

/// The first part, and the second where the first is undefined.
pub fn default(alloc: Global, parts: Result<(Core, Core), Memory>) -> Result<Core, Memory>
    ensures { IfOk result (λ c. IsOkAnd parts (λ p. term_of c ≡ default_term (term_of p.0)
        (term_of p.1))) }
{
    let (a, b) = pair_boxed(alloc, parts)?;
    Ok(Core::Default(a, b))
}

/// The tuple of the parts.
pub fn tuple(items: Result<Vec<Core>, Memory>) -> Result<Core, Memory>
    ensures { IfOk result (λ c. IsOkAnd items (λ v. term_of c ≡ tuple_term (map term_of v.items))) }
{
    let items = items?;
    Ok(tuple_of(items))
}

/// A part of a tuple of so many, counted from 1.
pub(crate) fn proj(alloc: Global, at: u64, of: u64, a: Result<Core, Memory>) -> Result<Core, Memory>
    ensures { IfOk result (λ c. IsOkAnd a (λ x. term_of c ≡ proj_term at of (term_of x))) }
{
    let part = make_box(alloc, a)?;
    Ok(Core::Proj { at, of, part })
}

/// Two numbers under an operation.
pub fn arith(
    alloc: Global,
    op: ArithOp,
    parts: Result<(Core, Core), Memory>,
) -> Result<Core, Memory>
    ensures { IfOk result (λ c. IsOkAnd parts (λ p. term_of c ≡ arith_term op (term_of p.0)
        (term_of p.1))) }
{
    let (a, b) = pair_boxed(alloc, parts)?;
    Ok(Core::Arith(op, a, b))
}

/// The comparison of two parts.
pub fn compare(
    alloc: Global,
    op: CompareOp,
    parts: Result<(Core, Core), Memory>,
) -> Result<Core, Memory>
    ensures { IfOk result (λ c. IsOkAnd parts (λ p. term_of c ≡ compare_term op (term_of p.0)
        (term_of p.1))) }
{
    let (a, b) = pair_boxed(alloc, parts)?;
    Ok(Core::Compare(op, a, b))
}

/// The set of one member.
pub fn single(alloc: Global, a: Result<Core, Memory>) -> Result<Core, Memory>
    ensures { IfOk result (λ c. IsOkAnd a (λ x. term_of c ≡ single_term (term_of x))) }
{
    let a = make_box(alloc, a)?;
    Ok(Core::Single(a))
}

/// The union of two sets.
pub fn union(alloc: Global, parts: Result<(Core, Core), Memory>) -> Result<Core, Memory>
    ensures { IfOk result (λ c. IsOkAnd parts (λ p. term_of c ≡ union_term (term_of p.0)
        (term_of p.1))) }
{
    let (a, b) = pair_boxed(alloc, parts)?;
    Ok(Core::Union(a, b))
}

/// The union of the sets that the body is over the members of a set, each the innermost variable.
pub fn big_union(
    alloc: Global,
    over: Result<Core, Memory>,
    body: Result<Core, Memory>,
) -> Result<Core, Memory>
    ensures { IfOk result (λ c. IsOkAnd over
        (λ x. IsOkAnd body (λ y. term_of c ≡ big_union_term (term_of x) (term_of y)))) }
{
    let (over, body) = make_boxes(alloc, over, body)?;
    Ok(Core::BigUnion { over, body })
}

/// The sum of the numbers that the body is over the members of a set, each the innermost variable.
pub fn sum(
    alloc: Global,
    over: Result<Core, Memory>,
    body: Result<Core, Memory>,
) -> Result<Core, Memory>
    ensures { IfOk result (λ c. IsOkAnd over
        (λ x. IsOkAnd body (λ y. term_of c ≡ sum_term (term_of x) (term_of y)))) }
{
    let (over, body) = make_boxes(alloc, over, body)?;
    Ok(Core::Sum { over, body })
}

/// The set of the numbers below a number.
pub fn generate(alloc: Global, a: Result<Core, Memory>) -> Result<Core, Memory>
    ensures { IfOk result (λ c. IsOkAnd a (λ x. term_of c ≡ gen_term (term_of x))) }
{
    let a = make_box(alloc, a)?;
    Ok(Core::Gen(a))
}

/// The one member of a set.
pub fn get(alloc: Global, a: Result<Core, Memory>) -> Result<Core, Memory>
    ensures { IfOk result (λ c. IsOkAnd a (λ x. term_of c ≡ get_term (term_of x))) }
{
    let a = make_box(alloc, a)?;
    Ok(Core::Get(a))
}

/// The array of these dimensions whose cells the body is, with the indices as the innermost variables.
pub fn tab(
    alloc: Global,
    bounds: Result<Vec<Core>, Memory>,
    body: Result<Core, Memory>,
) -> Result<Core, Memory>
    ensures { IfOk result (λ c. IsOkAnd bounds
        (λ v. IsOkAnd body (λ x. term_of c ≡ tab_term (map term_of v.items) (term_of x)))) }
{
    let (bounds, body) = both(bounds, make_box(alloc, body))?;
    Ok(tab_of(bounds, body))
}

/// The cell of an array at an index.
pub fn sub(
    alloc: Global,
    array: Result<Core, Memory>,
    at: Result<Vec<Core>, Memory>,
) -> Result<Core, Memory>
    ensures { IfOk result (λ c. IsOkAnd array
        (λ x. IsOkAnd at (λ v. term_of c ≡ sub_term (term_of x) (map term_of v.items)))) }
{
    let (array, at) = both(make_box(alloc, array), at)?;
    Ok(sub_of(array, at))
}

/// The dimensions of an array of that rank.
pub fn dim(alloc: Global, rank: u64, a: Result<Core, Memory>) -> Result<Core, Memory>
    ensures { IfOk result (λ c. IsOkAnd a (λ x. term_of c ≡ dim_term rank (term_of x))) }
{
    let array = make_box(alloc, a)?;
    Ok(Core::Dim { rank, array })
}

/// The array, of that rank, of the sets of values that pairs have at each index.
pub fn index(alloc: Global, rank: u64, a: Result<Core, Memory>) -> Result<Core, Memory>
    ensures { IfOk result (λ c. IsOkAnd a (λ x. term_of c ≡ index_term rank (term_of x))) }
{
    let pairs = make_box(alloc, a)?;
    Ok(Core::Index { rank, pairs })
}

/// The array of these dimensions and cells.
pub fn literal(
    dims: Result<Vec<Core>, Memory>,
    cells: Result<Vec<Core>, Memory>,
) -> Result<Core, Memory>
    ensures { IfOk result (λ c. IsOkAnd dims
        (λ v. IsOkAnd cells (λ w. term_of c ≡ literal_term (map term_of v.items)
        (map term_of w.items)))) }
{
    let (dims, cells) = both(dims, cells)?;
    Ok(literal_of(dims, cells))
}
