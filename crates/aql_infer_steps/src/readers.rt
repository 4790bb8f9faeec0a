//! The types of readers.

ghost use Rattle.std.specs.Prelude.{◌≡◌, ◌∷◌, [], IfOk};
ghost use Rattle.aql_ty.specs.Types as types;
ghost use Rattle.aql_ty.specs.Types.{natural, tys_of, index_type};
ghost use Rattle.aql_ty.specs.View.{type_of, types_of};
ghost use Rattle.aql_syntax.specs.Typing as typing;
ghost use Rattle.aql_syntax.specs.Typing.{field_type, field_types, record_type};
ghost use Rattle.aql_syntax.specs.View.{reader_of};
ghost use Rattle.aql_infer_steps.specs.Constraints.{reader_fits};

use aql_syntax::ast::{Kind, Reader};
use aql_ty::index::index_type;
use aql_ty::ty::{Ty, row};
use aql_value::Memory;
use aql_value::made::make_pair_list;
use std::alloc::Global;

/// Whether a reader's rank is one.
pub fn has_rank(r: &Reader) -> bool
    ensures { result ≡ reader_fits (reader_of r.now) }
{
    match r {
        Reader::Plain { rank } => 1 <= *rank && *rank <= 8,
        Reader::Signed { rank } => 1 <= *rank && *rank <= 8,
        Reader::Strided { rank } => 1 <= *rank && *rank <= 8,
        Reader::Csv(_) => true,
    }
}

/// The type of what a reader gives.
pub fn reader_type(alloc: Global, r: &Reader) -> Result<Ty, Memory>
    ensures { IfOk result (λ t. type_of t ≡ typing.reader_type (reader_of r.now)) }
{
    match r {
        Reader::Plain { rank } => array_type(alloc, *rank, Ty::Nat),
        Reader::Signed { rank } => {
            let cell = signed_number(alloc)?;
            array_type(alloc, *rank, cell)
        }
        Reader::Strided { rank } => array_type(alloc, *rank, Ty::Nat),
        Reader::Csv(c) => {
            let of = record(alloc, &c.kinds.items)?;
            set_type(alloc, of)
        }
    }
}

/// The type of a reader's argument.
pub fn argument_type(alloc: Global, r: &Reader) -> Result<Ty, Memory>
    ensures { IfOk result (λ t. type_of t ≡ typing.argument_type (reader_of r.now)) }
{
    match r {
        Reader::Plain { rank } => slab(alloc, *rank),
        Reader::Signed { rank } => slab(alloc, *rank),
        Reader::Strided { rank } => strided_slab(alloc, *rank),
        Reader::Csv(_) => Ok(Ty::Text),
    }
}

// The type of sets of that type.
fn set_type(alloc: Global, t: Ty) -> Result<Ty, Memory>
    ensures { IfOk result (λ made. type_of made ≡ types.set_of (type_of t)) }
{
    Ok(Ty::SetOf(Box::new(alloc, t)?))
}

// The type of arrays of that rank and type.
fn array_type(alloc: Global, rank: u64, cell: Ty) -> Result<Ty, Memory>
    ensures { IfOk result (λ made. type_of made ≡ types.array_of rank (type_of cell)) }
{
    Ok(Ty::ArrayOf {
        rank,
        cell: Box::new(alloc, cell)?,
    })
}

fn signed_number(alloc: Global) -> Result<Ty, Memory>
    ensures { IfOk result (λ t. type_of t ≡ types.product
        (types.type types.truth (types.type natural types.no_type))) }
{
    let parts = make_pair_list(alloc, Ok(Ty::Bool), Ok(Ty::Nat))?;
    Ok(row(parts))
}

// The types of a file, a variable, a start and a count.
fn slab_parts(alloc: Global, rank: u64) -> Result<Vec<Ty>, Memory>
    ensures { IfOk result (λ parts. types_of parts.items ≡ tys_of
        (types.text ∷ types.text ∷ index_type rank ∷ index_type rank ∷ [])) }
{
    let mut parts = Vec::new(alloc);
    parts.push(Ty::Text)?;
    parts.push(Ty::Text)?;
    parts.push(index_type(alloc, rank)?)?;
    parts.push(index_type(alloc, rank)?)?;
    Ok(parts)
}

// File, variable, start and count.
fn slab(alloc: Global, rank: u64) -> Result<Ty, Memory>
    ensures { IfOk result (λ t. type_of t ≡ types.product
        (tys_of (types.text ∷ types.text ∷ index_type rank ∷ index_type rank ∷ []))) }
{
    Ok(row(slab_parts(alloc, rank)?))
}

// File, variable, start, count and stride.
#[tactic(auto, using(aql_ty::specs::Laws::View::list_steps))]
fn strided_slab(alloc: Global, rank: u64) -> Result<Ty, Memory>
    ensures { IfOk result (λ t. type_of t ≡ types.product
        (tys_of (types.text ∷ types.text ∷ index_type rank ∷ index_type rank ∷ index_type rank
        ∷ []))) }
{
    let mut parts = slab_parts(alloc, rank)?;
    parts.push(index_type(alloc, rank)?)?;
    Ok(row(parts))
}

// The type of a record: of its one field, or a tuple.
#[tactic(auto, using(crate::proofs::Lists::record_steps))]
fn record(alloc: Global, kinds: &[Kind]) -> Result<Ty, Memory>
    ensures { IfOk result (λ t. type_of t ≡ record_type kinds.now) }
{
    if kinds.len() == 1 {
        return Ok(field(kinds[0]));
    }
    let parts = fields(alloc, kinds)?;
    Ok(row(parts))
}

#[tactic(auto, using(crate::proofs::Lists::fields_steps))]
fn fields(alloc: Global, kinds: &[Kind]) -> Result<Vec<Ty>, Memory>
    ensures { IfOk result (λ made. types_of made.items ≡ field_types kinds.now) }
{
    let mut made = Vec::new(alloc);
    for k in kinds {
        made.push(field(*k))?;
    }
    Ok(made)
}

fn field(k: Kind) -> Ty
    ensures { type_of result ≡ field_type k }
{
    match k {
        Kind::Number => Ty::Nat,
        Kind::Bytes => Ty::Text,
    }
}
