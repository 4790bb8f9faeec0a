//! The types of encoded values.

ghost use Rattle.std.specs.Prelude.{◌≡◌, IfOk, IsOkAnd};
ghost use Rattle.aql_ty.specs.Types as types;
ghost use Rattle.aql_ty.specs.View.{type_of, types_of};
ghost use Rattle.nrca_graph.specs.Encoding.{encoding_type, encoding_types, array_type};
ghost use Rattle.nrca_graph.specs.Coded.{IsPairType};

use aql_ty::index::index_type;
use aql_ty::ty::{Ty, row};
use aql_value::Memory;
use aql_value::made::{make_box, make_pair_list};
use std::alloc::Global;

/// The type of the encoded values of a type: an array's is that of the pairs of its dimensions and its graph.
#[cycle(encode_type)]
#[tactic(auto, using(aql_ty::specs::Laws::View::type_of_row))]
pub fn encode_type(alloc: Global, t: &Ty) -> Result<Ty, Memory>
    ensures { IfOk result (λ made. type_of made ≡ encoding_type (type_of t.now)) }
{
    match t {
        Ty::Nat => Ok(Ty::Nat),
        Ty::Bool => Ok(Ty::Bool),
        Ty::Text => Ok(Ty::Text),
        Ty::Var(x) => Ok(Ty::Var(*x)),
        Ty::Tuple(ts) => {
            let items = encode_types(alloc, &ts.items)?;
            Ok(row(items))
        }
        Ty::SetOf(t) => {
            let t = encode_type(alloc, t);
            Ok(Ty::SetOf(make_box(alloc, t)?))
        }
        Ty::ArrayOf { rank, cell } => {
            let cell = encode_type(alloc, cell);
            array_type(alloc, *rank, cell)
        }
    }
}

#[cycle(encode_type)]
#[tactic(auto, using(aql_ty::specs::Laws::View::list_steps))]
fn encode_types(alloc: Global, ts: &[Ty]) -> Result<Vec<Ty>, Memory>
    ensures { IfOk result (λ made. types_of made.items ≡ encoding_types (types_of ts.now)) }
{
    let mut made = Vec::new(alloc);
    for t in ts {
        let encoded = encode_type(alloc, t)?;
        made.push(encoded)?;
    }
    Ok(made)
}

// The pairs of dimensions and of a set of pairs of an index and a cell.
fn array_type(alloc: Global, rank: u64, cell: Result<Ty, Memory>) -> Result<Ty, Memory>
    ensures { IfOk result (λ made. IsOkAnd cell (λ c. type_of made ≡ array_type rank (type_of c))) }
{
    let pair = pair_type(alloc, index_type(alloc, rank), cell);
    let graph = set_type(alloc, pair);
    pair_type(alloc, index_type(alloc, rank), graph)
}

fn set_type(alloc: Global, member: Result<Ty, Memory>) -> Result<Ty, Memory>
    ensures { IfOk result (λ made. IsOkAnd member (λ m. type_of made ≡ types.set_of (type_of m))) }
{
    Ok(Ty::SetOf(make_box(alloc, member)?))
}

fn pair_type(alloc: Global, s: Result<Ty, Memory>, t: Result<Ty, Memory>) -> Result<Ty, Memory>
    ensures { IfOk result (λ u. IsOkAnd s (λ a. IsOkAnd t (λ b. IsPairType a b u))) }
{
    let items = make_pair_list(alloc, s, t)?;
    Ok(row(items))
}
