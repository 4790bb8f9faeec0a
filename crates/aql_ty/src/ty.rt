//! Types, their counts and copies.

ghost use Rattle.std.specs.Prelude.{◌≡◌, ◌-◌, ◌^◌, ◌&&◌, min, nat_le, IfOk};
ghost use Rattle.aql_ty.specs.Types.{count};
ghost use Rattle.aql_ty.specs.Types as types;
ghost use Rattle.aql_ty.specs.View.{type_of, types_of, sort_of};

use aql_value::Memory;
use std::alloc::Global;

/// A type. A tuple has two or more parts, an array a rank from 1 to 8.
#[derive(Drop)]
#[cycle(ty)]
pub enum Ty {
    Nat,
    Bool,
    Text,
    Var(u64),
    Tuple(Tys),
    SetOf(Box<Ty>),
    ArrayOf { rank: u64, cell: Box<Ty> },
}

/// A list of types.
#[derive(Drop)]
#[cycle(ty)]
pub struct Tys {
    pub items: Vec<Ty>,
}

/// What a declaration has. All of its variables are general.
#[derive(Drop)]
pub enum Scheme {
    Value(Ty),
    Macro { argument: Ty, result: Ty },
}

impl Ty {
    /// The number of nodes, or the greatest number of 64 bits where there are more.
    #[cycle(nodes)]
    #[tactic(auto, using(crate::specs::Laws::View::type_of_row))]
    pub fn nodes(&self) -> u64
        ensures { result ≡ min (types.nodes (type_of self.now)) (2 ^ 64 - 1) }
    {
        match self {
            Ty::Nat => 1,
            Ty::Bool => 1,
            Ty::Text => 1,
            Ty::Var(_) => 1,
            Ty::Tuple(ts) => nodes_all(&ts.items).saturating_add(1),
            Ty::SetOf(t) => t.nodes().saturating_add(1),
            Ty::ArrayOf { rank: _, cell } => cell.nodes().saturating_add(1),
        }
    }

    /// The number of levels, or the greatest number of 64 bits where there are more.
    #[cycle(levels)]
    #[tactic(auto, using(crate::specs::Laws::View::type_of_row))]
    pub fn levels(&self) -> u64
        ensures { result ≡ min (types.levels (type_of self.now)) (2 ^ 64 - 1) }
    {
        match self {
            Ty::Nat => 1,
            Ty::Bool => 1,
            Ty::Text => 1,
            Ty::Var(_) => 1,
            Ty::Tuple(ts) => levels_all(&ts.items).saturating_add(1),
            Ty::SetOf(t) => t.levels().saturating_add(1),
            Ty::ArrayOf { rank: _, cell } => cell.levels().saturating_add(1),
        }
    }

    /// Whether the type is within the limits: at most 10,000 nodes and 400 levels, tuples of two or
    /// more parts, arrays of ranks from 1 to 8.
    pub fn fits(&self) -> bool
        ensures { result ≡ types.fits (type_of self.now) }
    {
        self.nodes() <= 10000 && self.levels() <= 400 && self.is_type()
    }

    /// Whether each tuple in it has two or more parts and each array a rank from 1 to 8.
    #[cycle(is_type)]
    #[tactic(auto, using(crate::specs::Laws::View::type_of_row))]
    fn is_type(&self) -> bool
        ensures { result ≡ types.is_type (type_of self.now) }
    {
        match self {
            Ty::Nat => true,
            Ty::Bool => true,
            Ty::Text => true,
            Ty::Var(_) => true,
            Ty::Tuple(ts) => are_parts(&ts.items),
            Ty::SetOf(t) => t.is_type(),
            Ty::ArrayOf { rank, cell } => 1 <= *rank && *rank <= 8 && cell.is_type(),
        }
    }

    /// An equal type.
    #[cycle(copy)]
    #[tactic(auto, using(crate::specs::Laws::View::type_of_row))]
    pub fn copy(&self, alloc: Global) -> Result<Ty, Memory>
        ensures { IfOk result (λ made. type_of made ≡ type_of self.now) }
    {
        match self {
            Ty::Nat => Ok(Ty::Nat),
            Ty::Bool => Ok(Ty::Bool),
            Ty::Text => Ok(Ty::Text),
            Ty::Var(x) => Ok(Ty::Var(*x)),
            Ty::Tuple(ts) => {
                let items = copy_all(alloc, &ts.items)?;
                Ok(row(items))
            }
            Ty::SetOf(t) => {
                let t = t.copy(alloc)?;
                Ok(Ty::SetOf(Box::new(alloc, t)?))
            }
            Ty::ArrayOf { rank, cell } => {
                let cell = cell.copy(alloc)?;
                Ok(Ty::ArrayOf {
                    rank: *rank,
                    cell: Box::new(alloc, cell)?,
                })
            }
        }
    }

    /// Whether the variable stands in the type.
    #[cycle(occurs)]
    #[tactic(auto, using(crate::specs::Laws::View::type_of_row))]
    pub fn has_variable(&self, x: u64) -> bool
        ensures { result ≡ types.occurs x (type_of self.now) }
    {
        match self {
            Ty::Nat => false,
            Ty::Bool => false,
            Ty::Text => false,
            Ty::Var(y) => *y == x,
            Ty::Tuple(ts) => has_variable_all(&ts.items, x),
            Ty::SetOf(t) => t.has_variable(x),
            Ty::ArrayOf { rank: _, cell } => cell.has_variable(x),
        }
    }
}

impl Scheme {
    /// An equal scheme.
    pub fn copy(&self, alloc: Global) -> Result<Scheme, Memory>
        ensures { IfOk result (λ made. sort_of made ≡ sort_of self.now) }
    {
        match self {
            Scheme::Value(t) => {
                let t = t.copy(alloc)?;
                Ok(Scheme::Value(t))
            }
            Scheme::Macro { argument, result } => {
                let argument = argument.copy(alloc)?;
                let result = result.copy(alloc)?;
                Ok(Scheme::Macro { argument, result })
            }
        }
    }
}

/// The tuple type of these parts.
pub fn row(items: Vec<Ty>) -> Ty
    ensures { type_of result ≡ types.product (types_of items.items) }
{
    Ty::Tuple(Tys { items })
}

#[cycle(nodes)]
#[tactic(auto, using(crate::specs::Laws::View::list_steps))]
fn nodes_all(ts: &[Ty]) -> u64
    ensures { result ≡ min (types.nodes_all (types_of ts.now)) (2 ^ 64 - 1) }
{
    let mut total: u64 = 0;
    for t in ts {
        total = total.saturating_add(t.nodes());
    }
    total
}

#[cycle(levels)]
#[tactic(auto, using(crate::specs::Laws::View::list_steps))]
fn levels_all(ts: &[Ty]) -> u64
    ensures { result ≡ min (types.levels_all (types_of ts.now)) (2 ^ 64 - 1) }
{
    let mut most: u64 = 0;
    for t in ts {
        let here = t.levels();
        if most < here {
            most = here;
        }
    }
    most
}

#[cycle(is_type)]
#[tactic(auto, using(crate::specs::Laws::View::count_types))]
fn are_parts(ts: &[Ty]) -> bool
    ensures { result ≡ (nat_le 2 (count (types_of ts.now)) && types.are_types (types_of ts.now)) }
{
    2 <= ts.len() && are_types(ts)
}

#[cycle(is_type)]
#[tactic(auto, using(crate::specs::Laws::View::list_steps))]
fn are_types(ts: &[Ty]) -> bool
    ensures { result ≡ types.are_types (types_of ts.now) }
{
    for t in ts {
        if !t.is_type() {
            return false;
        }
    }
    true
}

#[cycle(copy)]
#[tactic(auto, using(crate::specs::Laws::View::list_steps))]
fn copy_all(alloc: Global, ts: &[Ty]) -> Result<Vec<Ty>, Memory>
    ensures { IfOk result (λ made. types_of made.items ≡ types_of ts.now) }
{
    let mut made = Vec::new(alloc);
    for t in ts {
        let copied = t.copy(alloc)?;
        made.push(copied)?;
    }
    Ok(made)
}

#[cycle(occurs)]
#[tactic(auto, using(crate::specs::Laws::View::list_steps))]
fn has_variable_all(ts: &[Ty], x: u64) -> bool
    ensures { result ≡ types.occurs_all x (types_of ts.now) }
{
    for t in ts {
        if t.has_variable(x) {
            return true;
        }
    }
    false
}
