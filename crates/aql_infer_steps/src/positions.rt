//! What the earlier positions have, in order, with an index of their names.

ghost use Rattle.std.specs.Prelude.{◌≡◌, ◌++◌, ◌∷◌, [], OnOk, OnErr, MatchOption, None, length};
ghost use Rattle.aql_ty.specs.Types.{natural};
ghost use Rattle.aql_ty.specs.View.{type_of, types_of, sort_of};
ghost use Rattle.aql_syntax.specs.Names.{find};
ghost use Rattle.aql_infer_steps.specs.View.{schemes_of, sort_at, part_of};
ghost use Rattle.aql_infer_steps.specs.Ground.{is_ground, are_ground, ground_of, IsLatest};

use crate::sketch::{Instance, Part};
use aql_names::names::Names;
use aql_ty::ty::{Scheme, Ty};
use aql_value::{Memory, Str};
use std::alloc::Global;
use std::marker::Model;

/// What an earlier position has: its name, its scheme, and how many variables that has.
#[derive(Drop)]
pub struct Position {
    pub name: Str,
    pub scheme: Scheme,
    pub variables: u64,
}

/// Whether the type of a value or of an argument is without variables, and that of a result.
#[derive(Clone, Copy, Drop)]
pub struct Ground {
    pub first: bool,
    pub result: bool,
}

/// Earlier positions in order, seen as the list of them.
#[derive(Drop)]
pub struct Positions {
    items: Vec<Position>,
    // Their names.
    names: Names,
    // What is known of their types.
    ground: Vec<Ground>,
}

impl Model for Positions {
    ghost use Rattle.std.specs.Prelude.{◌≡◌, List};
    ghost use Rattle.std.specs.Coded.{coded_list};
    ghost use Rattle.aql_infer_steps.specs.declared.positions.Position.{Position};
    ghost use Rattle.aql_infer_steps.specs.contracts.positions.Position.{the_row};

    ghost Value = { List Position };

    ghost coded = { coded_list the_row.coded };

    ghost use Rattle.aql_infer_steps.specs.Ground.{AreOf};

    ghost view = { λ s. s.items.items };

    ghost invariant = { λ s. AreOf s.items.items s.names s.ground.items };
}

impl Positions {
    /// No positions.
    pub fn new(alloc: Global) -> Positions
        ensures { result ≡ [] }
    {
        Positions {
            items: Vec::new(alloc),
            names: Names::new(alloc),
            ground: Vec::new(alloc),
        }
    }

    /// How many positions there are.
    pub fn len(&self) -> usize
        ensures { result ≡ length self.now }
    {
        self.items.len()
    }

    /// The positions in order.
    pub fn items(&self) -> &[Position]
        ensures { result.now ≡ self.now }
    {
        self.items.as_slice()
    }

    /// The latest position of that name, with its number, counted from 0: none where none has it. It is looked up in the index.
    pub fn latest(&self, x: &Str) -> Option<(usize, &Position, Ground)>
        ensures { MatchOption result (find x.now (schemes_of self.now) ≡ None)
            (λ r. IsLatest x.now self.now r.0 r.1.now r.2) }
    {
        match self.names.latest(x) {
            Some(i) => Some((i, &self.items[i], self.ground[i])),
            None => None,
        }
    }

    /// The type of that part of that position. None where there is no such part, for which a number stands.
    pub fn part(&self, i: Instance) -> Option<&Ty>
        ensures { MatchOption result (part_of i.part (sort_at self.now i.position) ≡ natural)
            (λ t. part_of i.part (sort_at self.now i.position) ≡ type_of t.now) }
    {
        match self.items.get(i.position) {
            Some(p) => scheme_part(&p.scheme, i.part),
            None => None,
        }
    }

    /// One position more, the latest. For want of memory nothing is added.
    pub fn push(&mut self, alloc: Global, p: Position) -> Result<(), Memory>
        ensures pushed { OnOk result (self.new ≡ self.old ++ p ∷ []) }
        ensures as_before { OnErr result (self.new ≡ self.old) }
    {
        let n = self.items.len();
        self.ground.push(scheme_ground(&p.scheme))?;
        match self.items.push(p) {
            Ok(()) => (),
            Err(_) => {
                self.ground.pop();
                return Err(Memory);
            }
        }
        match self.names.push(alloc, &self.items[n].name) {
            Ok(()) => Ok(()),
            Err(Memory) => {
                self.items.pop();
                self.ground.pop();
                Err(Memory)
            }
        }
    }
}

// The type of a part of a scheme: none where it has no such part.
fn scheme_part(s: &Scheme, part: Part) -> Option<&Ty>
    ensures { MatchOption result (part_of part (sort_of s.now) ≡ natural)
        (λ t. part_of part (sort_of s.now) ≡ type_of t.now) }
{
    match s {
        Scheme::Value(t) => match part {
            Part::Value => Some(t),
            Part::Argument => None,
            Part::Result => None,
        },
        Scheme::Macro { argument, result } => match part {
            Part::Value => None,
            Part::Argument => Some(argument),
            Part::Result => Some(result),
        },
    }
}

// Which types of a scheme are without variables.
fn scheme_ground(s: &Scheme) -> Ground
    ensures { result ≡ ground_of (sort_of s.now) }
{
    match s {
        Scheme::Value(t) => Ground {
            first: has_no_variable(t),
            result: true,
        },
        Scheme::Macro { argument, result } => Ground {
            first: has_no_variable(argument),
            result: has_no_variable(result),
        },
    }
}

// Whether no variable stands in a type.
#[cycle(ground)]
#[tactic(auto, using(aql_ty::specs::Laws::View::type_of_row))]
fn has_no_variable(t: &Ty) -> bool
    ensures { result ≡ is_ground (type_of t.now) }
{
    match t {
        Ty::Nat => true,
        Ty::Bool => true,
        Ty::Text => true,
        Ty::Var(_) => false,
        Ty::Tuple(ts) => have_no_variable(&ts.items),
        Ty::SetOf(t) => has_no_variable(t),
        Ty::ArrayOf { rank: _, cell } => has_no_variable(cell),
    }
}

#[cycle(ground)]
#[tactic(auto, using(aql_ty::specs::Laws::View::list_steps))]
fn have_no_variable(ts: &[Ty]) -> bool
    ensures { result ≡ are_ground (types_of ts.now) }
{
    for t in ts {
        if !has_no_variable(t) {
            return false;
        }
    }
    true
}
