//! The parts of a node by number, whatever its form.

ghost use Rattle.std.specs.Prelude.{◌≡◌, ◌+◌, ◌<◌, ◌≤◌, ◌-◌, ◌^◌, ℕ, [], ◌∷◌, Some, vec_len, slice_set, IfSome};
ghost use Rattle.nrca_term.specs.Firm.{number_of};
ghost use Rattle.nrca_term.specs.Nodes.{number};
ghost use Rattle.nrca_term.specs.Swapped.{SwapsOne, SwapsTwo, part_of_two};
ghost use Rattle.nrca_term.specs.Term.{node, none, plain, Form, form_of, variable_of, form_weight};
ghost use Rattle.nrca_term.specs.Term.{count, child_of, binders_of, with_part, parts_of};
ghost use Rattle.nrca_term.specs.View.{term_of, terms_of, lent_term};

use crate::{Core, Terms};
use std::mem;

fn one<'a>(a: &'a Core, i: u64) -> Option<&'a Core>
    ensures { lent_term result ≡ child_of (plain (term_of a.now ∷ []) none) i }
{
    match i {
        0 => Some(a),
        _ => None,
    }
}

fn two<'a>(a: &'a Core, b: &'a Core, i: u64) -> Option<&'a Core>
    ensures { lent_term result ≡ child_of (plain (term_of a.now ∷ term_of b.now ∷ []) none) i }
{
    match i {
        0 => Some(a),
        1 => Some(b),
        _ => None,
    }
}

#[tactic(auto, using(crate::proofs::Children::listed))]
fn of_list(terms: &Terms, i: u64) -> Option<&Core>
    ensures { lent_term result ≡ child_of (plain (terms_of terms.now) none) i }
{
    if i < terms.0.len() as u64 {
        Some(&terms.0[i as usize])
    } else {
        None
    }
}

impl Core {
    #[tactic(auto, using(crate::proofs::Children::numbered))]
    /// Part i, in the order written. None where there is no such part.
    pub fn part(&self, i: u64) -> Option<&Core>
        ensures { lent_term result ≡ child_of (parts_of (term_of self.now)) i }
    {
        match self {
            Core::Let(a, b) => two(a, b, i),
            Core::If(c, a, b) => { if i < 1 { Some(c) } else { two(a, b, i - 1) } }
            Core::Default(a, b) => two(a, b, i),
            Core::Tuple(ts) => of_list(ts, i),
            Core::Proj { at: _, of: _, part } => one(part, i),
            Core::Arith(_, a, b) => two(a, b, i),
            Core::Compare(_, a, b) => two(a, b, i),
            Core::Single(a) => one(a, i),
            Core::Union(a, b) => two(a, b, i),
            Core::BigUnion { over, body } => two(over, body, i),
            Core::Sum { over, body } => two(over, body, i),
            Core::Gen(a) => one(a, i),
            Core::Get(a) => one(a, i),
            Core::Tab { bounds, body } => {
                let rank = bounds.0.len() as u64;
                if i < rank {
                    of_list(bounds, i)
                } else {
                    one(body, i - rank)
                }
            }
            Core::Sub { array, at } => {
                if i < 1 {
                    Some(array)
                } else {
                    of_list(at, i - 1)
                }
            }
            Core::Dim { rank: _, array } => one(array, i),
            Core::Index { rank: _, pairs } => one(pairs, i),
            Core::Literal { dims, cells } => {
                let rank = dims.0.len() as u64;
                if i < rank {
                    of_list(dims, i)
                } else {
                    of_list(cells, i - rank)
                }
            }
            Core::Var(_) => None,
            Core::Global(_) => None,
            Core::Nat(_) => None,
            Core::Bool(_) => None,
            Core::Text(_) => None,
            Core::Bottom => None,
            Core::Empty => None,
        }
    }
}

// The box with another term in it, and the term that was there.
fn swap_box(mut part: Box<Core>, with: Core) -> (Box<Core>, Core)
    ensures now { result.0.value ≡ with }
    ensures before { result.1 ≡ part.value }
{
    let old = mem::replace(&mut *part, with);
    (part, old)
}

fn swap_one(a: Box<Core>, i: u64, with: Core) -> (Box<Core>, Core)
    requires { i < 1 }
    ensures now { SwapsOne a i with result.0 }
    ensures before { Some (term_of result.1) ≡ child_of (plain (term_of a.value ∷ []) none) i }
{
    match i {
        0 => swap_box(a, with),
        _ => unreachable!(),
    }
}

// The second part may have variables of its own.
fn swap_two(a: Box<Core>, b: Box<Core>, i: u64, with: Core) -> ((Box<Core>, Box<Core>), Core)
    requires { i < 2 }
    ensures now { SwapsTwo (a, b) i with result.0 }
    ensures before { Some (term_of result.1) ≡ part_of_two (a, b) i }
{
    match i {
        0 => {
            let (a, old) = swap_box(a, with);
            ((a, b), old)
        }
        _ => {
            let (b, old) = swap_box(b, with);
            ((a, b), old)
        }
    }
}

#[tactic(auto, using(crate::proofs::Swaps::items))]
fn swap_item(mut terms: Terms, i: u64, with: Core) -> (Terms, Core)
    requires { i < vec_len terms.0 }
    ensures now { terms_of result.0 ≡ slice_set (terms_of terms) i (term_of with) }
    ensures before { Some (term_of result.1) ≡ child_of (plain (terms_of terms) none) i }
{
    let old = mem::replace(&mut terms.0[i as usize], with);
    (terms, old)
}

fn exchange_one(a: &mut Box<Core>, i: u64, with: &mut Core)
    requires { i < 1 }
    ensures now { SwapsOne a.old i with.old a.new }
    ensures before { Some (term_of with.new) ≡ child_of (plain (term_of a.old.value ∷ []) none) i }
{
    match i {
        0 => mem::swap(&mut **a, with),
        _ => unreachable!(),
    }
}

fn exchange_two(a: &mut Box<Core>, b: &mut Box<Core>, i: u64, with: &mut Core)
    requires { i < 2 }
    ensures now { SwapsTwo (a.old, b.old) i with.old (a.new, b.new) }
    ensures before { Some (term_of with.new) ≡ part_of_two (a.old, b.old) i }
{
    match i {
        0 => mem::swap(&mut **a, with),
        _ => mem::swap(&mut **b, with),
    }
}

// Says that what stands beside the parts stays as it was.
fn leave<T>(_beside: &mut T)
    ensures { _beside.new ≡ _beside.old }
{}

impl Core {
    /// The number of the variable that the term is. None where it is another form.
    pub fn variable(&self) -> Option<u64>
        ensures which { result ≡ variable_of (form_of (term_of self.now)) }
        ensures whole { IfSome result (λ i. term_of self.now ≡ node (Form.var i) none) }
    {
        match self {
            Core::Var(i) => Some(*i),
            _ => None,
        }
    }

    /// The number that the term is, where it is written as one. None where it is another form.
    pub fn number(&self) -> Option<u128>
        ensures which { result ≡ number_of (term_of self.now) }
        ensures whole { IfSome result (λ n. term_of self.now ≡ number n) }
    {
        match self {
            Core::Nat(n) => Some(*n),
            _ => None,
        }
    }

    /// The number of parts.
    #[tactic(auto, using(crate::proofs::Swaps::counts))]
    pub fn parts(&self) -> u64
        ensures { result ≡ count (parts_of (term_of self.now)) }
    {
        match self {
            Core::Let(_, _) => 2,
            Core::If(_, _, _) => 3,
            Core::Default(_, _) => 2,
            Core::Tuple(ts) => ts.0.len() as u64,
            Core::Proj {
                at: _,
                of: _,
                part: _,
            } => 1,
            Core::Arith(_, _, _) => 2,
            Core::Compare(_, _, _) => 2,
            Core::Single(_) => 1,
            Core::Union(_, _) => 2,
            Core::BigUnion { over: _, body: _ } => 2,
            Core::Sum { over: _, body: _ } => 2,
            Core::Gen(_) => 1,
            Core::Get(_) => 1,
            Core::Tab { bounds, body: _ } => bounds.0.len() as u64 + 1,
            Core::Sub { array: _, at } => at.0.len() as u64 + 1,
            Core::Dim { rank: _, array: _ } => 1,
            Core::Index { rank: _, pairs: _ } => 1,
            Core::Literal { dims, cells } => dims.0.len() as u64 + cells.0.len() as u64,
            Core::Var(_) => 0,
            Core::Global(_) => 0,
            Core::Nat(_) => 0,
            Core::Bool(_) => 0,
            Core::Text(_) => 0,
            Core::Bottom => 0,
            Core::Empty => 0,
        }
    }

    /// The number of variables that part i has beyond those around the node.
    pub fn binders(&self, i: u64) -> u64
        requires { i < count (parts_of (term_of self.now)) }
        ensures number { result ≡ binders_of (parts_of (term_of self.now)) i }
        ensures light { result ≤ form_weight (form_of (term_of self.now)) }
    {
        self.form().binders(i)
    }

    /// The term with another part i, and the part that was there.
    #[tactic(auto, using(crate::proofs::Swaps::swaps))]
    pub fn swap_part(self, i: u64, with: Core) -> (Core, Core)
        requires { i < count (parts_of (term_of self)) }
        ensures now { term_of result.0 ≡ with_part (term_of self) i (term_of with) }
        ensures before { Some (term_of result.1) ≡ child_of (parts_of (term_of self)) i }
    {
        match self {
            Core::Let(a, b) => {
                let ((a, b), old) = swap_two(a, b, i, with);
                (Core::Let(a, b), old)
            }
            Core::If(c, a, b) => match i {
                0 => {
                    let (c, old) = swap_box(c, with);
                    (Core::If(c, a, b), old)
                }
                1 => {
                    let (a, old) = swap_box(a, with);
                    (Core::If(c, a, b), old)
                }
                _ => {
                    let (b, old) = swap_box(b, with);
                    (Core::If(c, a, b), old)
                }
            },
            Core::Default(a, b) => {
                let ((a, b), old) = swap_two(a, b, i, with);
                (Core::Default(a, b), old)
            }
            Core::Tuple(ts) => {
                let (ts, old) = swap_item(ts, i, with);
                (Core::Tuple(ts), old)
            }
            Core::Proj { at, of, part } => {
                let (part, old) = swap_one(part, i, with);
                (Core::Proj { at, of, part }, old)
            }
            Core::Arith(op, a, b) => {
                let ((a, b), old) = swap_two(a, b, i, with);
                (Core::Arith(op, a, b), old)
            }
            Core::Compare(op, a, b) => {
                let ((a, b), old) = swap_two(a, b, i, with);
                (Core::Compare(op, a, b), old)
            }
            Core::Single(a) => {
                let (a, old) = swap_one(a, i, with);
                (Core::Single(a), old)
            }
            Core::Union(a, b) => {
                let ((a, b), old) = swap_two(a, b, i, with);
                (Core::Union(a, b), old)
            }
            Core::BigUnion { over, body } => {
                let ((over, body), old) = swap_two(over, body, i, with);
                (Core::BigUnion { over, body }, old)
            }
            Core::Sum { over, body } => {
                let ((over, body), old) = swap_two(over, body, i, with);
                (Core::Sum { over, body }, old)
            }
            Core::Gen(a) => {
                let (a, old) = swap_one(a, i, with);
                (Core::Gen(a), old)
            }
            Core::Get(a) => {
                let (a, old) = swap_one(a, i, with);
                (Core::Get(a), old)
            }
            Core::Tab { bounds, body } => {
                if i < bounds.0.len() as u64 {
                    let (bounds, old) = swap_item(bounds, i, with);
                    (Core::Tab { bounds, body }, old)
                } else {
                    let (body, old) = swap_box(body, with);
                    (Core::Tab { bounds, body }, old)
                }
            }
            Core::Sub { array, at } => {
                if i < 1 {
                    let (array, old) = swap_box(array, with);
                    (Core::Sub { array, at }, old)
                } else {
                    let (at, old) = swap_item(at, i - 1, with);
                    (Core::Sub { array, at }, old)
                }
            }
            Core::Dim { rank, array } => {
                let (array, old) = swap_one(array, i, with);
                (Core::Dim { rank, array }, old)
            }
            Core::Index { rank, pairs } => {
                let (pairs, old) = swap_one(pairs, i, with);
                (Core::Index { rank, pairs }, old)
            }
            Core::Literal { dims, cells } => {
                let rank = dims.0.len() as u64;
                if i < rank {
                    let (dims, old) = swap_item(dims, i, with);
                    (Core::Literal { dims, cells }, old)
                } else {
                    let (cells, old) = swap_item(cells, i - rank, with);
                    (Core::Literal { dims, cells }, old)
                }
            }
            Core::Var(_) => unreachable!(),
            Core::Global(_) => unreachable!(),
            Core::Nat(_) => unreachable!(),
            Core::Bool(_) => unreachable!(),
            Core::Text(_) => unreachable!(),
            Core::Bottom => unreachable!(),
            Core::Empty => unreachable!(),
        }
    }

    /// The term with another part i.
    pub fn put_part(self, i: u64, with: Core) -> Core
        requires { i < count (parts_of (term_of self)) }
        ensures { term_of result ≡ with_part (term_of self) i (term_of with) }
    {
        let (whole, _) = self.swap_part(i, with);
        whole
    }

    // Where the parts stand in vectors the node is taken apart.
    fn exchange_apart(&mut self, i: u64, with: &mut Core)
        requires { i < count (parts_of (term_of self.old)) }
        ensures now { term_of self.new ≡ with_part (term_of self.old) i (term_of with.old) }
        ensures before { Some (term_of with.new) ≡ child_of (parts_of (term_of self.old)) i }
    {
        let whole = mem::replace(self, Core::Bottom);
        let other = mem::replace(with, Core::Bottom);
        let (whole, part) = whole.swap_part(i, other);
        *self = whole;
        *with = part;
    }

    /// Exchanges part i for another term, in place. What a recursion over the parts needs on the
    /// stack is then one term for each level.
    #[tactic(auto, using(crate::proofs::Swaps::swaps))]
    #[inline(never)]
    pub fn exchange(&mut self, i: u64, with: &mut Core)
        requires { i < count (parts_of (term_of self.old)) }
        ensures now { term_of self.new ≡ with_part (term_of self.old) i (term_of with.old) }
        ensures before { Some (term_of with.new) ≡ child_of (parts_of (term_of self.old)) i }
    {
        match self {
            Core::Let(a, b) => exchange_two(a, b, i, with),
            Core::If(c, a, b) => {
                if i < 1 {
                    exchange_one(c, i, with)
                } else {
                    exchange_two(a, b, i - 1, with)
                }
            }
            Core::Default(a, b) => exchange_two(a, b, i, with),
            Core::Arith(op, a, b) => {
                exchange_two(a, b, i, with);
                leave(op);
            }
            Core::Compare(op, a, b) => {
                exchange_two(a, b, i, with);
                leave(op);
            }
            Core::Single(a) => exchange_one(a, i, with),
            Core::Union(a, b) => exchange_two(a, b, i, with),
            Core::BigUnion { over, body } => exchange_two(over, body, i, with),
            Core::Sum { over, body } => exchange_two(over, body, i, with),
            Core::Gen(a) => exchange_one(a, i, with),
            Core::Get(a) => exchange_one(a, i, with),
            _ => self.exchange_apart(i, with),
        }
    }
}
