//! The form of a term: its variant, and what that holds beside the parts.

ghost use Rattle.std.specs.Prelude.{◌≡◌, ◌↔◌, IsTrue};
ghost use Rattle.nrca_term.specs.Term.{form_of, form_binders, form_weight};
ghost use Rattle.nrca_term.specs.View.{term_of, pure_form, pure_strict};

use crate::Core;
use aql_value::{ArithOp, CompareOp};

/// A form that evaluates all its parts and binds nothing. `Text` is lent its bytes.
#[derive(Clone, Copy, PartialEq, Eq)]
pub enum Strict<'a> {
    Nat(u128),
    Bool(bool),
    Text(&'a [u8]),
    Bottom,
    Tuple,
    Proj { at: u64, of: u64 },
    Arith(ArithOp),
    Compare(CompareOp),
    Empty,
    Single,
    Union,
    Gen,
    Get,
    Sub,
    Dim(u64),
    Index(u64),
    Literal(u64),
}

/// A form: a term is one and its parts. `Tab` and `Literal` keep their rank.
#[derive(Clone, Copy, PartialEq, Eq)]
pub enum Form<'a> {
    Var(u64),
    Global(u64),
    Bind,
    Choose,
    Default,
    BigUnion,
    Sum,
    Tab(u64),
    Strict(Strict<'a>),
}

impl<'a> Strict<'a> {
    /// Whether it is the same form.
    pub fn is<'b>(self, other: Strict<'b>) -> bool
        ensures { IsTrue result ↔ (pure_strict self.entry ≡ pure_strict other.entry) }
    {
        self == other
    }
}

impl<'a> Form<'a> {
    /// Whether it is the same form.
    pub fn is<'b>(self, other: Form<'b>) -> bool
        ensures { IsTrue result ↔ (pure_form self.entry ≡ pure_form other.entry) }
    {
        self == other
    }

    /// The weight of a node of this form by itself.
    pub fn weight(self) -> u128
        ensures { result ≡ form_weight (pure_form self.entry) }
    {
        match self {
            Form::Tab(rank) => rank as u128 * 6 + 6,
            Form::Strict(Strict::Dim(rank)) => rank as u128 * 2 + 2,
            _ => 1,
        }
    }

    /// The number of variables that it binds in its part i, counted from 0.
    pub fn binders(self, i: u64) -> u64
        ensures { result ≡ form_binders (pure_form self.entry) i }
    {
        match self {
            Form::Bind => i.min(1),
            Form::BigUnion => i.min(1),
            Form::Sum => i.min(1),
            Form::Tab(rank) => { if i < rank { 0 } else { rank } }
            _ => 0,
        }
    }
}

impl Core {
    /// The form: what a node is beside its parts.
    #[tactic(auto, using(crate::specs::Laws::Equations::list_forms))]
    pub fn form(&self) -> Form<'_>
        ensures { pure_form result ≡ form_of (term_of self.now) }
    {
        match self {
            Core::Var(i) => Form::Var(*i),
            Core::Global(n) => Form::Global(*n),
            Core::Nat(n) => Form::Strict(Strict::Nat(*n)),
            Core::Bool(b) => Form::Strict(Strict::Bool(*b)),
            Core::Text(s) => Form::Strict(Strict::Text(s.bytes.as_slice())),
            Core::Bottom => Form::Strict(Strict::Bottom),
            Core::Let(_, _) => Form::Bind,
            Core::If(_, _, _) => Form::Choose,
            Core::Default(_, _) => Form::Default,
            Core::Tuple(_) => Form::Strict(Strict::Tuple),
            Core::Proj { at, of, part: _ } => Form::Strict(Strict::Proj { at: *at, of: *of }),
            Core::Arith(op, _, _) => Form::Strict(Strict::Arith(*op)),
            Core::Compare(op, _, _) => Form::Strict(Strict::Compare(*op)),
            Core::Empty => Form::Strict(Strict::Empty),
            Core::Single(_) => Form::Strict(Strict::Single),
            Core::Union(_, _) => Form::Strict(Strict::Union),
            Core::BigUnion { over: _, body: _ } => Form::BigUnion,
            Core::Sum { over: _, body: _ } => Form::Sum,
            Core::Gen(_) => Form::Strict(Strict::Gen),
            Core::Get(_) => Form::Strict(Strict::Get),
            Core::Tab { bounds, body: _ } => Form::Tab(bounds.0.len() as u64),
            Core::Sub { array: _, at: _ } => Form::Strict(Strict::Sub),
            Core::Dim { rank, array: _ } => Form::Strict(Strict::Dim(*rank)),
            Core::Index { rank, pairs: _ } => Form::Strict(Strict::Index(*rank)),
            Core::Literal { dims, cells: _ } => {
                Form::Strict(Strict::Literal(dims.0.len() as u64))
            }
        }
    }
}
