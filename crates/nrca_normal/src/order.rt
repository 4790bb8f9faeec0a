//! Which rules are tried at a node, by its form, in the order of the table; but for the checks of comparisons.

ghost use Rattle.std.specs.Prelude.{◌≡◌};
ghost use Rattle.nrca_term.specs.Term.{form_of};
ghost use Rattle.nrca_term.specs.View.{term_of};
ghost use Rattle.nrca_normal.specs.Order.{rules_of};

use nrca_term::{Core, Rule};

static OF_ANY: [Rule; 1] = [Rule::B1];

static OF_LET: [Rule; 5] = [Rule::B1, Rule::L1, Rule::L2, Rule::L3, Rule::A4];

static OF_IF: [Rule; 2] = [Rule::B1, Rule::I1];

static OF_DEFAULT: [Rule; 3] = [Rule::B1, Rule::N1, Rule::N2];

static OF_BIG_UNION: [Rule; 7] = [
    Rule::B1,
    Rule::I2,
    Rule::S1,
    Rule::S2,
    Rule::S3,
    Rule::S6,
    Rule::S9,
];

static OF_SUM: [Rule; 5] = [Rule::B1, Rule::I2, Rule::S4, Rule::S5, Rule::S9];

static OF_TAB: [Rule; 2] = [Rule::B1, Rule::A2];

static OF_CONSTANTS: [Rule; 2] = [Rule::B1, Rule::K1];

static OF_GET: [Rule; 3] = [Rule::B1, Rule::K1, Rule::S8];

static OF_PROJ: [Rule; 3] = [Rule::B1, Rule::P1, Rule::P2];

static OF_UNION: [Rule; 2] = [Rule::B1, Rule::S7];

static OF_SUB: [Rule; 4] = [Rule::B1, Rule::A1, Rule::A5, Rule::A7];

static OF_DIM: [Rule; 4] = [Rule::B1, Rule::A3, Rule::A6, Rule::A7];

/// The rules whose left side may have the form of the term. No other fits it.
#[tactic(auto, using(nrca_term::specs::Laws::Equations::list_forms))]
pub(crate) fn rules_for(term: &Core) -> &'static [Rule]
    ensures { result.now ≡ rules_of (form_of (term_of term.now)) }
{
    match term {
        Core::Var(_) => &OF_ANY,
        Core::Global(_) => &OF_ANY,
        Core::Nat(_) => &OF_ANY,
        Core::Bool(_) => &OF_ANY,
        Core::Text(_) => &OF_ANY,
        Core::Bottom => &OF_ANY,
        Core::Let(_, _) => &OF_LET,
        Core::If(_, _, _) => &OF_IF,
        Core::Default(_, _) => &OF_DEFAULT,
        Core::Tuple(_) => &OF_ANY,
        Core::Proj {
            at: _,
            of: _,
            part: _,
        } => &OF_PROJ,
        Core::Arith(_, _, _) => &OF_CONSTANTS,
        Core::Compare(_, _, _) => &OF_CONSTANTS,
        Core::Empty => &OF_ANY,
        Core::Single(_) => &OF_ANY,
        Core::Union(_, _) => &OF_UNION,
        Core::BigUnion { over: _, body: _ } => &OF_BIG_UNION,
        Core::Sum { over: _, body: _ } => &OF_SUM,
        Core::Gen(_) => &OF_CONSTANTS,
        Core::Get(_) => &OF_GET,
        Core::Tab { bounds: _, body: _ } => &OF_TAB,
        Core::Sub { array: _, at: _ } => &OF_SUB,
        Core::Dim { rank: _, array: _ } => &OF_DIM,
        Core::Index { rank: _, pairs: _ } => &OF_ANY,
        Core::Literal { dims: _, cells: _ } => &OF_CONSTANTS,
    }
}
