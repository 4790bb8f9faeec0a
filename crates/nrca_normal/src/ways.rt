//! The ways from the left side of a rule to the terms that must have a value.

ghost use Rattle.std.specs.Prelude.{◌≡◌, ◌+◌, ◌<◌, ◌^◌, true, false};
ghost use Rattle.nrca_term.specs.View.{term_of};
ghost use Rattle.nrca_term.specs.Normal.{is_check};
ghost use Rattle.nrca_term.specs.declared.trace.Rule.TheVariants.{L1, P1, A1, A3, A5, A6};
ghost use Rattle.nrca_rule_laws.specs.Fitting.{RuleFits};
ghost use Rattle.nrca_normal.specs.Ways.{AreWays, AreAtomWays, IsPosition, HasRoom};

use nrca_arrayrules::literal_offset;
use nrca_term::{Core, Rule};

/// Ways to terms that must have a value.
#[derive(Clone, Copy, Drop)]
pub enum Ways {
    /// No way: the rule has no condition.
    Free,
    /// To the first part.
    First,
    /// To a part of the first part.
    Inner(u64),
    /// To `count` parts of the first part, from part `from` on, but for the one that is `but` behind it.
    Others { from: u64, but: u64, count: u64 },
}

/// The ways of a rule that fits. The checks of comparisons are not asked.
pub(crate) fn ways_of(rule: Rule, term: &Core) -> Ways
    requires fits { RuleFits rule true (term_of term.now) }
    requires plain { is_check rule ≡ false }
    ensures ways { AreWays rule (term_of term.now) result }
    ensures room { HasRoom result }
{
    match rule {
        Rule::L1 => ways_of_atom(term),
        Rule::L3 => Ways::First,
        Rule::N2 => Ways::First,
        Rule::P1 => ways_of_components(term),
        Rule::A1 => ways_of_body(term),
        Rule::A3 => ways_of_measured(term),
        Rule::A5 => ways_of_subscript(term),
        Rule::A6 => ways_of_cells(term),
        Rule::B1 => Ways::Free,
        Rule::K1 => Ways::Free,
        Rule::I1 => Ways::Free,
        Rule::I2 => Ways::Free,
        Rule::L2 => Ways::Free,
        Rule::P2 => Ways::Free,
        Rule::S1 => Ways::Free,
        Rule::S2 => Ways::Free,
        Rule::S3 => Ways::Free,
        Rule::S4 => Ways::Free,
        Rule::S5 => Ways::Free,
        Rule::S6 => Ways::Free,
        Rule::S7 => Ways::Free,
        Rule::S8 => Ways::Free,
        Rule::S9 => Ways::Free,
        Rule::A2 => Ways::Free,
        Rule::A4 => Ways::Free,
        Rule::A7 => Ways::Free,
        Rule::N1 => Ways::Free,
        Rule::C1 => unreachable!(),
        Rule::C2 => unreachable!(),
        Rule::C3 => unreachable!(),
        Rule::C4 => unreachable!(),
    }
}

// Of a let whose bound term is an atom: a position must have a value.
fn ways_of_atom(term: &Core) -> Ways
    requires { RuleFits L1 true (term_of term.now) }
    ensures ways { AreWays L1 (term_of term.now) result }
    ensures room { HasRoom result }
{
    match term {
        Core::Let(bound, _) => {
            let ways = atom_ways(bound);
            ways
        }
        _ => unreachable!(),
    }
}

fn atom_ways(atom: &Core) -> Ways
    ensures ways { AreAtomWays (term_of atom.now) result }
    ensures room { HasRoom result }
{
    if is_position(atom) {
        Ways::First
    } else {
        Ways::Free
    }
}

// Whether the term is a position.
fn is_position(term: &Core) -> bool
    ensures { IsPosition result (term_of term.now) }
{
    match term {
        Core::Global(_) => true,
        _ => false,
    }
}

// Of a component of a tuple: the other components.
fn ways_of_components(term: &Core) -> Ways
    requires { RuleFits P1 true (term_of term.now) }
    ensures ways { AreWays P1 (term_of term.now) result }
    ensures room { HasRoom result }
{
    match term {
        Core::Proj { at, of, part: _ } => {
            let but = *at - 1;
            Ways::Others {
                from: 0,
                but,
                count: *of,
            }
        }
        _ => unreachable!(),
    }
}

// Of a subscript of a tabulation: its body.
fn ways_of_body(term: &Core) -> Ways
    requires { RuleFits A1 true (term_of term.now) }
    ensures ways { AreWays A1 (term_of term.now) result }
    ensures room { HasRoom result }
{
    match term {
        Core::Sub { array, at: _ } => match &**array {
            Core::Tab { bounds, body: _ } => {
                let rank = bounds.0.len() as u64;
                Ways::Inner(rank)
            }
            _ => unreachable!(),
        },
        _ => unreachable!(),
    }
}

// Of the dimensions of a tabulation: its body.
fn ways_of_measured(term: &Core) -> Ways
    requires { RuleFits A3 true (term_of term.now) }
    ensures ways { AreWays A3 (term_of term.now) result }
    ensures room { HasRoom result }
{
    match term {
        Core::Dim { rank, array: _ } => Ways::Inner(*rank),
        _ => unreachable!(),
    }
}

// Of a constant subscript of a literal array: the other cells, where the index is in range.
fn ways_of_subscript(term: &Core) -> Ways
    requires { RuleFits A5 true (term_of term.now) }
    ensures ways { AreWays A5 (term_of term.now) result }
    ensures room { HasRoom result }
{
    match term {
        Core::Sub { array, at } => match &**array {
            Core::Literal { dims, cells } => match literal_offset(dims, at) {
                Some(p) => {
                    let but = p as u64;
                    Ways::Others {
                        from: dims.0.len() as u64,
                        but,
                        count: cells.0.len() as u64,
                    }
                }
                None => Ways::Free,
            },
            _ => unreachable!(),
        },
        _ => unreachable!(),
    }
}

// Of the dimensions of a literal array: all cells.
fn ways_of_cells(term: &Core) -> Ways
    requires { RuleFits A6 true (term_of term.now) }
    ensures ways { AreWays A6 (term_of term.now) result }
    ensures room { HasRoom result }
{
    match term {
        Core::Dim { rank: _, array } => match &**array {
            Core::Literal { dims, cells } => {
                let count = cells.0.len() as u64;
                Ways::Others {
                    from: dims.0.len() as u64,
                    but: count,
                    count,
                }
            }
            _ => unreachable!(),
        },
        _ => unreachable!(),
    }
}
