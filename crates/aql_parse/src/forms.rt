//! Operators, heads of applications, and trees made of what was read.

ghost use Rattle.std.specs.Prelude.{◌≡◌, ◌<◌, ◌-◌, MatchOption, Some, None};
ghost use Rattle.aql_syntax.specs.Lexis.{mark};
ghost use Rattle.aql_syntax.specs.Tree as tree;
ghost use Rattle.aql_syntax.specs.Nodes.{operation_form};
ghost use Rattle.aql_syntax.specs.View.{tree_of, trees_of, qual_of};
ghost use Rattle.aql_syntax.specs.Grammar.{head_operator};
ghost use Rattle.aql_parse_spec.specs.Parsing as grammar;
ghost use Rattle.aql_parse_spec.specs.Parsing.{joined_by, operand, grouping, add_qualifier};
ghost use Rattle.aql_parse.specs.Words.{lexemes, GivesReading};
ghost use Rattle.aql_parse.specs.Parts.{few_of, one_of};
ghost use Rattle.aql_parse.specs.Forms.{joiner_of, opening_of, front_seen};

use crate::refusal::Refusal;
use crate::words::{Word, next, skip_sign};
use aql_syntax::ast::{Expr, Pattern, Qual};
use aql_syntax::build::row;
use aql_syntax::nodes::{Functional, Operation, Operator, apply_operator};
use aql_syntax::sign::Sign;
use aql_syntax::token::Token;
use aql_value::{ArithOp, CompareOp};

// The level of an operator, and the operator.
fn operator_of(sign: Sign) -> Option<(u64, Operator)>
    ensures { MatchOption result (grammar.operator_of (mark sign) ≡ None)
        (λ x. grammar.operator_of (mark sign) ≡ Some (x.0, joiner_of x.1)) }
{
    match sign {
        Sign::Star => Some((1, Operator::Arith(ArithOp::Mul))),
        Sign::Slash => Some((1, Operator::Arith(ArithOp::Quotient))),
        Sign::Percent => Some((1, Operator::Arith(ArithOp::Remainder))),
        Sign::Plus => Some((2, Operator::Arith(ArithOp::Add))),
        Sign::Minus => Some((2, Operator::Arith(ArithOp::Monus))),
        Sign::Union => Some((3, Operator::Union)),
        Sign::Equal => Some((4, Operator::Compare(CompareOp::Equal))),
        Sign::Unequal => Some((4, Operator::Compare(CompareOp::Unequal))),
        Sign::Less => Some((4, Operator::Compare(CompareOp::Less))),
        Sign::LessEqual => Some((4, Operator::Compare(CompareOp::LessEqual))),
        Sign::Greater => Some((4, Operator::Compare(CompareOp::Greater))),
        Sign::GreaterEqual => Some((4, Operator::Compare(CompareOp::GreaterEqual))),
        Sign::And => Some((6, Operator::And)),
        Sign::Or => Some((7, Operator::Or)),
        _ => None,
    }
}

/// An operator of that level, and what follows it.
#[tactic(auto, unfolding(aql_parse_spec::specs::Parsing::operator_at))]
pub(crate) fn operator_at<'a>(
    source: &[u8],
    level: u64,
    words: &'a [Word],
) -> Option<(Operator, &'a [Word])>
    ensures { MatchOption result (grammar.operator_at level (lexemes source.now words.now) ≡ None)
        (λ x. grammar.operator_at level (lexemes source.now words.now) ≡ Some
        (joiner_of x.0, lexemes source.now x.1.now)) }
{
    match next(words) {
        Some((Word::Mark(sign), rest)) => match operator_of(sign) {
            Some((found, operator)) => {
                if found == level {
                    Some((operator, rest))
                } else {
                    None
                }
            }
            None => None,
        },
        _ => None,
    }
}

/// How many operators a level takes.
pub fn turns(level: u64, depth: u64) -> u64
    ensures { result ≡ grammar.turns level depth }
{
    if level == 4 { 1 } else { depth }
}

/// The level of an operator's second part: below its own, so that the operators of one level join to the left.
pub(crate) fn second_level(level: u64) -> u64
    requires { 0 < level }
    ensures { result ≡ level - 1 }
{
    level - 1
}

/// The level of what stands behind `not`: that of `not`, so that a comparison binds tighter.
pub(crate) fn negated_level() -> u64
    ensures { result ≡ 5 }
{
    5
}

/// An operator applied.
#[tactic(auto, using(crate::proofs::Steps::joined_is))]
pub fn binary(operator: Operator, left: Box<Expr>, right: Box<Expr>) -> Expr
    ensures { tree_of result ≡ joined_by (joiner_of operator) (tree_of left.value)
        (tree_of right.value) }
{
    apply_operator(operator, left, right)
}

fn operation_of(sign: Sign) -> Option<Operation>
    ensures { MatchOption result (head_operator (mark sign) ≡ None) (λ o. head_operator (mark sign)
        ≡ Some (operation_form o)) }
{
    match sign {
        Sign::Gen => Some(Operation::Gen),
        Sign::Get => Some(Operation::Get),
        Sign::Len => Some(Operation::Dim(1)),
        Sign::Dim1 => Some(Operation::Dim(1)),
        Sign::Dim2 => Some(Operation::Dim(2)),
        Sign::Dim3 => Some(Operation::Dim(3)),
        Sign::Dim4 => Some(Operation::Dim(4)),
        Sign::Dim5 => Some(Operation::Dim(5)),
        Sign::Dim6 => Some(Operation::Dim(6)),
        Sign::Dim7 => Some(Operation::Dim(7)),
        Sign::Dim8 => Some(Operation::Dim(8)),
        Sign::Index1 => Some(Operation::Index(1)),
        Sign::Index2 => Some(Operation::Index(2)),
        Sign::Index3 => Some(Operation::Index(3)),
        Sign::Index4 => Some(Operation::Index(4)),
        Sign::Index5 => Some(Operation::Index(5)),
        Sign::Index6 => Some(Operation::Index(6)),
        Sign::Index7 => Some(Operation::Index(7)),
        Sign::Index8 => Some(Operation::Index(8)),
        _ => None,
    }
}

/// What an application begins with.
#[derive(Clone, Copy)]
pub enum Head {
    Macro(Token),
    Operation(Operation),
    Function(Functional),
}

/// The beginning of an application, and what follows it.
#[tactic(auto, unfolding(aql_parse_spec::specs::Parsing::opening, aql_parse_spec::specs::Parsing::after))]
pub(crate) fn opening<'a>(source: &[u8], words: &'a [Word]) -> Option<(Head, &'a [Word])>
    ensures { MatchOption result (grammar.opening (lexemes source.now words.now) ≡ operand)
        (λ x. grammar.opening (lexemes source.now words.now) ≡ opening_of source.now x.0
        (lexemes source.now x.1.now)) }
{
    match next(words) {
        Some((Word::Name(token), rest)) => {
            let rest = skip_sign(source, rest, Sign::Bang)?;
            Some((Head::Macro(token), rest))
        }
        Some((Word::Mark(Sign::Open), rest)) => {
            let rest = skip_sign(source, rest, Sign::Fn)?;
            Some((Head::Function(Functional::Plain), rest))
        }
        Some((Word::Mark(Sign::Summap), rest)) => {
            let rest = skip_sign(source, rest, Sign::Open)?;
            let rest = skip_sign(source, rest, Sign::Fn)?;
            Some((Head::Function(Functional::Sum), rest))
        }
        Some((Word::Mark(sign), rest)) => {
            let operation = operation_of(sign)?;
            let rest = skip_sign(source, rest, Sign::Bang)?;
            Some((Head::Operation(operation), rest))
        }
        _ => None,
    }
}

/// What stands in parentheses: one expression, or a tuple of several.
#[tactic(auto, using(crate::proofs::Steps::enclosed_many))]
pub(crate) fn enclose(items: Vec<Expr>) -> Expr
    ensures { tree_of result ≡ grammar.grouping (trees_of items.items) }
{
    if items.len() != 1 {
        return row(items);
    }
    let mut items = items;
    match items.pop() {
        Some(item) => item,
        None => row(items),
    }
}

/// The one expression of a list.
#[tactic(auto, using(crate::proofs::Loops::one_steps))]
pub fn only(items: Vec<Expr>) -> Option<Expr>
    ensures { MatchOption result (one_of (trees_of items.items) ≡ None)
        (λ e. one_of (trees_of items.items) ≡ Some (tree_of e)) }
{
    if items.len() != 1 {
        return None;
    }
    let mut items = items;
    items.pop()
}

/// No more than 8 expressions.
#[tactic(auto, using(crate::proofs::Loops::few_steps))]
pub fn few(items: Vec<Expr>) -> Result<Vec<Expr>, Refusal>
    ensures { GivesReading (λ v. trees_of v.items) result (few_of (trees_of items.items)) }
{
    if items.len() > 8 {
        Err(Refusal::Syntax)
    } else {
        Ok(items)
    }
}

/// What a qualifier is before its expression.
#[derive(Drop)]
pub enum Front {
    Set(Pattern),
    Cells(Pattern, Pattern),
    Match(Pattern),
    Test,
}

/// A qualifier.
pub fn qualifier(front: Front, expr: Expr) -> Qual
    ensures { (rest : tree.Quals) → qual_of result rest ≡ add_qualifier (front_seen front)
        (tree_of expr) rest }
{
    match front {
        Front::Set(pattern) => Qual::From {
            pattern,
            over: expr,
        },
        Front::Cells(index, cell) => Qual::Cells {
            index,
            cell,
            over: expr,
        },
        Front::Match(pattern) => Qual::Match { pattern, of: expr },
        Front::Test => Qual::Test(expr),
    }
}
