//! Which rule may be applied at a node, and its application.

ghost use Rattle.std.specs.Prelude.{◌≡◌, ◌≢◌, false, true, IfOk, OnOk};
ghost use Rattle.nrca_term.specs.View.{term_of};
ghost use Rattle.nrca_term.specs.Normal.{is_check};
ghost use Rattle.nrca_term.specs.Rules.{IsComparison};
ghost use Rattle.nrca_term.specs.declared.trace.Rule.TheVariants.{C4};
ghost use Rattle.nrca_rule_laws.specs.Fitting.{RuleFits, IsRight, IsSmallPart};
ghost use Rattle.nrca_ranges.specs.Shapes.{ranges_of};
ghost use Rattle.nrca_ranges.specs.Context.{context_of, IsSmallTerm};
ghost use Rattle.nrca_normal.specs.Conditions.{IsApplicable, IsMade, TellsRule, TellsChecks, TellsNode, IsUnknownAt, name_of};

use crate::conditions::{all_defined, part_defined};
use crate::order::rules_for;
use crate::ways::ways_of;
use aql_value::Memory;
use nrca_arrayrules::{
    a1, a2, a3, a4, a5, a6, a7, fits_a1, fits_a2, fits_a3, fits_a4, fits_a5, fits_a6, fits_a7,
};
use nrca_checks::{
    c1, c2, c3, c4, compares, decided, fits_c1, fits_c2, fits_c3, fits_c4, literally,
};
use nrca_ranges::{Ctx, Known};
use nrca_setrules::{
    b1, fits_b1, fits_i1, fits_i2, fits_k1, fits_l1, fits_l2, fits_l3, fits_n1, fits_n2, fits_p1,
    fits_p2, fits_s1, fits_s2, fits_s3, fits_s4, fits_s5, fits_s6, fits_s7, fits_s8, fits_s9, i1,
    i2, k1, l1, l2, l3, n1, n2, p1, p2, s1, s2, s3, s4, s5, s6, s7, s8, s9,
};
use nrca_term::{Core, Rule};
use std::alloc::Global;

/// What may be done at a node: a rule that fixes its right side, or the truth value that the ranges of the sides
/// give a comparison.
#[derive(Clone, Copy, Drop)]
pub enum Firing {
    Plain(Rule),
    Decided(bool),
}

impl Firing {
    /// The rule that it applies.
    pub fn rule(self) -> Rule
        ensures { result ≡ name_of self }
    {
        match self {
            Firing::Plain(rule) => rule,
            Firing::Decided(_) => Rule::C4,
        }
    }
}

/// The first rule, in the order of the table, that may be applied at the node, where there is one: it fits, what it knows
/// of the place is so, and all that it wants defined is sure to have a value.
#[inline(never)]
pub(crate) fn rule_at(alloc: Global, term: &Core, ctx: &mut Ctx) -> Result<Option<Firing>, Memory>
    requires inside { IsSmallTerm ctx.old.depth (term_of term.now) }
    ensures back { OnOk result (context_of ctx.new ≡ context_of ctx.old) }
    ensures ranges { OnOk result (ranges_of ctx.new ≡ ranges_of ctx.old) }
    ensures globals { ctx.new.globals ≡ ctx.old.globals }
    ensures told { IfOk result (TellsNode ctx.old (term_of term.now)) }
{
    for rule in rules_for(term) {
        let found = fires(alloc, *rule, term, ctx)?;
        if found {
            return Ok(Some(Firing::Plain(*rule)));
        }
    }
    let found = check_at(alloc, term, ctx)?;
    Ok(found)
}

// Whether the rule may be applied.
fn fires(alloc: Global, rule: Rule, term: &Core, ctx: &mut Ctx) -> Result<bool, Memory>
    requires inside { IsSmallTerm ctx.old.depth (term_of term.now) }
    requires plain { is_check rule ≡ false }
    ensures back { OnOk result (context_of ctx.new ≡ context_of ctx.old) }
    ensures ranges { OnOk result (ranges_of ctx.new ≡ ranges_of ctx.old) }
    ensures globals { ctx.new.globals ≡ ctx.old.globals }
    ensures told { IfOk result (TellsRule ctx.old rule (term_of term.now)) }
{
    if !fits(rule, term) {
        return Ok(false);
    }
    let ways = ways_of(rule, term);
    let found = all_defined(alloc, term, ways, ctx)?;
    Ok(found)
}

// Which check of a comparison may be applied, if any.
fn check_at(alloc: Global, term: &Core, ctx: &mut Ctx) -> Result<Option<Firing>, Memory>
    requires inside { IsSmallTerm ctx.old.depth (term_of term.now) }
    ensures back { OnOk result (context_of ctx.new ≡ context_of ctx.old) }
    ensures ranges { OnOk result (ranges_of ctx.new ≡ ranges_of ctx.old) }
    ensures globals { ctx.new.globals ≡ ctx.old.globals }
    ensures told { IfOk result (TellsChecks ctx.old (term_of term.now)) }
{
    if !compares(term) {
        return Ok(None);
    }
    match literally(&*ctx, term) {
        Some(Known::Domain) => Ok(Some(Firing::Plain(Rule::C1))),
        Some(Known::Test) => Ok(Some(Firing::Plain(Rule::C2))),
        Some(Known::Denied) => Ok(Some(Firing::Plain(Rule::C3))),
        None => {
            let found = decided_at(alloc, term, ctx)?;
            Ok(found)
        }
    }
}

// The truth value of a comparison, where ranges give one and both sides are sure to have a value.
fn decided_at(alloc: Global, term: &Core, ctx: &mut Ctx) -> Result<Option<Firing>, Memory>
    requires inside { IsSmallTerm ctx.old.depth (term_of term.now) }
    requires compares { IsComparison (term_of term.now) }
    requires unknown { IsUnknownAt ctx.old (term_of term.now) }
    ensures back { OnOk result (context_of ctx.new ≡ context_of ctx.old) }
    ensures ranges { OnOk result (ranges_of ctx.new ≡ ranges_of ctx.old) }
    ensures globals { ctx.new.globals ≡ ctx.old.globals }
    ensures told { IfOk result (TellsChecks ctx.old (term_of term.now)) }
{
    match decided(&*ctx, term) {
        Some(truth) => {
            let first = part_defined(alloc, term, 0, ctx)?;
            if !first {
                return Ok(None);
            }
            let second = part_defined(alloc, term, 1, ctx)?;
            if !second {
                return Ok(None);
            }
            Ok(Some(Firing::Decided(truth)))
        }
        None => Ok(None),
    }
}

/// Whether the term is a left side of the rule.
pub fn fits(rule: Rule, term: &Core) -> bool
    ensures { RuleFits rule result (term_of term.now) }
{
    match rule {
        Rule::B1 => fits_b1(term),
        Rule::K1 => fits_k1(term),
        Rule::I1 => fits_i1(term),
        Rule::I2 => fits_i2(term),
        Rule::L1 => fits_l1(term),
        Rule::L2 => fits_l2(term),
        Rule::L3 => fits_l3(term),
        Rule::P1 => fits_p1(term),
        Rule::P2 => fits_p2(term),
        Rule::S1 => fits_s1(term),
        Rule::S2 => fits_s2(term),
        Rule::S3 => fits_s3(term),
        Rule::S4 => fits_s4(term),
        Rule::S5 => fits_s5(term),
        Rule::S6 => fits_s6(term),
        Rule::S7 => fits_s7(term),
        Rule::S8 => fits_s8(term),
        Rule::S9 => fits_s9(term),
        Rule::A1 => fits_a1(term),
        Rule::A2 => fits_a2(term),
        Rule::A3 => fits_a3(term),
        Rule::A4 => fits_a4(term),
        Rule::A5 => fits_a5(term),
        Rule::A6 => fits_a6(term),
        Rule::A7 => fits_a7(term),
        Rule::C1 => fits_c1(term),
        Rule::C2 => fits_c2(term),
        Rule::C3 => fits_c3(term),
        Rule::C4 => fits_c4(term),
        Rule::N1 => fits_n1(term),
        Rule::N2 => fits_n2(term),
    }
}

/// The right side.
pub fn apply(alloc: Global, firing: Firing, term: Core) -> Result<Core, Memory>
    requires applicable { IsApplicable firing (term_of term) }
    requires inside { IsSmallPart (term_of term) }
    ensures { IfOk result (λ r. IsMade firing (term_of term) (term_of r)) }
{
    match firing {
        Firing::Plain(rule) => {
            let right = right_side(alloc, rule, term)?;
            Ok(right)
        }
        Firing::Decided(truth) => Ok(c4(term, truth)),
    }
}

// The right side of a rule that fixes it.
fn right_side(alloc: Global, rule: Rule, term: Core) -> Result<Core, Memory>
    requires fits { RuleFits rule true (term_of term) }
    requires fixed { rule ≢ C4 }
    requires inside { IsSmallPart (term_of term) }
    ensures { IfOk result (λ r. IsRight rule (term_of term) (term_of r)) }
{
    match rule {
        Rule::B1 => Ok(b1(term)),
        Rule::K1 => Ok(k1(term)),
        Rule::I1 => Ok(i1(term)),
        Rule::I2 => Ok(i2(term)),
        Rule::L1 => {
            let right = l1(alloc, term)?;
            Ok(right)
        }
        Rule::L2 => {
            let right = l2(alloc, term)?;
            Ok(right)
        }
        Rule::L3 => {
            let right = l3(alloc, term)?;
            Ok(right)
        }
        Rule::P1 => Ok(p1(term)),
        Rule::P2 => Ok(p2(term)),
        Rule::S1 => Ok(s1(term)),
        Rule::S2 => Ok(s2(term)),
        Rule::S3 => Ok(s3(term)),
        Rule::S4 => Ok(s4(term)),
        Rule::S5 => Ok(s5(term)),
        Rule::S6 => Ok(s6(term)),
        Rule::S7 => Ok(s7(term)),
        Rule::S8 => Ok(s8(term)),
        Rule::S9 => Ok(s9(term)),
        Rule::A1 => {
            let right = a1(alloc, term)?;
            Ok(right)
        }
        Rule::A2 => Ok(a2(term)),
        Rule::A3 => Ok(a3(term)),
        Rule::A4 => {
            let right = a4(alloc, term)?;
            Ok(right)
        }
        Rule::A5 => Ok(a5(term)),
        Rule::A6 => Ok(a6(term)),
        Rule::A7 => Ok(a7(term)),
        Rule::N1 => Ok(n1(term)),
        Rule::N2 => Ok(n2(term)),
        Rule::C1 => Ok(c1(term)),
        Rule::C2 => Ok(c2(term)),
        Rule::C3 => Ok(c3(term)),
        Rule::C4 => unreachable!(),
    }
}
