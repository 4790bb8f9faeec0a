//! Each rule: on a left side, and on a term that just is none.

ghost use Rattle.std.specs.Prelude.{true, IsTrue};
ghost use Rattle.nrca_term.specs.View.{term_of};
ghost use Rattle.nrca_rule_laws.specs.Fitting.{RuleFits, IsSmallPart};

use crate::tests::tables::entry_at;
use crate::tests::{assert_right, words};
use aql_value::Memory;
use aql_value::made::both;
use nrca_arrayrules::{a1, a2, a3, a4, a5, a6, a7};
use nrca_checks::{c1, c2, c3, c4};
use nrca_normal::fits;
use nrca_ranges::is_small;
use nrca_setrules::{
    b1, i1, i2, k1, l1, l2, l3, n1, n2, p1, p2, s1, s2, s3, s4, s5, s6, s7, s8, s9,
};
use nrca_subst::same;
use nrca_term::{Core, Rule};
use std::alloc::Global;

const NAMES: &[(&str, Rule)] = &[
    ("B1", Rule::B1),
    ("K1", Rule::K1),
    ("I1", Rule::I1),
    ("I2", Rule::I2),
    ("L1", Rule::L1),
    ("L2", Rule::L2),
    ("L3", Rule::L3),
    ("P1", Rule::P1),
    ("P2", Rule::P2),
    ("S1", Rule::S1),
    ("S2", Rule::S2),
    ("S3", Rule::S3),
    ("S4", Rule::S4),
    ("S5", Rule::S5),
    ("S6", Rule::S6),
    ("S7", Rule::S7),
    ("S8", Rule::S8),
    ("S9", Rule::S9),
    ("A1", Rule::A1),
    ("A2", Rule::A2),
    ("A3", Rule::A3),
    ("A4", Rule::A4),
    ("A5", Rule::A5),
    ("A6", Rule::A6),
    ("A7", Rule::A7),
    ("C1", Rule::C1),
    ("C2", Rule::C2),
    ("C3", Rule::C3),
    ("C4", Rule::C4),
    ("N1", Rule::N1),
    ("N2", Rule::N2),
];

// A rule, a left side with at most four variables around it, its right side, and a term that just is no left side.
const ROWS: &[&str] = &[
    "B1~1 bot +~bot~T 1 bot if",
    "B1~bot v0 let~bot~bot v0 or",
    "B1~bot v0 one U~bot~v0 bot U",
    "B1~v0 bot let~bot~v0 bot tab1",
    "K1~3 5 -~0~3 v0 -",
    "K1~max 1 +~bot~max v0 +",
    "K1~7 0 /~bot~v0 0 /",
    "K1~T F <~F~T v0 <",
    "K1~'ab 'b <~T~'ab 1 <",
    "K1~0 gen~{}~1 gen",
    "K1~{} get~bot~{} one get",
    "K1~2 5 lit1.1~bot~2 5 6 lit1.2",
    "K1~0 7 lit1.1~bot~0 lit1.0",
    "K1~0 2 5 lit2.1~bot~0 2 lit2.0",
    "I1~T v0 v1 if~v0~v2 v0 v1 if",
    "I1~F v0 v1 if~v1~v0 F v1 if",
    "I2~v1 v0 gen {} if v0 one U~v1 v0 gen v0 one U {} if~v1 {} v0 gen if v0 one U",
    "I2~v1 v0 gen {} if v0 S~v1 v0 gen v0 S 0 if~v0 gen v1 v0 0 if S",
    "L1~v0 v0 v1 + let~v0 v0 +~v0 one v0 let",
    "L1~v0 v0 gen v1 S let~v0 gen v1 S~bot v0 let",
    "L1~g1 v0 1 + let~g1 1 +~g1 gen v0 let",
    "L2~v0 1 + v0 5 * let~v0 1 + 5 *~v0 1 + v0 v0 * let",
    "L2~v0 1 + 2 v1 v0 + let let~2 v1 1 + v0 + let~v0 1 + v1 gen v1 S let",
    "L2~v0 1 + v0 1 2 if let~v0 1 + 1 2 if~v0 1 + v1 v0 2 if let",
    "L2~v0 1 + v0 gen let~v0 1 + gen~v0 1 + v0 2 or let",
    "L3~v0 10 / 7 let~7~v0 10 / v0 let",
    "L3~v0 gen v1 let~v0~v0 gen v1 v1 v1 + let let",
    "P1~v0 v1 tup2 p2/2~v1~v0 p2/2",
    "P1~1 2 3 tup3 p2/3~2~1 2 3 tup3 p2/2",
    "P2~v0 gen v0 v1 tup2 let p1/2~v0 gen v0 v1 tup2 p1/2 let~v0 v1 tup2 p1/2",
    "S1~{} v0 one U~{}~v0 {} U",
    "S2~v1 one v0 v1 tup2 one U~v1 v0 v1 tup2 one let~v1 one v1 one u v0 one U",
    "S3~v0 gen v0 gen U v0 v1 tup2 one U~v0 gen v0 gen v0 v2 tup2 one U U~v0 gen v0 gen U v0 S",
    "S4~{} v0 S~0~v0 gen 0 S",
    "S5~v1 one v0 v1 + S~v1 v0 v1 + let~v1 gen v0 S",
    "S6~v0 gen v0 one U~v0 gen~v0 gen v1 one U",
    "S7~v0 gen {} u~v0 gen~v0 one v1 one u",
    "S7~{} v0 gen u~v0 gen~{} one v1 one u",
    "S7~{} {} u~{}~{} gen",
    "S8~v0 one get~v0~v0 v1 u get",
    "S9~v1 v0 gen let v0 v1 tup2 one U~v1 v0 gen v0 v2 tup2 one U let~v0 gen v0 v0 one let U",
    "S9~v1 v0 gen let v0 v1 + S~v1 v0 gen v0 v2 + S let~v1 v0 gen v0 S let",
    "A1~v0 v0 v1 + tab1 v1 sub1~v1 v0 v1 < v0 v1 + bot if let~v0 v0 tab1 1 2 sub2",
    "A1~v0 v1 v0 v1 + tab2 v0 v0 sub2~v0 v1 v1 v2 < v0 v3 < v0 v1 + bot if bot if let let~v0 v1 1 tab2 v0 sub1",
    "A2~v0 dim1 v1 v0 sub1 tab1~v0~v0 dim1 v0 v0 sub1 tab1",
    "A2~v0 dim2 p1/2 v0 dim2 p2/2 v2 v1 v0 sub2 tab2~v0~v0 dim2 p1/2 v0 dim2 p2/2 v2 v0 v1 sub2 tab2",
    "A2~v1 v2 sub1 dim1 v2 v3 sub1 v0 sub1 tab1~v1 v2 sub1~v0 dim1 v2 v0 sub1 tab1",
    "A3~v0 1 tab1 dim1~v0~v0 dim1",
    "A3~v0 v1 1 tab2 dim2~v0 v1 tup2~v0 v1 1 tab2 dim1",
    "A4~v0 v0 tab1 v0 dim1 v0 3 sub1 + let~v0 v0 tab1 v1 v0 3 sub1 + let~v0 1 + v0 tab1 v0 dim1 let",
    "A4~v0 v0 tab1 v0 dim1 gen v1 dim1 S let~v0 v0 tab1 v1 gen v2 S let~v0 v0 tab1 v0 3 sub1 let",
    "A4~v0 7 v0 tab2 v0 dim2 let~v0 7 v0 tab2 v1 7 tup2 let~v0 v0 tab1 v1 dim1 let",
    "A5~2 v0 v1 lit1.2 1 sub1~v1~2 v0 v1 lit1.2 v0 sub1",
    "A5~2 v0 v1 lit1.2 2 sub1~bot~3 v0 v1 lit1.2 1 sub1",
    "A5~2 3 5 6 7 8 9 10 lit2.6 1 0 sub2~8~2 2 5 6 7 8 lit2.4 1 sub1",
    "A6~2 v0 v1 lit1.2 dim1~2~v0 v0 v1 lit1.2 dim1",
    "A6~1 2 v0 v1 lit2.2 dim2~1 2 tup2~3 v0 v1 lit1.2 dim1",
    "A7~v1 v0 let v1 sub1~v1 v0 v2 sub1 let~v0 v1 sub1",
    "A7~v1 v0 let dim1~v1 v0 dim1 let~v1 v0 dim1 let",
    "C1~v0 5 <~T~v0 5 +",
    "C2~v0 5 =~T~T",
    "C3~v0 5 <~F~v0 5 < v0 v1 if",
    "C4~v0 v1 <>~T~v0 5 -",
    "N1~bot v0 or~v0~v0 bot or",
    "N2~v0 v1 or~v0~v0 v1 tup2",
];

fn rule_of(name: &str) -> Option<Rule> {
    entry_at(NAMES, name)
}

// The right side; of a comparison that ranges decide, true.
fn right_side(alloc: Global, rule: Rule, term: Core) -> Result<Core, Memory>
    requires fits { RuleFits rule true (term_of term) }
    requires inside { IsSmallPart (term_of term) }
{
    match rule {
        Rule::B1 => Ok(b1(term)),
        Rule::K1 => Ok(k1(term)),
        Rule::I1 => Ok(i1(term)),
        Rule::I2 => Ok(i2(term)),
        Rule::L1 => l1(alloc, term),
        Rule::L2 => l2(alloc, term),
        Rule::L3 => l3(alloc, term),
        Rule::P1 => Ok(p1(term)),
        Rule::P2 => Ok(p2(term)),
        Rule::S1 => Ok(s1(term)),
        Rule::S2 => Ok(s2(term)),
        Rule::S3 => Ok(s3(term)),
        Rule::S4 => Ok(s4(term)),
        Rule::S5 => Ok(s5(term)),
        Rule::S6 => Ok(s6(term)),
        Rule::S7 => Ok(s7(term)),
        Rule::S8 => Ok(s8(term)),
        Rule::S9 => Ok(s9(term)),
        Rule::A1 => a1(alloc, term),
        Rule::A2 => Ok(a2(term)),
        Rule::A3 => Ok(a3(term)),
        Rule::A4 => a4(alloc, term),
        Rule::A5 => Ok(a5(term)),
        Rule::A6 => Ok(a6(term)),
        Rule::A7 => Ok(a7(term)),
        Rule::N1 => Ok(n1(term)),
        Rule::N2 => Ok(n2(term)),
        Rule::C1 => Ok(c1(term)),
        Rule::C2 => Ok(c2(term)),
        Rule::C3 => Ok(c3(term)),
        Rule::C4 => Ok(c4(term, true)),
    }
}

// Whether the term is small, with at most four variables around it.
fn small(term: &Core) -> bool
    ensures { IsTrue result → IsSmallPart (term_of term.now) }
{
    is_small(term, 4)
}

// The right side, where the term is a left side.
fn rewritten(
    alloc: Global,
    rule: Rule,
    term: Result<Core, Memory>,
) -> Result<Option<Core>, Memory> {
    let term = term?;
    if fits(rule, &term) && small(&term) {
        let right = right_side(alloc, rule, term)?;
        return Ok(Some(right));
    }
    drop(term);
    Ok(None)
}

fn is_same(made: &Option<Core>, wanted: &Core) -> bool {
    match made {
        Some(found) => same(found, wanted),
        None => false,
    }
}

// Whether the one term was made of the other by the rule.
fn is_made(
    made: Result<Option<Core>, Memory>,
    wanted: Result<Core, Memory>,
) -> Result<bool, Memory> {
    let (made, wanted) = both(made, wanted)?;
    let equal = is_same(&made, &wanted);
    drop(made);
    drop(wanted);
    Ok(equal)
}

// Whether the rule makes the one term of the other.
fn makes(alloc: Global, rule: Rule, left: &str, right: &str) -> Result<bool, Memory> {
    let made = rewritten(alloc, rule, words::term(alloc, left));
    is_made(made, words::term(alloc, right))
}

fn fits_words(alloc: Global, rule: Rule, words: &str) -> Result<bool, Memory> {
    let term = words::term(alloc, words)?;
    let found = fits(rule, &term);
    drop(term);
    Ok(found)
}

// Whether the rule makes the one term of the other, and the third is no left side.
fn keeps_to(
    alloc: Global,
    rule: Rule,
    left: &str,
    right: &str,
    other: &str,
) -> Result<bool, Memory> {
    let made = makes(alloc, rule, left, right)?;
    let refused = fits_words(alloc, rule, other)?;
    Ok(made && !refused)
}

fn does_behind(alloc: Global, rule: Rule, left: &str, rest: &str) -> Result<bool, Memory> {
    match rest.split_once('~') {
        Some((right, other)) => keeps_to(alloc, rule, left, right, other),
        None => Ok(false),
    }
}

// Whether the rule does as the rest of the row says.
fn does(alloc: Global, rule: Rule, rest: &str) -> Result<bool, Memory> {
    match rest.split_once('~') {
        Some((left, rest)) => does_behind(alloc, rule, left, rest),
        None => Ok(false),
    }
}

fn is_right(alloc: Global, row: &str) -> Result<bool, Memory> {
    match row.split_once('~') {
        Some((name, rest)) => match rule_of(name) {
            Some(rule) => does(alloc, rule, rest),
            None => Ok(false),
        },
        None => Ok(false),
    }
}

#[test]
fn left_and_right_sides(rt: HostRuntime) {
    for row in ROWS {
        assert_right(&rt, is_right(rt.alloc(), row), row);
    }
}

// Whether there is a row of the rule.
fn has_row(name: &str) -> bool {
    for row in ROWS {
        if row.starts_with(name) {
            return true;
        }
    }
    false
}

#[test]
fn each_rule_has_a_row(rt: HostRuntime) {
    for (name, _) in NAMES {
        assert_right(&rt, Ok(has_row(name)), name);
    }
}
