//! The plans of scripts, and the rules that lead to them.

ghost use Rattle.nrca_term.specs.Typing.{IsTyped};
ghost use Rattle.nrca_term.specs.View.{term_of};

use crate::tests::assert_right;
use crate::tests::scripts::start;
use aql_prelude::COUNT;
use aql_print::{print_core, print_trace};
use aql_value::Memory;
use nrca_normal::{Plan, normalise};
use nrca_ranges::{GlobalShapes, Interval, Shape, is_small};
use nrca_term::Core;
use std::alloc::Global;

// What is known of the positions behind the prelude, a script, the plan of its last declaration, and the rules in order.
// Of a position it is a number, or `u` for no value, or `?` for any value.
const PLANS: &[&str] = &[
    "~len!([[10/i | \\i<3]]);~dim_1([[(10 / x0) | x0<3]])~none",
    "~len!([[i | \\i<1000000000000]]);~1000000000000~A3",
    "~[[(i,i) | \\i<10]][3];~(3, 3)~A1 L1 K1 I1",
    "~summap(fn \\x => [[j | \\j<1000000000000]][x])!(gen!3);~S{x0 | x0 in gen(3)}~L1 A1 L1 C4 I1",
    "~summap(fn \\x => x)!({y | \\y <- gen!3});~S{x0 | x0 in gen(3)}~L1 S6 L1",
    "~len!([[i*i | \\i<18446744073709551616]]);~18446744073709551616~A3",
    "~len!([[i*i | \\i<18446744073709551617]]);~dim_1([[(x0 * x0) | x0<18446744073709551617]])~none",
    "~[[10/i default 0 | \\i<3]];~[[((10 / x0) default 0) | x0<3]]~none",
    "~len!([[10/i | \\i<3]]) default 0;~(dim_1([[(10 / x0) | x0<3]]) default 0)~none",
    "~1 default 1/0;~1~N2",
    "~let val \\x = 1/0 in x default 3 end;~undefined~L2 K1 B1",
    "~1/0 default 2+3;~5~K1 N1 K1",
    "~(3,3);~(3, 3)~none",
    "~{1, 2};~({1} union {2})~none",
    "~1+2*3;~7~K1 K1",
    "~(1,2+3);~(1, 5)~K1",
    "~if true then 1+2 else 3;~3~I1 K1",
    "~if false then 1+2 else 3;~3~I1",
    "~(2+3) default (4+5);~5~N2 K1",
    "~{1/0, 2};~undefined~K1 B1 B1",
    "~let val \\x = 3 in 4 end;~4~L1 L1",
    "~let val _ = gen!5 in 4 end;~4~L3",
    "~let val _ = 3+4 in 5 end;~5~L3",
    "~let val _ = 1/0 in 4 end;~undefined~K1 B1",
    "7~val \\g = 7; let val \\x = g in x+x end;~(@1 + @1)~L1 L1",
    "u~val \\g = 1/0; let val \\x = g in x+x end;~(let x0 = @1 in (x0 + x0))~L2",
    "?~val \\g = 7; len!([[g | \\i<4]]);~4~A3",
    "u~val \\g = 1/0; len!([[g | \\i<4]]);~dim_1([[@1 | x0<4]])~none",
    "?~val \\g = 7; g default 2;~@1~N2",
    "u~val \\g = 1/0; g default 2;~(@1 default 2)~none",
    "~[[(fn \\x => x+x)!(i) | \\i<5]];~[[(x0 + x0) | x0<5]]~L1 L1",
    "~[[if i<2 then j else 7 | \\i<2, \\j<3]];~[[x1 | x0<2, x1<3]]~C1 I1",
    "~[[if j<3 then i else 7 | \\i<2, \\j<3]];~[[x0 | x0<2, x1<3]]~C1 I1",
    "~[[if j<2 then i else 7 | \\i<2, \\j<3]];~[[(if (x1 < 2) then x0 else 7) | x0<2, x1<3]]~none",
    "~[[if i<j then (if i<j then 1 else 2) else 3 | \\i<4, \\j<4]];~[[(if (x0 < x1) then 1 else 3) | x0<4, x1<4]]~C2 I1",
    "~[[if i<j then 1 else (if i<j then 2 else 3) | \\i<4, \\j<4]];~[[(if (x0 < x1) then 1 else 3) | x0<4, x1<4]]~C3 I1",
    "~[[if i<20 then 1 else 2 | \\i<10]];~[[1 | x0<10]]~C4 I1",
    "~[[if i<=9 then 1 else 2 | \\i<10]];~[[(if (x0 <= 9) then 1 else 2) | x0<10]]~none",
    "~let val \\a = [[i | \\i<5]] in len!a + a[2] end;~7~L2 A4 L2 A1 L1 K1 I1 K1",
    "~summap(fn \\x => 1)!({y%2 | \\y <- gen!10});~S{1 | x0 in U{{(x0 % 2)} | x0 in gen(10)}}~L1 L1",
    "~{x | \\x <- gen!10000, \\y <- gen!10000, x < 5};~U{U{(if (x0 < 5) then {x0} else {}) | x1 in gen(10000)} | x0 in gen(10000)}~L1 L1",
    "0~val \\g = 0; {1 | \\y <- gen!g, 1/g = 1};~U{(if ((1 / @1) = 1) then {1} else {}) | x0 in gen(@1)}~L1",
    "~[[2; 5, 6]][1];~6~A5",
    "~[[2; 5, 6]][2];~undefined~A5",
    "~len!([[2; 5, 6]]);~2~A6",
    "~len!([[2; 5, 1/0]]);~undefined~K1 B1 B1",
    "~[[2; 5]];~undefined~K1",
    "~{x | \\x <- {}};~{}~S1",
    "~{x+1 | \\x <- {4}};~{5}~S2 L1 L1 K1",
    "~get!({7});~7~S8",
    "~gen!0 union gen!4;~gen(4)~K1 S7",
    "u 2~val \\a = 1/0; val \\b = 2; b default a;~@2~N2",
    "?~val \\a = [[1; 5]]; [[a[i] | \\i<len!a]];~@1~A2",
    "~fst!(3,gen!2);~3~L2 L2 L3 L2 P1",
    "~fst!(3,1/0);~undefined~K1 B1 B1",
];

// The shape of an outcome.
fn shape_of_word(word: &str) -> Result<Option<Shape>, Memory> {
    match word {
        "u" => Ok(None),
        "?" => Ok(Some(Shape::Unknown)),
        _ => shape_of_number(word),
    }
}

fn shape_of_number(word: &str) -> Result<Option<Shape>, Memory> {
    match word.parse::<u64>() {
        Ok(n) => Ok(Some(Shape::Number(Interval {
            low: u128::from(n),
            high: u128::from(n),
        }))),
        Err(_) => Err(Memory),
    }
}

// One position more.
fn add(globals: &mut GlobalShapes, shape: Result<Option<Shape>, Memory>) -> Result<(), Memory> {
    match shape {
        Ok(shape) => globals.push(shape),
        Err(error) => Err(error),
    }
}

fn add_none(globals: &mut GlobalShapes, count: u64) -> Result<(), Memory> {
    for _ in 0..count {
        globals.push(None)?;
    }
    Ok(())
}

fn add_words(globals: &mut GlobalShapes, words: &str) -> Result<(), Memory> {
    if words.is_empty() {
        return Ok(());
    }
    for word in words.split(' ') {
        add(globals, shape_of_word(word))?;
    }
    Ok(())
}

// The shapes of the positions: those of the prelude are macros and have none.
fn shapes(alloc: Global, words: &str) -> Result<GlobalShapes, Memory> {
    let mut globals = GlobalShapes::new(alloc);
    add_none(&mut globals, COUNT)?;
    add_words(&mut globals, words)?;
    Ok(globals)
}

// The plan, where the term is small.
fn plan_of(alloc: Global, start: &Core, globals: &GlobalShapes) -> Result<Option<Plan>, Memory>
    requires { IsTyped (term_of start.now) }
{
    if is_small(start, 0) {
        let plan = normalise(alloc, start, globals)?;
        return Ok(Some(plan));
    }
    Ok(None)
}

fn plan_over(
    alloc: Global,
    start: &Core,
    globals: Result<GlobalShapes, Memory>,
) -> Result<Option<Plan>, Memory>
    requires { IsTyped (term_of start.now) }
{
    let globals = globals?;
    let plan = plan_of(alloc, start, &globals);
    drop(globals);
    plan
}

fn plan_of_script(alloc: Global, known: &str, script: &str) -> Result<Option<Plan>, Memory> {
    let term = start(alloc, script)?;
    let plan = plan_over(alloc, &term, shapes(alloc, known));
    drop(term);
    plan
}

fn prints_term(alloc: Global, term: &Core, text: &str) -> Result<bool, Memory> {
    let mut out = Vec::new(alloc);
    print_core(alloc, term, &mut out)?;
    Ok(out.as_slice() == text.as_bytes())
}

fn prints_rules(alloc: Global, plan: &Plan, text: &str) -> Result<bool, Memory> {
    let mut out = Vec::new(alloc);
    print_trace(alloc, &plan.trace, &mut out)?;
    Ok(out.as_slice() == text.as_bytes())
}

// Whether the plan prints as these texts.
fn prints(alloc: Global, plan: &Option<Plan>, term: &str, rules: &str) -> Result<bool, Memory> {
    match plan {
        Some(plan) => Ok(
            prints_term(alloc, &plan.term, term)? && prints_rules(alloc, plan, rules)?,
        ),
        None => Ok(false),
    }
}

fn has_plan(
    alloc: Global,
    known: &str,
    script: &str,
    term: &str,
    rules: &str,
) -> Result<bool, Memory> {
    let plan = plan_of_script(alloc, known, script)?;
    let found = prints(alloc, &plan, term, rules);
    drop(plan);
    found
}

fn is_planned_as(alloc: Global, known: &str, script: &str, plan: &str) -> Result<bool, Memory> {
    match plan.split_once('~') {
        Some((term, rules)) => has_plan(alloc, known, script, term, rules),
        None => Ok(false),
    }
}

// Whether the plan of the script is as the rest of a row says.
fn is_planned(alloc: Global, known: &str, rest: &str) -> Result<bool, Memory> {
    match rest.split_once('~') {
        Some((script, plan)) => is_planned_as(alloc, known, script, plan),
        None => Ok(false),
    }
}

fn is_right(alloc: Global, row: &str) -> Result<bool, Memory> {
    match row.split_once('~') {
        Some((known, rest)) => is_planned(alloc, known, rest),
        None => Ok(false),
    }
}

#[test]
fn plans_of_scripts(rt: HostRuntime) {
    for row in PLANS {
        assert_right(&rt, is_right(rt.alloc(), row), row);
    }
}
