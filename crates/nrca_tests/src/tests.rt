mod arrays;
mod contexts;
mod evaluation;
mod gates;
mod graph;
mod knowing;
mod numbers;
mod outcomes;
mod pieces;
mod places;
mod plans;
mod rows;
mod rules;
mod same;
mod scripts;
mod serial;
mod shapes;
mod stacks;
mod substitution;
mod tables;
mod terms;
mod values;
mod words;

use crate::tests::same::assert_same;
use aql_value::Memory;
use std::process::Abort;

// Fails where the row is not right.
fn assert_right(rt: &impl Abort, right: Result<bool, Memory>, row: &str) {
    assert_same(rt, (row, right), (row, Ok(true)));
}
