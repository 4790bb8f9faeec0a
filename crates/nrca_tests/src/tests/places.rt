//! Contexts that go down the steps to a place of a term.

use aql_value::Memory;
use nrca_ranges::{Ctx, is_small};
use nrca_term::Core;
use std::alloc::Global;

// Enters the part, where there is one.
fn enter<'a>(
    alloc: Global,
    ctx: &mut Ctx,
    term: &'a Core,
    part: u64,
) -> Result<Option<&'a Core>, Memory> {
    if part < term.parts() && is_small(term, ctx.depth()) {
        let _mark = ctx.push(alloc, term, part)?;
        return Ok(term.part(part));
    }
    Ok(None)
}

fn go_step<'a>(
    alloc: Global,
    ctx: &mut Ctx,
    term: &'a Core,
    step: &str,
) -> Result<Option<&'a Core>, Memory> {
    match step.parse::<u64>() {
        Ok(part) => enter(alloc, ctx, term, part),
        Err(_) => Err(Memory),
    }
}

/// The part at the end of the steps; none where they leave the term.
pub fn go<'a>(
    alloc: Global,
    ctx: &mut Ctx,
    term: &'a Core,
    steps: &str,
) -> Result<Option<&'a Core>, Memory> {
    let mut at = term;
    for step in steps.split(' ') {
        match go_step(alloc, ctx, at, step)? {
            Some(inner) => at = inner,
            None => return Ok(None),
        }
    }
    Ok(Some(at))
}
