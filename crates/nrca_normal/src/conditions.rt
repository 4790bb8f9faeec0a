//! Whether the terms that a rule wants defined are sure to have a value, each at its own place.

ghost use Rattle.std.specs.Prelude.{◌≡◌, ◌+◌, ◌<◌, ◌^◌, [], ◌∷◌, IfOk, OnOk};
ghost use Rattle.nrca_term.specs.View.{term_of};
ghost use Rattle.nrca_ranges.specs.Shapes.{ranges_of};
ghost use Rattle.nrca_ranges.specs.Context.{context_of, IsSmallTerm};
ghost use Rattle.nrca_normal.specs.Ways.{HasRoom, ways_in, other_ways};
ghost use Rattle.nrca_normal.specs.Conditions.{TellsWay, TellsWays};

use crate::ways::Ways;
use aql_value::Memory;
use nrca_defined::defined;
use nrca_ranges::Ctx;
use nrca_term::Core;
use std::alloc::Global;

/// Whether the terms at the ends of the ways are sure to have a value. A way that leaves the term ends nowhere.
pub(crate) fn all_defined(
    alloc: Global,
    term: &Core,
    ways: Ways,
    ctx: &mut Ctx,
) -> Result<bool, Memory>
    requires inside { IsSmallTerm ctx.old.depth (term_of term.now) }
    requires room { HasRoom ways }
    ensures back { OnOk result (context_of ctx.new ≡ context_of ctx.old) }
    ensures ranges { OnOk result (ranges_of ctx.new ≡ ranges_of ctx.old) }
    ensures globals { ctx.new.globals ≡ ctx.old.globals }
    ensures told { IfOk result (TellsWays ctx.old (term_of term.now) (ways_in ways)) }
{
    match ways {
        Ways::Free => Ok(true),
        Ways::First => {
            let found = part_defined(alloc, term, 0, ctx)?;
            Ok(found)
        }
        Ways::Inner(i) => {
            let found = inner_defined(alloc, term, i, ctx)?;
            Ok(found)
        }
        Ways::Others { from, but, count } => {
            let found = others_defined(alloc, term, from, but, count, ctx)?;
            Ok(found)
        }
    }
}

/// Whether part i, counted from 0, is sure to have a value at its place, where it is there.
pub(crate) fn part_defined(
    alloc: Global,
    term: &Core,
    i: u64,
    ctx: &mut Ctx,
) -> Result<bool, Memory>
    requires inside { IsSmallTerm ctx.old.depth (term_of term.now) }
    ensures back { OnOk result (context_of ctx.new ≡ context_of ctx.old) }
    ensures ranges { OnOk result (ranges_of ctx.new ≡ ranges_of ctx.old) }
    ensures globals { ctx.new.globals ≡ ctx.old.globals }
    ensures told { IfOk result (TellsWay ctx.old (term_of term.now) (i ∷ [])) }
{
    match term.part(i) {
        Some(part) => {
            let mark = ctx.push(alloc, term, i)?;
            let found = defined(alloc, part, &*ctx)?;
            ctx.take_back(mark);
            Ok(found)
        }
        None => Ok(true),
    }
}

// Whether part i of the first part is, where it is there.
fn inner_defined(alloc: Global, term: &Core, i: u64, ctx: &mut Ctx) -> Result<bool, Memory>
    requires inside { IsSmallTerm ctx.old.depth (term_of term.now) }
    ensures back { OnOk result (context_of ctx.new ≡ context_of ctx.old) }
    ensures ranges { OnOk result (ranges_of ctx.new ≡ ranges_of ctx.old) }
    ensures globals { ctx.new.globals ≡ ctx.old.globals }
    ensures told { IfOk result (TellsWay ctx.old (term_of term.now) (0 ∷ i ∷ [])) }
{
    match term.part(0) {
        Some(first) => {
            let mark = ctx.push(alloc, term, 0)?;
            let found = part_defined(alloc, first, i, ctx)?;
            ctx.take_back(mark);
            Ok(found)
        }
        None => Ok(true),
    }
}

// Whether these parts of the first part are, all but one.
fn others_defined(
    alloc: Global,
    term: &Core,
    from: u64,
    but: u64,
    count: u64,
    ctx: &mut Ctx,
) -> Result<bool, Memory>
    requires inside { IsSmallTerm ctx.old.depth (term_of term.now) }
    requires room { from + count < 2 ^ 64 }
    ensures back { OnOk result (context_of ctx.new ≡ context_of ctx.old) }
    ensures ranges { OnOk result (ranges_of ctx.new ≡ ranges_of ctx.old) }
    ensures globals { ctx.new.globals ≡ ctx.old.globals }
    ensures told { IfOk result (TellsWays ctx.old (term_of term.now) (other_ways from but count)) }
{
    for i in 0..count {
        if i != but {
            let found = inner_defined(alloc, term, from + i, ctx)?;
            if !found {
                return Ok(false);
            }
        }
    }
    Ok(true)
}
