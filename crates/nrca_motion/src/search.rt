//! The first place, in pre-order from the end of a path on, at which a move may be made.

ghost use Rattle.std.specs.Prelude.{◌≡◌, ◌≤◌, IfOk, OnOk, drop, length};
ghost use Rattle.nrca_term.specs.View.{term_of};
ghost use Rattle.nrca_ranges.specs.Shapes.{ranges_of};
ghost use Rattle.nrca_ranges.specs.Context.{context_of, IsSmallTerm};
ghost use Rattle.nrca_motion.specs.Found.{IsBehind, IsQuiet, IsAbove, GoesOnward, TellsSite, next};

use crate::fitting::{Fit, fit_at};
use aql_value::Memory;
use nrca_ranges::Ctx;
use nrca_term::Core;
use std::alloc::Global;

/// A place, by the way up from it, and the move that may be made there.
#[derive(Drop)]
pub struct Site {
    pub way: Vec<u64>,
    pub fit: Fit,
}

/// The first place from the end of the path on, its ancestors among them. No move is left before it: the search that
/// stopped there has been over those places.
#[cycle(find)]
pub fn find(
    alloc: Global,
    term: &Core,
    ctx: &mut Ctx,
    from: &[u64],
    at: usize,
) -> Result<Option<Site>, Memory>
    requires within { at ≤ length from.now }
    requires inside { IsSmallTerm ctx.old.depth (term_of term.now) }
    requires behind { IsBehind ctx.old (term_of term.now) (drop at from.now) }
    ensures back { OnOk result (context_of ctx.new ≡ context_of ctx.old) }
    ensures ranges { OnOk result (ranges_of ctx.new ≡ ranges_of ctx.old) }
    ensures globals { ctx.new.globals ≡ ctx.old.globals }
    ensures found { IfOk result (TellsSite ctx.old (term_of term.now)) }
{
    match fit_at(alloc, term, &*ctx)? {
        Some(fit) => {
            let way = Vec::new(alloc);
            Ok(Some(Site { way, fit }))
        }
        None => {
            let found = find_in_parts(alloc, term, ctx, from, at)?;
            Ok(found)
        }
    }
}

// The first place in the parts of a node at which no move is left.
#[cycle(find)]
fn find_in_parts(
    alloc: Global,
    term: &Core,
    ctx: &mut Ctx,
    from: &[u64],
    at: usize,
) -> Result<Option<Site>, Memory>
    requires within { at ≤ length from.now }
    requires inside { IsSmallTerm ctx.old.depth (term_of term.now) }
    requires behind { IsBehind ctx.old (term_of term.now) (drop at from.now) }
    requires here { IsQuiet ctx.old (term_of term.now) }
    ensures back { OnOk result (context_of ctx.new ≡ context_of ctx.old) }
    ensures ranges { OnOk result (ranges_of ctx.new ≡ ranges_of ctx.old) }
    ensures globals { ctx.new.globals ≡ ctx.old.globals }
    ensures found { IfOk result (TellsSite ctx.old (term_of term.now)) }
{
    let first = first_part(from, at);
    let count = term.parts();
    for i in first..count {
        if let Some(part) = term.part(i) {
            let onward = rest(from, at, i, first);
            let mark = ctx.push(alloc, term, i)?;
            let found = find(alloc, part, ctx, from, onward)?;
            ctx.take_back(mark);
            if let Some(site) = found {
                let above = push_part(site, i)?;
                return Ok(Some(above));
            }
        }
    }
    Ok(None)
}

// The same site, seen from the node above.
fn push_part(site: Site, i: u64) -> Result<Site, Memory>
    ensures { IfOk result (IsAbove site i) }
{
    let mut site = site;
    site.way.push(i)?;
    Ok(site)
}

// The first part that is searched.
fn first_part(from: &[u64], at: usize) -> u64
    requires { at ≤ length from.now }
    ensures { result ≡ next (drop at from.now) }
{
    if at < from.len() { from[at] } else { 0 }
}

// Where the path goes on in part i: behind its next number, or at its end.
fn rest(from: &[u64], at: usize, i: u64, first: u64) -> usize
    requires { at ≤ length from.now }
    ensures within { result ≤ length from.now }
    ensures which { GoesOnward from.now at i first result }
{
    if at < from.len() && i == first {
        at + 1
    } else {
        from.len()
    }
}
