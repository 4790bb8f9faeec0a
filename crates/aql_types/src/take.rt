//! All equations taken, and all links made short.

ghost use Rattle.std.specs.Prelude.{◌<◌, ◌+◌, length};
ghost use Rattle.aql_types.specs.Forms.{forms};
ghost use Rattle.aql_types.specs.Valuations.{IsOrdered, AreIn};
ghost use Rattle.aql_types.specs.Steps.{Taken, KeepsNodes, LinksDown, IsFlat, IsFlatBelow, bare};

use crate::fault::UnifyFault;
use crate::join::step;
use crate::node::{Equation, Node};
use crate::root::{link_of, shorten};

/// Takes all equations, the last first.
pub(crate) fn take_all(ns: &mut [Node], ps: &[u32], work: Vec<Equation>) -> Result<(), UnifyFault>
    requires ordered { IsOrdered (forms ps.now ns.old) }
    requires inside { AreIn (length ns.old) work.items }
    ensures { Taken result (forms ps.now ns.old) (forms ps.now ns.new) work.items }
{
    let mut work = work;
    while let Some(e) = work.pop() {
        match step(ns, ps, e, work) {
            Ok(rest) => work = rest,
            Err(fault) => return Err(fault),
        }
    }
    Ok(())
}

/// Makes each link lead to a root.
pub(crate) fn flatten(ns: &mut [Node])
    requires down { LinksDown (bare ns.old) }
    ensures keeps { KeepsNodes ns.old ns.new }
    ensures flat { IsFlat (bare ns.new) }
{
    for i in 0..ns.len() {
        flatten_one(ns, i);
    }
}

fn flatten_one(ns: &mut [Node], i: usize)
    requires i { i < length ns.old }
    requires down { LinksDown (bare ns.old) }
    requires flat { IsFlatBelow i (bare ns.old) }
    ensures keeps { KeepsNodes ns.old ns.new }
    ensures down { LinksDown (bare ns.new) }
    ensures flat { IsFlatBelow (i + 1) (bare ns.new) }
{
    match link_of(ns, i) {
        Some(up) => shorten(ns, i, up),
        None => {}
    }
}
