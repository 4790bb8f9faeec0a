//! Boxes that are used again, so that a node made of another's parts takes no memory.

ghost use Rattle.std.specs.Prelude.{◌≡◌};

use crate::Core;
use std::mem;

/// The box, with another term in it, and the term that was there: the box is free for another node.
pub fn open(mut part: Box<Core>) -> (Box<Core>, Core)
    ensures { result.1 ≡ part.value }
{
    let inner = mem::replace(&mut *part, Core::Bottom);
    (part, inner)
}

/// The box with another term in it.
pub fn put(mut part: Box<Core>, with: Core) -> Box<Core>
    ensures { result.value ≡ with }
{
    *part = with;
    part
}
