//! How large types are.

/// The levels and nodes of a type. One without levels stands for a type of which they are not known.
#[derive(Clone, Copy, Drop)]
pub struct Extent {
    pub levels: u16,
    pub nodes: u16,
}
